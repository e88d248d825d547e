// What has been told of a model so far, and the model that it makes.
ghost use Rattle.nm_reader.specs.Draft.{drafted as drafted_of};
ghost use Rattle.std.specs.Prelude.{◌≡◌, IfOk, OnOk};

use crate::fact::{Fact, LinkProperty, Part, TextProperty};
use nm_ident::{NoMemory, Text};
use nm_statement::{Literal, Statement};
use std::alloc::Global;
use std::marker::Model;

/// What has been told of a model so far.
#[derive(Drop)]
pub struct Draft {
    pub created: Option<Literal>,
    pub scenario_time: Option<Literal>,
    pub version: Option<Literal>,
    pub description: Option<Literal>,
    pub authority: Option<Literal>,
    pub profiles: Vec<Text>,
    pub depends: Vec<u128>,
    pub supersedes: Vec<u128>,
    pub whole: Vec<Statement>,
    pub preconditions: Vec<Statement>,
    pub forward: Vec<Statement>,
    pub reverse: Vec<Statement>,
}

impl Model for Draft {
    ghost use Rattle.nm_reader.specs.Draft.{Drafted};

    ghost Value = { Drafted };

    ghost view = { λ d. record { created = d.created; scenario_time = d.scenario_time; version = d.version; description = d.description; authority = d.authority; profiles = d.profiles.items; depends = d.depends.items; supersedes = d.supersedes.items; whole = d.whole.items; preconditions = d.preconditions.items; forward = d.forward.items; reverse = d.reverse.items } };
}

impl Draft {
    ghost use Rattle.nm_reader.specs.Draft.{drafted, with_fact};
    ghost use Rattle.std.specs.Prelude.{[]};

    /// Nothing has been told.
    pub fn new(alloc: Global) -> Draft
        ensures { result ≡ drafted [] }
    {
        Draft {
            created: None,
            scenario_time: None,
            version: None,
            description: None,
            authority: None,
            profiles: Vec::new(alloc),
            depends: Vec::new(alloc),
            supersedes: Vec::new(alloc),
            whole: Vec::new(alloc),
            preconditions: Vec::new(alloc),
            forward: Vec::new(alloc),
            reverse: Vec::new(alloc),
        }
    }

    fn note_text(
        &mut self,
        alloc: Global,
        property: TextProperty,
        text: Literal,
    ) -> Result<(), NoMemory>
        ensures { OnOk result (self.new ≡ with_fact self.old (Fact.Tells property text)) }
    {
        match property {
            TextProperty::Created => self.created = Some(text),
            TextProperty::ScenarioTime => self.scenario_time = Some(text),
            TextProperty::Version => self.version = Some(text),
            TextProperty::Description => self.description = Some(text),
            TextProperty::Authority => self.authority = Some(text),
            TextProperty::Profile => {
                let profile = Text::of_slice(alloc, text.as_slice())?;
                self.profiles.push(profile)?;
            }
        }
        Ok(())
    }

    fn note_link(&mut self, property: LinkProperty, id: u128) -> Result<(), NoMemory>
        ensures { OnOk result (self.new ≡ with_fact self.old (Fact.Links property id)) }
    {
        match property {
            LinkProperty::DependentOn => self.depends.push(id)?,
            LinkProperty::Supersedes => self.supersedes.push(id)?,
        }
        Ok(())
    }

    fn note_statement(&mut self, part: Part, statement: Statement) -> Result<(), NoMemory>
        ensures { OnOk result (self.new ≡ with_fact self.old (Fact.States part statement)) }
    {
        match part {
            Part::Whole => self.whole.push(statement)?,
            Part::Preconditions => self.preconditions.push(statement)?,
            Part::Forward => self.forward.push(statement)?,
            Part::Reverse => self.reverse.push(statement)?,
        }
        Ok(())
    }

    /// Notes one fact more.
    pub fn note(&mut self, alloc: Global, fact: Fact) -> Result<(), NoMemory>
        ensures { OnOk result (self.new ≡ with_fact self.old fact) }
    {
        match fact {
            Fact::Heads { .. } => Ok(()),
            Fact::Tells { property, text } => self.note_text(alloc, property, text),
            Fact::Links { property, id } => self.note_link(property, id),
            Fact::States { part, statement } => self.note_statement(part, statement),
        }
    }
}

#[tactic(auto, using(crate::proofs::Drafts::one_more))]
/// What the facts come to.
pub fn draft_of(alloc: Global, facts: Vec<Fact>) -> Result<Draft, NoMemory>
    ensures { IfOk result (λ draft. draft ≡ drafted_of facts.items) }
{
    let mut draft = Draft::new(alloc);
    for fact in facts {
        draft.note(alloc, fact)?;
    }
    Ok(draft)
}
