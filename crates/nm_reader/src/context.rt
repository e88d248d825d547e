// What the pieces before a place leave there, and what the next piece does.
ghost use Rattle.nm_ident.specs.Name.{is_name};
ghost use Rattle.nm_ident.specs.QualifiedName.{QualifiedName};
ghost use Rattle.nm_piece.specs.Raw.{name_of};
ghost use Rattle.nm_piece.specs.Token.{piece_of};
ghost use Rattle.nm_piece.specs.declared.piece.Piece.TheVariants as piece;
ghost use Rattle.nm_reader.specs.Document as document;
ghost use Rattle.nm_reader.specs.Limits as limits;
ghost use Rattle.nm_reader.specs.Meaning.{listed};
ghost use Rattle.nm_reader.specs.Model.{document_of};
ghost use Rattle.nm_reader.specs.Namespaces.{same_name};
ghost use Rattle.nm_reader.specs.Place as places;
ghost use Rattle.nm_reader.specs.Rules as rules;
ghost use Rattle.nm_reader.specs.Taken as spec;
ghost use Rattle.nm_text.specs.Characters.{is_text};
ghost use Rattle.std.specs.Option.{option_map};
ghost use Rattle.std.specs.Prelude.{◌≡◌, ◌&&◌, ◌++◌, IfOk, MatchResult, OnOk, not, true};

use crate::assembly;
use crate::counts::Counts;
use crate::fact::Fact;
use crate::fault::Code;
use crate::judging::{Judged, judge, place_behind};
use crate::meaning::Meaning;
use crate::names::Names;
use crate::namespaces::{declared_by, same_spelling};
use crate::opened::{Declarations, Opened};
use crate::place::Place;
use crate::refusal::Refusal;
use crate::tag::{TagAttribute, attributes_of};
use crate::texts::{is_after_root, may_end, told_at_end, with_text};
use nm_ident::NoMemory;
use nm_model::Document;
use nm_piece::{RawName, RawText, Token};
use std::alloc::Global;
use std::marker::Model;
use std::mem;

/// What the pieces so far leave behind them.
#[derive(Drop)]
pub struct Reader<'a> {
    elements: Vec<Opened<'a>>,
    place: Place,
    told: Vec<Fact>,
    counted: Counts,
    begun: bool,
    // Names that were made on the way, which say nothing of the document.
    names: Names,
}

impl<'a> Model for Reader<'a> {
    ghost use Rattle.std.specs.Prelude.{IsTrue};
    ghost use Rattle.nm_reader.specs.Context.{Context};
    ghost use Rattle.nm_reader.specs.Limits.{is_within_limits};
    ghost use Rattle.nm_reader.specs.Taken.{are_sound_behind, is_sound_place};

    ghost Value = { Context };

    ghost view = { λ r. record { elements = r.elements.items; place = r.place; told = r.told.items; counted = r.counted; begun = r.begun } };

    ghost invariant = { λ r. IsTrue (is_within_limits r.counted) × IsTrue (is_sound_place r.place) × IsTrue (are_sound_behind r.elements.items) };
}

impl<'a> Reader<'a> {
    ghost use Rattle.nm_reader.specs.Context.{beginning, is_whole, left};

    /// Before the first piece.
    pub fn new(alloc: Global) -> Reader<'a>
        ensures { result ≡ beginning }
    {
        Reader {
            elements: Vec::new(alloc),
            place: Place::BeforeRoot,
            told: Vec::new(alloc),
            counted: Counts {
                statements: 0,
                changes: 0,
                profiles: 0,
                dependencies: 0,
                superseded: 0,
            },
            begun: false,
            names: Names::new(alloc),
        }
    }

    #[tactic(auto, unfolding(crate::specs::Rules::code_at))]
    /// Takes a comment or an instruction.
    pub fn take_skip(&mut self)
        ensures { spec.IsBehind self.old piece.Skip self.new }
    {
        self.begun = true;
    }

    #[tactic(auto, unfolding(crate::specs::Rules::code_at))]
    /// Takes an XML declaration.
    pub fn take_start(&mut self, encoding: Option<&[u8]>) -> Result<(), Refusal>
        ensures { MatchResult result (λ _. spec.IsBehind self.old (piece.Start (option_map (λ e. e.now) encoding.entry)) self.new) (λ refusal. spec.IsRefusal refusal self.old (piece.Start (option_map (λ e. e.now) encoding.entry))) }
    {
        if self.begun {
            return Err(Refusal::Rule(Code::Stray));
        }
        if !is_read_encoding(encoding) {
            return Err(Refusal::Rule(Code::Encoding));
        }
        self.begun = true;
        Ok(())
    }

    #[tactic(auto, using(crate::proofs::Joined::sound_with_text), unfolding(crate::specs::Rules::code_at))]
    /// Takes a text.
    pub fn take_text(&mut self, alloc: Global, text: &RawText<'_>) -> Result<(), Refusal>
        requires { is_text text.now ≡ true }
        ensures { MatchResult result (λ _. spec.IsBehind self.old (piece.Text text.now) self.new) (λ refusal. spec.IsRefusal refusal self.old (piece.Text text.now)) }
    {
        let place = mem::replace(&mut self.place, Place::InSkipped);
        self.place = with_text(alloc, place, text)?;
        self.begun = true;
        Ok(())
    }

    /// Leaves the innermost element, which is open.
    fn leave(&mut self) -> Result<(), NoMemory>
        ensures { OnOk result (self.new ≡ left self.old) }
    {
        self.begun = true;
        if self.elements.is_empty() {
            return Ok(());
        }
        let opened = self.elements.remove(0);
        let place = mem::replace(&mut self.place, opened.into_behind());
        self.tell(told_at_end(place))
    }

    /// Whether the innermost element has a name that is spelt so.
    fn closes(&self, name: &RawName<'_>) -> bool
        ensures { result ≡ rules.closes (name_of name.now) self.now.elements }
    {
        match self.elements.first() {
            Some(opened) => same_spelling(&opened.name, name),
            None => false,
        }
    }

    #[tactic(auto, unfolding(crate::specs::Rules::code_at))]
    /// Takes a closing tag.
    pub fn take_close(&mut self, name: &RawName<'_>) -> Result<(), Refusal>
        ensures { MatchResult result (λ _. spec.IsBehind self.old (piece.Close (name_of name.now)) self.new) (λ refusal. spec.IsRefusal refusal self.old (piece.Close (name_of name.now))) }
    {
        if !self.closes(name) {
            return Err(Refusal::Rule(Code::Nesting));
        }
        if !may_end(&self.place) {
            return Err(Refusal::Rule(Code::Header));
        }
        self.leave()?;
        Ok(())
    }

    /// Notes what a tag tells.
    fn tell(&mut self, tells: Option<Fact>) -> Result<(), NoMemory>
        ensures { OnOk result (self.new ≡ record self.old { told = self.old.told ++ listed tells }) }
    {
        if let Some(fact) = tells {
            self.told.push(fact)?;
        }
        Ok(())
    }

    #[tactic(auto, using(crate::proofs::Entered::behind_sound))]
    /// Goes into an element.
    fn enter(
        &mut self,
        name: RawName<'a>,
        own: Declarations<'a>,
        judged: Judged,
    ) -> Result<(), NoMemory>
        requires counted { limits.is_within_limits judged.counted ≡ true }
        requires inside { spec.is_sound_place judged.meaning.inside ≡ true }
        ensures { OnOk result (self.new ≡ spec.entered_by self.old (name_of name.entry) own.entry judged) }
    {
        let Judged {
            role,
            meaning,
            counted,
        } = judged;
        let Meaning {
            inside,
            tells,
            counts: _,
        } = meaning;
        self.tell(tells)?;
        let outside = mem::replace(&mut self.place, inside);
        let opened = Opened {
            name,
            behind: place_behind(role, outside),
            declared: own,
        };
        self.elements.insert(0, opened)?;
        self.counted = counted;
        self.begun = true;
        Ok(())
    }

    #[tactic(auto, using(crate::proofs::Entered::tag_code_is, crate::proofs::Entered::entered_is, crate::proofs::Entered::judged_sound))]
    /// Takes an opening tag, or the tag of an empty element.
    pub fn take_open(
        &mut self,
        alloc: Global,
        name: RawName<'a>,
        attributes: &[TagAttribute<'a>],
        empty: bool,
    ) -> Result<(), Refusal>
        requires { is_name (name_of name).local ≡ true }
        ensures { MatchResult result (λ _. spec.IsBehind self.old (piece.Open (name_of name.entry) attributes.now empty) self.new) (λ refusal. spec.IsRefusal refusal self.old (piece.Open (name_of name.entry) attributes.now empty)) }
    {
        let own = Declarations::of_list(alloc, declared_by(alloc, attributes)?)?;
        let judged = judge(
            alloc,
            &mut self.names,
            &self.place,
            &self.elements,
            &own,
            &name,
            attributes,
            empty,
            self.counted,
        )?;
        self.enter(name, own, judged)?;
        if empty {
            self.leave()?;
        }
        Ok(())
    }

    #[tactic(auto, unfolding(crate::specs::Rules::code_at))]
    /// Takes the next piece, where it stands in the input. After a refusal the context is not used
    /// again.
    pub fn take_token(&mut self, alloc: Global, token: Token<'a>) -> Result<(), Refusal>
        requires { spec.is_sound_piece (piece_of token) ≡ true }
        ensures { MatchResult result (λ _. spec.IsBehind self.old (piece_of token.entry) self.new) (λ refusal. spec.IsRefusal refusal self.old (piece_of token.entry)) }
    {
        match token {
            Token::Start { encoding } => self.take_start(encoding),
            Token::Doctype => Err(Refusal::Rule(Code::Doctype)),
            Token::Open {
                name,
                attributes,
                empty,
            } => {
                let attributes = attributes_of(alloc, attributes)?;
                self.take_open(alloc, name, &attributes, empty)
            }
            Token::Close { name } => self.take_close(&name),
            Token::Text(text) => self.take_text(alloc, &text),
            Token::Skip => {
                self.take_skip();
                Ok(())
            }
        }
    }

    /// The model that has been told, where a header came first.
    pub fn into_document(self, alloc: Global) -> Result<Option<Document>, NoMemory>
        ensures { IfOk result (λ model. model ≡ document_of self.entry.told) }
    {
        assembly::document_of(alloc, self.told)
    }

    /// Whether the document may end here: its root is behind, and no element is open.
    pub fn is_whole(&self) -> bool
        ensures { result ≡ is_whole self.now }
    {
        is_after_root(&self.place) && self.elements.is_empty()
    }
}

/// Whether the encoding is UTF-8 in any letter case, or none is named.
fn is_read_encoding(encoding: Option<&[u8]>) -> bool
    ensures { result ≡ document.is_read_encoding (option_map (λ e. e.now) encoding.entry) }
{
    match encoding {
        Some(encoding) => encoding.eq_ignore_ascii_case(b"UTF-8"),
        None => true,
    }
}
