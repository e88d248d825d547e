// The header of a model.
ghost use Rattle.nm_ident.specs.Rising.{is_rising_by};
ghost use Rattle.nm_model.specs.Header.{dependencies_of};
ghost use Rattle.nm_model.specs.Sound as spec;
ghost use Rattle.nm_model.specs.Sound.{are_sound_properties, is_sound_header};
ghost use Rattle.nm_statement.specs.Literal.{is_literal};
ghost use Rattle.std.specs.List.{list_all};
ghost use Rattle.std.specs.Prelude.{◌≡◌, IfOk};

use crate::limits::{MOST_DEPENDENCIES, MOST_PROFILES, MOST_SUPERSEDED};
use nm_ident::{Ids, NoMemory, Text, Texts};
use nm_statement::Literal;
use std::alloc::Global;

/// What a header says of its model (IEC 61970-552, the elements `md:FullModel` and
/// `dm:DifferenceModel`).
#[derive(Debug, Drop)]
pub struct Header {
    /// The model's identifier, the number of a UUID.
    pub id: u128,
    /// When the model was made (`md:Model.created`).
    pub created: Option<Literal>,
    /// The time that the model describes (`md:Model.scenarioTime`).
    pub scenario_time: Option<Literal>,
    /// The version (`md:Model.version`).
    pub version: Option<Literal>,
    /// What the model is for (`md:Model.description`).
    pub description: Option<Literal>,
    /// Who answers for the model (`md:Model.modelingAuthoritySet`).
    pub authority: Option<Literal>,
    /// The profiles that the model follows (`md:Model.profile`), strictly rising by their bytes.
    pub profiles: Texts,
    /// The models that this one needs (`md:Model.DependentOn`), strictly rising.
    pub depends: Ids,
    /// The models whose place this one takes (`md:Model.Supersedes`), strictly rising.
    pub supersedes: Ids,
}

impl Header {
    /// The models that `depends` or `supersedes` names, strictly rising.
    pub fn dependencies(&self, alloc: Global) -> Result<Ids, NoMemory>
        ensures { IfOk result (λ ids. ids ≡ dependencies_of self.now) }
    {
        let mut ids = self.depends.as_slice().to_vec(alloc)?;
        ids.extend_from_slice(self.supersedes.as_slice())?;
        ids.sort_unstable();
        ids.dedup();
        Ok(Ids::of_list(ids))
    }

    /// Whether a document can state the header: its texts are literals, its lists strictly rise,
    /// and it states at most 64 profiles, 64 dependencies and 4,160 superseded models.
    pub fn is_sound(&self) -> bool
        ensures { result ≡ is_sound_header self.now }
    {
        let _id = self.id;
        self.has_sound_properties()
            && are_sound_profiles(self.profiles.as_slice())
            && are_sound_ids(MOST_DEPENDENCIES, self.depends.as_slice())
            && are_sound_ids(MOST_SUPERSEDED, self.supersedes.as_slice())
    }

    fn has_sound_properties(&self) -> bool
        ensures { result ≡ are_sound_properties self.now }
    {
        is_sound_property(&self.created)
            && is_sound_property(&self.scenario_time)
            && is_sound_property(&self.version)
            && is_sound_property(&self.description)
            && is_sound_property(&self.authority)
    }
}

/// Each literal is one that a document can state.
fn is_sound_property(property: &Option<Literal>) -> bool
    ensures { result ≡ spec.is_sound_property property.now }
{
    match property {
        Some(literal) => {
            let _text = literal.as_slice();
            true
        }
        None => true,
    }
}

fn are_sound_profiles(profiles: &[Text]) -> bool
    ensures { result ≡ spec.are_sound_profiles profiles.now }
{
    are_literals(profiles) && rise(profiles) && profiles.len() <= MOST_PROFILES
}

fn are_literals(texts: &[Text]) -> bool
    ensures { result ≡ list_all is_literal texts.now }
{
    texts.iter().all(|text| Literal::accepts(text.as_slice()))
}

fn are_sound_ids(most: usize, ids: &[u128]) -> bool
    ensures { result ≡ spec.are_sound_ids most ids.now }
{
    rise(ids) && ids.len() <= most
}

/// Whether each item is below the next.
fn rise<T: Ord>(items: &[T]) -> bool
    ensures { result ≡ is_rising_by T.cmp items.now }
{
    let mut rest = items;
    while let [item, others @ ..] = rest {
        if let Some(next) = others.first() {
            if item.cmp(next).is_ge() {
                return false;
            }
        }
        rest = others;
    }
    true
}
