// Full models, difference models, and the documents that hold either.

ghost use Rattle.nm_model.specs.Limits.{most_changes};
ghost use Rattle.nm_model.specs.Sound as spec;
ghost use Rattle.nm_model.specs.Sound.{is_sound_document, is_within_limits};
ghost use Rattle.std.specs.Prelude.{◌≡◌, nat_le};

use crate::header::Header;
use crate::limits::{MOST_CHANGES, MOST_STATEMENTS};
use nm_statement::{Change, Set};

/// A full model: everything that a network is said to be.
#[derive(Debug, Drop)]
pub struct Full {
    /// What the model says of itself.
    pub header: Header,
    /// What it states.
    pub statements: Set,
}

/// A difference model: what changes one model into another.
#[derive(Debug, Drop)]
pub struct Difference {
    /// What the model says of itself.
    pub header: Header,
    /// What it changes.
    pub change: Change,
}

/// A model of either kind.
#[derive(Debug, Drop)]
pub enum Document {
    /// A full model (`md:FullModel`).
    Full(Full),
    /// A difference model (`dm:DifferenceModel`).
    Difference(Difference),
}

impl Document {
    /// Whether a document can state the model: its header and each of its statements are sound.
    pub fn is_sound(&self) -> bool
        ensures { result ≡ is_sound_document self.now }
    {
        match self {
            Document::Full(full) => is_sound_full(full),
            Document::Difference(difference) => is_sound_difference(difference),
        }
    }

    /// Whether the model states at most 1,048,576 statements, or 65,536 in a difference model's
    /// sections together.
    pub fn is_within_limits(&self) -> bool
        ensures { result ≡ is_within_limits self.now }
    {
        match self {
            Document::Full(full) => full.statements.len() <= MOST_STATEMENTS,
            Document::Difference(difference) => states_few(&difference.change),
        }
    }
}

fn is_sound_full(full: &Full) -> bool
    ensures { result ≡ spec.is_sound_full full.now }
{
    full.header.is_sound() && full.statements.is_sound()
}

fn is_sound_difference(difference: &Difference) -> bool
    ensures { result ≡ spec.is_sound_difference difference.now }
{
    difference.header.is_sound() && is_sound_change(&difference.change)
}

fn is_sound_change(change: &Change) -> bool
    ensures { result ≡ spec.is_sound_change change.now }
{
    change.pre.is_sound() && change.rev.is_sound() && change.fwd.is_sound()
}

fn states_few(change: &Change) -> bool
    ensures { result ≡ nat_le (spec.stated_by change.now) most_changes }
{
    let pre = change.pre.len();
    let rev = change.rev.len();
    let fwd = change.fwd.len();
    pre <= MOST_CHANGES && rev <= MOST_CHANGES - pre && fwd <= MOST_CHANGES - pre - rev
}
