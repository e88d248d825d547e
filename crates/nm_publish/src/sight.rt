// What a seat at the store has seen of the history, and the rule that the store keeps.
use crate::history::Front;
use crate::shown::Shown;
use atomic_table::{Join, Split};
use crossbeam_utils::rule::{Outcome, Protocol};

/// What a seat has seen, and how often it has entered. No value of it is made: it stands in proofs
/// alone.
pub(crate) struct Sight {
    pub(crate) front: Front,
    pub(crate) enterings: u64,
}

/// The rule: what the store shows goes on from what each seat has seen.
pub(crate) struct Grows;

impl Protocol<Shown, Sight> for Grows {
    ghost use Rattle.nm_publish.specs.Sight.{GoesOnFromAll, unseen};

    ghost holds = { λ shown seats. GoesOnFromAll seats shown.front };

    ghost first = { unseen };
}

/// A reader enters.
pub(crate) struct Enter;

impl Outcome<Shown, Sight> for Enter {
    ghost use Rattle.nm_publish.specs.Sight.{Enters};

    ghost then = { λ before shown same after. Enters before shown.front after };
}

/// The writer publishes.
pub(crate) struct Publish;

impl Outcome<Shown, Sight> for Publish {
    ghost use Rattle.std.specs.Prelude.{◌≡◌};
    ghost use Rattle.nm_publish.specs.Sight.{sight};

    ghost then = { λ before shown next after. after ≡ sight next.front before.enterings };
}

/// The writer tells a new reader what it has seen ..
pub(crate) struct Tell;

impl Split<Sight> for Tell {
    ghost use Rattle.nm_publish.specs.Sight.{sight};

    ghost left = { λ seen. seen };

    ghost right = { λ seen. sight seen.front 0 };
}

/// .. which the reader takes in.
pub(crate) struct Hear;

impl Join<Sight> for Hear {
    ghost use Rattle.nm_publish.specs.Sight.{sight, unseen};

    ghost both = { λ seen told. sight told.front seen.enterings };

    ghost spent = { unseen };
}
