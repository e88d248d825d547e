// Why a command is refused.
ghost use Rattle.nm_version.specs.declared.refusal.Refusal.TheVariants as refused;
ghost use Rattle.std.specs.Prelude.{◌≡◌};

use nm_base::{Limit, NoMemory};
use nm_day::Day;
use nm_statement::Statement;
use std::alloc::AllocFailed;

/// Why a command is refused. The version is then as it was.
#[derive(Debug, Drop)]
pub enum Refusal {
    /// The document is a full model.
    Kind,
    /// No live project has this id as the first of its lineage.
    Unknown(u128),
    /// The document does not supersede this model, which is the project's current one.
    NotSuperseding(u128),
    /// The model id is the base's, or stands in the lineage of a live project.
    InUse(u128),
    /// A limit of the store would be passed.
    Limit(Limit),
    /// A step of the changed list does not fit the model before it: the first cause of the first
    /// such step.
    Step {
        /// The step's day.
        day: Day,
        /// The step's current model id.
        model: u128,
        /// What does not fit.
        cause: Cause,
    },
    /// There is no memory for the command.
    NoMemory,
}

impl From<NoMemory> for Refusal {
    ghost from_gives = { λ _ refusal. refusal ≡ refused.NoMemory };

    fn from(_: NoMemory) -> Refusal {
        Refusal::NoMemory
    }
}

impl<T: Drop> From<AllocFailed<T>> for Refusal {
    ghost from_gives = { λ _ refusal. refusal ≡ refused.NoMemory };

    fn from(_: AllocFailed<T>) -> Refusal {
        Refusal::NoMemory
    }
}

/// Why a step does not fit the model before it.
#[derive(Debug, Drop)]
pub enum Cause {
    /// A dependency that is not met.
    Dependency(u128),
    /// A precondition that is not there.
    Precondition(Statement),
    /// A reverse statement that is not there.
    Reverse(Statement),
    /// A forward statement that is there already.
    Forward(Statement),
}
