// Why a piece is not taken.
ghost use Rattle.nm_reader.specs.declared.refusal.Refusal.TheVariants as refusal;
ghost use Rattle.std.specs.Prelude.{◌≡◌};

use crate::fault::Code;
use nm_ident::NoMemory;
use std::alloc::AllocFailed;

/// Why a piece is not taken.
#[derive(Drop)]
pub enum Refusal {
    /// The piece breaks a rule.
    Rule(Code),
    /// Memory ran out.
    NoMemory,
}

impl From<NoMemory> for Refusal {
    ghost from_gives = { λ _ e. e ≡ refusal.NoMemory };

    fn from(_: NoMemory) -> Refusal {
        Refusal::NoMemory
    }
}

impl<T: Drop> From<AllocFailed<T>> for Refusal {
    ghost from_gives = { λ _ e. e ≡ refusal.NoMemory };

    fn from(_: AllocFailed<T>) -> Refusal {
        Refusal::NoMemory
    }
}
