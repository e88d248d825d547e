// Why a session answers no further command.
ghost use Rattle.nm_session.specs.declared.interruption.Interruption.TheVariants as interruptions;
ghost use Rattle.std.specs.Prelude.{◌≡◌};

use crate::halt::Halt;
use nm_base::Failed;

/// Why a session answers no further command before its last one.
#[derive(Clone, Copy, Debug, PartialEq, Eq)]
pub enum Interruption {
    /// Nothing more is taken of its stream.
    Halted(Halt),
    /// Writing a reply failed.
    WriteFault,
}

impl From<Halt> for Interruption {
    ghost from_gives = { λ halt interruption. interruption ≡ interruptions.Halted halt };

    fn from(halt: Halt) -> Interruption {
        Interruption::Halted(halt)
    }
}

impl From<Failed> for Interruption {
    ghost from_gives = { λ _ interruption. interruption ≡ interruptions.WriteFault };

    fn from(_: Failed) -> Interruption {
        Interruption::WriteFault
    }
}
