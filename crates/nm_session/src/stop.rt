// Why an input gives nothing more, as its callers are told.
ghost use Rattle.nm_session.specs.Halts.{stop_of};
ghost use Rattle.std.specs.Prelude.{◌≡◌};

use crate::halt::Halt;
use nm_base::Status;

/// Why an input gives nothing more: the status with which a session ends there.
#[derive(Clone, Copy, Debug, PartialEq, Eq)]
pub struct Stop {
    pub status: Status,
    /// Where the line begins that is too long, with `BadSession`; 0 with any other status.
    pub at: u64,
}

impl From<Halt> for Stop {
    ghost from_gives = { λ halt stop. stop ≡ stop_of halt };

    fn from(halt: Halt) -> Stop {
        Stop {
            status: halt.status(),
            at: halt.place(),
        }
    }
}
