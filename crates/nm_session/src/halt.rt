// Why nothing more is taken of a session stream.
ghost use Rattle.nm_session.specs.Halts.{place_of, status_of};
ghost use Rattle.nm_session.specs.declared.halt.Halt.TheVariants as halts;
ghost use Rattle.std.specs.Prelude.{◌≡◌};

use nm_base::{NoMemory, Status};

/// Why nothing more is taken of a session stream.
#[derive(Clone, Copy, Debug, PartialEq, Eq)]
pub enum Halt {
    /// The line that begins at this place is no command that is allowed there, or is longer than a
    /// line may be.
    BadLine(u64),
    /// The stream ends within a line or a document.
    Cut,
    /// The session may take no more bytes.
    TooMuch,
    /// Reading the source failed.
    ReadFault,
    /// No memory was left.
    NoMemory,
}

impl Halt {
    /// The status of a session that ends so.
    pub fn status(self) -> Status
        ensures { result ≡ status_of self }
    {
        match self {
            Halt::BadLine(_) => Status::BadSession,
            Halt::Cut => Status::Cut,
            Halt::TooMuch => Status::TooMuch,
            Halt::ReadFault => Status::ReadFault,
            Halt::NoMemory => Status::NoMemory,
        }
    }

    /// Where the line begins that is no command; 0 where no line is told of.
    pub fn place(self) -> u64
        ensures { result ≡ place_of self }
    {
        match self {
            Halt::BadLine(at) => at,
            Halt::Cut | Halt::TooMuch | Halt::ReadFault | Halt::NoMemory => 0,
        }
    }
}

impl From<NoMemory> for Halt {
    ghost from_gives = { λ _ halt. halt ≡ halts.NoMemory };

    fn from(_: NoMemory) -> Halt {
        Halt::NoMemory
    }
}
