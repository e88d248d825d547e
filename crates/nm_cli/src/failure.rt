// Why a report on a document was not written whole.
ghost use Rattle.nm_cli.specs.Failures.{failure_of, status_of};
ghost use Rattle.nm_cli.specs.declared.failure.Failure.TheVariants as failures;
ghost use Rattle.std.specs.Prelude.{◌≡◌};

use nm_base::{NoMemory, Status};
use nm_writer::WriteError;

/// Why a report on a document was not written whole.
#[derive(Clone, Copy, Debug, PartialEq, Eq)]
pub enum Failure {
    /// Reading the document failed.
    ReadFault,
    /// Writing the report failed.
    WriteFault,
    /// No memory was left.
    NoMemory,
}

impl Failure {
    /// The status of a run that fails so.
    pub fn status(self) -> Status
        ensures { result ≡ status_of self }
    {
        match self {
            Failure::ReadFault => Status::ReadFault,
            Failure::WriteFault => Status::WriteFault,
            Failure::NoMemory => Status::NoMemory,
        }
    }
}

impl From<NoMemory> for Failure {
    ghost from_gives = { λ _ failure. failure ≡ failures.NoMemory };

    fn from(_: NoMemory) -> Failure {
        Failure::NoMemory
    }
}

impl From<WriteError> for Failure {
    ghost from_gives = { λ error failure. failure ≡ failure_of error };

    fn from(error: WriteError) -> Failure {
        match error {
            WriteError::Fault => Failure::WriteFault,
            WriteError::NoMemory => Failure::NoMemory,
        }
    }
}
