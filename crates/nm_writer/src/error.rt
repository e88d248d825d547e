// Why a document is not written whole.
ghost use Rattle.nm_writer.specs.declared.error.WriteError.TheVariants as write_error;
ghost use Rattle.std.specs.Prelude.{◌≡◌};

use nm_base::Failed;
use nm_ident::NoMemory;
use thiserror::Error;

/// Why a document is not written whole.
#[derive(Clone, Copy, Debug, Error, PartialEq, Eq)]
pub enum WriteError {
    /// The sink failed.
    #[error("the sink failed")]
    Fault,
    /// There is no memory for the next part of the document.
    #[error("no memory is left")]
    NoMemory,
}

impl From<Failed> for WriteError {
    ghost from_gives = { λ _ e. e ≡ write_error.Fault };

    fn from(_: Failed) -> WriteError {
        WriteError::Fault
    }
}

impl From<NoMemory> for WriteError {
    ghost from_gives = { λ _ e. e ≡ write_error.NoMemory };

    fn from(_: NoMemory) -> WriteError {
        WriteError::NoMemory
    }
}
