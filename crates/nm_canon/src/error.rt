// Why no canonical document is read.
ghost use Rattle.nm_canon.specs.Reading.{error_of};
ghost use Rattle.nm_canon.specs.declared.error.CanonicalError.TheVariants as canonical_error;
ghost use Rattle.std.specs.Prelude.{◌≡◌};

use nm_ident::NoMemory;
use nm_reader::ReadError;
use thiserror::Error;

/// Why no canonical document is read.
#[derive(Clone, Copy, Debug, Error, PartialEq, Eq)]
pub enum CanonicalError {
    /// The bytes are the canonical document of no sound model within the limits.
    #[error("no canonical document")]
    NotCanonical,
    /// There is no memory for the model.
    #[error("no memory is left")]
    NoMemory,
}

impl From<ReadError> for CanonicalError {
    ghost from_gives = { λ why e. e ≡ error_of why };

    fn from(why: ReadError) -> CanonicalError {
        match why {
            ReadError::Fault(_fault) => CanonicalError::NotCanonical,
            ReadError::NoMemory => CanonicalError::NoMemory,
        }
    }
}

impl From<NoMemory> for CanonicalError {
    ghost from_gives = { λ _ e. e ≡ canonical_error.NoMemory };

    fn from(_: NoMemory) -> CanonicalError {
        CanonicalError::NoMemory
    }
}
