// What the readers of this crate refuse.
ghost use Rattle.nm_ident.specs.declared.error.IdentError.TheVariants as ident_error;
ghost use Rattle.nm_ident.specs.declared.error.NameError.TheVariants as name_error;
ghost use Rattle.std.specs.Prelude.{◌≡◌};

pub use std::alloc::AllocError as NoMemory;
use thiserror::Error;

/// Why a text is no identifier.
#[derive(Debug, Drop, PartialEq, Eq, Error)]
pub enum IdentError {
    /// The text is none of the spellings that the call reads.
    #[error("no identifier")]
    Bad,
    /// There is no memory for the identifier.
    #[error("out of memory")]
    NoMemory,
}

impl From<NoMemory> for IdentError {
    ghost from_gives = { λ _ e. e ≡ ident_error.NoMemory };

    fn from(_: NoMemory) -> IdentError {
        IdentError::NoMemory
    }
}

/// Why a namespace and a local name are no name of a property or class.
#[derive(Debug, Drop, PartialEq, Eq, Error)]
pub enum NameError {
    /// The namespace or the local name is none that a property or class may have.
    #[error("no name of a property or class")]
    Bad,
    /// There is no memory for the name.
    #[error("out of memory")]
    NoMemory,
}

impl From<NoMemory> for NameError {
    ghost from_gives = { λ _ e. e ≡ name_error.NoMemory };

    fn from(_: NoMemory) -> NameError {
        NameError::NoMemory
    }
}
