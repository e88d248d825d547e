// Why no document is read.
ghost use Rattle.nm_reader.specs.declared.error.ReadError.TheVariants as read_error;
ghost use Rattle.std.specs.Prelude.{◌≡◌};

use crate::fault::Fault;
use nm_ident::NoMemory;
use std::alloc::AllocFailed;

/// Why no document is read.
#[derive(Debug, Drop, PartialEq, Eq)]
pub enum ReadError {
    /// The input is no document: the first place where it breaks a rule, and the rule.
    Fault(Fault),
    /// There is no memory for the model.
    NoMemory,
}

impl From<Fault> for ReadError {
    ghost from_gives = { λ fault e. e ≡ read_error.Fault fault };

    fn from(fault: Fault) -> ReadError {
        ReadError::Fault(fault)
    }
}

impl From<NoMemory> for ReadError {
    ghost from_gives = { λ _ e. e ≡ read_error.NoMemory };

    fn from(_: NoMemory) -> ReadError {
        ReadError::NoMemory
    }
}

impl<T: Drop> From<AllocFailed<T>> for ReadError {
    ghost from_gives = { λ _ e. e ≡ read_error.NoMemory };

    fn from(_: AllocFailed<T>) -> ReadError {
        ReadError::NoMemory
    }
}
