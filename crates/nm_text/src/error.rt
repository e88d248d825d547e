// What the readers of references refuse.
ghost use Rattle.nm_text.specs.declared.error.RefError.TheVariants as ref_error;
ghost use Rattle.std.specs.Prelude.{◌≡◌};

pub use std::alloc::AllocError as NoMemory;

/// Why a text with references is not read.
#[derive(Debug, Drop, PartialEq, Eq)]
pub enum RefError {
    /// The place, from 0, of the first `&` that begins no reference.
    At(usize),
    /// There is no memory for the text.
    NoMemory,
}

impl From<NoMemory> for RefError {
    ghost from_gives = { λ _ e. e ≡ ref_error.NoMemory };

    fn from(_: NoMemory) -> RefError {
        RefError::NoMemory
    }
}
