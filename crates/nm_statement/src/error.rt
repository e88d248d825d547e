// What no literal and no IRI may be.
ghost use Rattle.nm_statement.specs.declared.error.TextError.TheVariants as text_error;
ghost use Rattle.std.specs.Prelude.{◌≡◌};

use nm_ident::NoMemory;
use thiserror::Error;

/// Why bytes are no literal, or no IRI.
#[derive(Debug, Drop, PartialEq, Eq, Error)]
pub enum TextError {
    /// The bytes are not UTF-8 of XML characters (XML 1.0, section 2.2).
    #[error("not UTF-8 of XML characters")]
    Bad,
    /// The bytes are such and too many.
    #[error("too long")]
    Long,
    /// There is no memory for the text.
    #[error("out of memory")]
    NoMemory,
}

impl From<NoMemory> for TextError {
    ghost from_gives = { λ _ e. e ≡ text_error.NoMemory };

    fn from(_: NoMemory) -> TextError {
        TextError::NoMemory
    }
}
