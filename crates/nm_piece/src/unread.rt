// Why no piece was read.
ghost use Rattle.std.specs.Prelude.{◌≡◌};
ghost use Rattle.nm_piece.specs.declared.unread.PieceError.TheVariants as piece_error;
ghost use Rattle.nm_piece.specs.declared.unread.Unread.TheVariants as unread;

use nm_ident::NoMemory;
use std::alloc::{AllocError, AllocFailed};

/// Why nothing was read at the front of the bytes.
#[derive(Debug, Drop, PartialEq, Eq)]
pub enum Unread {
    /// The bytes end too soon: with more behind them something can be read.
    Unfinished,
    /// Nothing can be read, whatever follows.
    NoPiece,
    /// Memory ran out.
    NoMemory,
}

impl From<AllocError> for Unread {
    ghost from_gives = { λ _ e. e ≡ unread.NoMemory };

    fn from(_error: AllocError) -> Unread {
        Unread::NoMemory
    }
}

impl<T: Drop> From<AllocFailed<T>> for Unread {
    ghost from_gives = { λ _ e. e ≡ unread.NoMemory };

    fn from(_error: AllocFailed<T>) -> Unread {
        Unread::NoMemory
    }
}

/// Why no piece is given.
#[derive(Debug, Drop, PartialEq, Eq)]
pub enum PieceError {
    /// No piece is spelt there, whatever follows.
    NoPiece,
    /// Memory ran out.
    NoMemory,
}

impl From<AllocError> for PieceError {
    ghost from_gives = { λ _ e. e ≡ piece_error.NoMemory };

    fn from(_error: AllocError) -> PieceError {
        PieceError::NoMemory
    }
}
