//! The pieces of an XML document: its declaration, tags, texts, comments and instructions.
//!
//! A document is cut into pieces before anything is made of them (XML 1.0, in the subset of
//! IEC 61970-552 that power network models use).
#![tactic(auto)]

mod declaration;
mod elements;
mod laws;
mod marked;
mod naming;
mod owned;
mod piece;
mod plain;
mod quotes;
mod raw;
mod reading;
mod runs;
mod tokens;
mod unread;

pub use laws::{inputs_have_one_cutting, one_piece_is_spelt, reading_is_exact};
pub use owned::next;
pub use piece::{Attribute, Attributes, Piece, QName};
pub use raw::{RawAttribute, RawAttributes, RawName, RawText, RawValue, Token};
pub use tokens::token;
pub use unread::{PieceError, Unread};
