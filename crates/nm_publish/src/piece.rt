// What the history of a store is made of.
use nm_version::{Entry, Version};

/// A piece of the history of a store. No value of it is made: it stands in proofs alone.
pub(crate) enum Piece {
    /// The version that the store was opened with.
    Opened(Version),
    /// A command that was accepted.
    Accepted(Entry),
}
