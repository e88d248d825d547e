//! Sorted lists whose versions share their items in blocks.
//!
//! A [`Blocks`] is never changed: a change gives another list, which shares all of the old one's
//! blocks but those that the change touches. So a list of some thousand items that a version of a
//! store keeps costs, for each change, one block of at most 64 items and a pointer for each other
//! block.
#![tactic(auto)]

mod blocks;
mod building;
mod changes;
mod edits;
mod groups;
mod keyed;
mod search;
mod threads;

pub use blocks::Blocks;
pub use keyed::Keyed;
