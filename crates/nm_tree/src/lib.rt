//! Ordered maps whose versions share their nodes.
//!
//! A [`Tree`] is never changed: an insertion and a removal give another tree, which shares all of the
//! old one's nodes but those on the way to the change. So a version of a store can keep its tree at
//! the cost of a few nodes for each change. Each call counts the nodes that it opens and makes, and
//! its contract bounds their number.
#![tactic(auto)]

mod balance;
mod insertion;
mod laws;
mod lookup;
mod node;
mod removal;
mod sorted;
mod span;
mod threads;
mod tree;
mod walk;

pub use laws::depth_is_greatest;
pub use span::Span;
pub use tree::Tree;
pub use walk::Walk;
