//! Where a statement stands in the changes that name it.
//!
//! The [`Timeline`] of a statement says whether the base has it, and in which [`Part`]s of their
//! changes the steps name it. It tells whether the statement is there on a day, and the first step
//! that does not fit it, with no look at any other statement.
#![tactic(auto)]

mod entries;
mod laws;
mod mark;
mod part;
mod threads;
mod timeline;

pub use laws::parts_are_ordered;
pub use mark::Mark;
pub use part::Part;
pub use timeline::Timeline;
