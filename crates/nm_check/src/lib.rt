//! The timelines of all statements of a store.
#![tactic(auto)]

mod base;
mod breaks;
mod days;
mod editing;
mod laws;
mod naming;
mod subject;
mod threads;
mod timelines;

pub use breaks::{Break, EditError};
pub use laws::{
    base_is_of_timelines, edits_touch_what_is_named, first_break_is_the_least,
    presence_is_by_timelines,
};
pub use timelines::{Lines, Timelines};
