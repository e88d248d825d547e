//! Projects that are live, and the steps that they are.
//!
//! A [`Project`] is a change of a network model that comes into service on a day. The projects that
//! were filed and not withdrawn stand in a [`Live`] list; in the order of day and filing each is a
//! [`Step`], and a dependency of a step has to be met by an earlier one.
#![tactic(auto)]

mod additions;
mod dependencies;
mod laws;
mod listed;
mod live;
mod order;
mod project;
mod since;
mod threads;

pub use laws::{
    changes_leave_others, lists_stay_live, live_projects_stand_in_order, projects_can_join,
};
pub use live::Live;
pub use project::{Project, Step};
