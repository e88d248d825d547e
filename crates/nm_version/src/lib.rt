//! The store as a value of versions.
//!
//! A [`Version`] is a base network model with the projects that are filed to it. A [`Command`] makes
//! the next version, or is refused. The model of a day is the base changed by the live projects that
//! are in service by then, in the order of day and filing.
#![tactic(auto)]

mod assembly;
mod command;
mod dependencies;
mod edits;
mod laws;
mod limits;
mod line;
mod listing;
mod log;
mod object;
mod refusal;
mod row;
mod rules;
mod step_refusal;
mod threads;
mod timeline;
mod version;

pub use command::{Command, Entry};
pub use laws::{
    commands_edit_steps, filed_projects_come_last, filing_numbers_stay_inside,
    first_break_is_the_lesser, logs_determine_what_is_kept, what_is_reached_fits,
    withdrawals_take_away,
};
pub use limits::{LARGEST_STORE, MOST_COMMITS, MOST_STEPS};
pub use line::Line;
pub use refusal::{Cause, Refusal};
pub use row::Row;
pub use version::Version;
