//! Days of the calendar, and the order of steps.
//!
//! A [`Day`] is a date from 1900-01-01 to 2999-12-31, written `YYYY-MM-DD` (ISO 8601). Which dates
//! there are, and their numbers, `jiff` says.
#![tactic(auto)]

mod day;
mod error;
mod key;
mod laws;
mod threads;

pub use day::Day;
pub use error::NotADay;
pub use key::Key;
pub use laws::{days_are_ordered, days_read_back, keys_are_ordered};
