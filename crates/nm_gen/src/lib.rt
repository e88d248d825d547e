//! The generator: streams of a session, small and large, that are the same at each run.
//!
//! [`generate`] writes a base and a number of projects, as a session takes them. The days of the
//! projects are drawn by a linear congruential generator from a seed.
#![tactic(auto)]

mod days;
mod draws;
mod limits;
mod models;
mod stream;
mod terms;

pub use limits::MOST_PROJECTS;
pub use stream::generate;
