//! What every layer of `nm` stands on: where bytes come from and where they go, how a call of
//! the outside world is seen to fail, and the names of the program's answers and limits.
//!
//! A [`Source`] gives bytes and a [`Sink`] takes them. Both count their faults, so that a caller
//! who answers "the outside failed" can be held to it: such an answer is right only where the
//! count rose. [`MemorySource`] and [`MemorySink`] fail at calls of the caller's choice,
//! [`SteadySource`] never fails, [`SteadySink`] fails only once its room is used up, and
//! [`ReadSource`] and [`WriteSink`] stand over a real reader and writer. Whoever writes a source, a
//! sink or a listener of their own counts with a [`FaultCount`], and fails by a [`FaultPlan`].
#![tactic(auto)]

pub use adapters::{ReadSource, WriteSink};
pub use count::FaultCount;
pub use flow::{Failed, Sink, Source, write_whole};
pub use memory::{MemorySink, MemorySource};
pub use outcome::{Limit, Status};
pub use plan::FaultPlan;
pub use std::alloc::AllocError as NoMemory;
pub use steady::{SteadySink, SteadySource};
pub use steps::Steps;

mod adapters;
mod count;
mod flow;
mod memory;
mod outcome;
mod plan;
mod rest;
mod steady;
mod steps;
mod threads;
mod vector;
