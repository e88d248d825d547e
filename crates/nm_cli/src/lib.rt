//! The commands of `nm`: the forms of the command line, over a session or a document.
#![tactic(auto)]

mod command_line;
mod counts;
mod failure;
mod form;
mod generated;
mod report;
mod whole_input;

pub use command_line::run;
