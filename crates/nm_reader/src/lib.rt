//! What documents of power network models state (CIMXML, IEC 61970-552): [`read`] gives the model of
//! a document of any spelling, or where and why it states none.
#![tactic(auto)]

mod assembly;
mod attributes;
mod context;
mod counts;
mod distinct;
mod draft;
mod error;
mod fact;
mod fault;
mod judging;
mod laws;
mod meaning;
mod names;
mod namespaces;
mod opened;
mod place;
mod reading;
mod refusal;
mod roles;
mod tag;
mod texts;

pub use error::ReadError;
pub use fault::{Code, Fault};
pub use laws::{documents_have_no_fault, faults_are_judged_on_the_cutting, pieces_have_no_fault};
pub use reading::read;
