//! Statements of power network models, and sets of them.
//!
//! A model of CIMXML (IEC 61970-552) states a set of statements: a subject, a predicate, and an
//! object that is a literal, a resource of a model or an IRI.
#![tactic(auto)]

mod error;
mod laws;
mod literal;
mod merge;
mod object;
mod report;
mod set;
mod statement;
mod threads;

pub use error::TextError;
pub use laws::{members_make_sets, sets_have_members, statements_are_ordered};
pub use literal::{LONGEST_LITERAL, Literal};
pub use object::{LONGEST_IRI, Object};
pub use report::line;
pub use set::{Change, Set, SetIter};
pub use statement::Statement;
