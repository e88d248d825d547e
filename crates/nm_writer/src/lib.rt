//! The canonical document of a model.
//!
//! Every model has one canonical document (RDF/XML in the profile of IEC 61970-552), so equal
//! models are those with equal bytes.
#![tactic(auto)]

mod blocks;
mod element;
mod error;
mod header;
mod lines;
mod prefixes;
mod sections;
mod used;
mod writer;

pub use error::WriteError;
pub use writer::{write_difference, write_document, write_full, write_to};
