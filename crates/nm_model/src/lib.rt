//! Documents of power network models: their headers, full models and difference models
//! (IEC 61970-552).
#![tactic(auto)]

mod document;
mod header;
mod limits;
mod threads;

pub use document::{Difference, Document, Full};
pub use header::Header;
pub use limits::{
    LONGEST_DOCUMENT, MOST_CHANGES, MOST_DEPENDENCIES, MOST_PROFILES, MOST_STATEMENTS,
    MOST_SUPERSEDED,
};
