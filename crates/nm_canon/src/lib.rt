//! Reading canonical documents back: what is written of a model reads back as that model, and equal
//! bytes are of equal models.
#![tactic(auto)]

mod error;
mod laws;
mod reading;

pub use error::CanonicalError;
pub use laws::canonical_documents_are_read_back;
pub use reading::read_canonical;
