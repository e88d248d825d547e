//! Identifiers of power network models: names, model identifiers, and the spellings of a resource.
//!
//! A resource of a CIMXML document is named by `rdf:ID`, `rdf:about` or `rdf:resource`
//! (IEC 61970-552). The three spellings of a UUID name one resource, an [`Ident`].
#![tactic(auto)]

mod error;
mod ident;
mod ids;
mod laws;
mod name;
mod text;
mod threads;
mod uuid_text;

pub use error::{IdentError, NameError, NoMemory};
pub use ident::{Ident, Target};
pub use ids::Ids;
pub use laws::{
    idents_are_ordered, ids_read_back, names_are_ordered, orders_are_total, read_idents_are_sound,
    spellings_agree, uuid_texts_read_back,
};
pub use name::{
    DIFFERENCE_NAMESPACE, LONGEST_NAME, LONGEST_NAMESPACE, MODEL_NAMESPACE, Name, RDF_NAMESPACE,
    is_name, is_namespace, is_predicate,
};
pub use text::{Text, Texts};
pub use uuid_text::{id_text, model_id};
