// The model of a canonical document.
ghost use Rattle.nm_canon.specs.Reading.{canonical_due, wants_memory, IsReadBack};
ghost use Rattle.nm_terms.specs.Due.{IsDue};

use crate::error::CanonicalError;
use nm_model::Document;
use nm_reader::read;
use nm_writer::write_document;
use std::alloc::Global;

/// The model whose canonical document the bytes are: what [`write_document`] writes of a sound model
/// within the limits.
///
/// [`CanonicalError::NotCanonical`] comes exactly where there is none, as for a document in any other
/// spelling, or one of more than 67,108,864 bytes. The document is read, and what it states is written
/// and compared.
///
/// ```text
/// let model = read_canonical(alloc, &write_document(alloc, &model)?)?;
/// ```
pub fn read_canonical(alloc: Global, bytes: &[u8]) -> Result<Document, CanonicalError>
    ensures due { IsDue wants_memory result (canonical_due bytes.now) }
    ensures back { IsReadBack result bytes.now }
{
    let model = read(alloc, bytes)?;
    if write_document(alloc, &model)?.as_slice() == bytes {
        Ok(model)
    } else {
        Err(CanonicalError::NotCanonical)
    }
}
