//! Documents that are put together of parts.
use std::alloc::{AllocError, Global};

/// How the full models begin.
const OPENING: &[u8] =
    b"<?xml version=\"1.0\" encoding=\"UTF-8\"?>\n<rdf:RDF xmlns:rdf=\"http://www.w3.org/1999/02/22-rdf-syntax-ns#\" xmlns:md=\"http://iec.ch/TC57/61970-552/ModelDescription/1#\" xmlns:cim=\"http://iec.ch/TC57/2013/CIM-schema-cim16#\">\n<md:FullModel rdf:about=\"urn:uuid:10000000-0000-4000-8000-000000000001\">\n";

/// How documents end.
const CLOSING: &[u8] = b"</rdf:RDF>\n";

/// The parts, one behind another.
pub fn joined(alloc: Global, parts: &[&[u8]]) -> Result<Vec<u8>, AllocError> {
    let mut text = Vec::new(alloc);
    for part in parts {
        text.extend_from_slice(part)?;
    }
    Ok(text)
}

/// The document of a full model, from its header's properties on.
pub fn full_model(alloc: Global, parts: &[&[u8]]) -> Result<Vec<u8>, AllocError> {
    let parts = joined(alloc, parts)?;
    joined(alloc, &[OPENING, &parts, CLOSING])
}
