//! Tags that hold much, which would take minutes if each part were compared with each other.
use crate::faults::fault_of;
use nm_reader::{Code, Fault};
use nm_samples::joined;
use std::alloc::Global;
use std::test::Fail;

const MANY: u32 = 20_000;

/// A tag that begins so, with many attributes that end so.
fn tag_with_many(alloc: Global, begin: &str, middle: &str, end: &str) -> Result<Vec<u8>, Fail> {
    let mut bytes = begin.as_bytes().to_vec(alloc)?;
    for number in 0..MANY {
        let attribute = format!(in alloc; " {middle}{number}{end}")?;
        bytes.extend_from_slice(attribute.as_bytes())?;
    }
    bytes.push(b'>')?;
    Ok(bytes)
}

#[test]
fn tags_that_hold_much(rt: HostRuntime) -> Result<(), Fail> {
    let alloc = rt.alloc();
    let root = tag_with_many(
        alloc,
        "<r:RDF xmlns:r='http://www.w3.org/1999/02/22-rdf-syntax-ns#' xmlns:m='http://iec.ch/TC57/61970-552/ModelDescription/1#'",
        "xmlns:p",
        "='urn:x#'",
    )?;
    for (begin, code) in [
        ("<m:FullModel", Code::Attribute),
        ("<m:FullModel q:a=''", Code::Prefix),
        ("<m:FullModel q:a='' p7:a=''", Code::Attribute),
    ] {
        let header = tag_with_many(alloc, begin, "p", ":a=''")?;
        let text = joined(alloc, &[&root, &header])?;
        let at = root.len() as u64;
        assert_eq!(rt; fault_of(alloc, &text)?, Some(Fault { at, code }));
    }
    Ok(())
}
