//! Documents that state as much as is kept, and one thing more.
use crate::faults::fault_of;
use nm_ident::NoMemory;
use nm_model::LONGEST_DOCUMENT;
use nm_reader::{Code, Fault};
use nm_samples::{RENAMED, full_model};
use std::alloc::Global;
use std::test::Fail;

/// The same bytes so many times.
fn repeated(alloc: Global, item: &[u8], count: u32) -> Result<Vec<u8>, NoMemory> {
    let mut text = Vec::new(alloc);
    for _ in 0..count {
        text.extend_from_slice(item)?;
    }
    Ok(text)
}

/// A full model of so many of one header property, and nothing else.
fn with_properties(alloc: Global, property: &[u8], count: u32) -> Result<Vec<u8>, NoMemory> {
    let properties = repeated(alloc, property, count)?;
    full_model(alloc, &[&properties, b"</md:FullModel>\n"])
}

#[test]
fn header_properties_are_counted_with_their_repeats(rt: HostRuntime) -> Result<(), Fail> {
    let alloc = rt.alloc();
    // The first property stands at 292.
    for (property, most, past, at) in [
        (
            b"<md:Model.profile>x</md:Model.profile>".as_slice(),
            64,
            65,
            2_724,
        ),
        (
            b"<md:Model.DependentOn rdf:resource=\"#_00000000-0000-0000-0000-000000000001\"/>".as_slice(),
            64,
            65,
            5_220,
        ),
        (
            b"<md:Model.Supersedes rdf:resource=\"#_00000000-0000-0000-0000-000000000001\"/>".as_slice(),
            4_160,
            4_161,
            316_452,
        ),
    ] {
        let kept = with_properties(alloc, property, most)?;
        assert_eq!(rt; fault_of(alloc, &kept)?, None);
        let more = with_properties(alloc, property, past)?;
        let code = Code::Limit;
        assert_eq!(rt; fault_of(alloc, &more)?, Some(Fault { at, code }));
    }
    Ok(())
}

/// A difference that states so often that one resource is of one class.
fn with_changes(alloc: Global, count: u32) -> Result<Vec<u8>, NoMemory> {
    let objects = repeated(alloc, b"<cim:A rdf:about=\"#a\"/>", count)?;
    let mut text = RENAMED[492..849].to_vec(alloc)?;
    text.extend_from_slice(b"<dm:forwardDifferences>")?;
    text.extend_from_slice(&objects)?;
    text.extend_from_slice(b"</dm:forwardDifferences>")?;
    text.extend_from_slice(&RENAMED[1537..1570])?;
    Ok(text)
}

#[test]
fn changes_are_counted_with_their_repeats(rt: HostRuntime) -> Result<(), Fail> {
    let alloc = rt.alloc();
    let kept = with_changes(alloc, 65_536)?;
    assert_eq!(rt; fault_of(alloc, &kept)?, None);
    let more = with_changes(alloc, 65_537)?;
    let code = Code::Limit;
    assert_eq!(rt;
        fault_of(alloc, &more)?,
        Some(Fault {
            at: 1_507_708,
            code
        })
    );
    Ok(())
}

/// A document that ends in so many bytes of white space that it has this length.
fn padded(alloc: Global, length: usize) -> Result<Vec<u8>, NoMemory> {
    let mut text = full_model(alloc, &[b"</md:FullModel>\n"])?;
    text.resize(length, b' ')?;
    Ok(text)
}

#[test]
fn a_document_has_at_most_67_108_864_bytes(rt: HostRuntime) -> Result<(), Fail> {
    let alloc = rt.alloc();
    let text = padded(alloc, LONGEST_DOCUMENT)?;
    assert_eq!(rt; fault_of(alloc, &text)?, None);
    Ok(())
}

// A run that reaches the limit is none, so that it is not judged whether it is white, ..
#[test]
fn a_byte_more_is_too_much(rt: HostRuntime) -> Result<(), Fail> {
    let alloc = rt.alloc();
    let mut text = padded(alloc, LONGEST_DOCUMENT)?;
    text.push(b'x')?;
    let code = Code::Limit;
    assert_eq!(rt;
        fault_of(alloc, &text)?,
        Some(Fault {
            at: 67_108_864,
            code
        })
    );
    Ok(())
}

// .. but a byte with which no text goes on is judged.
#[test]
fn a_longer_input_is_judged_by_its_pieces(rt: HostRuntime) -> Result<(), Fail> {
    let alloc = rt.alloc();
    let mut text = full_model(alloc, &[b"</md:FullModel>\n"])?;
    text.push(0x01)?;
    text.resize(67_108_865, b' ')?;
    let code = Code::Piece;
    assert_eq!(rt; fault_of(alloc, &text)?, Some(Fault { at: 318, code }));
    Ok(())
}
