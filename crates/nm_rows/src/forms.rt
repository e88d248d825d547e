//! The forms on a document: what they write of it, and how they end.
use crate::tests::run_words;
use nm_base::Status;
use nm_samples::{EQUIPMENT, EQUIPMENT_WRITTEN, NORTH, RENAMED};
use std::alloc::Global;
use std::test::Fail;

/// Whether the form writes this of the document, and ends so.
fn writes(
    alloc: Global,
    form: &str,
    document: &[u8],
    text: &[u8],
    status: Status,
) -> Result<bool, Fail> {
    let outcome = run_words(alloc, &[form], document, &[], &[])?;
    Ok(outcome.status == status && outcome.written.as_slice() == text)
}

#[test]
fn an_export_is_written_in_its_canonical_form(rt: HostRuntime) -> Result<(), Fail> {
    let alloc = rt.alloc();
    assert!(rt; writes(alloc, "canon", EQUIPMENT, EQUIPMENT_WRITTEN, Status::Done)?);
    assert!(rt; writes(alloc, "canon", &NORTH[9..471], &NORTH[9..471], Status::Done)?);
    assert!(rt;
        writes(
            alloc,
            "canon",
            &RENAMED[492..1570],
            &RENAMED[492..1570],
            Status::Done
        )?
    );
    Ok(())
}

#[test]
fn the_statements_of_a_model_are_counted(rt: HostRuntime) -> Result<(), Fail> {
    let alloc = rt.alloc();
    let full = b"full 10000000-0000-4000-8000-000000000001 3\n";
    assert!(rt; writes(alloc, "check", EQUIPMENT, full, Status::Done)?);
    let difference = b"difference 30000000-0000-4000-8000-000000000001 1 1 1\n";
    assert!(rt;
        writes(
            alloc,
            "check",
            &RENAMED[492..1570],
            difference,
            Status::Done
        )?
    );
    // The same without the lines of its reverse differences.
    let mut additions = RENAMED[492..1312].to_vec(alloc)?;
    additions.extend_from_slice(&RENAMED[1537..1570])?;
    let fewer = b"difference 30000000-0000-4000-8000-000000000001 1 0 1\n";
    assert!(rt; writes(alloc, "check", &additions, fewer, Status::Done)?);
    Ok(())
}

#[test]
fn a_fault_is_named_by_its_place(rt: HostRuntime) -> Result<(), Fail> {
    let alloc = rt.alloc();
    for form in ["canon", "check"] {
        assert!(rt;
            writes(
                alloc,
                form,
                &NORTH[9..329],
                b"fault 308 cut\n",
                Status::Refused
            )?
        );
        assert!(rt;
            writes(
                alloc,
                form,
                b"PK\x03\x04",
                b"fault 0 piece\n",
                Status::Refused
            )?
        );
        assert!(rt; writes(alloc, form, b"", b"fault 0 cut\n", Status::Refused)?);
    }
    Ok(())
}

#[test]
fn a_read_of_a_document_that_fails_is_told(rt: HostRuntime) -> Result<(), Fail> {
    let alloc = rt.alloc();
    // The second call would tell the end of the document, of which the first has a fault.
    for call in [0, 1] {
        let outcome = run_words(alloc, &["check"], b"PK\x03\x04", &[call], &[])?;
        assert_eq!(rt; outcome.written.as_slice(), b"".as_slice());
        assert_eq!(rt; outcome.status, Status::ReadFault);
    }
    Ok(())
}

#[test]
fn a_write_of_a_document_that_fails_is_told(rt: HostRuntime) -> Result<(), Fail> {
    let alloc = rt.alloc();
    for form in ["canon", "check"] {
        let outcome = run_words(alloc, &[form], EQUIPMENT, &[], &[0])?;
        assert_eq!(rt; outcome.written.as_slice(), b"".as_slice());
        assert_eq!(rt; outcome.status, Status::WriteFault);
    }
    Ok(())
}

/// The last lines of a generated session.
const GENERATED_END: &[u8] =
    b"withdraw 00000002-0000-4000-8000-000000000014\nsummary 2031-12-31\nsummary 2036-12-31\nend\n";

#[test]
fn a_session_is_generated(rt: HostRuntime) -> Result<(), Fail> {
    let alloc = rt.alloc();
    let outcome = run_words(alloc, &["gen", "20", "7"], b"", &[], &[])?;
    assert_eq!(rt; outcome.status, Status::Done);
    let written = outcome.written.as_slice();
    assert_eq!(rt; written.len(), 310_608);
    assert!(rt; written.starts_with(b"base 285209\n"));
    assert!(rt; written.ends_with(GENERATED_END));
    Ok(())
}
