use nm_base::{MemorySink, MemorySource, Status, SteadySink, SteadySource};
use nm_cli::run;
use nm_samples::{
    ANOTHER_NAME, ANOTHER_NAME_REPLIES, BARE_BASE, BARE_BASE_REPLIES, FIRST_AND_LAST_DAY,
    FIRST_AND_LAST_DAY_REPLIES, NORTH, NORTH_REPLIES, RENAMED, RENAMED_AGAIN,
    RENAMED_AGAIN_REPLIES, RENAMED_REPLIES,
};
use std::alloc::Global;
use std::test::Fail;

/// The bytes of [`NORTH`] up to its base, and what is written of them.
const BASE_LENGTH: usize = 471;

const BASE_REPLY: &[u8] = b"ok 0\n";

/// What comes of a run: the status, and what was written.
#[derive(Drop)]
pub struct Outcome {
    pub status: Status,
    pub written: Vec<u8>,
}

/// Runs the words on a stream, where the calls of the source and of the sink that are listed fail.
pub fn run_words(
    alloc: Global,
    words: &[&str],
    stream: &[u8],
    read_fails: &[u32],
    write_fails: &[u32],
) -> Result<Outcome, Fail> {
    let mut list = Vec::new(alloc);
    for word in words {
        list.push(word.to_string(alloc)?)?;
    }
    let mut source = MemorySource::new(alloc, stream.to_vec(alloc)?, read_fails.to_vec(alloc)?);
    let mut sink = MemorySink::new(alloc, write_fails.to_vec(alloc)?);
    let status = run(alloc, &list, &mut source, &mut sink);
    let written = sink.bytes().to_vec(alloc)?;
    Ok(Outcome { status, written })
}

/// Runs a session whose source and sink do not fail.
fn session(alloc: Global, stream: &[u8]) -> Result<Outcome, Fail> {
    run_words(alloc, &["session"], stream, &[], &[])
}

/// The stream of a base, and then this.
fn after_base(alloc: Global, rest: &[u8]) -> Result<Vec<u8>, Fail> {
    let mut stream = Vec::new(alloc);
    stream.extend_from_slice(&NORTH[..BASE_LENGTH])?;
    stream.extend_from_slice(rest)?;
    Ok(stream)
}

#[test]
fn sessions_are_answered(rt: HostRuntime) -> Result<(), Fail> {
    let alloc = rt.alloc();
    for (stream, replies) in [
        (BARE_BASE, BARE_BASE_REPLIES),
        (NORTH, NORTH_REPLIES),
        (RENAMED, RENAMED_REPLIES),
        (ANOTHER_NAME, ANOTHER_NAME_REPLIES),
        (RENAMED_AGAIN, RENAMED_AGAIN_REPLIES),
        (FIRST_AND_LAST_DAY, FIRST_AND_LAST_DAY_REPLIES),
    ] {
        let outcome = session(alloc, stream)?;
        assert_eq!(rt; outcome.written.as_slice(), replies);
        assert_eq!(rt; outcome.status, Status::Done);
    }
    Ok(())
}

/// Whether a base and then this are answered as a base and a bad line behind it.
fn has_bad_line_after_base(alloc: Global, rest: &[u8]) -> Result<bool, Fail> {
    let stream = after_base(alloc, rest)?;
    let outcome = session(alloc, stream.as_slice())?;
    Ok(
        outcome.status == Status::BadSession
            && outcome.written.as_slice() == b"ok 0\nbadline 471\n".as_slice(),
    )
}

#[test]
fn a_bad_line_is_named_by_its_place(rt: HostRuntime) -> Result<(), Fail> {
    let alloc = rt.alloc();
    assert!(rt; has_bad_line_after_base(alloc, b"assemble 3000-01-01\nend\n")?);
    assert!(rt; has_bad_line_after_base(alloc, b"summary 2027-02-31\nend\n")?);
    assert!(rt; has_bad_line_after_base(alloc, &NORTH[..BASE_LENGTH])?);
    assert!(rt; has_bad_line_after_base(alloc, &[b'x'; 257])?);
    assert!(rt; has_bad_line_after_base(alloc, &[b'x'; 258])?);
    Ok(())
}

#[test]
fn a_stream_that_stops_is_cut(rt: HostRuntime) -> Result<(), Fail> {
    let alloc = rt.alloc();
    let within_a_document = session(alloc, &NORTH[..109])?;
    assert_eq!(rt; within_a_document.written.as_slice(), b"".as_slice());
    assert_eq!(rt; within_a_document.status, Status::Cut);
    let within_a_line = session(alloc, after_base(alloc, &[b'x'; 256])?.as_slice())?;
    assert_eq!(rt; within_a_line.written.as_slice(), BASE_REPLY);
    assert_eq!(rt; within_a_line.status, Status::Cut);
    Ok(())
}

#[test]
fn a_read_that_fails_is_told(rt: HostRuntime) -> Result<(), Fail> {
    let outcome = run_words(rt.alloc(), &["session"], NORTH, &[0], &[])?;
    assert_eq!(rt; outcome.written.as_slice(), b"".as_slice());
    assert_eq!(rt; outcome.status, Status::ReadFault);
    Ok(())
}

#[test]
fn a_write_that_fails_is_told(rt: HostRuntime) -> Result<(), Fail> {
    let outcome = run_words(rt.alloc(), &["session"], NORTH, &[], &[2])?;
    assert!(rt; NORTH_REPLIES.starts_with(outcome.written.as_slice()));
    assert_eq!(rt; outcome.status, Status::WriteFault);
    Ok(())
}

#[test]
fn a_sink_takes_what_it_has_room_for(rt: HostRuntime) -> Result<(), Fail> {
    let alloc = rt.alloc();
    let words = vec![in alloc; "session".to_string(alloc)?]?;
    for (room, status) in [(638, Status::Done), (637, Status::WriteFault)] {
        let mut source = SteadySource::new(alloc, NORTH.to_vec(alloc)?);
        let mut sink = SteadySink::new(alloc, room)?;
        assert_eq!(rt; run(alloc, &words, &mut source, &mut sink), status);
        assert_eq!(rt; Some(sink.bytes()), NORTH_REPLIES.get(..room));
    }
    Ok(())
}

/// Whether the words are told to be no form, with nothing written.
fn are_no_form(alloc: Global, words: &[&str]) -> Result<bool, Fail> {
    let outcome = run_words(alloc, words, NORTH, &[], &[])?;
    Ok(outcome.status == Status::Usage && outcome.written.is_empty())
}

#[test]
fn other_words_are_no_form(rt: HostRuntime) -> Result<(), Fail> {
    let alloc = rt.alloc();
    assert!(rt; are_no_form(alloc, &[])?);
    assert!(rt; are_no_form(alloc, &["sessions"])?);
    assert!(rt; are_no_form(alloc, &["session", "extra"])?);
    assert!(rt; are_no_form(alloc, &["check", "canon"])?);
    assert!(rt; are_no_form(alloc, &["--help"])?);
    assert!(rt; are_no_form(alloc, &["gen", "0", "7"])?);
    assert!(rt; are_no_form(alloc, &["gen", "2001", "7"])?);
    Ok(())
}
