//! Each public call of a session once, with memory enough. What it answers is proved.
use nm_base::{MemorySink, MemorySource, Status};
use nm_session::{Body, Input, Spelling, State, Word, opening, query, refused, session, step};
use nm_version::Refusal;
use std::alloc::Global;
use std::test::Fail;

/// A base with a header alone.
const BASE: &[u8] =
    b"<?xml version=\"1.0\" encoding=\"UTF-8\"?>\n<rdf:RDF xmlns:rdf=\"http://www.w3.org/1999/02/22-rdf-syntax-ns#\" xmlns:md=\"http://iec.ch/TC57/61970-552/ModelDescription/1#\">\n<md:FullModel rdf:about=\"urn:uuid:10000000-0000-4000-8000-000000000001\">\n</md:FullModel>\n</rdf:RDF>\n";

/// A stream that takes the base, and ends.
fn source(alloc: Global) -> Result<MemorySource, Fail> {
    let mut stream = b"base 265\n".to_vec(alloc)?;
    stream.extend_from_slice(BASE)?;
    stream.extend_from_slice(b"end\n")?;
    Ok(MemorySource::new(alloc, stream, Vec::new(alloc)))
}

#[test]
fn streams_are_answered(rt: HostRuntime) -> Result<(), Fail> {
    let alloc = rt.alloc();
    let mut sink = MemorySink::new(alloc, Vec::new(alloc));
    let status = session(alloc, &mut source(alloc)?, &mut sink);
    assert_eq!(rt; status, Status::Done);
    assert_eq!(rt; sink.bytes(), b"ok 0\nend 0\n".as_slice());
    Ok(())
}

#[test]
fn stores_are_opened_and_asked(rt: HostRuntime) -> Result<(), Fail> {
    let alloc = rt.alloc();
    match opening(alloc, &mut source(alloc)?) {
        Ok(version) => {
            let reply = query(alloc, &version, &Word::Projects)?;
            assert_eq!(rt; reply.as_slice(), b"projects 0\n".as_slice());
        }
        Err(error) => assert_eq!(rt; error.status, Status::Done),
    }
    Ok(())
}

#[test]
fn lines_and_documents_are_given(rt: HostRuntime) -> Result<(), Fail> {
    let alloc = rt.alloc();
    let mut source = source(alloc)?;
    let mut input = Input::new(alloc)?;
    match input.next_line(alloc, &mut source) {
        Ok(bytes) => assert_eq!(rt; bytes.as_slice(), b"base 265".as_slice()),
        Err(stop) => assert_eq!(rt; stop.status, Status::Done),
    }
    match input.next_body(alloc, &mut source, 265) {
        Ok(
            Spelling::Good {
                document: _document,
                bytes,
            },
        ) => assert_eq!(rt; bytes.as_slice(), BASE),
        Ok(Spelling::Bad(fault)) => assert_eq!(rt; fault.at, 265),
        Err(stop) => assert_eq!(rt; stop.status, Status::Done),
    }
    assert_eq!(rt; input.offset(), 274);
    Ok(())
}

#[test]
fn commands_and_refusals_have_replies(rt: HostRuntime) -> Result<(), Fail> {
    let alloc = rt.alloc();
    let mut state = State::Empty;
    let reply = step(alloc, &mut state, &Word::End, Body::Absent)?;
    assert_eq!(rt; reply.as_slice(), b"end 0\n".as_slice());
    let reply = refused(alloc, &Refusal::Kind)?;
    assert_eq!(rt; reply.as_slice(), b"refused kind\n".as_slice());
    Ok(())
}
