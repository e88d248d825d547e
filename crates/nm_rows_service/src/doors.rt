//! Doors and links of the service, in memory and over TCP, and the words that ask for it.
use nm_base::{Failed, Sink, Source};
use nm_ident::NoMemory;
use nm_service::{Door, Ended, MemoryDoor, MemoryLink, TcpDoor, serve_form};
use std::alloc::Global;

/// A link whose client sends these bytes, at which no call fails.
fn link_of(alloc: Global, input: &[u8]) -> Result<MemoryLink, NoMemory> {
    let bytes = input.to_vec(alloc)?;
    Ok(MemoryLink::new(alloc, bytes, Vec::new(alloc), Vec::new(alloc)))
}

#[test]
fn a_link_fails_at_the_listed_reads_and_writes(rt: HostRuntime) -> Result<(), NoMemory> {
    let alloc = rt.alloc();
    let input = b"abcd".to_vec(alloc)?;
    let mut reads = Vec::new(alloc);
    reads.push(1)?;
    let mut writes = Vec::new(alloc);
    writes.push(0)?;
    let mut link = MemoryLink::new(alloc, input, reads, writes);
    let mut buffer = [0u8; 3];
    assert!(rt; link.read(&mut buffer) == Ok(3));
    assert!(rt; buffer == *b"abc");
    assert!(rt; link.write(b"lost") == Err(Failed));
    assert!(rt; link.read(&mut buffer) == Err(Failed));
    assert!(rt; link.write(b"kept") == Ok(4));
    assert!(rt; link.read(&mut buffer) == Ok(1));
    assert!(rt; buffer[0] == b'd');
    assert!(rt; link.read(&mut buffer) == Ok(0));
    assert!(rt; link.bytes() == b"kept".as_slice());
    Ok(())
}

#[test]
fn a_door_hands_out_in_order_and_fails_past_the_end(rt: HostRuntime) -> Result<(), NoMemory> {
    let alloc = rt.alloc();
    let mut links = Vec::new(alloc);
    links.push(link_of(alloc, b"1")?)?;
    links.push(link_of(alloc, b"2")?)?;
    let mut fails = Vec::new(alloc);
    fails.push(1)?;
    let mut door = MemoryDoor::new(alloc, links, fails)?;
    let mut buffer = [0u8; 1];
    let Ok(mut first) = door.accept() else {
        panic!(rt; "no link")
    };
    assert!(rt; door.accept().is_err());
    let Ok(mut second) = door.accept() else {
        panic!(rt; "no link")
    };
    assert!(rt; door.accept().is_err());
    assert!(rt; first.read(&mut buffer) == Ok(1));
    assert!(rt; buffer == *b"1");
    assert!(rt; second.read(&mut buffer) == Ok(1));
    assert!(rt; buffer == *b"2");
    Ok(())
}

#[test]
fn a_door_keeps_closed_links_with_their_endings(rt: HostRuntime) -> Result<(), NoMemory> {
    let alloc = rt.alloc();
    let mut links = Vec::new(alloc);
    links.push(link_of(alloc, b"1")?)?;
    links.push(link_of(alloc, b"2")?)?;
    let mut door = MemoryDoor::new(alloc, links, Vec::new(alloc))?;
    let Ok(mut first) = door.accept() else {
        panic!(rt; "no link")
    };
    let Ok(second) = door.accept() else {
        panic!(rt; "no link")
    };
    assert!(rt; first.write(b"to the first") == Ok(12));
    door.close(second, Ended::Refused(431));
    door.close(first, Ended::Closed);
    let Some((link, ended)) = door.closed(0) else {
        panic!(rt; "no link")
    };
    assert!(rt; link.bytes().is_empty());
    assert!(rt; *ended == Ended::Refused(431));
    let Some((link, ended)) = door.closed(1) else {
        panic!(rt; "no link")
    };
    assert!(rt; link.bytes() == b"to the first".as_slice());
    assert!(rt; *ended == Ended::Closed);
    assert!(rt; door.closed(2).is_none());
    Ok(())
}

/// The numbers of a command line whose words are parted by single spaces.
fn numbers(alloc: Global, line: &str) -> Result<Option<(u16, u32, u32)>, NoMemory> {
    let mut words = Vec::new(alloc);
    for word in line.split(' ') {
        words.push(word.to_string(alloc)?)?;
    }
    Ok(serve_form(&words))
}

#[test]
fn the_service_is_asked_for_within_its_limits(rt: HostRuntime) -> Result<(), NoMemory> {
    let alloc = rt.alloc();
    assert!(rt; numbers(alloc, "serve 1 1 1")? == Some((1, 1, 1)));
    assert!(rt; numbers(alloc, "serve 65535 32 1000000")? == Some((65_535, 32, 1_000_000)));
    assert!(rt; numbers(alloc, "serve 0 1 1")?.is_none());
    assert!(rt; numbers(alloc, "serve 65536 1 1")?.is_none());
    assert!(rt; numbers(alloc, "serve 80 0 1")?.is_none());
    assert!(rt; numbers(alloc, "serve 80 33 1")?.is_none());
    assert!(rt; numbers(alloc, "serve 80 1 0")?.is_none());
    assert!(rt; numbers(alloc, "serve 80 1 1000001")?.is_none());
    assert!(rt; numbers(alloc, "serve 080 1 1")?.is_none());
    assert!(rt; numbers(alloc, "serve +80 1 1")?.is_none());
    assert!(rt; numbers(alloc, "serve 80 1")?.is_none());
    assert!(rt; numbers(alloc, "serve 80 1 1 1")?.is_none());
    assert!(rt; numbers(alloc, "session")?.is_none());
    Ok(())
}

#[test]
fn a_door_without_a_listener_fails(rt: HostRuntime) {
    let mut door = TcpDoor::new(None);
    assert!(rt; door.accept().is_err());
}
