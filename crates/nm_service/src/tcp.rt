// Connections over TCP.
ghost use Rattle.nm_base.specs.Faults.{CountsEach, CountsFaults};
ghost use Rattle.nm_service.specs.Door.{EndsOne, HandsOut};
ghost use Rattle.nm_service.specs.Tcp.{no_failures, no_passage, reads_beside, writes_beside};
ghost use Rattle.std.specs.Io.{ReadsAtMost, WritesAtMost};
ghost use Rattle.std.specs.Prelude.{◌≡◌, ◌+◌, ◌<◌, IfOk, None, length, refl};

use crate::door::Door;
use crate::ended::Ended;
use crate::link::Link;
use nm_base::{Failed, FaultCount, Sink, Source};
use std::io;
use std::io::{Read, Write};
use std::marker::Model;
use std::net::{TcpListener, TcpStream};

/// A connection of TCP. It tells nothing of what it gives and takes; each error of a call is a fault,
/// an interrupted call too, and so is a write that takes no byte of a piece that is not empty.
#[derive(Drop)]
pub struct TcpLink {
    stream: TcpStream,
    reads: FaultCount,
    writes: FaultCount,
}

impl Model for TcpLink {
    ghost use Rattle.nm_service.specs.Tcp.{Failures};

    ghost Value = { Failures };

    ghost view = { λ link. record { reads = link.reads; writes = link.writes } };
}

impl TcpLink {
    /// A connection on which no call has failed yet.
    pub fn new(stream: TcpStream) -> TcpLink
        ensures { result ≡ no_failures }
    {
        TcpLink {
            stream,
            reads: FaultCount::new(),
            writes: FaultCount::new(),
        }
    }
}

impl Source for TcpLink {
    ghost left = { λ _. None };

    ghost faults = { λ link. link.reads };

    ghost beside = { writes_beside };

    /// Reads once from the connection, and fails where that fails.
    fn read(&mut self, buf: &mut [u8]) -> Result<usize, Failed>
        ensures within { ReadsAtMost result buf.new }
        ensures counted { CountsFaults self.old.reads self.new.reads result }
        ensures beside_stays { writes_beside self.new ≡ writes_beside self.old }

        // Beyond the trait's clauses: each error is one fault.
        ensures each { CountsEach self.old.reads self.new.reads result }
    {
        match self.stream.read(buf) {
            Ok(count) => Ok(count),
            Err(_) => Err(self.reads.raise()),
        }
    }
}

impl Sink for TcpLink {
    ghost written = { λ _. None };

    ghost faults = { λ link. link.writes };

    ghost beside = { reads_beside };

    /// Writes once to the connection, and fails where that fails.
    fn write(&mut self, bytes: &[u8]) -> Result<usize, Failed>
        ensures within { WritesAtMost result bytes.now }
        ensures progress { IfOk result (λ n. 0 < length bytes.now → 0 < n) }
        ensures counted { CountsFaults self.old.writes self.new.writes result }
        ensures beside_stays { reads_beside self.new ≡ reads_beside self.old }

        // Beyond the trait's clauses: each error is one fault.
        ensures each { CountsEach self.old.writes self.new.writes result }
    {
        match self.stream.write(bytes) {
            Ok(count) if count > 0 || bytes.is_empty() => Ok(count),
            _ => Err(self.writes.raise()),
        }
    }
}

impl Link for TcpLink {
    ghost beside_reads = { λ _. record { bytes_are = refl; faults_are = refl } };

    ghost beside_writes = { λ _. record { bytes_are = refl; faults_are = refl } };
}

/// A door over a listener of TCP, which several doors may share. It tells nothing of its links, and
/// drops a link that is closed. Without a listener, as where none could be bound, each `accept` fails.
///
/// Its links have no delay (RFC 9293, section 3.7.4): a reply goes out at once.
#[derive(Drop)]
pub struct TcpDoor<'a> {
    listener: Option<&'a TcpListener>,
    handed: u64,
    closed: u64,
    faults: FaultCount,
}

impl<'a> Model for TcpDoor<'a> {
    ghost use Rattle.nm_service.specs.Tcp.{Passage};

    ghost Value = { Passage };

    ghost view = { λ door. record { handed = door.handed; closed = door.closed; faults = door.faults } };
}

impl<'a> TcpDoor<'a> {
    /// A door over the listener, where there is one.
    pub fn new(listener: Option<&'a TcpListener>) -> TcpDoor<'a>
        ensures { result ≡ no_passage }
    {
        TcpDoor {
            listener,
            handed: 0,
            closed: 0,
            faults: FaultCount::new(),
        }
    }
}

impl<'a> Door for TcpDoor<'a> {
    type Link = TcpLink;

    ghost coming = { λ _. None };

    ghost ended = { λ _. None };

    ghost handed = { λ door. door.handed };

    ghost closed = { λ door. door.closed };

    ghost faults = { λ door. door.faults };

    /// Waits for a connection, and fails where the listener does, or 2^64 - 1 were handed out.
    fn accept(&mut self) -> Result<TcpLink, Failed>
        ensures next { HandsOut None None self.old.handed self.new.handed result }
        ensures counted { CountsFaults self.old.faults self.new.faults result }
        ensures closed_stays { self.new.closed ≡ self.old.closed }

        // Beyond the trait's clauses: each error is one fault.
        ensures each { CountsEach self.old.faults self.new.faults result }
    {
        if self.handed == u64::MAX {
            return Err(self.faults.raise());
        }
        match accepted(self.listener) {
            Some(stream) => {
                self.handed += 1;
                Ok(TcpLink::new(stream))
            }
            None => Err(self.faults.raise()),
        }
    }

    /// Drops the link, which closes the connection.
    fn close(&mut self, link: TcpLink, _how: Ended)
        requires { self.old.closed < self.old.handed }
        ensures end { EndsOne None None link _how }
        ensures counted { self.new.closed ≡ self.old.closed + 1 }
        ensures handed_stays { self.new.handed ≡ self.old.handed }
        ensures faults_stay { self.new.faults ≡ self.old.faults }
    {
        drop(link);
        // More than these were handed out, so that one more can be counted.
        let _handed = self.handed;
        self.closed += 1;
    }
}

/// The next connection of the listener. `None` where it fails, or there is no listener.
fn accepted(listener: Option<&TcpListener>) -> Option<TcpStream> {
    match listener?.accept() {
        Ok((stream, _)) => {
            // Where this is refused, replies may come later and are the same.
            let _delayed: io::Result<()> = stream.set_nodelay(true);
            Some(stream)
        }
        Err(_) => None,
    }
}
