// The lines and documents of a session stream, for callers that may ask again after a stop.
ghost use Rattle.nm_model.specs.Limits.{longest_document};
ghost use Rattle.nm_session.specs.Halts.{stop_of};
ghost use Rattle.nm_session.specs.Input.{BodyStops, GivesLine, GivesSpelling, LineStops, StopsAgain, StopsBy};
ghost use Rattle.nm_session.specs.Limits.{longest_session};
ghost use Rattle.std.specs.Prelude.{◌≡◌, ◌≤◌, [], None, IfErr, IfOk, IfSome, OnOk, Some};

use crate::ahead::Ahead;
use crate::body::Spelling;
use crate::halt::Halt;
use crate::stop::Stop;
use nm_base::{NoMemory, Source};
use std::alloc::Global;
use std::marker::Model;

/// What is read of a session stream: lines, and documents behind them. It is used with one source
/// alone, and the first stop of a call is that of all later ones.
#[derive(Drop)]
pub struct Input {
    ahead: Ahead,
    halted: Option<Halt>,
}

impl Model for Input {
    ghost use Rattle.nm_session.specs.Limits.{longest_session};
    ghost use Rattle.nm_session.specs.Received.{Received};
    ghost use Rattle.std.specs.Prelude.{◌≤◌};

    ghost Value = { Received };

    ghost view = { λ i. record { buffered = i.ahead; halted = i.halted } };

    ghost invariant = { λ i. i.ahead.given ≤ longest_session };
}

impl Input {
    /// An input of which nothing was read.
    pub fn new(alloc: Global) -> Result<Input, NoMemory>
        ensures { IfOk result (λ input. input ≡ record { buffered = record { ahead = []; given = 0 }; halted = None }) }
    {
        Ok(Input {
            ahead: Ahead::new(alloc),
            halted: None,
        })
    }

    /// How many bytes were given as lines and documents.
    pub fn offset(&self) -> u64
        ensures given { result ≡ self.now.buffered.given }
        ensures limit { result ≤ longest_session }
    {
        self.ahead.offset()
    }

    /// The next line without its line feed.
    ///
    /// A stop is `BadSession`, with the place of the line, where 257 bytes come and none of them is
    /// a line feed; `TooMuch` where a session takes no more bytes before one comes, and `Cut` where
    /// the source ends before.
    pub fn next_line<S: Source>(&mut self, alloc: Global, source: &mut S) -> Result<Vec<u8>, Stop>
        ensures line { IfOk result (λ line. GivesLine self.old.buffered self.new.buffered (S.left source.old) (S.left source.new) line.items) }
        ensures goes_on { OnOk result ((self.old.halted ≡ None) × (self.new.halted ≡ None)) }
        ensures stops { IfErr result (λ stop. self.old.halted ≡ None
            → StopsBy self.old self.new stop (LineStops self.old.buffered (S.left source.old) (S.left source.new) (S.faults source.old) (S.faults source.new))) }
        ensures again { IfSome self.old.halted (λ earlier. StopsAgain earlier result self.old self.new (S.left source.old) (S.left source.new) (S.faults source.old) (S.faults source.new)) }
        ensures reads_kept { S.faults source.old ≤ S.faults source.new }
        ensures unfailed { OnOk result (S.faults source.new ≡ S.faults source.old) }
        ensures beside_stays { S.beside source.new ≡ S.beside source.old }
    {
        if let Some(halt) = self.halted {
            return Err(Stop::from(halt));
        }
        match self.ahead.next_line(alloc, source) {
            Ok(line) => Ok(line),
            Err(halt) => Err(self.stop(halt)),
        }
    }

    /// The next `len` bytes, at most 67,108,864, as a document: its model with the bytes, or its
    /// fault.
    ///
    /// A stop is `TooMuch` where a session may not take as many, and `Cut` where the source ends
    /// before.
    pub fn next_body<S: Source>(
        &mut self,
        alloc: Global,
        source: &mut S,
        len: u64,
    ) -> Result<Spelling, Stop>
        requires { len ≤ longest_document }
        ensures body { IfOk result (λ spelling. GivesSpelling self.old.buffered self.new.buffered (S.left source.old) (S.left source.new) len spelling) }
        ensures goes_on { OnOk result ((self.old.halted ≡ None) × (self.new.halted ≡ None)) }
        ensures stops { IfErr result (λ stop. self.old.halted ≡ None
            → StopsBy self.old self.new stop (BodyStops len self.old.buffered (S.left source.old) (S.left source.new) (S.faults source.old) (S.faults source.new))) }
        ensures again { IfSome self.old.halted (λ earlier. StopsAgain earlier result self.old self.new (S.left source.old) (S.left source.new) (S.faults source.old) (S.faults source.new)) }
        ensures reads_kept { S.faults source.old ≤ S.faults source.new }
        ensures unfailed { OnOk result (S.faults source.new ≡ S.faults source.old) }
        ensures beside_stays { S.beside source.new ≡ S.beside source.old }
    {
        if let Some(halt) = self.halted {
            return Err(Stop::from(halt));
        }
        match self.ahead.next_spelling(alloc, source, len) {
            Ok(spelling) => Ok(spelling),
            Err(halt) => Err(self.stop(halt)),
        }
    }

    /// Keeps why nothing more is given, as the stop of this call and of all later ones.
    fn stop(&mut self, halt: Halt) -> Stop
        ensures kept { self.new ≡ record { buffered = self.old.buffered; halted = Some halt } }
        ensures told { result ≡ stop_of halt }
    {
        self.halted = Some(halt);
        Stop::from(halt)
    }
}
