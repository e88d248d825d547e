// What is read ahead of a session, and given as lines and documents.
ghost use Rattle.std.specs.Prelude.{◌≡◌, ◌≢◌, ◌+◌, ◌-◌, ◌<◌, ◌≤◌, [], ◌++◌, length, take, drop, min, None, position, IfOk, IfErr, OnErr, OnOk};
ghost use Rattle.std.specs.Io.KnownBytes.{Consumes, IsAtEnd};
ghost use Rattle.nm_session.specs.Limits.{longest_line, longest_session};
ghost use Rattle.nm_session.specs.Stream.{is_line_feed};
ghost use Rattle.nm_session.specs.Buffered.{Buffered};
ghost use Rattle.nm_session.specs.Ahead.{FewerCome, NoLineFeedComes, ReadsAhead, ReadsNoMore};
ghost use Rattle.nm_session.specs.Input.{CountsReads, GivesLine, GivesSpelling, NoBodyBy, NoLineBy};
ghost use Rattle.nm_session.specs.declared.halt.Halt.TheVariants.{BadLine, TooMuch};

use crate::body::Spelling;
use crate::halt::Halt;
use crate::limits::{LONGEST_LINE, LONGEST_SESSION};
use nm_base::{NoMemory, Source};
use std::alloc::Global;
use std::marker::Model;

/// The bytes among which a line has to end: those of the longest line, and its line feed.
const LINE_ROOM: u64 = LONGEST_LINE + 1;

/// How many bytes are asked for at once.
const CHUNK: usize = 65_536;

/// The bytes read ahead, and how many were given so far.
#[derive(Drop)]
pub struct Ahead {
    ahead: Vec<u8>,
    start: usize,
    given: u64,
}

impl Model for Ahead {
    ghost use Rattle.std.specs.Prelude.{◌≤◌, drop, length};
    ghost use Rattle.nm_session.specs.Buffered.{Buffered};
    ghost use Rattle.nm_session.specs.Limits.{longest_session};

    ghost Value = { Buffered };

    ghost view = { λ i. record { ahead = drop i.start i.ahead.items; given = i.given } };

    ghost invariant = { λ i. (i.start ≤ length i.ahead.items) × (i.given ≤ longest_session) };
}

impl Ahead {
    /// Nothing, of which nothing was given.
    pub fn new(alloc: Global) -> Ahead
        ensures { result ≡ record { ahead = []; given = 0 } }
    {
        Ahead {
            ahead: Vec::new(alloc),
            start: 0,
            given: 0,
        }
    }

    /// How many bytes were given as lines and documents.
    pub fn offset(&self) -> u64
        ensures given { result ≡ self.now.given }
        ensures limit { result ≤ longest_session }
    {
        self.given
    }

    /// The next line without its line feed.
    ///
    /// `BadLine` where more than 256 bytes come before a line feed, `TooMuch` where the session may
    /// take no more bytes, and `Cut` where the source ends before.
    pub fn next_line<S: Source>(&mut self, alloc: Global, source: &mut S) -> Result<Vec<u8>, Halt>
        ensures line { IfOk result (λ line. GivesLine self.old self.new (S.left source.old) (S.left source.new) line.items) }
        ensures why { IfErr result (λ halt. NoLineBy halt self.old (S.left source.old)) }
        ensures stays { OnErr result (self.new.given ≡ self.old.given) }
        ensures counted { CountsReads (S.faults source.old) (S.faults source.new) (S.left source.new) result }
        ensures beside_stays { S.beside source.new ≡ S.beside source.old }
    {
        let room = self.room(LINE_ROOM);
        match self.seek_line_end(alloc, source, room)? {
            Some(place) => {
                let line = self.front(alloc, place)?;
                self.give(place + 1);
                Ok(line)
            }
            None => Err(self.no_line(room)),
        }
    }

    /// The next `len` bytes, as a document.
    ///
    /// `TooMuch` where the session may not take as many, and `Cut` where the source ends before.
    pub fn next_spelling<S: Source>(
        &mut self,
        alloc: Global,
        source: &mut S,
        len: u64,
    ) -> Result<Spelling, Halt>
        ensures spelling { IfOk result (λ spelling. GivesSpelling self.old self.new (S.left source.old) (S.left source.new) len spelling) }
        ensures why { IfErr result (λ halt. NoBodyBy halt len self.old (S.left source.old)) }
        ensures stays { OnErr result (self.new.given ≡ self.old.given) }
        ensures counted { CountsReads (S.faults source.old) (S.faults source.new) (S.left source.new) result }
        ensures beside_stays { S.beside source.new ≡ S.beside source.old }
    {
        let room = self.room(len);
        self.read_ahead(alloc, source, room)?;
        if (room as u64) < len {
            return Err(Halt::TooMuch);
        }
        let body = self.front(alloc, room)?;
        let spelling = Spelling::read(alloc, body)?;
        self.give(room);
        Ok(spelling)
    }

    /// How many of the wanted bytes the session may still take.
    fn room(&self, wanted: u64) -> usize
        ensures room { result ≡ min wanted (longest_session - self.now.given) }
        ensures limit { self.now.given + result ≤ longest_session }
    {
        wanted.min(LONGEST_SESSION - self.given) as usize
    }

    /// Why no line ends within the room that there is.
    fn no_line(&self, room: usize) -> Halt
        ensures long { room ≡ longest_line + 1 → result ≡ BadLine self.now.given }
        ensures full { room ≢ longest_line + 1 → result ≡ TooMuch }
    {
        if room == LINE_ROOM as usize {
            Halt::BadLine(self.given)
        } else {
            Halt::TooMuch
        }
    }

    /// How many bytes are read ahead.
    fn buffered(&self) -> usize
        ensures { result ≡ length self.now.ahead }
    {
        self.ahead.len() - self.start
    }

    /// The place of the first line feed among the first bytes, at most `room`.
    fn line_end(&self, room: usize) -> Option<usize>
        ensures { result ≡ position is_line_feed (take room self.now.ahead) }
    {
        line_feed_place(front_of(&self.ahead[self.start..], room))
    }

    /// A copy of the first bytes.
    fn front(&self, alloc: Global, count: usize) -> Result<Vec<u8>, NoMemory>
        requires { count ≤ length self.now.ahead }
        ensures { IfOk result (λ bytes. bytes.items ≡ take count self.now.ahead) }
    {
        self.ahead[self.start..self.start + count].to_vec(alloc)
    }

    /// Counts the first bytes as given.
    fn give(&mut self, count: usize)
        requires buffered { count ≤ length self.old.ahead }
        requires limit { self.old.given + count ≤ longest_session }
        ensures { self.new ≡ record { ahead = drop count self.old.ahead; given = self.old.given + count } }
    {
        self.start += count;
        self.given += count as u64;
    }

    /// Reads ahead until a line feed is among the first `room` bytes, or all of these are
    /// buffered. The answer is the place of the first one.
    fn seek_line_end<S: Source>(
        &mut self,
        alloc: Global,
        source: &mut S,
        room: usize,
    ) -> Result<Option<usize>, Halt>
        ensures ahead { OnOk result (ReadsAhead self.old self.new (S.left source.old) (S.left source.new)) }
        ensures place { IfOk result (λ place. place ≡ position is_line_feed (take room self.new.ahead)) }
        ensures buffered { IfOk result (λ place. place ≡ None → room ≤ length self.new.ahead) }
        ensures why { IfErr result (λ halt. ReadsNoMore (NoLineFeedComes room self.old (S.left source.old)) halt) }
        ensures stays { OnErr result (self.new.given ≡ self.old.given) }
        ensures counted { CountsReads (S.faults source.old) (S.faults source.new) (S.left source.new) result }
        ensures beside_stays { S.beside source.new ≡ S.beside source.old }
    {
        'reading: loop {
            let place = self.line_end(room);
            if place.is_some() || self.buffered() >= room {
                return Ok(place);
            }
            self.fill(alloc, source)?;
        }
    }

    /// Reads ahead until `room` bytes are buffered.
    fn read_ahead<S: Source>(
        &mut self,
        alloc: Global,
        source: &mut S,
        room: usize,
    ) -> Result<(), Halt>
        ensures ahead { OnOk result (ReadsAhead self.old self.new (S.left source.old) (S.left source.new)) }
        ensures buffered { OnOk result (room ≤ length self.new.ahead) }
        ensures why { IfErr result (λ halt. ReadsNoMore (FewerCome room self.old (S.left source.old)) halt) }
        ensures stays { OnErr result (self.new.given ≡ self.old.given) }
        ensures counted { CountsReads (S.faults source.old) (S.faults source.new) (S.left source.new) result }
        ensures beside_stays { S.beside source.new ≡ S.beside source.old }
    {
        'reading: while self.buffered() < room {
            self.fill(alloc, source)?;
        }
        Ok(())
    }

    /// Reads what comes next. `Cut` at the end of the source.
    fn fill<S: Source>(&mut self, alloc: Global, source: &mut S) -> Result<(), Halt>
        ensures ahead { OnOk result (ReadsAhead self.old self.new (S.left source.old) (S.left source.new)) }
        ensures more { OnOk result (length self.old.ahead < length self.new.ahead) }
        ensures why { IfErr result (λ halt. ReadsNoMore (IsAtEnd (S.left source.old)) halt) }
        ensures stays { OnErr result (self.new.given ≡ self.old.given) }
        ensures counted { CountsReads (S.faults source.old) (S.faults source.new) (S.left source.new) result }
        ensures beside_stays { S.beside source.new ≡ S.beside source.old }
    {
        let mut chunk = [0; CHUNK];
        let count = read_some(source, &mut chunk)?;
        self.keep(alloc, &chunk[..count])?;
        Ok(())
    }

    /// Keeps bytes behind those read ahead.
    fn keep(&mut self, alloc: Global, bytes: &[u8]) -> Result<(), NoMemory>
        ensures stays { OnErr result (self.new.given ≡ self.old.given) }
        ensures kept { OnOk result (self.new ≡ record { ahead = self.old.ahead ++ bytes.now; given = self.old.given }) }
    {
        self.drop_given(alloc)?;
        self.ahead.extend_from_slice(bytes)
    }

    /// Lets go of the bytes that were given.
    fn drop_given(&mut self, alloc: Global) -> Result<(), NoMemory>
        ensures stays { OnErr result (self.new.given ≡ self.old.given) }
        ensures same { OnOk result (self.new ≡ self.old) }
    {
        if self.start > 0 {
            self.ahead = self.ahead[self.start..].to_vec(alloc)?;
            self.start = 0;
        }
        Ok(())
    }
}

/// The first bytes, at most `room`.
fn front_of(bytes: &[u8], room: usize) -> &[u8]
    ensures { result.now ≡ take room bytes.now }
{
    &bytes[..bytes.len().min(room)]
}

/// The place of the first line feed.
fn line_feed_place(bytes: &[u8]) -> Option<usize>
    ensures { result ≡ position is_line_feed bytes.now }
{
    bytes.iter().position(|byte| *byte == b'\n')
}

/// Reads at least one byte. `Cut` at the end of the source.
fn read_some<S: Source>(source: &mut S, chunk: &mut [u8]) -> Result<usize, Halt>
    requires { 0 < length chunk.old }
    ensures within { IfOk result (λ count. (0 < count) × (count ≤ length chunk.new)) }
    ensures bytes { IfOk result (λ count. Consumes (S.left source.old) (S.left source.new) (take count chunk.new)) }
    ensures why { IfErr result (λ halt. ReadsNoMore (IsAtEnd (S.left source.old)) halt) }
    ensures counted { CountsReads (S.faults source.old) (S.faults source.new) (S.left source.new) result }
    ensures beside_stays { S.beside source.new ≡ S.beside source.old }
{
    match source.read(chunk) {
        Ok(0) => Err(Halt::Cut),
        Ok(count) => Ok(count),
        Err(_) => Err(Halt::ReadFault),
    }
}
