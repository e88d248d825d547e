ghost use Rattle.std.specs.Prelude.{◌≡◌, ℕ, ◌<◌, None, length, take, IfOk};
ghost use Rattle.std.specs.Io.{ReadsAtMost, WritesAtMost};
ghost use Rattle.std.specs.Io.KnownBytes.{Appends, ReadConsumes};
ghost use Rattle.nm_base.specs.Beside.{nothing_beside};
ghost use Rattle.nm_base.specs.Faults.{CountsFaults, CountsEach};
ghost use Rattle.nm_base.specs.ReadSource.{reader_of, read_faults};
ghost use Rattle.nm_base.specs.WriteSink.{writer_of, write_faults};

use crate::count::FaultCount;
use crate::flow::{Failed, Sink, Source};
use std::io;
use std::io::{Read, Write};

/// A reader as a source. It tells nothing of what it gives, and each error of the reader is a
/// fault, an interrupted call too.
#[derive(Drop)]
pub struct ReadSource<R> {
    inner: R,
    faults: FaultCount,
}

impl<R> ReadSource<R> {
    /// A source over `inner`, with no fault yet.
    pub fn new(inner: R) -> ReadSource<R>
        ensures reader { reader_of result ≡ inner }
        ensures faultless { read_faults result ≡ 0 }
    {
        ReadSource {
            inner,
            faults: FaultCount::new(),
        }
    }
}

impl<R: Read> Source for ReadSource<R> {
    ghost left = { λ _. None };

    ghost faults = { read_faults };

    ghost beside = { λ _. nothing_beside };

    /// Reads once from the reader, and fails where that fails.
    fn read(&mut self, buf: &mut [u8]) -> Result<usize, Failed>
        ensures within { ReadsAtMost result buf.new }
        ensures counted { CountsFaults (read_faults self.old) (read_faults self.new) result }

        // Beyond the trait's clauses: each error is one fault, and known bytes pass on as they are.
        ensures each { CountsEach (read_faults self.old) (read_faults self.new) result }
        ensures passed_on { ReadConsumes (R.remaining (reader_of self.old)) (R.remaining (reader_of self.new)) result buf.new }
    {
        match self.inner.read(buf) {
            Ok(count) => Ok(count),
            Err(_) => Err(self.faults.raise()),
        }
    }
}

/// A writer as a sink, which flushes it after each write. It tells nothing of what was written.
/// A fault is each error of the writer or of its flush, and a write that takes no byte of a piece
/// that is not empty.
#[derive(Drop)]
pub struct WriteSink<W> {
    inner: W,
    faults: FaultCount,
}

impl<W> WriteSink<W> {
    /// A sink over `inner`, with no fault yet.
    pub fn new(inner: W) -> WriteSink<W>
        ensures writer { writer_of result ≡ inner }
        ensures faultless { write_faults result ≡ 0 }
    {
        WriteSink {
            inner,
            faults: FaultCount::new(),
        }
    }
}

impl<W: Write> Sink for WriteSink<W> {
    ghost written = { λ _. None };

    ghost faults = { write_faults };

    ghost beside = { λ _. nothing_beside };

    /// Writes once to the writer and flushes it. Where the flush fails, nothing is said of the
    /// bytes that the writer took before.
    fn write(&mut self, bytes: &[u8]) -> Result<usize, Failed>
        ensures within { WritesAtMost result bytes.now }
        ensures progress { IfOk result (λ n. 0 < length bytes.now → 0 < n) }
        ensures counted { CountsFaults (write_faults self.old) (write_faults self.new) result }

        // Beyond the trait's clauses: each error is one fault, and known bytes pass on as they are.
        ensures each { CountsEach (write_faults self.old) (write_faults self.new) result }
        ensures passed_on { IfOk result (λ n. Appends (W.contents (writer_of self.old)) (W.contents (writer_of self.new)) (take n bytes.now)) }
    {
        match write_through(&mut self.inner, bytes) {
            Ok(count) if count > 0 || bytes.is_empty() => Ok(count),
            _ => Err(self.faults.raise()),
        }
    }
}

/// Writes once, and flushes.
fn write_through<W: Write>(writer: &mut W, bytes: &[u8]) -> io::Result<usize>
    ensures within { WritesAtMost result bytes.now }
    ensures passed_on { IfOk result (λ n. Appends (W.contents writer.old) (W.contents writer.new) (take n bytes.now)) }
{
    let count = writer.write(bytes)?;
    writer.flush()?;
    Ok(count)
}
