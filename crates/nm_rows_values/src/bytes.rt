//! Sources and sinks: over a reader and a writer, and in memory.
ghost use Rattle.std.specs.Prelude.{◌≤◌, length, IsOk};
ghost use Rattle.nm_base.specs.SteadySink.{room_left};

use nm_base::{
    Failed, MemorySink, MemorySource, ReadSource, Sink, Source, Status, SteadySink, SteadySource,
    WriteSink, write_whole,
};
use nm_ident::NoMemory;
use std::alloc::Global;
use std::io;
use std::io::{ErrorKind, Read, Write};

/// A writer of two bytes a call, whose first calls may fail. It keeps how many bytes stood written
/// at each flush.
#[derive(Drop)]
struct SlowWriter {
    written: Vec<u8>,
    flushed: Vec<usize>,
    failing_writes: u32,
    failing_flushes: u32,
}

impl Write for SlowWriter {
    fn write(&mut self, buf: &[u8]) -> io::Result<usize> {
        if self.failing_writes > 0 {
            self.failing_writes -= 1;
            return Err(ErrorKind::Interrupted.into());
        }
        let count = buf.len().min(2);
        self.written.extend_from_slice(&buf[..count])?;
        Ok(count)
    }

    fn flush(&mut self) -> io::Result<()> {
        if self.failing_flushes > 0 {
            self.failing_flushes -= 1;
            return Err(ErrorKind::Interrupted.into());
        }
        self.flushed.push(self.written.len())?;
        Ok(())
    }
}

fn slow_writer(alloc: Global) -> SlowWriter {
    SlowWriter {
        written: Vec::new(alloc),
        flushed: Vec::new(alloc),
        failing_writes: 0,
        failing_flushes: 0,
    }
}

/// A writer that is full.
#[derive(Drop)]
struct FullWriter;

impl Write for FullWriter {
    fn write(&mut self, _buf: &[u8]) -> io::Result<usize> {
        Ok(0)
    }

    fn flush(&mut self) -> io::Result<()> {
        Ok(())
    }
}

/// A reader whose first call is interrupted.
#[derive(Drop)]
struct InterruptedReader {
    was_interrupted: bool,
}

impl Read for InterruptedReader {
    fn read(&mut self, buf: &mut [u8]) -> io::Result<usize> {
        if !self.was_interrupted {
            self.was_interrupted = true;
            return Err(ErrorKind::Interrupted.into());
        }
        b"end".as_slice().read(buf)
    }
}

fn is_canon_written(writer: &mut SlowWriter) -> bool {
    let mut sink = WriteSink::new(writer);
    write_whole(&mut sink, b"canon") == Ok(())
}

fn holds_canon(writer: &SlowWriter) -> bool {
    writer.written.as_slice() == b"canon".as_slice()
        && writer.flushed.as_slice() == [2, 4, 5].as_slice()
}

#[test]
fn a_write_sink_flushes_after_each_write(rt: HostRuntime) {
    let mut writer = slow_writer(rt.alloc());
    assert!(rt; is_canon_written(&mut writer) && holds_canon(&writer));
}

/// Whether two writes of a byte fail, and the third is done.
fn fails_twice(writer: &mut SlowWriter) -> bool {
    let mut sink = WriteSink::new(writer);
    sink.write(b"x") == Err(Failed) && sink.write(b"x") == Err(Failed) && sink.write(b"x") == Ok(1)
}

#[test]
fn a_call_of_a_writer_is_not_tried_again(rt: HostRuntime) {
    let mut writer = slow_writer(rt.alloc());
    writer.failing_writes = 1;
    writer.failing_flushes = 1;
    assert!(rt; fails_twice(&mut writer));
}

#[test]
fn a_full_writer_is_a_fault(rt: HostRuntime) {
    let mut full = WriteSink::new(FullWriter);
    assert!(rt; full.write(b"") == Ok(0));
    assert!(rt; full.write(b"x") == Err(Failed));
}

#[test]
fn a_read_source_goes_on_after_a_fault(rt: HostRuntime) {
    let mut source = ReadSource::new(InterruptedReader {
        was_interrupted: false,
    });
    let mut buf = [0; 8];
    assert!(rt; source.read(&mut buf) == Err(Failed));
    assert!(rt; source.read(&mut buf) == Ok(3));
    assert!(rt; buf[..3] == b"end"[..]);
}

/// A reader that ends at its first call, and has bytes at its second. It counts its calls.
#[derive(Drop)]
struct ReopenedReader {
    calls: u32,
}

impl Read for ReopenedReader {
    fn read(&mut self, buf: &mut [u8]) -> io::Result<usize> {
        self.calls = self.calls.saturating_add(1);
        if self.calls == 1 {
            return Ok(0);
        }
        b"more".as_slice().read(buf)
    }
}

/// Whether one call of the source is one call of the reader, whose end it tells.
fn tells_the_end_once(reader: &mut ReopenedReader) -> bool {
    let mut source = ReadSource::new(reader);
    source.read(&mut [0; 8]) == Ok(0)
}

#[test]
fn a_read_source_asks_once_at_the_end_of_the_input(rt: HostRuntime) {
    let mut reader = ReopenedReader { calls: 0 };
    assert!(rt; tells_the_end_once(&mut reader));
    assert!(rt; reader.calls == 1);
}

/// A source of four bytes, which fails at the first call and at the third.
fn memory_source(alloc: Global) -> Result<MemorySource, NoMemory> {
    let fails = vec![in alloc; 0, 2]?;
    Ok(MemorySource::new(alloc, b"base".to_vec(alloc)?, fails))
}

fn fails(source: &mut MemorySource) -> bool {
    source.read(&mut [0; 3]) == Err(Failed)
}

/// Whether these bytes are read into room for three.
fn reads(source: &mut MemorySource, due: &[u8]) -> bool {
    let mut buf = [0; 3];
    match source.read(&mut buf) {
        Ok(count) => &buf[..count] == due,
        Err(Failed) => false,
    }
}

fn fails_as_listed(source: &mut MemorySource) -> bool {
    fails(source)
        && reads(source, b"bas")
        && fails(source)
        && reads(source, b"e")
        && reads(source, b"")
}

#[test]
fn a_memory_source_fails_at_the_listed_calls(rt: HostRuntime) -> Result<(), NoMemory> {
    let mut source = memory_source(rt.alloc())?;
    assert!(rt; fails_as_listed(&mut source));
    Ok(())
}

/// A sink in memory, which fails at the second call.
fn memory_sink(alloc: Global) -> Result<MemorySink, NoMemory> {
    Ok(MemorySink::new(alloc, vec![in alloc; 1]?))
}

fn keeps_what_it_took(sink: &mut MemorySink) -> bool {
    write_whole(sink, b"base") == Ok(())
        && write_whole(sink, b"lost") == Err(Failed)
        && write_whole(sink, b"d") == Ok(())
        && sink.bytes() == b"based".as_slice()
}

#[test]
fn a_memory_sink_keeps_what_it_took(rt: HostRuntime) -> Result<(), NoMemory> {
    let mut sink = memory_sink(rt.alloc())?;
    assert!(rt; keeps_what_it_took(&mut sink));
    Ok(())
}

/// Whether a sink in memory takes a mebibyte, at once.
fn does_memory_take_a_mebibyte(alloc: Global) -> Result<bool, NoMemory> {
    let mut sink = MemorySink::new(alloc, Vec::new(alloc));
    let text = vec![in alloc; b'x'; 1_048_576]?;
    Ok(write_whole(&mut sink, &text) == Ok(()) && sink.bytes().len() == 1_048_576)
}

#[test]
fn a_memory_sink_takes_a_mebibyte(rt: HostRuntime) -> Result<(), NoMemory> {
    assert!(rt; does_memory_take_a_mebibyte(rt.alloc())?);
    Ok(())
}

fn is_end_read(alloc: Global) -> Result<bool, NoMemory> {
    let mut source = SteadySource::new(alloc, b"end\n".to_vec(alloc)?);
    Ok(source.read(&mut [0; 8]) == Ok(4))
}

/// Whether the text fits once, and then a part of it.
fn takes_one_and_a_half(sink: &mut SteadySink) -> bool {
    write_whole(sink, b"end\n") == Ok(())
        && write_whole(sink, b"end\n") == Err(Failed)
        && sink.bytes() == b"end\nen".as_slice()
}

fn does_room_of_six_take_one_and_a_half(alloc: Global) -> Result<bool, NoMemory> {
    let mut sink = SteadySink::new(alloc, 6)?;
    Ok(takes_one_and_a_half(&mut sink))
}

#[test]
fn a_steady_pair_has_no_fault_within_its_room(rt: HostRuntime) -> Result<(), NoMemory> {
    assert!(rt; is_end_read(rt.alloc())?);
    assert!(rt; does_room_of_six_take_one_and_a_half(rt.alloc())?);
    Ok(())
}

/// A caller of a steady sink has to know of no more than its room.
fn write_fitting(sink: &mut SteadySink, text: &[u8]) -> Result<(), Failed>
    requires { length text.now ≤ room_left sink.old }
    ensures { IsOk result }
{
    write_whole(sink, text)
}

#[test]
fn a_run_ends_with_the_number_of_its_status(rt: HostRuntime) {
    assert!(rt; Status::DoorFault.code() == 10);
}
