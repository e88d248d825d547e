// A connection in memory.
ghost use Rattle.nm_base.specs.Faults.{CountsFaults};
ghost use Rattle.nm_base.specs.Plan.{Advances, fails_next};
ghost use Rattle.nm_service.specs.MemoryLink.{left_beside, wire_of, written_beside};
ghost use Rattle.std.specs.Io.KnownBytes.{ReadConsumes, WriteAppends};
ghost use Rattle.std.specs.Io.{ReadsAtMost, WritesAtMost};
ghost use Rattle.std.specs.Prelude.{◌≡◌, ◌<◌, IfOk, IsErr, IsTrue, Some, is_err, length, min, refl};

use crate::link::Link;
use nm_base::{Failed, MemorySink, MemorySource, Sink, Source};
use std::alloc::Global;
use std::marker::Model;

/// A link in memory that fails at chosen calls. It tells what is left and what was written.
#[derive(Drop)]
pub struct MemoryLink {
    source: MemorySource,
    sink: MemorySink,
}

impl Model for MemoryLink {
    ghost use Rattle.nm_service.specs.MemoryLink.{Wire};

    ghost Value = { Wire };

    ghost view = { λ link. record { supply = link.source; intake = link.sink } };
}

impl MemoryLink {
    /// A link whose client sends `input`. The reads whose numbers are in `reads` fail, and the writes
    /// whose numbers are in `writes`, where the first call of each is number 0.
    pub fn new(alloc: Global, input: Vec<u8>, reads: Vec<u32>, writes: Vec<u32>) -> MemoryLink
        ensures { result ≡ wire_of input.items reads.items writes.items }
    {
        MemoryLink {
            source: MemorySource::new(alloc, input, reads),
            sink: MemorySink::new(alloc, writes),
        }
    }

    /// What was written.
    pub fn bytes(&self) -> &[u8]
        ensures { result.now ≡ self.now.intake.written }
    {
        self.sink.bytes()
    }
}

impl Source for MemoryLink {
    ghost left = { λ link. Some link.supply.left };

    ghost faults = { λ link. link.supply.plan.faults };

    ghost beside = { written_beside };

    /// Gives as many bytes as are left and have room. It fails exactly at the listed reads.
    fn read(&mut self, buf: &mut [u8]) -> Result<usize, Failed>
        ensures within { ReadsAtMost result buf.new }
        ensures bytes { ReadConsumes (Some self.old.supply.left) (Some self.new.supply.left) result buf.new }
        ensures counted { CountsFaults self.old.supply.plan.faults self.new.supply.plan.faults result }
        ensures beside_stays { written_beside self.new ≡ written_beside self.old }

        // Beyond the trait's clauses: when the call fails, how much it moves, and what stays.
        ensures listed { is_err result ≡ fails_next self.old.supply.plan }
        ensures taken { IfOk result (λ n. n ≡ min (length buf.new) (length self.old.supply.left)) }
        ensures plan { Advances self.old.supply.plan self.new.supply.plan result }
        ensures intake { self.new.intake ≡ self.old.intake }
    {
        self.source.read(buf)
    }
}

impl Sink for MemoryLink {
    ghost written = { λ link. Some link.intake.written };

    ghost faults = { λ link. link.intake.plan.faults };

    ghost beside = { left_beside };

    /// Takes the whole piece. It fails at the listed writes, and where memory for the piece is
    /// wanting.
    fn write(&mut self, bytes: &[u8]) -> Result<usize, Failed>
        ensures within { WritesAtMost result bytes.now }
        ensures progress { IfOk result (λ n. 0 < length bytes.now → 0 < n) }
        ensures bytes { WriteAppends (Some self.old.intake.written) (Some self.new.intake.written) result bytes.now }
        ensures counted { CountsFaults self.old.intake.plan.faults self.new.intake.plan.faults result }
        ensures beside_stays { left_beside self.new ≡ left_beside self.old }

        // Beyond the trait's clauses: when the call fails, how much it moves, and what stays.
        ensures listed { IsTrue (fails_next self.old.intake.plan) → IsErr result }
        ensures whole { IfOk result (λ n. n ≡ length bytes.now) }
        ensures plan { Advances self.old.intake.plan self.new.intake.plan result }
        ensures supply { self.new.supply ≡ self.old.supply }
    {
        self.sink.write(bytes)
    }
}

impl Link for MemoryLink {
    ghost beside_reads = { λ _. record { bytes_are = refl; faults_are = refl } };

    ghost beside_writes = { λ _. record { bytes_are = refl; faults_are = refl } };
}
