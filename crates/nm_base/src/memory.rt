ghost use Rattle.std.specs.Prelude.{◌≡◌, ℕ, ◌<◌, Some, length, min, is_err, IsTrue, IsErr, IfOk};
ghost use Rattle.std.specs.Io.{ReadsAtMost, WritesAtMost};
ghost use Rattle.std.specs.Io.KnownBytes.{ReadConsumes, WriteAppends};
ghost use Rattle.nm_base.specs.Beside.{nothing_beside};
ghost use Rattle.nm_base.specs.Faults.{CountsFaults};
ghost use Rattle.nm_base.specs.Plan.{fails_next, Advances};
ghost use Rattle.nm_base.specs.MemorySource.{supply_of};
ghost use Rattle.nm_base.specs.MemorySink.{empty_intake};

use crate::flow::{Failed, Sink, Source};
use crate::plan::FaultPlan;
use crate::rest::Rest;
use std::alloc::Global;
use std::marker::Model;

/// A source in memory that fails at chosen calls. It tells what is left.
#[derive(Drop)]
pub struct MemorySource {
    rest: Rest,
    plan: FaultPlan,
}

impl Model for MemorySource {
    ghost use Rattle.nm_base.specs.MemorySource.{Supply};

    ghost Value = { Supply };

    ghost view = { λ s. record { left = s.rest; plan = s.plan } };
}

impl MemorySource {
    /// A source of these bytes. The calls of `read` whose numbers are in `fails` fail, where the
    /// first call is number 0. Like every constructor of a type that holds a collection it is
    /// passed the allocator, which it does not need yet.
    pub fn new(_alloc: Global, bytes: Vec<u8>, fails: Vec<u32>) -> MemorySource
        ensures { result ≡ supply_of bytes.items fails.items }
    {
        MemorySource {
            rest: Rest::new(bytes),
            plan: FaultPlan::new(fails),
        }
    }
}

impl Source for MemorySource {
    ghost left = { λ s. Some s.left };

    ghost faults = { λ s. s.plan.faults };

    ghost beside = { λ _. nothing_beside };

    /// Gives as many bytes as are left and have room. It fails exactly at the listed calls.
    fn read(&mut self, buf: &mut [u8]) -> Result<usize, Failed>
        ensures within { ReadsAtMost result buf.new }
        ensures bytes { ReadConsumes (Some self.old.left) (Some self.new.left) result buf.new }
        ensures counted { CountsFaults self.old.plan.faults self.new.plan.faults result }

        // Beyond the trait's clauses: when the call fails, and how much it moves.
        ensures listed { is_err result ≡ fails_next self.old.plan }
        ensures taken { IfOk result (λ n. n ≡ min (length buf.new) (length self.old.left)) }
        ensures plan { Advances self.old.plan self.new.plan result }
    {
        self.plan.begin_call()?;
        Ok(self.rest.take(buf))
    }
}

/// A sink in memory that fails at chosen calls. It tells what was written.
#[derive(Drop)]
pub struct MemorySink {
    bytes: Vec<u8>,
    plan: FaultPlan,
}

impl Model for MemorySink {
    ghost use Rattle.nm_base.specs.MemorySink.{Intake};

    ghost Value = { Intake };

    ghost view = { λ s. record { written = s.bytes.items; plan = s.plan } };
}

impl MemorySink {
    /// An empty sink. The calls of `write` whose numbers are in `fails` fail, where the first
    /// call is number 0.
    pub fn new(alloc: Global, fails: Vec<u32>) -> MemorySink
        ensures { result ≡ empty_intake fails.items }
    {
        MemorySink {
            bytes: Vec::new(alloc),
            plan: FaultPlan::new(fails),
        }
    }

    /// What was written.
    pub fn bytes(&self) -> &[u8]
        ensures { result.now ≡ self.now.written }
    {
        &self.bytes
    }
}

impl Sink for MemorySink {
    ghost written = { λ s. Some s.written };

    ghost faults = { λ s. s.plan.faults };

    ghost beside = { λ _. nothing_beside };

    /// Takes the whole piece. It fails at the listed calls, and where memory for the piece is
    /// wanting.
    fn write(&mut self, bytes: &[u8]) -> Result<usize, Failed>
        ensures within { WritesAtMost result bytes.now }
        ensures progress { IfOk result (λ n. 0 < length bytes.now → 0 < n) }
        ensures bytes { WriteAppends (Some self.old.written) (Some self.new.written) result bytes.now }
        ensures counted { CountsFaults self.old.plan.faults self.new.plan.faults result }

        // Beyond the trait's clauses: when the call fails, and how much it moves.
        ensures listed { IsTrue (fails_next self.old.plan) → IsErr result }
        ensures whole { IfOk result (λ n. n ≡ length bytes.now) }
        ensures plan { Advances self.old.plan self.new.plan result }
    {
        self.plan.begin_call()?;
        match self.bytes.extend_from_slice(bytes) {
            Ok(()) => Ok(bytes.len()),
            Err(_) => Err(self.plan.fault()),
        }
    }
}
