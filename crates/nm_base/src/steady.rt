ghost use Rattle.std.specs.Prelude.{◌≡◌, ℕ, List, ◌<◌, ◌≤◌, ◌-◌, ◌↔◌, [], Some, length, min, vec_len, vec_capacity, IsOk, IsErr, IfOk};
ghost use Rattle.std.specs.Io.{ReadsAtMost, WritesAtMost};
ghost use Rattle.std.specs.Io.KnownBytes.{ReadConsumes, WriteAppends};
ghost use Rattle.nm_base.specs.Beside.{nothing_beside};
ghost use Rattle.nm_base.specs.Faults.{CountsFaults, CountsEach};

use crate::NoMemory;
use crate::count::FaultCount;
use crate::flow::{Failed, Sink, Source};
use crate::rest::Rest;
use std::alloc::Global;
use std::marker::Model;

/// A source in memory that never fails. A contract sees the bytes that are left.
#[derive(Drop)]
pub struct SteadySource {
    rest: Rest,
}

impl Model for SteadySource {
    ghost use Rattle.std.specs.Prelude.{ℕ, List};

    ghost Value = { List ℕ };

    ghost view = { λ s. s.rest };
}

impl SteadySource {
    /// A source of these bytes. Like every constructor of a type that holds a collection it is
    /// passed the allocator, which it does not need yet.
    pub fn new(_alloc: Global, bytes: Vec<u8>) -> SteadySource
        ensures { result ≡ bytes.items }
    {
        SteadySource {
            rest: Rest::new(bytes),
        }
    }
}

impl Source for SteadySource {
    ghost left = { λ s. Some s };

    ghost faults = { λ _. 0 };

    ghost beside = { λ _. nothing_beside };

    /// Gives as many bytes as are left and have room.
    fn read(&mut self, buf: &mut [u8]) -> Result<usize, Failed>
        ensures within { ReadsAtMost result buf.new }
        ensures bytes { ReadConsumes (Some self.old) (Some self.new) result buf.new }

        // Beyond the trait's clauses: no call fails, and how much it moves.
        ensures steady { IsOk result }
        ensures taken { IfOk result (λ n. n ≡ min (length buf.new) (length self.old)) }
    {
        Ok(self.rest.take(buf))
    }
}

/// A sink in memory whose room is reserved when it is made, so that it fails only once its room
/// is used up: while fewer bytes were written, no call has failed.
#[derive(Drop)]
pub struct SteadySink {
    bytes: Vec<u8>,
    room: usize,
    faults: FaultCount,
    ghost reserved: { room ≤ vec_capacity bytes },
    ghost within: { vec_len bytes ≤ room },
    pub ghost steady: { length bytes.items < room → faults ≡ 0 },
}

impl SteadySink {
    ghost use Rattle.nm_base.specs.SteadySink.{bytes_of, room_of, faults_of};

    /// An empty sink that takes `room` bytes in all.
    pub fn new(alloc: Global, room: usize) -> Result<SteadySink, NoMemory>
        ensures empty { IfOk result (λ sink. bytes_of sink ≡ []) }
        ensures room { IfOk result (λ sink. room_of sink ≡ room) }
        ensures faultless { IfOk result (λ sink. faults_of sink ≡ 0) }
    {
        Ok(SteadySink {
            bytes: Vec::with_capacity(alloc, room)?,
            room,
            faults: FaultCount::new(),
        })
    }

    /// What was written.
    pub fn bytes(&self) -> &[u8]
        ensures { result.now ≡ bytes_of self.now }
    {
        &self.bytes
    }
}

impl Sink for SteadySink {
    ghost use Rattle.nm_base.specs.SteadySink.{bytes_of, room_of, room_left, faults_of, told_by, room_beside};

    ghost written = { told_by };

    ghost faults = { faults_of };

    ghost beside = { room_beside };

    /// Takes as many bytes of the piece as there is room for. It fails where the piece is
    /// not empty and no room is left.
    fn write(&mut self, bytes: &[u8]) -> Result<usize, Failed>
        ensures within { WritesAtMost result bytes.now }
        ensures progress { IfOk result (λ n. 0 < length bytes.now → 0 < n) }
        ensures bytes { WriteAppends (told_by self.old) (told_by self.new) result bytes.now }
        ensures counted { CountsFaults (faults_of self.old) (faults_of self.new) result }
        ensures beside_stays { room_beside self.new ≡ room_beside self.old }

        // Beyond the trait's clauses: how much it takes, and when it fails.
        ensures taken { IfOk result (λ n. n ≡ min (length bytes.now) (room_left self.old)) }
        ensures full { IsErr result ↔ ((0 < length bytes.now) × (room_left self.old ≡ 0)) }
        ensures each { CountsEach (faults_of self.old) (faults_of self.new) result }
    {
        let taken = bytes.len().min(self.room - self.bytes.len());
        if taken == 0 && !bytes.is_empty() {
            return Err(self.faults.raise());
        }
        // The memory was reserved when the sink was made.
        self.bytes.extend_from_slice(&bytes[..taken]).unwrap();
        Ok(taken)
    }
}
