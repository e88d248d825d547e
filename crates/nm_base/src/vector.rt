ghost use Rattle.std.specs.Prelude.{◌≡◌, ◌-◌, ◌^◌, ◌<◌, Some, length, IfOk};
ghost use Rattle.std.specs.Io.{WritesAtMost};
ghost use Rattle.std.specs.Io.KnownBytes.{WriteAppends};
ghost use Rattle.nm_base.specs.Beside.{nothing_beside};
ghost use Rattle.nm_base.specs.Faults.{CountsFaults};

use crate::flow::{Failed, Sink};

/// A vector takes what is written to it, and fails only for want of memory.
impl Sink for Vec<u8> {
    ghost written = { λ bytes. Some bytes.items };

    // It counts nothing: any of its calls may fail, as where the count stands at the end of its type.
    ghost faults = { λ _. 2 ^ 64 - 1 };

    ghost beside = { λ _. nothing_beside };

    fn write(&mut self, bytes: &[u8]) -> Result<usize, Failed>
        ensures within { WritesAtMost result bytes.now }
        ensures progress { IfOk result (λ n. 0 < length bytes.now → 0 < n) }
        ensures bytes { WriteAppends (Some self.old.items) (Some self.new.items) result bytes.now }

        // Beyond the trait's clauses: it takes the whole piece.
        ensures whole { IfOk result (λ n. n ≡ length bytes.now) }
    {
        match self.extend_from_slice(bytes) {
            Ok(()) => Ok(bytes.len()),
            Err(_) => Err(Failed),
        }
    }
}
