ghost use Rattle.std.specs.Prelude.{◌≡◌, ℕ, List, ◌++◌, length, take, min};

use std::marker::Model;

/// Bytes in memory that are taken from the front. A contract sees those that are left.
#[derive(Drop)]
pub(crate) struct Rest {
    bytes: Vec<u8>,
    at: usize,
}

impl Model for Rest {
    ghost use Rattle.std.specs.Prelude.{ℕ, ◌≤◌, List, drop, length};

    ghost Value = { List ℕ };

    ghost view = { λ r. drop r.at r.bytes.items };

    ghost invariant = { λ r. r.at ≤ length r.bytes.items };
}

impl Rest {
    pub(crate) fn new(bytes: Vec<u8>) -> Rest
        ensures { result ≡ bytes.items }
    {
        Rest { bytes, at: 0 }
    }

    /// Moves as many bytes as `buf` has room for to the front of `buf`, and returns their number.
    pub(crate) fn take(&mut self, buf: &mut [u8]) -> usize
        ensures count { result ≡ min (length buf.new) (length self.old) }
        ensures bytes { self.old ≡ take result buf.new ++ self.new }
    {
        let count = buf.len().min(self.bytes.len() - self.at);
        let end = self.at + count;
        buf[..count].copy_from_slice(&self.bytes[self.at..end]);
        self.at = end;
        count
    }
}
