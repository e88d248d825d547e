ghost use Rattle.std.specs.Prelude.{◌≡◌, ℕ, ◌<◌, List, Option, Some, codes, length, IfOk, OnOk, OnErr};
ghost use Rattle.std.specs.Io.{ReadsAtMost, WritesAtMost};
ghost use Rattle.std.specs.Io.KnownBytes.{Appends, ReadConsumes, WriteAppends};
ghost use Rattle.nm_base.specs.Beside.{Beside};
ghost use Rattle.nm_base.specs.Faults.{CountsFaults};
ghost use Rattle.nm_base.specs.Written.{AppendsFront};

use std::error::Error;
use std::fmt;

/// A call of the outside world failed. It says no more, since nothing that a caller could do
/// depends on the reason.
#[derive(Clone, Copy, Debug, PartialEq, Eq)]
pub struct Failed;

impl fmt::Display for Failed {
    ghost output = { λ _. Some (codes "the source or the sink failed") };

    fn fmt<W: fmt::Write>(&self, f: &mut fmt::Formatter<W>) -> fmt::Result {
        f.write_str("the source or the sink failed")
    }
}

impl Error for Failed {}

/// Where bytes come from.
pub trait Source {
    // The bytes that are left, where the source tells them.
    ghost left: { Self → Option (List ℕ) };

    // How many calls failed. A count that stands at the end of its type stays there.
    ghost faults: { Self → ℕ };

    // What the same value has beside what is read from it, which a read leaves as it is.
    ghost beside: { Self → Beside };

    /// Takes bytes from the front of what is left, at most as many as `buf` has room for, puts
    /// them at the front of `buf` and returns their number. On a `buf` that is not empty 0 is the
    /// end of input.
    ///
    /// `Failed` comes only where the count of faults rose, and then no byte was taken. Any other
    /// call leaves the count as it is.
    fn read(&mut self, buf: &mut [u8]) -> Result<usize, Failed>
        ensures within { ReadsAtMost result buf.new }
        ensures bytes { ReadConsumes (left self.old) (left self.new) result buf.new }
        ensures counted { CountsFaults (faults self.old) (faults self.new) result }
        ensures beside_stays { beside self.new ≡ beside self.old };
}

/// Where bytes go.
pub trait Sink {
    // The bytes written so far, where the sink tells them.
    ghost written: { Self → Option (List ℕ) };

    // How many calls failed. A count that stands at the end of its type stays there.
    ghost faults: { Self → ℕ };

    // What the same value has beside what is written to it, which a write leaves as it is.
    ghost beside: { Self → Beside };

    /// Appends some of the first bytes of `bytes` and returns their number, which is at least 1
    /// where `bytes` is not empty.
    ///
    /// `Failed` comes only where the count of faults rose, and then no byte was appended. Any other
    /// call leaves the count as it is.
    fn write(&mut self, bytes: &[u8]) -> Result<usize, Failed>
        ensures within { WritesAtMost result bytes.now }
        ensures progress { IfOk result (λ n. 0 < length bytes.now → 0 < n) }
        ensures bytes { WriteAppends (written self.old) (written self.new) result bytes.now }
        ensures counted { CountsFaults (faults self.old) (faults self.new) result }
        ensures beside_stays { beside self.new ≡ beside self.old };
}

/// Writes all of `bytes`, in as many calls as the sink asks for.
///
/// `Failed` comes where the sink's count of faults rose in this call, and only there. Then some of
/// the first bytes were appended, but not all.
///
/// ```text
/// let mut sink = SteadySink::new(alloc, 64)?;
/// write_whole(&mut sink, b"done\n")?;
/// ```
pub fn write_whole<K: Sink>(sink: &mut K, bytes: &[u8]) -> Result<(), Failed>
    ensures whole { OnOk result (Appends (K.written sink.old) (K.written sink.new) bytes.now) }
    ensures front { OnErr result (AppendsFront (K.written sink.old) (K.written sink.new) bytes.now) }
    ensures counted { CountsFaults (K.faults sink.old) (K.faults sink.new) result }
    ensures beside_stays { K.beside sink.new ≡ K.beside sink.old }
{
    let mut at = 0;
    while at < bytes.len() {
        at += sink.write(&bytes[at..])?;
    }
    Ok(())
}
