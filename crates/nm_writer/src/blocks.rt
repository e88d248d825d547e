// Bytes on their way to a sink, a block at a time.
ghost use Rattle.nm_base.specs.Written.{AppendsFront};
ghost use Rattle.nm_writer.specs.Passing.{Leaves, LeavesSome, CountsWriteFaults};
ghost use Rattle.std.specs.Io.KnownBytes.{Appends};
ghost use Rattle.std.specs.Prelude.{◌≡◌, [], ◌++◌, OnOk, OnErr};

use crate::error::WriteError;
use nm_base::{Sink, write_whole};

/// A block with as many bytes is given to the sink (64 KiB).
const FULL_BLOCK: usize = 65536;

/// Gives the block to the sink, where it is full.
pub fn pass_if_full<K: Sink>(sink: &mut K, block: &mut Vec<u8>) -> Result<(), WriteError>
    ensures passed { OnOk result (Leaves (K.written sink.old) (K.written sink.new) block.old.items block.new.items) }
    ensures front { OnErr result (LeavesSome (K.written sink.old) (K.written sink.new) block.old.items) }
    ensures counted { CountsWriteFaults (K.faults sink.old) (K.faults sink.new) result }
    ensures beside_stays { K.beside sink.new ≡ K.beside sink.old }
{
    if block.len() < FULL_BLOCK {
        return Ok(());
    }
    write_whole(sink, block)?;
    block.clear();
    Ok(())
}

/// Gives the last block to the sink.
pub fn write_last<K: Sink>(sink: &mut K, block: &[u8]) -> Result<(), WriteError>
    ensures whole { OnOk result (Appends (K.written sink.old) (K.written sink.new) block.now) }
    ensures front { OnErr result (AppendsFront (K.written sink.old) (K.written sink.new) block.now) }
    ensures counted { CountsWriteFaults (K.faults sink.old) (K.faults sink.new) result }
    ensures beside_stays { K.beside sink.new ≡ K.beside sink.old }
{
    Ok(write_whole(sink, block)?)
}
