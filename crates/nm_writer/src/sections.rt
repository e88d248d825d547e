// The statements of a document on their way to a sink: the objects of a full model, and the sections of
// a difference model.
ghost use Rattle.nm_writer.specs.Canonical.{elements, section, sections};
ghost use Rattle.nm_writer.specs.Passing.{Leaves, LeavesSome, CountsWriteFaults};
ghost use Rattle.std.specs.Prelude.{◌≡◌, ◌++◌, OnOk, OnErr};

use crate::blocks::pass_if_full;
use crate::element::{append_element, split_group};
use crate::error::WriteError;
use crate::lines::{append_all, append_closing};
use crate::prefixes::Prefixes;
use nm_base::Sink;
use nm_statement::{Change, Set};
use std::alloc::Global;

/// Writes the objects of a model or of a section, in order.
pub fn write_elements<K: Sink>(
    alloc: Global,
    sink: &mut K,
    block: &mut Vec<u8>,
    is_full: bool,
    prefixes: &Prefixes,
    statements: &Set,
) -> Result<(), WriteError>
    ensures passed { OnOk result (Leaves (K.written sink.old) (K.written sink.new) (block.old.items ++ elements is_full prefixes.now statements.now) block.new.items) }
    ensures front { OnErr result (LeavesSome (K.written sink.old) (K.written sink.new) (block.old.items ++ elements is_full prefixes.now statements.now)) }
    ensures counted { CountsWriteFaults (K.faults sink.old) (K.faults sink.new) result }
    ensures beside_stays { K.beside sink.new ≡ K.beside sink.old }
{
    let mut rest = statements.as_slice();
    while let [first, ..] = rest {
        let (group, after) = split_group(rest);
        append_element(alloc, block, is_full, prefixes, &first.subject, group)?;
        pass_if_full(sink, block)?;
        rest = after;
    }
    Ok(())
}

/// Writes the three sections of a difference model, also those that state nothing.
pub fn write_sections<K: Sink>(
    alloc: Global,
    sink: &mut K,
    block: &mut Vec<u8>,
    prefixes: &Prefixes,
    change: &Change,
) -> Result<(), WriteError>
    ensures passed { OnOk result (Leaves (K.written sink.old) (K.written sink.new) (block.old.items ++ sections prefixes.now change.now) block.new.items) }
    ensures front { OnErr result (LeavesSome (K.written sink.old) (K.written sink.new) (block.old.items ++ sections prefixes.now change.now)) }
    ensures counted { CountsWriteFaults (K.faults sink.old) (K.faults sink.new) result }
    ensures beside_stays { K.beside sink.new ≡ K.beside sink.old }
{
    write_section(
        alloc,
        sink,
        block,
        b"dm:preconditions",
        prefixes,
        &change.pre,
    )?;
    write_section(
        alloc,
        sink,
        block,
        b"dm:forwardDifferences",
        prefixes,
        &change.fwd,
    )?;
    write_section(
        alloc,
        sink,
        block,
        b"dm:reverseDifferences",
        prefixes,
        &change.rev,
    )
}

fn write_section<K: Sink>(
    alloc: Global,
    sink: &mut K,
    block: &mut Vec<u8>,
    tag: &[u8],
    prefixes: &Prefixes,
    statements: &Set,
) -> Result<(), WriteError>
    ensures passed { OnOk result (Leaves (K.written sink.old) (K.written sink.new) (block.old.items ++ section tag.now prefixes.now statements.now) block.new.items) }
    ensures front { OnErr result (LeavesSome (K.written sink.old) (K.written sink.new) (block.old.items ++ section tag.now prefixes.now statements.now)) }
    ensures counted { CountsWriteFaults (K.faults sink.old) (K.faults sink.new) result }
    ensures beside_stays { K.beside sink.new ≡ K.beside sink.old }
{
    append_all(block, &[b"<", tag, b" rdf:parseType=\"Statements\">\n"])?;
    write_elements(alloc, sink, block, false, prefixes, statements)?;
    append_closing(block, tag)?;
    Ok(())
}
