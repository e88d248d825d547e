// The log as a stream of a session.
ghost use Rattle.nm_version.specs.After.{IsReached};
ghost use Rattle.nm_version.specs.Listing as spec;
ghost use Rattle.std.specs.List.{flat_map};
ghost use Rattle.std.specs.Prelude.{◌≡◌, ◌++◌, IfOk, OnOk};

use crate::assembly::append_line;
use crate::command::Entry;
use crate::log::Block;
use crate::version::Version;
use nm_base::NoMemory;
use nm_ident::{Text, id_text};
use std::alloc::Global;

impl Version {
    /// The log as a stream of a session: the base, the accepted commands in order, and `end`. Ids are
    /// in lower case, and each document is the bytes that were given. What the version keeps is what
    /// these commands give, one after another, from the base.
    pub fn log(&self, alloc: Global) -> Result<Vec<u8>, NoMemory>
        ensures stream { IfOk result (λ stream. stream.items ≡ spec.log_of self.now) }
        ensures reached { IsReached self.now }
    {
        let _commands = self.number();
        let mut out = Vec::new(alloc);
        append_with_document(alloc, &mut out, &[b"base"], self.bytes())?;
        self.entries().append_to(alloc, &mut out)?;
        append_line(&mut out, b"end")?;
        Ok(out)
    }
}

/// The commands of a block.
pub(crate) fn append_block(alloc: Global, out: &mut Vec<u8>, block: &Block) -> Result<(), NoMemory>
    ensures { OnOk result (out.new.items ≡ out.old.items ++ flat_map spec.entry_text block.now) }
{
    for entry in block.as_slice() {
        append_entry(alloc, out, entry)?;
    }
    Ok(())
}

/// A command as a session has it.
fn append_entry(alloc: Global, out: &mut Vec<u8>, entry: &Entry) -> Result<(), NoMemory>
    ensures { OnOk result (out.new.items ≡ out.old.items ++ spec.entry_text entry.now) }
{
    match entry {
        Entry::File { day, bytes } => {
            append_with_document(alloc, out, &[b"file ", &day.text()], bytes)
        }
        Entry::Revise { project, bytes } => {
            append_with_document(alloc, out, &[b"revise ", &id_text(*project)], bytes)
        }
        Entry::Redate { project, day } => append_pieces(
            alloc,
            out,
            &[b"redate ", &id_text(*project), b" ", &day.text(), b"\n"],
        ),
        Entry::Withdraw { project } => {
            append_pieces(alloc, out, &[b"withdraw ", &id_text(*project), b"\n"])
        }
    }
}

/// A line that ends with the length of the document behind it.
fn append_with_document(
    alloc: Global,
    out: &mut Vec<u8>,
    words: &[&[u8]],
    bytes: &Text,
) -> Result<(), NoMemory>
    ensures { OnOk result (out.new.items ≡ out.old.items ++ spec.with_document (flat_map (λ word. word.now) words.now) bytes.now) }
{
    let length = (bytes.as_slice().len() as u64).to_string(alloc)?;
    append_pieces(alloc, out, words)?;
    append_pieces(
        alloc,
        out,
        &[b" ", length.as_bytes(), b"\n", bytes.as_slice()],
    )
}

fn append_pieces(alloc: Global, out: &mut Vec<u8>, pieces: &[&[u8]]) -> Result<(), NoMemory>
    ensures { OnOk result (out.new.items ≡ out.old.items ++ flat_map (λ piece. piece.now) pieces.now) }
{
    let text = pieces.concat(alloc)?;
    out.extend_from_slice(&text)
}
