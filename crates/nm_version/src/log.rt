// The log of accepted commands.
ghost use Rattle.nm_version.specs.Listing.{entry_text};
ghost use Rattle.nm_version.specs.Log.{behind, entries_of};
ghost use Rattle.std.specs.Arc.{arc_value};
ghost use Rattle.std.specs.List.{flat_map};
ghost use Rattle.std.specs.Prelude.{◌≡◌, ◌<◌, ◌++◌, ◌∷◌, [], IfOk, OnOk, length};

use crate::command::Entry;
use crate::listing::append_block;
use nm_base::NoMemory;
use std::alloc::Global;
use std::marker::Model;
use std::sync::Arc;

/// The most entries of a block.
const BLOCK_LENGTH: usize = 256;

/// Some entries, in order. A contract sees the list of them.
#[derive(Drop)]
pub(crate) struct Block {
    entries: Vec<Arc<Entry>>,
}

impl Model for Block {
    ghost use Rattle.std.specs.Prelude.{List};
    ghost use Rattle.nm_version.specs.Listing.{entry_text};
    ghost use Rattle.nm_version.specs.Log.{behind};
    ghost use Rattle.nm_version.specs.declared.command.Entry.{Entry};

    ghost Value = { List Entry };

    ghost view = { λ block. behind block.entries.items };
}

impl Block {
    fn empty(alloc: Global) -> Block
        ensures { result ≡ [] }
    {
        Block {
            entries: Vec::new(alloc),
        }
    }

    /// The entries.
    pub(crate) fn as_slice(&self) -> &[Arc<Entry>]
        ensures { behind result.now ≡ self.now }
    {
        &self.entries
    }

    fn len(&self) -> usize
        ensures { result ≡ length self.now }
    {
        self.entries.len()
    }

    /// A block of the same entries, which the two share, and of one more.
    fn with(&self, alloc: Global, entry: Entry) -> Result<Block, NoMemory>
        ensures { IfOk result (λ block. block ≡ self.now ++ entry ∷ []) }
    {
        let mut entries = share_entries(alloc, &self.entries)?;
        entries.push(Arc::new(alloc, entry)?)?;
        Ok(Block { entries })
    }
}

/// The accepted commands, in order. A contract sees the list of them.
///
/// Logs share their entries, and all blocks but the last. So one entry more copies a pointer for
/// each block, and one for each entry of the last block.
#[derive(Drop)]
pub(crate) struct Log {
    full: Vec<Arc<Block>>,
    last: Block,
    len: usize,
}

impl Model for Log {
    ghost use Rattle.std.specs.Prelude.{◌≡◌, List, length};
    ghost use Rattle.nm_version.specs.Log.{entries_of};
    ghost use Rattle.nm_version.specs.declared.command.Entry.{Entry};

    ghost Value = { List Entry };

    ghost view = { λ log. entries_of log.full.items log.last };

    ghost invariant = { λ log. log.len ≡ length (entries_of log.full.items log.last) };
}

impl Log {
    /// The log of no command.
    pub(crate) fn empty(alloc: Global) -> Log
        ensures { result ≡ [] }
    {
        Log {
            full: Vec::new(alloc),
            last: Block::empty(alloc),
            len: 0,
        }
    }

    /// How many commands were accepted.
    pub(crate) fn len(&self) -> usize
        ensures { result ≡ length self.now }
    {
        self.len
    }

    /// Appends the commands as a session has them.
    pub(crate) fn append_to(&self, alloc: Global, out: &mut Vec<u8>) -> Result<(), NoMemory>
        ensures { OnOk result (out.new.items ≡ out.old.items ++ flat_map entry_text self.now) }
    {
        for block in &self.full {
            append_block(alloc, out, block)?;
        }
        append_block(alloc, out, &self.last)
    }

    /// The log with one entry more.
    pub(crate) fn with(&self, alloc: Global, entry: Entry) -> Result<Log, NoMemory>
        requires { length self.now < usize.MAX }
        ensures { IfOk result (λ log. log ≡ self.now ++ entry ∷ []) }
    {
        let full = share_blocks(alloc, &self.full)?;
        let last = self.last.with(alloc, entry)?;
        let (full, last) = settled(alloc, full, last)?;
        Ok(Log {
            full,
            last,
            len: self.len + 1,
        })
    }
}

/// The blocks, with the last one among those that are full once it is.
fn settled(
    alloc: Global,
    full: Vec<Arc<Block>>,
    last: Block,
) -> Result<(Vec<Arc<Block>>, Block), NoMemory>
    ensures { IfOk result (λ blocks. entries_of blocks.0.items blocks.1 ≡ entries_of full.items last) }
{
    if last.len() < BLOCK_LENGTH {
        return Ok((full, last));
    }
    let mut full = full;
    full.push(Arc::new(alloc, last)?)?;
    Ok((full, Block::empty(alloc)))
}

/// The same entries, shared.
fn share_entries(alloc: Global, entries: &[Arc<Entry>]) -> Result<Vec<Arc<Entry>>, NoMemory>
    ensures { IfOk result (λ shared. behind shared.items ≡ behind entries.now) }
{
    let mut shared = Vec::with_capacity(alloc, entries.len() + 1)?;
    for entry in entries {
        shared.push(Arc::try_clone(entry)?)?;
    }
    Ok(shared)
}

/// The same blocks, shared.
fn share_blocks(alloc: Global, blocks: &[Arc<Block>]) -> Result<Vec<Arc<Block>>, NoMemory>
    ensures { IfOk result (λ shared. flat_map arc_value shared.items ≡ flat_map arc_value blocks.now) }
{
    let mut shared = Vec::with_capacity(alloc, blocks.len() + 1)?;
    for block in blocks {
        shared.push(Arc::try_clone(block)?)?;
    }
    Ok(shared)
}
