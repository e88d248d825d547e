// Changes of a whole list at several keys, in one pass over its blocks.
ghost use Rattle.nm_blocks.specs.Blocks.{AreBlocks, AreRising, items_of, lists_of};
ghost use Rattle.nm_blocks.specs.Items.{IsRising, with_all, without, without_all};
ghost use Rattle.std.specs.List.Sorted.{IsStrictlySortedBy};
ghost use Rattle.std.specs.Prelude.{◌≡◌, IfOk};

use crate::building::{
    BLOCK_LENGTH, append_behind, append_cut, append_kept, longest, share_blocks, share_items,
};
use crate::edits::{kept_among, kept_beside, merged};
use crate::groups::{Group, group_at, key_group_at};
use crate::keyed::Keyed;
use crate::search::{Cut, cut_at};
use nm_base::NoMemory;
use std::alloc::Global;
use std::sync::Arc;

/// The blocks with each of the added items at its place. A block that gets too long is cut evenly;
/// the last one is cut where it is full, so that a list that grows at its end has full blocks.
pub(crate) fn blocks_with<T: Keyed>(
    alloc: Global,
    blocks: &[Arc<Vec<T>>],
    added: &[T],
) -> Result<Vec<Arc<Vec<T>>>, NoMemory>
    requires blocks { AreRising T.key T.Key.cmp (lists_of blocks.now) }
    requires added { IsRising T.key T.Key.cmp added.now }
    ensures items { IfOk result (λ made. items_of made.items ≡ with_all T.key T.Key.cmp added.now (items_of blocks.now)) }
    ensures sizes { IfOk result (λ made. AreBlocks (lists_of made.items)) }
{
    let mut made = Vec::with_capacity(alloc, blocks.len() + 1)?;
    let mut blocks = blocks;
    let mut added = added;
    'groups: while let Some(
        Group {
            before,
            block,
            behind,
            those,
            others,
        },
    ) = group_at(blocks, added)
    {
        share_blocks(&mut made, before)?;
        let items = merged(alloc, block, those)?;
        let most = longest(behind.is_empty(), items.len());
        append_cut(alloc, &mut made, items, most)?;
        blocks = behind;
        added = others;
    }
    share_blocks(&mut made, blocks)?;
    let mut items = Vec::with_capacity(alloc, added.len())?;
    share_items(&mut items, added)?;
    append_cut(alloc, &mut made, items, BLOCK_LENGTH)?;
    Ok(made)
}

/// The blocks without the item at the key.
pub(crate) fn blocks_without<T: Keyed>(
    alloc: Global,
    blocks: &[Arc<Vec<T>>],
    key: &T::Key,
) -> Result<Vec<Arc<Vec<T>>>, NoMemory>
    requires { AreRising T.key T.Key.cmp (lists_of blocks.now) }
    ensures items { IfOk result (λ made. items_of made.items ≡ without T.key T.Key.cmp key.now (items_of blocks.now)) }
    ensures sizes { IfOk result (λ made. AreBlocks (lists_of made.items)) }
{
    let mut made = Vec::with_capacity(alloc, blocks.len())?;
    let Some(
        Cut {
            before,
            block,
            behind,
        },
    ) = cut_at(blocks, key)
    else {
        return Ok(made);
    };
    share_blocks(&mut made, before)?;
    let kept = kept_beside(alloc, block, key)?;
    append_kept(alloc, &mut made, kept)?;
    append_behind(alloc, &mut made, behind)?;
    Ok(made)
}

/// The blocks without the items at the keys.
pub(crate) fn blocks_without_all<T: Keyed>(
    alloc: Global,
    blocks: &[Arc<Vec<T>>],
    keys: &[T::Key],
) -> Result<Vec<Arc<Vec<T>>>, NoMemory>
    requires blocks { AreRising T.key T.Key.cmp (lists_of blocks.now) }
    requires keys { IsStrictlySortedBy T.Key.cmp keys.now }
    ensures items { IfOk result (λ made. items_of made.items ≡ without_all T.key T.Key.cmp keys.now (items_of blocks.now)) }
    ensures sizes { IfOk result (λ made. AreBlocks (lists_of made.items)) }
{
    let mut made = Vec::with_capacity(alloc, blocks.len())?;
    let mut blocks = blocks;
    let mut keys = keys;
    'groups: while let Some(
        Group {
            before,
            block,
            behind,
            those,
            others,
        },
    ) = key_group_at(blocks, keys)
    {
        append_behind(alloc, &mut made, before)?;
        let kept = kept_among(alloc, block, those)?;
        append_kept(alloc, &mut made, kept)?;
        blocks = behind;
        keys = others;
    }
    append_behind(alloc, &mut made, blocks)?;
    Ok(made)
}
