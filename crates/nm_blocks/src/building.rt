// Lists of blocks, built block by block.
ghost use Rattle.nm_blocks.specs.Blocks.{AreBlocks, IsBlock, block_length, items_of, lists_of};
ghost use Rattle.std.specs.Prelude.{◌≡◌, ◌<◌, ◌≤◌, ◌++◌, IfOk, OnOk, length};

use crate::keyed::Keyed;
use nm_base::NoMemory;
use std::alloc::Global;
use std::sync::Arc;

/// The most items of a block. A change copies one block and a pointer for each of the others, so a
/// block of 64 serves lists of some thousand items best.
pub(crate) const BLOCK_LENGTH: usize = 64;

/// Appends items that are equal to these.
pub(crate) fn share_items<T: Keyed>(made: &mut Vec<T>, items: &[T]) -> Result<(), NoMemory>
    ensures { OnOk result (made.new.items ≡ made.old.items ++ items.now) }
{
    for item in items {
        made.push(item.share()?)?;
    }
    Ok(())
}

/// Appends the same blocks.
pub(crate) fn share_blocks<T: Keyed>(
    made: &mut Vec<Arc<Vec<T>>>,
    blocks: &[Arc<Vec<T>>],
) -> Result<(), NoMemory>
    ensures { OnOk result (lists_of made.new.items ≡ lists_of made.old.items ++ lists_of blocks.now) }
{
    for block in blocks {
        made.push(Arc::try_clone(block)?)?;
    }
    Ok(())
}

/// Appends the items in blocks of this many, the last of which may have fewer.
pub(crate) fn append_cut<T: Keyed>(
    alloc: Global,
    made: &mut Vec<Arc<Vec<T>>>,
    items: Vec<T>,
    most: usize,
) -> Result<(), NoMemory>
    requires most { (0 < most) × (most ≤ block_length) }
    requires sizes { AreBlocks (lists_of made.old.items) }
    ensures items { OnOk result (items_of made.new.items ≡ items_of made.old.items ++ items.items) }
    ensures sizes { OnOk result (AreBlocks (lists_of made.new.items)) }
{
    let mut block = Vec::with_capacity(alloc, most)?;
    for item in items {
        block.push(item)?;
        block = settled(alloc, made, block, most)?;
    }
    append_rest(alloc, made, block)
}

/// Appends the block once it is full, and gives an empty one in its place.
fn settled<T: Keyed>(
    alloc: Global,
    made: &mut Vec<Arc<Vec<T>>>,
    block: Vec<T>,
    most: usize,
) -> Result<Vec<T>, NoMemory>
    requires most { (0 < most) × (most ≤ block_length) }
    requires room { length block.items ≤ most }
    requires sizes { AreBlocks (lists_of made.old.items) }
    ensures items { IfOk result (λ rest. items_of made.new.items ++ rest.items ≡ items_of made.old.items ++ block.items) }
    ensures sizes { OnOk result (AreBlocks (lists_of made.new.items)) }
    ensures room { IfOk result (λ rest. length rest.items < most) }
{
    if block.len() < most {
        return Ok(block);
    }
    made.push(Arc::new(alloc, block)?)?;
    Ok(Vec::with_capacity(alloc, most)?)
}

/// Appends the items as a block, or nothing where there is none.
fn append_rest<T: Keyed>(
    alloc: Global,
    made: &mut Vec<Arc<Vec<T>>>,
    items: Vec<T>,
) -> Result<(), NoMemory>
    requires most { length items.items ≤ block_length }
    requires sizes { AreBlocks (lists_of made.old.items) }
    ensures items { OnOk result (items_of made.new.items ≡ items_of made.old.items ++ items.items) }
    ensures sizes { OnOk result (AreBlocks (lists_of made.new.items)) }
{
    if items.is_empty() {
        return Ok(());
    }
    made.push(Arc::new(alloc, items)?)?;
    Ok(())
}

/// How many items a block gets where so many stand in the place of one. At the end of the list it is
/// full, so that a list that grows there has full blocks; elsewhere they are spread evenly.
pub(crate) fn longest(is_last: bool, count: usize) -> usize
    ensures { (0 < result) × (result ≤ block_length) }
{
    if is_last {
        return BLOCK_LENGTH;
    }
    let blocks = count.div_ceil(BLOCK_LENGTH).max(1);
    count.div_ceil(blocks).clamp(1, BLOCK_LENGTH)
}

/// Appends the block, which is joined with the one before it where both fit into one.
pub(crate) fn append_joined<T: Keyed>(
    alloc: Global,
    made: &mut Vec<Arc<Vec<T>>>,
    block: &Arc<Vec<T>>,
) -> Result<(), NoMemory>
    requires size { IsBlock block.now.value.items }
    requires sizes { AreBlocks (lists_of made.old.items) }
    ensures items { OnOk result (items_of made.new.items ≡ items_of made.old.items ++ block.now.value.items) }
    ensures sizes { OnOk result (AreBlocks (lists_of made.new.items)) }
{
    let Some(before) = made.pop() else {
        made.push(Arc::try_clone(block)?)?;
        return Ok(());
    };
    if before.len() + block.len() > BLOCK_LENGTH {
        made.push(before)?;
        made.push(Arc::try_clone(block)?)?;
        return Ok(());
    }
    let mut joined = Vec::with_capacity(alloc, BLOCK_LENGTH)?;
    share_items(&mut joined, &before)?;
    share_items(&mut joined, block)?;
    made.push(Arc::new(alloc, joined)?)?;
    Ok(())
}

/// Appends the items that a block has left, joined with the block before them where both fit into
/// one.
pub(crate) fn append_kept<T: Keyed>(
    alloc: Global,
    made: &mut Vec<Arc<Vec<T>>>,
    items: Vec<T>,
) -> Result<(), NoMemory>
    requires most { length items.items ≤ block_length }
    requires sizes { AreBlocks (lists_of made.old.items) }
    ensures items { OnOk result (items_of made.new.items ≡ items_of made.old.items ++ items.items) }
    ensures sizes { OnOk result (AreBlocks (lists_of made.new.items)) }
{
    if items.is_empty() {
        return Ok(());
    }
    let block = Arc::new(alloc, items)?;
    append_joined(alloc, made, &block)
}

/// Appends the same blocks, the first of which is joined with the one before it where both fit into
/// one.
pub(crate) fn append_behind<T: Keyed>(
    alloc: Global,
    made: &mut Vec<Arc<Vec<T>>>,
    blocks: &[Arc<Vec<T>>],
) -> Result<(), NoMemory>
    requires sizes { AreBlocks (lists_of made.old.items) }
    requires behind { AreBlocks (lists_of blocks.now) }
    ensures items { OnOk result (items_of made.new.items ≡ items_of made.old.items ++ items_of blocks.now) }
    ensures sizes { OnOk result (AreBlocks (lists_of made.new.items)) }
{
    let Some((first, others)) = blocks.split_first() else {
        return Ok(());
    };
    append_joined(alloc, made, first)?;
    share_blocks(made, others)
}
