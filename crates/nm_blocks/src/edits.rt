// The items of one block, changed at several keys.
ghost use Rattle.nm_blocks.specs.Items.{IsRising, with_all, without, without_all};
ghost use Rattle.std.specs.List.Sorted.{IsStrictlySortedBy};
ghost use Rattle.std.specs.Prelude.{◌≡◌, IfOk};

use crate::building::share_items;
use crate::keyed::Keyed;
use crate::search::around;
use nm_base::NoMemory;
use std::alloc::Global;

/// The items of the block with each of the added ones at its place.
pub(crate) fn merged<T: Keyed>(alloc: Global, block: &[T], added: &[T]) -> Result<Vec<T>, NoMemory>
    requires block { IsRising T.key T.Key.cmp block.now }
    requires added { IsRising T.key T.Key.cmp added.now }
    ensures { IfOk result (λ made. made.items ≡ with_all T.key T.Key.cmp added.now block.now) }
{
    let mut made = Vec::with_capacity(alloc, block.len().saturating_add(added.len()))?;
    let mut rest = block;
    for item in added {
        let (below, above) = around(rest, item.key());
        share_items(&mut made, below)?;
        made.push(item.share()?)?;
        rest = above;
    }
    share_items(&mut made, rest)?;
    Ok(made)
}

/// The items of the block but the one at the key.
pub(crate) fn kept_beside<T: Keyed>(
    alloc: Global,
    block: &[T],
    key: &T::Key,
) -> Result<Vec<T>, NoMemory>
    requires { IsRising T.key T.Key.cmp block.now }
    ensures { IfOk result (λ made. made.items ≡ without T.key T.Key.cmp key.now block.now) }
{
    let mut made = Vec::with_capacity(alloc, block.len())?;
    let (below, above) = around(block, key);
    share_items(&mut made, below)?;
    share_items(&mut made, above)?;
    Ok(made)
}

/// The items of the block but those at the keys.
pub(crate) fn kept_among<T: Keyed>(
    alloc: Global,
    block: &[T],
    keys: &[T::Key],
) -> Result<Vec<T>, NoMemory>
    requires block { IsRising T.key T.Key.cmp block.now }
    requires keys { IsStrictlySortedBy T.Key.cmp keys.now }
    ensures { IfOk result (λ made. made.items ≡ without_all T.key T.Key.cmp keys.now block.now) }
{
    let mut made = Vec::with_capacity(alloc, block.len())?;
    let mut rest = block;
    for key in keys {
        let (below, above) = around(rest, key);
        share_items(&mut made, below)?;
        rest = above;
    }
    share_items(&mut made, rest)?;
    Ok(made)
}
