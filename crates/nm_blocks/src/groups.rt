// The changes that have their places in one block.
ghost use Rattle.nm_blocks.specs.Blocks.{AreRising, lists_of};
ghost use Rattle.nm_blocks.specs.Cut.{IsGroup};
ghost use Rattle.nm_blocks.specs.Items.{IsRising, is_up_to};
ghost use Rattle.std.specs.List.Sorted.{IsStrictlySortedBy};
ghost use Rattle.std.specs.List.{prefix_len};
ghost use Rattle.std.specs.Ordering.{is_le};
ghost use Rattle.std.specs.Prelude.{◌≡◌, ◌≤◌, ◌⊎◌, [], MatchOption, length};

use crate::keyed::Keyed;
use crate::search::{Cut, cut_at};
use std::sync::Arc;

/// Blocks around the place of the first of some changes, which are items or keys: those of them
/// that have their places in the middle block, and the others, which have them behind it.
pub(crate) struct Group<'a, T, C> {
    pub(crate) before: &'a [Arc<Vec<T>>],
    pub(crate) block: &'a [T],
    pub(crate) behind: &'a [Arc<Vec<T>>],
    pub(crate) those: &'a [C],
    pub(crate) others: &'a [C],
}

/// The group of the first of the added items, or nothing where there is no item or no block.
pub(crate) fn group_at<'a, T: Keyed>(
    blocks: &'a [Arc<Vec<T>>],
    added: &'a [T],
) -> Option<Group<'a, T, T>>
    requires blocks { AreRising T.key T.Key.cmp (lists_of blocks.now) }
    requires added { IsRising T.key T.Key.cmp added.now }
    ensures { MatchOption result ((added.entry.now ≡ []) ⊎ (lists_of blocks.entry.now ≡ [])) (λ g. IsGroup T.key T.Key.cmp T.key added.entry.now (lists_of blocks.entry.now) (lists_of g.before.now) g.block.now (lists_of g.behind.now) g.those.now g.others.now) }
{
    let Cut {
        before,
        block,
        behind,
    } = cut_at(blocks, added.first()?.key())?;
    let count = match block.last() {
        Some(last) if !behind.is_empty() => items_up_to(added, last.key()),
        _ => added.len(),
    };
    let (those, others) = added.split_at(count);
    Some(Group {
        before,
        block,
        behind,
        those,
        others,
    })
}

/// The group of the first of the keys, or nothing where there is no key or no block.
pub(crate) fn key_group_at<'a, T: Keyed>(
    blocks: &'a [Arc<Vec<T>>],
    keys: &'a [T::Key],
) -> Option<Group<'a, T, T::Key>>
    requires blocks { AreRising T.key T.Key.cmp (lists_of blocks.now) }
    requires keys { IsStrictlySortedBy T.Key.cmp keys.now }
    ensures { MatchOption result ((keys.entry.now ≡ []) ⊎ (lists_of blocks.entry.now ≡ [])) (λ g. IsGroup T.key T.Key.cmp (λ k. k) keys.entry.now (lists_of blocks.entry.now) (lists_of g.before.now) g.block.now (lists_of g.behind.now) g.those.now g.others.now) }
{
    let Cut {
        before,
        block,
        behind,
    } = cut_at(blocks, keys.first()?)?;
    let count = match block.last() {
        Some(last) if !behind.is_empty() => keys_up_to(keys, last.key()),
        _ => keys.len(),
    };
    let (those, others) = keys.split_at(count);
    Some(Group {
        before,
        block,
        behind,
        those,
        others,
    })
}

/// How many items, from the first on, do not lie above the key.
fn items_up_to<T: Keyed>(items: &[T], key: &T::Key) -> usize
    requires { IsRising T.key T.Key.cmp items.now }
    ensures place { result ≡ prefix_len (is_up_to T.key T.Key.cmp key.now) items.now }
    ensures bound { result ≤ length items.now }
{
    items.partition_point(|item| is_up_to(item.key(), key))
}

/// How many keys, from the first on, do not lie above the key.
fn keys_up_to<K: Ord>(keys: &[K], key: &K) -> usize
    requires { IsStrictlySortedBy K.cmp keys.now }
    ensures place { result ≡ prefix_len (is_up_to (λ k. k) K.cmp key.now) keys.now }
    ensures bound { result ≤ length keys.now }
{
    keys.partition_point(|k| is_up_to(k, key))
}

fn is_up_to<K: Ord>(key: &K, bound: &K) -> bool
    ensures { result ≡ is_le (K.cmp key.now bound.now) }
{
    key.cmp(bound).is_le()
}
