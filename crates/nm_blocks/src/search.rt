// Where a key lies, by binary searches over the last items of the blocks and in a block.
ghost use Rattle.nm_blocks.specs.Blocks.{AreRising, items_of, lists_of};
ghost use Rattle.nm_blocks.specs.Cut.{IsCut};
ghost use Rattle.nm_blocks.specs.Items.{IsRising, behind_of, ends_below, first_from, is_below, items_above, items_below};
ghost use Rattle.std.specs.List.{prefix_len};
ghost use Rattle.std.specs.Option.{option_map};
ghost use Rattle.std.specs.Ordering.{is_eq};
ghost use Rattle.std.specs.Prelude.{◌≡◌, ◌≤◌, [], MatchOption, length};

use crate::keyed::Keyed;
use std::sync::Arc;

/// A list of blocks, cut around the one in which a key has its place.
pub(crate) struct Cut<'a, T> {
    pub(crate) before: &'a [Arc<Vec<T>>],
    pub(crate) block: &'a [T],
    pub(crate) behind: &'a [Arc<Vec<T>>],
}

/// The blocks around the place of the key. A key behind all items has its place in the last block.
pub(crate) fn cut_at<'a, T: Keyed>(blocks: &'a [Arc<Vec<T>>], key: &T::Key) -> Option<Cut<'a, T>>
    requires { AreRising T.key T.Key.cmp (lists_of blocks.now) }
    ensures { MatchOption result (lists_of blocks.entry.now ≡ []) (λ cut. IsCut T.key T.Key.cmp key.now (lists_of blocks.entry.now) (lists_of cut.before.now) cut.block.now (lists_of cut.behind.now)) }
{
    let (before, back) = blocks.split_at(place_of(blocks, key));
    if let Some((block, behind)) = back.split_first() {
        return Some(Cut {
            before,
            block,
            behind,
        });
    }
    let (block, before) = blocks.split_last()?;
    Some(Cut {
        before,
        block,
        behind: back,
    })
}

/// The first item that is not below the key.
pub(crate) fn find_from<'a, T: Keyed>(blocks: &'a [Arc<Vec<T>>], key: &T::Key) -> Option<&'a T>
    requires { AreRising T.key T.Key.cmp (lists_of blocks.now) }
    ensures { option_map (λ x. x.now) result ≡ first_from T.key T.Key.cmp key.now (items_of blocks.entry.now) }
{
    let (_, back) = blocks.split_at(place_of(blocks, key));
    let (block, _) = back.split_first()?;
    let (_, rest) = block.split_at(place_in(block, key));
    rest.first()
}

/// The items below the key and those above it.
pub(crate) fn around<'a, T: Keyed>(items: &'a [T], key: &T::Key) -> (&'a [T], &'a [T])
    requires { IsRising T.key T.Key.cmp items.now }
    ensures below { result.0.now ≡ items_below T.key T.Key.cmp key.now items.entry.now }
    ensures above { result.1.now ≡ items_above T.key T.Key.cmp key.now items.entry.now }
{
    let (below, back) = items.split_at(place_in(items, key));
    (below, behind(back, key))
}

/// The items above the key, of such as are not below it.
fn behind<'a, T: Keyed>(items: &'a [T], key: &T::Key) -> &'a [T]
    ensures { result.now ≡ behind_of T.key T.Key.cmp key.now items.entry.now }
{
    match items.split_first() {
        Some((first, others)) if is_at(first, key) => others,
        _ => items,
    }
}

/// Whether the item has the key.
pub(crate) fn is_at<T: Keyed>(item: &T, key: &T::Key) -> bool
    ensures { result ≡ is_eq (T.Key.cmp key.now (T.key item.now)) }
{
    key.cmp(item.key()).is_eq()
}

/// How many blocks, from the first on, lie below the key.
fn place_of<T: Keyed>(blocks: &[Arc<Vec<T>>], key: &T::Key) -> usize
    requires { AreRising T.key T.Key.cmp (lists_of blocks.now) }
    ensures place { result ≡ prefix_len (ends_below T.key T.Key.cmp key.now) (lists_of blocks.now) }
    ensures bound { result ≤ length blocks.now }
{
    blocks.partition_point(|block| lies_below(block, key))
}

/// Whether the last item of the block lies below the key, and so all of it.
fn lies_below<T: Keyed>(block: &[T], key: &T::Key) -> bool
    ensures { result ≡ ends_below T.key T.Key.cmp key.now block.now }
{
    match block.last() {
        Some(last) => is_under(last, key),
        None => true,
    }
}

/// How many items, from the first on, lie below the key.
fn place_in<T: Keyed>(items: &[T], key: &T::Key) -> usize
    requires { IsRising T.key T.Key.cmp items.now }
    ensures place { result ≡ prefix_len (is_below T.key T.Key.cmp key.now) items.now }
    ensures bound { result ≤ length items.now }
{
    items.partition_point(|item| is_under(item, key))
}

fn is_under<T: Keyed>(item: &T, key: &T::Key) -> bool
    ensures { result ≡ is_below T.key T.Key.cmp key.now item.now }
{
    item.key().cmp(key).is_lt()
}
