// The list itself.
ghost use Rattle.nm_blocks.specs.Blocks.{AreRising, items_of, lists_of};
ghost use Rattle.nm_blocks.specs.Items.{IsRising, first_from, item_at, with_all, with_item, without, without_all};
ghost use Rattle.std.specs.List.Sorted.{IsStrictlySortedBy};
ghost use Rattle.std.specs.Option.{option_map};
ghost use Rattle.std.specs.Prelude.{◌≡◌, ◌+◌, ◌==◌, [], ◌++◌, IfOk, length};

use crate::building::{BLOCK_LENGTH, append_cut, share_blocks};
use crate::changes::{blocks_with, blocks_without, blocks_without_all};
use crate::keyed::Keyed;
use crate::search::{find_from, is_at};
use nm_base::NoMemory;
use std::alloc::Global;
use std::marker::Model;
use std::sync::Arc;

/// A list of items whose keys strictly rise, in shared blocks. A contract sees the list of its items.
///
/// A change gives a new list and leaves the old one as it is. The two share all blocks but those that
/// the change touches: it copies each of these once, with at most 64 items, and a pointer for each of
/// the others. A look-up is a binary search over the last items of the blocks, and another in a
/// block. So of a list of n items a change copies some n / 64 pointers, or twice as many where its
/// blocks are half full, and a look-up compares keys some log n times.
///
/// ```text
/// let old = Blocks::empty(alloc).with(alloc, item)?;
/// let new = old.without(alloc, &key)?;
/// ```
#[derive(Drop)]
pub struct Blocks<T: Keyed> {
    blocks: Vec<Arc<Vec<T>>>,
    len: usize,
}

impl<T: Keyed> Model for Blocks<T> {
    ghost use Rattle.nm_blocks.specs.Blocks.{AreRising, items_of, lists_of};
    ghost use Rattle.std.specs.Prelude.{◌≡◌, List, length};

    ghost Value = { List T };

    ghost view = { λ list. items_of list.blocks.items };

    ghost invariant = { λ list. AreRising T.key T.Key.cmp (lists_of list.blocks.items) × (list.len ≡ length (items_of list.blocks.items)) };
}

impl<T: Keyed> Blocks<T> {
    /// A list with no item.
    pub fn empty(alloc: Global) -> Blocks<T>
        ensures { result ≡ [] }
    {
        Blocks {
            blocks: Vec::new(alloc),
            len: 0,
        }
    }

    /// A list of these items, in full blocks. Their keys strictly rise.
    pub fn from_sorted(alloc: Global, items: Vec<T>) -> Result<Blocks<T>, NoMemory>
        requires { IsRising T.key T.Key.cmp items.items }
        ensures { IfOk result (λ list. list ≡ items.items) }
    {
        let mut blocks = Vec::new(alloc);
        append_cut(alloc, &mut blocks, items, BLOCK_LENGTH)?;
        Blocks::of_blocks(blocks)
    }

    fn of_blocks(blocks: Vec<Arc<Vec<T>>>) -> Result<Blocks<T>, NoMemory>
        requires { AreRising T.key T.Key.cmp (lists_of blocks.items) }
        ensures { IfOk result (λ list. list ≡ items_of blocks.items) }
    {
        let len = item_count(&blocks)?;
        Ok(Blocks { blocks, len })
    }

    /// How many items the list has.
    pub fn len(&self) -> usize
        ensures { result ≡ length self.now }
    {
        self.len
    }

    /// Whether the list has no item.
    pub fn is_empty(&self) -> bool
        ensures { result ≡ (length self.now == 0) }
    {
        self.len == 0
    }

    /// An equal list, with the same blocks. `NoMemory` where a pointer for each is a want of memory,
    /// or where the count of those who hold a block is full.
    pub fn share(&self, alloc: Global) -> Result<Blocks<T>, NoMemory>
        ensures { IfOk result (λ list. list ≡ self.now) }
    {
        let mut blocks = Vec::with_capacity(alloc, self.blocks.len())?;
        share_blocks(&mut blocks, &self.blocks)?;
        Ok(Blocks {
            blocks,
            len: self.len,
        })
    }

    /// The blocks, which one behind another are the list. None of them is empty.
    pub fn as_blocks(&self) -> &[Arc<Vec<T>>]
        ensures items { items_of result.now ≡ self.now }
        ensures rising { AreRising T.key T.Key.cmp (lists_of result.now) }
    {
        &self.blocks
    }

    /// The item at the key.
    pub fn find(&self, key: &T::Key) -> Option<&T>
        ensures { option_map (λ x. x.now) result ≡ item_at T.key T.Key.cmp key.now self.now }
    {
        let item = find_from(&self.blocks, key)?;
        if is_at(item, key) { Some(item) } else { None }
    }

    /// The first item whose key is not below this one.
    pub fn first_from(&self, key: &T::Key) -> Option<&T>
        ensures { option_map (λ x. x.now) result ≡ first_from T.key T.Key.cmp key.now self.now }
    {
        find_from(&self.blocks, key)
    }

    /// A list that has the item at its place as well. An item with an equal key gives way to it. This
    /// list stays as it is, and the new one shares all of its blocks but one, which is copied, and cut
    /// in two where it would have more than 64 items.
    pub fn with(&self, alloc: Global, item: T) -> Result<Blocks<T>, NoMemory>
        ensures { IfOk result (λ list. list ≡ with_item T.key T.Key.cmp item self.now) }
    {
        let mut items = Vec::with_capacity(alloc, 1)?;
        items.push(item)?;
        self.with_all(alloc, items)
    }

    /// A list that has each of the items at its place as well. Their keys strictly rise. Each block in
    /// which one of them has its place is copied once, and the others are shared.
    pub fn with_all(&self, alloc: Global, items: Vec<T>) -> Result<Blocks<T>, NoMemory>
        requires { IsRising T.key T.Key.cmp items.items }
        ensures { IfOk result (λ list. list ≡ with_all T.key T.Key.cmp items.items self.now) }
    {
        Blocks::of_blocks(blocks_with(alloc, &self.blocks, &items)?)
    }

    /// A list that has no item at the key, and is equal where this one has none. This list stays as
    /// it is, and the new one shares all of its blocks but the one of the key, which is copied, and
    /// joined with a block beside it where both fit into 64 items.
    pub fn without(&self, alloc: Global, key: &T::Key) -> Result<Blocks<T>, NoMemory>
        ensures { IfOk result (λ list. list ≡ without T.key T.Key.cmp key.now self.now) }
    {
        Blocks::of_blocks(blocks_without(alloc, &self.blocks, key)?)
    }

    /// A list that has no item at any of the keys, which strictly rise. Each block in which one of
    /// them has its place is copied once, and the others are shared.
    pub fn without_all(&self, alloc: Global, keys: &[T::Key]) -> Result<Blocks<T>, NoMemory>
        requires { IsStrictlySortedBy T.Key.cmp keys.now }
        ensures { IfOk result (λ list. list ≡ without_all T.key T.Key.cmp keys.now self.now) }
    {
        Blocks::of_blocks(blocks_without_all(alloc, &self.blocks, keys)?)
    }
}

/// How many items the blocks have. More than a number can tell are a want of memory.
fn item_count<T: Keyed>(blocks: &[Arc<Vec<T>>]) -> Result<usize, NoMemory>
    ensures { IfOk result (λ count. count ≡ length (items_of blocks.now)) }
{
    let mut count: usize = 0;
    for block in blocks {
        let Some(sum) = count.checked_add(block.len()) else {
            return Err(NoMemory);
        };
        count = sum;
    }
    Ok(count)
}
