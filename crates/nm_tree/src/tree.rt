// The tree itself.
ghost use Rattle.std.specs.Prelude.{◌≡◌, ◌+◌, ◌*◌, ◌≤◌, ◌==◌, [], IfOk, OnOk, length, if◌then◌else◌};
ghost use Rattle.std.specs.Option.{option_map};
ghost use Rattle.nm_tree.specs.Depth.{depth_of};
ghost use Rattle.nm_tree.specs.Pairs.{IsRising, value_at, with_pair, without};
ghost use Rattle.nm_tree.specs.Span.{pairs_within, walked_from};

use crate::insertion::{Inserted, insert_into};
use crate::lookup::find;
use crate::node::Branch;
use crate::removal::remove_from;
use crate::sorted::build;
use crate::span::Span;
use crate::walk::{Walk, gather_from, gather_within};
use nm_base::{NoMemory, Steps};
use std::alloc::Global;
use std::marker::Model;
use std::sync::Arc;
use std::sync::ledger::Ledger;

/// An ordered map whose versions share their nodes. A contract sees the list of its pairs, whose keys
/// strictly rise.
///
/// A change gives a new tree and leaves the old one as it is. The two share all nodes but those on
/// the way to the change, and every pair: no pair is copied. `steps` counts the nodes that are opened
/// or made. For n pairs, and the greatest b with `2^b <= (n + 1)^2`, a look-up takes at most b steps,
/// and an insertion or a removal at most `3b + 8`.
///
/// ```text
/// let old = Tree::from_sorted(alloc, pairs, &mut steps)?;
/// let new = old.insert(alloc, key, value, &mut steps)?;
/// ```
#[derive(Drop)]
pub struct Tree<K: Ord, V> {
    root: Branch<K, V>,
    len: usize,
}

impl<K: Ord, V> Model for Tree<K, V> {
    ghost use Rattle.std.specs.Prelude.{List, ◌≡◌, length};

    ghost Value = { List (K × V) };

    ghost view = { λ tree. tree.root.pairs };

    ghost invariant = { λ tree. tree.len ≡ length tree.root.pairs };
}

impl<K: Ord + Drop, V: Drop> Tree<K, V> {
    /// A tree with no pair.
    pub fn new() -> Tree<K, V>
        ensures { result ≡ [] }
    {
        Tree {
            root: Branch::empty(),
            len: 0,
        }
    }

    /// An equal tree, with the same nodes. `NoMemory` where the count of those who hold the first
    /// node is full.
    pub fn share(&self) -> Result<Tree<K, V>, NoMemory>
        ensures { IfOk result (λ tree. tree ≡ self.now) }
    {
        Ok(Tree {
            root: self.root.share()?,
            len: self.len,
        })
    }

    /// How many pairs the tree has.
    pub fn len(&self) -> usize
        ensures len { result ≡ length self.now }
        ensures rising { IsRising K.cmp self.now }
    {
        self.root.read_kept();
        self.len
    }

    /// Whether the tree has no pair.
    pub fn is_empty(&self) -> bool
        ensures { result ≡ (length self.now == 0) }
    {
        self.len == 0
    }

    /// The value at the key.
    pub fn get<L: Ledger>(&self, key: &K, steps: &mut Steps<L>) -> Option<&V>
        ensures value { option_map (λ v. v.now) result ≡ value_at K.cmp key.now self.now }
        ensures steps { steps.new ≤ steps.old + depth_of (length self.now) }
    {
        self.root.read_kept();
        find(&self.root, key, steps)
    }

    /// A tree that has the value at the key as well. A pair with an equal key gives way to the new
    /// one. This tree stays as it is.
    pub fn insert<L: Ledger>(
        &self,
        alloc: Global,
        key: K,
        value: V,
        steps: &mut Steps<L>,
    ) -> Result<Tree<K, V>, NoMemory>
        ensures pairs { IfOk result (λ tree. tree ≡ with_pair K.cmp (key, value) self.now) }
        ensures steps { steps.new ≤ steps.old + (3 * depth_of (length self.now) + 8) }
    {
        self.root.read_kept();
        let pair = Arc::new(alloc, (key, value))?;
        let Inserted { branch, is_new } = insert_into(alloc, &self.root, &pair, steps)?;
        let len = len_after(self.len, is_new)?;
        Ok(Tree { root: branch, len })
    }

    /// A tree that has no pair at the key, and is equal where this one has none. This tree stays as
    /// it is.
    pub fn remove<L: Ledger>(
        &self,
        alloc: Global,
        key: &K,
        steps: &mut Steps<L>,
    ) -> Result<Tree<K, V>, NoMemory>
        ensures pairs { IfOk result (λ tree. tree ≡ without K.cmp key.now self.now) }
        ensures steps { steps.new ≤ steps.old + (3 * depth_of (length self.now) + 8) }
    {
        self.root.read_kept();
        let Some(root) = remove_from(alloc, &self.root, key, steps)? else {
            return self.share();
        };
        Ok(Tree {
            root,
            len: self.len - 1,
        })
    }

    /// A tree of these pairs, which takes one step for each. Their keys strictly rise.
    pub fn from_sorted<L: Ledger>(
        alloc: Global,
        mut pairs: Vec<(K, V)>,
        steps: &mut Steps<L>,
    ) -> Result<Tree<K, V>, NoMemory>
        requires { IsRising K.cmp pairs.items }
        ensures pairs { IfOk result (λ tree. tree ≡ pairs.items) }
        ensures steps { OnOk result (steps.new ≡ steps.old + length pairs.items) }
        ensures most_steps { steps.new ≤ steps.old + length pairs.items }
    {
        let len = pairs.len();
        let root = build(alloc, &mut pairs, len, steps)?;
        Ok(Tree { root, len })
    }

    /// The pairs whose keys are not below `from`, or all pairs without one. The walk is made whole in
    /// this call, which takes at least one step for each of its pairs and at most b more.
    pub fn walk<L: Ledger>(
        &self,
        alloc: Global,
        from: Option<&K>,
        steps: &mut Steps<L>,
    ) -> Result<Walk<'_, K, V>, NoMemory>
        ensures pairs { IfOk result (λ walk. walk ≡ walked_from K.cmp from.entry self.now) }
        ensures least_steps { IfOk result (λ walk. steps.old + length walk ≤ steps.new) }
        ensures most_steps { IfOk result (λ walk. steps.new ≤ steps.old + (length walk + depth_of (length self.now))) }
    {
        self.root.read_kept();
        let mut found = Vec::new(alloc);
        gather_from(&self.root, from, &mut found, steps)?;
        Ok(Walk::of_list(found))
    }

    /// The pairs whose keys lie in the span. The walk is made whole in this call, which takes at
    /// least one step for each of its pairs and at most 2b more.
    pub fn walk_within<S: Span<K>, L: Ledger>(
        &self,
        alloc: Global,
        span: &S,
        steps: &mut Steps<L>,
    ) -> Result<Walk<'_, K, V>, NoMemory>
        ensures pairs { IfOk result (λ walk. walk ≡ pairs_within (S.place span.now) self.now) }
        ensures least_steps { IfOk result (λ walk. steps.old + length walk ≤ steps.new) }
        ensures most_steps { IfOk result (λ walk. steps.new ≤ steps.old + (length walk + 2 * depth_of (length self.now))) }
    {
        self.root.read_kept();
        let mut found = Vec::new(alloc);
        gather_within(&self.root, span, &mut found, steps)?;
        Ok(Walk::of_list(found))
    }
}

/// The number of pairs after an insertion. More pairs than a number can tell are a want of memory.
fn len_after(len: usize, is_new: bool) -> Result<usize, NoMemory>
    ensures { IfOk result (λ after. after ≡ len + (if is_new then 1 else 0)) }
{
    if !is_new {
        return Ok(len);
    }
    len.checked_add(1).ok_or(NoMemory)
}
