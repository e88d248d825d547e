// A branch of pairs that are in order already.
ghost use Rattle.std.specs.Prelude.{◌≡◌, ◌+◌, ◌≤◌, ◌++◌, IfOk, length};
ghost use Rattle.nm_tree.specs.Pairs.{IsRising};
ghost use Rattle.nm_tree.specs.Sight.{IsFull};

use crate::node::Branch;
use nm_base::{NoMemory, Steps};
use std::alloc::Global;
use std::sync::Arc;
use std::sync::ledger::Ledger;

/// A branch of the last `count` pairs, which are taken from the list. Both sides of each node have
/// half of its other pairs, so it is as low as a branch can be.
pub(crate) fn build<K: Ord + Drop, V: Drop, L: Ledger>(
    alloc: Global,
    pairs: &mut Vec<(K, V)>,
    count: usize,
    steps: &mut Steps<L>,
) -> Result<Branch<K, V>, NoMemory>
    requires enough { count ≤ length pairs.old.items }
    requires rising { IsRising K.cmp pairs.old.items }
    ensures taken { IfOk result (λ branch. pairs.old.items ≡ pairs.new.items ++ branch.pairs) }
    ensures count { IfOk result (λ branch. length branch.pairs ≡ count) }
    ensures full { IfOk result (λ branch. IsFull branch) }
    ensures steps { IfOk result (λ _. steps.new ≡ steps.old + count) }
    ensures few_steps { steps.new ≤ steps.old + count }
{
    if count == 0 {
        return Ok(Branch::empty());
    }
    let below = (count - 1) / 2;
    let right = build(alloc, pairs, count - 1 - below, steps)?;
    let Some(pair) = pairs.pop() else {
        unreachable!()
    };
    let left = build(alloc, pairs, below, steps)?;
    Branch::make(alloc, left, Arc::new(alloc, pair)?, right, steps)
}
