// Nodes over shared parts, and rotations where one side is two levels higher.
ghost use Rattle.std.specs.Prelude.{◌≡◌, ◌+◌, ◌≤◌, ◌∷◌, ◌++◌, IfOk};
ghost use Rattle.nm_tree.specs.Balance.{BalancesTo, IsRotated};
ghost use Rattle.nm_tree.specs.Pairs.{IsRising};
ghost use Rattle.nm_tree.specs.Sight.{DifferByAtMost, IsFork, fork_of};

use crate::node::{Branch, Fork};
use nm_base::{NoMemory, Steps};
use std::alloc::Global;
use std::sync::Arc;
use std::sync::ledger::Ledger;

/// A node of a pair between two sides, which it shares.
pub(crate) fn fork<K: Ord + Drop, V: Drop, L: Ledger>(
    alloc: Global,
    left: &Branch<K, V>,
    pair: &Arc<(K, V)>,
    right: &Branch<K, V>,
    steps: &mut Steps<L>,
) -> Result<Branch<K, V>, NoMemory>
    requires { IsFork K.cmp left.now pair.now.value right.now }
    ensures fork { IfOk result (λ branch. branch ≡ fork_of left.now pair.now.value right.now) }
    ensures steps { steps.new ≤ steps.old + 1 }
{
    Branch::make(
        alloc,
        left.share()?,
        Arc::try_clone(pair)?,
        right.share()?,
        steps,
    )
}

/// A pair between two sides that differ by two levels at most, in a balanced branch.
pub(crate) fn balance<K: Ord + Drop, V: Drop, L: Ledger>(
    alloc: Global,
    left: &Branch<K, V>,
    pair: &Arc<(K, V)>,
    right: &Branch<K, V>,
    steps: &mut Steps<L>,
) -> Result<Branch<K, V>, NoMemory>
    requires rising { IsRising K.cmp (left.now.pairs ++ pair.now.value ∷ right.now.pairs) }
    requires near { DifferByAtMost 2 left.now right.now }
    ensures balanced { IfOk result (BalancesTo left.now pair.now.value right.now) }
    ensures steps { steps.new ≤ steps.old + 5 }
    ensures one_step { DifferByAtMost 1 left.now right.now → steps.new ≤ steps.old + 1 }
{
    if left.height().saturating_sub(right.height()) > 1 {
        return lean_left(alloc, left, pair, right, steps);
    }
    if right.height().saturating_sub(left.height()) > 1 {
        return lean_right(alloc, left, pair, right, steps);
    }
    fork(alloc, left, pair, right, steps)
}

/// The same where the left side is two levels higher.
fn lean_left<K: Ord + Drop, V: Drop, L: Ledger>(
    alloc: Global,
    left: &Branch<K, V>,
    pair: &Arc<(K, V)>,
    right: &Branch<K, V>,
    steps: &mut Steps<L>,
) -> Result<Branch<K, V>, NoMemory>
    requires rising { IsRising K.cmp (left.now.pairs ++ pair.now.value ∷ right.now.pairs) }
    requires two_higher { left.now.height ≡ right.now.height + 2 }
    ensures pairs { IfOk result (λ branch. branch.pairs ≡ left.now.pairs ++ pair.now.value ∷ right.now.pairs) }
    ensures height { IfOk result (IsRotated left.now) }
    ensures steps { steps.new ≤ steps.old + 5 }
{
    let Some(
        Fork {
            left: outer,
            pair: top,
            right: inner,
        },
    ) = left.open(steps)
    else {
        unreachable!()
    };
    if outer.height() >= inner.height() {
        let above = fork(alloc, inner, pair, right, steps)?;
        return fork(alloc, outer, top, &above, steps);
    }
    double(alloc, outer, top, inner, pair, right, steps)
}

/// The same where the right side is two levels higher.
fn lean_right<K: Ord + Drop, V: Drop, L: Ledger>(
    alloc: Global,
    left: &Branch<K, V>,
    pair: &Arc<(K, V)>,
    right: &Branch<K, V>,
    steps: &mut Steps<L>,
) -> Result<Branch<K, V>, NoMemory>
    requires rising { IsRising K.cmp (left.now.pairs ++ pair.now.value ∷ right.now.pairs) }
    requires two_higher { right.now.height ≡ left.now.height + 2 }
    ensures pairs { IfOk result (λ branch. branch.pairs ≡ left.now.pairs ++ pair.now.value ∷ right.now.pairs) }
    ensures height { IfOk result (IsRotated right.now) }
    ensures steps { steps.new ≤ steps.old + 5 }
{
    let Some(
        Fork {
            left: inner,
            pair: top,
            right: outer,
        },
    ) = right.open(steps)
    else {
        unreachable!()
    };
    if outer.height() >= inner.height() {
        let below = fork(alloc, left, pair, inner, steps)?;
        return fork(alloc, &below, top, outer, steps);
    }
    double(alloc, left, pair, inner, top, outer, steps)
}

/// Two pairs around a middle branch that is one level higher than what lies outside of them: the pair
/// at the top of the middle comes to the top.
fn double<K: Ord + Drop, V: Drop, L: Ledger>(
    alloc: Global,
    first: &Branch<K, V>,
    low: &Arc<(K, V)>,
    middle: &Branch<K, V>,
    high: &Arc<(K, V)>,
    last: &Branch<K, V>,
    steps: &mut Steps<L>,
) -> Result<Branch<K, V>, NoMemory>
    requires rising { IsRising K.cmp (first.now.pairs ++ low.now.value ∷ (middle.now.pairs ++ high.now.value ∷ last.now.pairs)) }
    requires one_higher { middle.now.height ≡ first.now.height + 1 }
    requires alike { last.now.height ≡ first.now.height }
    ensures pairs { IfOk result (λ branch. branch.pairs ≡ first.now.pairs ++ low.now.value ∷ (middle.now.pairs ++ high.now.value ∷ last.now.pairs)) }
    ensures height { IfOk result (λ branch. branch.height ≡ first.now.height + 2) }
    ensures steps { steps.new ≤ steps.old + 4 }
{
    let Some(
        Fork {
            left,
            pair: top,
            right,
        },
    ) = middle.open(steps)
    else {
        unreachable!()
    };
    let below = fork(alloc, first, low, left, steps)?;
    let above = fork(alloc, right, high, last, steps)?;
    fork(alloc, &below, top, &above, steps)
}
