// A branch without one pair.
ghost use Rattle.std.specs.Prelude.{◌≡◌, ◌+◌, ◌*◌, ◌<◌, ◌≤◌, ◌∷◌, ◌++◌, IfOk, IfSome, MatchOption, length, max};
ghost use Rattle.nm_tree.specs.Change.{Shrinks};
ghost use Rattle.nm_tree.specs.Pairs.{IsRising, without};
ghost use Rattle.nm_tree.specs.Sight.{DifferByAtMost};

use crate::balance::balance;
use crate::node::{Branch, Fork};
use nm_base::{NoMemory, Steps};
use std::alloc::Global;
use std::cmp::Ordering;
use std::sync::Arc;
use std::sync::ledger::Ledger;

/// The first pair of a branch that is not empty.
pub(crate) struct Popped<K: Ord, V> {
    pub(crate) first: Arc<(K, V)>,
    pub(crate) others: Branch<K, V>,
}

/// The first pair, and a branch of the others.
fn pop_first<K: Ord + Drop, V: Drop, L: Ledger>(
    alloc: Global,
    branch: &Branch<K, V>,
    steps: &mut Steps<L>,
) -> Result<Popped<K, V>, NoMemory>
    requires { 0 < branch.now.height }
    ensures pairs { IfOk result (λ popped. branch.now.pairs ≡ popped.first.value ∷ popped.others.pairs) }
    ensures height { IfOk result (λ popped. Shrinks branch.now popped.others) }
    ensures steps { steps.new ≤ steps.old + 3 * branch.now.height }
{
    let Some(
        Fork {
            left,
            pair: top,
            right,
        },
    ) = branch.open(steps)
    else {
        unreachable!()
    };
    if left.is_empty() {
        return Ok(Popped {
            first: Arc::try_clone(top)?,
            others: right.share()?,
        });
    }
    let Popped { first, others } = pop_first(alloc, left, steps)?;
    let others = balance(alloc, &others, top, right, steps)?;
    Ok(Popped { first, others })
}

/// Two branches, one behind the other, which differ by one level at most.
fn join<K: Ord + Drop, V: Drop, L: Ledger>(
    alloc: Global,
    left: &Branch<K, V>,
    right: &Branch<K, V>,
    steps: &mut Steps<L>,
) -> Result<Branch<K, V>, NoMemory>
    requires rising { IsRising K.cmp (left.now.pairs ++ right.now.pairs) }
    requires near { DifferByAtMost 1 left.now right.now }
    ensures pairs { IfOk result (λ branch. branch.pairs ≡ left.now.pairs ++ right.now.pairs) }
    ensures height { IfOk result (λ branch. max left.now.height right.now.height ≤ branch.height × branch.height ≤ max left.now.height right.now.height + 1) }
    ensures steps { steps.new ≤ steps.old + (3 * max left.now.height right.now.height + 2) }
{
    if right.is_empty() {
        return left.share();
    }
    let Popped { first, others } = pop_first(alloc, right, steps)?;
    balance(alloc, left, &first, &others, steps)
}

/// The branch without the pair at the key, or nothing where no pair has the key.
pub(crate) fn remove_from<K: Ord + Drop, V: Drop, L: Ledger>(
    alloc: Global,
    branch: &Branch<K, V>,
    key: &K,
    steps: &mut Steps<L>,
) -> Result<Option<Branch<K, V>>, NoMemory>
    ensures pairs { IfOk result (λ found. MatchOption found (without K.cmp key.now branch.now.pairs ≡ branch.now.pairs) (λ others. others.pairs ≡ without K.cmp key.now branch.now.pairs)) }
    ensures count { IfOk result (λ found. IfSome found (λ others. length others.pairs + 1 ≡ length branch.now.pairs)) }
    ensures height { IfOk result (λ found. IfSome found (Shrinks branch.now)) }
    ensures steps { steps.new ≤ steps.old + 3 * branch.now.height }
{
    let Some(
        Fork {
            left,
            pair: top,
            right,
        },
    ) = branch.open(steps)
    else {
        return Ok(None);
    };
    match key.cmp(&top.0) {
        Ordering::Less => {
            let Some(below) = remove_from(alloc, left, key, steps)? else {
                return Ok(None);
            };
            Ok(Some(balance(alloc, &below, top, right, steps)?))
        }
        Ordering::Equal => Ok(Some(join(alloc, left, right, steps)?)),
        Ordering::Greater => {
            let Some(above) = remove_from(alloc, right, key, steps)? else {
                return Ok(None);
            };
            Ok(Some(balance(alloc, left, top, &above, steps)?))
        }
    }
}
