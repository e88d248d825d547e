// A branch with one more pair, or with another pair in the place of one.
ghost use Rattle.std.specs.Prelude.{◌≡◌, ◌+◌, ◌*◌, ◌≤◌, ◌∷◌, ◌++◌, IfOk, length, if◌then◌else◌};
ghost use Rattle.nm_tree.specs.Change.{Grows};
ghost use Rattle.nm_tree.specs.Pairs.{with_pair};
ghost use Rattle.nm_tree.specs.Sight.{bare, fork_of};

use crate::balance::{balance, fork};
use crate::node::{Branch, Fork};
use nm_base::{NoMemory, Steps};
use std::alloc::Global;
use std::cmp::Ordering;
use std::sync::Arc;
use std::sync::ledger::Ledger;

/// A branch after an insertion.
#[derive(Drop)]
pub(crate) struct Inserted<K: Ord, V> {
    pub(crate) branch: Branch<K, V>,
    /// Whether the key is new.
    pub(crate) is_new: bool,
}

/// The branch with the pair at its place, where it takes that of a pair with an equal key.
pub(crate) fn insert_into<K: Ord + Drop, V: Drop, L: Ledger>(
    alloc: Global,
    branch: &Branch<K, V>,
    pair: &Arc<(K, V)>,
    steps: &mut Steps<L>,
) -> Result<Inserted<K, V>, NoMemory>
    ensures pairs { IfOk result (λ r. r.branch.pairs ≡ with_pair K.cmp pair.now.value branch.now.pairs) }
    ensures count { IfOk result (λ r. length r.branch.pairs ≡ length branch.now.pairs + (if r.is_new then 1 else 0)) }
    ensures height { IfOk result (λ r. Grows branch.now r.branch) }
    ensures steps { steps.new ≤ steps.old + (2 * branch.now.height + 5) }
    ensures few_steps { IfOk result (λ r. r.branch.height ≡ branch.now.height + 1 → steps.new ≤ steps.old + (2 * branch.now.height + 1)) }
{
    let Some(
        Fork {
            left,
            pair: top,
            right,
        },
    ) = branch.open(steps)
    else {
        let branch = single(alloc, pair, steps)?;
        return Ok(Inserted {
            branch,
            is_new: true,
        });
    };
    match pair.0.cmp(&top.0) {
        Ordering::Less => {
            let below = insert_into(alloc, left, pair, steps)?;
            let branch = balance(alloc, &below.branch, top, right, steps)?;
            Ok(Inserted {
                branch,
                is_new: below.is_new,
            })
        }
        Ordering::Equal => {
            let branch = fork(alloc, left, pair, right, steps)?;
            Ok(Inserted {
                branch,
                is_new: false,
            })
        }
        Ordering::Greater => {
            let above = insert_into(alloc, right, pair, steps)?;
            let branch = balance(alloc, left, top, &above.branch, steps)?;
            Ok(Inserted {
                branch,
                is_new: above.is_new,
            })
        }
    }
}

/// A branch of one pair.
fn single<K: Ord + Drop, V: Drop, L: Ledger>(
    alloc: Global,
    pair: &Arc<(K, V)>,
    steps: &mut Steps<L>,
) -> Result<Branch<K, V>, NoMemory>
    ensures fork { IfOk result (λ branch. branch ≡ fork_of bare pair.now.value bare) }
    ensures steps { steps.new ≤ steps.old + 1 }
{
    let shared = Arc::try_clone(pair)?;
    Branch::make(alloc, Branch::empty(), shared, Branch::empty(), steps)
}
