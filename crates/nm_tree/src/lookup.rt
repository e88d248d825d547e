// The value at a key.
ghost use Rattle.std.specs.Prelude.{◌≡◌, ◌+◌, ◌≤◌};
ghost use Rattle.std.specs.Option.{option_map};
ghost use Rattle.nm_tree.specs.Pairs.{value_at};

use crate::node::{Branch, Fork};
use nm_base::Steps;
use std::cmp::Ordering;
use std::sync::ledger::Ledger;

/// The value at the key, by at most one step for each level.
pub(crate) fn find<'a, K: Ord + Drop, V: Drop, L: Ledger>(
    branch: &'a Branch<K, V>,
    key: &K,
    steps: &mut Steps<L>,
) -> Option<&'a V>
    ensures value { option_map (λ v. v.now) result ≡ value_at K.cmp key.now branch.entry.now.pairs }
    ensures steps { steps.new ≤ steps.old + branch.entry.now.height }
{
    let Some(
        Fork {
            left,
            pair: top,
            right,
        },
    ) = branch.open(steps)
    else {
        return None;
    };
    match key.cmp(&top.0) {
        Ordering::Less => find(left, key, steps),
        Ordering::Equal => Some(&top.1),
        Ordering::Greater => find(right, key, steps),
    }
}
