// Walks along a branch, from one end of a span to the other.
ghost use Rattle.std.specs.Prelude.{◌≡◌, ◌+◌, ◌*◌, ◌≤◌, ◌++◌, ◌==◌, OnOk, length};
ghost use Rattle.nm_tree.specs.Span.{pairs_not_above, pairs_not_below, pairs_within, values_of, walked_from};

use crate::node::{Branch, Fork};
use crate::span::{From, Span};
use nm_base::{NoMemory, Steps};
use std::cmp::Ordering;
use std::marker::Model;
use std::sync::ledger::Ledger;

/// Appends the pairs of a branch that lie in the span.
pub(crate) fn gather_within<'a, K: Ord + Drop, V: Drop, S: Span<K>, L: Ledger>(
    branch: &'a Branch<K, V>,
    span: &S,
    found: &mut Vec<&'a (K, V)>,
    steps: &mut Steps<L>,
) -> Result<(), NoMemory>
    ensures pairs { OnOk result (values_of found.new.items ≡ values_of found.old.items ++ pairs_within (S.place span.now) branch.entry.now.pairs) }
    ensures most_steps { steps.new ≤ steps.old + (length (pairs_within (S.place span.now) branch.entry.now.pairs) + 2 * branch.entry.now.height) }
    ensures least_steps { OnOk result (steps.old + length (pairs_within (S.place span.now) branch.entry.now.pairs) ≤ steps.new) }
{
    let Some(
        Fork {
            left,
            pair: top,
            right,
        },
    ) = branch.open(steps)
    else {
        return Ok(());
    };
    match span.place(&top.0) {
        Ordering::Less => gather_within(right, span, found, steps),
        Ordering::Equal => {
            gather_up(left, span, found, steps)?;
            found.push(&**top)?;
            gather_down(right, span, found, steps)
        }
        Ordering::Greater => gather_within(left, span, found, steps),
    }
}

/// Appends the pairs of a branch that do not lie below the span.
pub(crate) fn gather_up<'a, K: Ord + Drop, V: Drop, S: Span<K>, L: Ledger>(
    branch: &'a Branch<K, V>,
    span: &S,
    found: &mut Vec<&'a (K, V)>,
    steps: &mut Steps<L>,
) -> Result<(), NoMemory>
    ensures pairs { OnOk result (values_of found.new.items ≡ values_of found.old.items ++ pairs_not_below (S.place span.now) branch.entry.now.pairs) }
    ensures most_steps { steps.new ≤ steps.old + (length (pairs_not_below (S.place span.now) branch.entry.now.pairs) + branch.entry.now.height) }
    ensures least_steps { OnOk result (steps.old + length (pairs_not_below (S.place span.now) branch.entry.now.pairs) ≤ steps.new) }
{
    let Some(
        Fork {
            left,
            pair: top,
            right,
        },
    ) = branch.open(steps)
    else {
        return Ok(());
    };
    match span.place(&top.0) {
        Ordering::Less => gather_up(right, span, found, steps),
        _ => {
            gather_up(left, span, found, steps)?;
            found.push(&**top)?;
            gather_all(right, found, steps)
        }
    }
}

/// Appends the pairs of a branch that do not lie above the span.
fn gather_down<'a, K: Ord + Drop, V: Drop, S: Span<K>, L: Ledger>(
    branch: &'a Branch<K, V>,
    span: &S,
    found: &mut Vec<&'a (K, V)>,
    steps: &mut Steps<L>,
) -> Result<(), NoMemory>
    ensures pairs { OnOk result (values_of found.new.items ≡ values_of found.old.items ++ pairs_not_above (S.place span.now) branch.entry.now.pairs) }
    ensures most_steps { steps.new ≤ steps.old + (length (pairs_not_above (S.place span.now) branch.entry.now.pairs) + branch.entry.now.height) }
    ensures least_steps { OnOk result (steps.old + length (pairs_not_above (S.place span.now) branch.entry.now.pairs) ≤ steps.new) }
{
    let Some(
        Fork {
            left,
            pair: top,
            right,
        },
    ) = branch.open(steps)
    else {
        return Ok(());
    };
    match span.place(&top.0) {
        Ordering::Greater => gather_down(left, span, found, steps),
        _ => {
            gather_all(left, found, steps)?;
            found.push(&**top)?;
            gather_down(right, span, found, steps)
        }
    }
}

/// Appends all pairs of a branch.
pub(crate) fn gather_all<'a, K: Ord + Drop, V: Drop, L: Ledger>(
    branch: &'a Branch<K, V>,
    found: &mut Vec<&'a (K, V)>,
    steps: &mut Steps<L>,
) -> Result<(), NoMemory>
    ensures pairs { OnOk result (values_of found.new.items ≡ values_of found.old.items ++ branch.entry.now.pairs) }
    ensures most_steps { steps.new ≤ steps.old + length branch.entry.now.pairs }
    ensures least_steps { OnOk result (steps.old + length branch.entry.now.pairs ≤ steps.new) }
{
    let Some(
        Fork {
            left,
            pair: top,
            right,
        },
    ) = branch.open(steps)
    else {
        return Ok(());
    };
    gather_all(left, found, steps)?;
    found.push(&**top)?;
    gather_all(right, found, steps)
}

/// Appends the pairs of a branch whose keys are not below the key, or all where there is none.
pub(crate) fn gather_from<'a, K: Ord + Drop, V: Drop, L: Ledger>(
    branch: &'a Branch<K, V>,
    from: Option<&K>,
    found: &mut Vec<&'a (K, V)>,
    steps: &mut Steps<L>,
) -> Result<(), NoMemory>
    ensures pairs { OnOk result (values_of found.new.items ≡ values_of found.old.items ++ walked_from K.cmp from.entry branch.entry.now.pairs) }
    ensures most_steps { steps.new ≤ steps.old + (length (walked_from K.cmp from.entry branch.entry.now.pairs) + branch.entry.now.height) }
    ensures least_steps { OnOk result (steps.old + length (walked_from K.cmp from.entry branch.entry.now.pairs) ≤ steps.new) }
{
    match from {
        None => gather_all(branch, found, steps),
        Some(key) => gather_up(branch, &From { key }, found, steps),
    }
}

/// The pairs that a walk gives, in order. A contract sees the list of them.
#[derive(Drop)]
pub struct Walk<'a, K, V> {
    pairs: Vec<&'a (K, V)>,
}

impl<'a, K, V> Model for Walk<'a, K, V> {
    ghost use Rattle.std.specs.Prelude.{List};
    ghost use Rattle.nm_tree.specs.Span.{values_of};

    ghost Value = { List (K × V) };

    ghost view = { λ walk. values_of walk.pairs.items };
}

impl<'a, K, V> Walk<'a, K, V> {
    pub(crate) fn of_list(pairs: Vec<&'a (K, V)>) -> Walk<'a, K, V>
        ensures { result ≡ values_of pairs.entry.items }
    {
        Walk { pairs }
    }

    /// The pairs, in order.
    pub fn as_slice(&self) -> &[&'a (K, V)]
        ensures { values_of result.now ≡ self.now }
    {
        &self.pairs
    }

    /// How many pairs the walk gives.
    pub fn len(&self) -> usize
        ensures { result ≡ length self.now }
    {
        self.pairs.len()
    }

    /// Whether the walk gives no pair.
    pub fn is_empty(&self) -> bool
        ensures { result ≡ (length self.now == 0) }
    {
        self.pairs.is_empty()
    }
}
