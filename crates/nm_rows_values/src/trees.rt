//! Trees of a thousand pairs, and that there is memory for each of their calls.
ghost use Rattle.nm_tree.specs.Pairs.{IsRising};
ghost use Rattle.std.specs.Ordering.{nat_cmp};
ghost use Rattle.std.specs.Prelude.{◌≡◌, ◌<◌, IfOk};

use nm_base::{NoMemory, Steps};
use nm_tree::{Span, Tree};
use std::alloc::Global;
use std::cmp::Ordering;
use std::marker::Brand;
use std::sync::ledger::{Blank, Ledger};
use std::test::Fail;

/// The keys 1 to 1,000, each with its own number as the value.
fn thousand(alloc: Global) -> Result<Vec<(u32, u32)>, NoMemory>
    ensures { IfOk result (λ pairs. IsRising nat_cmp pairs.items) }
{
    let mut pairs = Vec::new(alloc);
    for key in 1..1001u32 {
        pairs.push((key, key))?;
    }
    Ok(pairs)
}

fn tree_of_thousand<L: Ledger>(
    alloc: Global,
    steps: &mut Steps<L>,
) -> Result<Tree<u32, u32>, NoMemory> {
    Tree::from_sorted(alloc, thousand(alloc)?, steps)
}

/// The number of pairs of a tree that has the key 0 as well.
fn size_with_zero<L: Ledger>(
    alloc: Global,
    tree: &Tree<u32, u32>,
    steps: &mut Steps<L>,
) -> Result<usize, NoMemory> {
    let more = tree.insert(alloc, 0, 7, steps)?;
    Ok(more.len())
}

/// The number of pairs of a tree that shares all of these.
fn size_shared(tree: &Tree<u32, u32>) -> Result<usize, NoMemory> {
    let shared = tree.share()?;
    Ok(shared.len())
}

/// The number of pairs of a tree without the key 5,000.
fn size_without<L: Ledger>(
    alloc: Global,
    tree: &Tree<u32, u32>,
    steps: &mut Steps<L>,
) -> Result<usize, NoMemory> {
    let same = tree.remove(alloc, &5000, steps)?;
    Ok(same.len())
}

/// The numbers of pairs of the tree, of one with the key 0 as well, of what shares it, and of one
/// without the key 5,000.
fn sizes<L: Ledger>(alloc: Global, blank: Blank) -> Result<(usize, usize, usize, usize), NoMemory>
    requires name { blank.name ≡ L.name }
    requires parts { blank.parts ≡ L.parts }
    requires some { 0 < blank.parts }
{
    let mut steps = Steps::<L>::start(blank);
    let old = tree_of_thousand(alloc, &mut steps)?;
    let more = size_with_zero(alloc, &old, &mut steps)?;
    let shared = size_shared(&old)?;
    let same = size_without(alloc, &old, &mut steps)?;
    Ok((old.len(), more, shared, same))
}

/// The keys from 10 to 19.
#[derive(Drop)]
struct Tens;

impl Span<u32> for Tens {
    ghost use Rattle.std.specs.Ordering.{nat_cmp};
    ghost use Rattle.nm_rows_values.specs.Tens.{place_of_tens, tens_rise};

    ghost place = { λ _. place_of_tens };

    fn place(&self, key: &u32) -> Ordering {
        if *key < 10 {
            Ordering::Less
        } else if *key < 20 {
            Ordering::Equal
        } else {
            Ordering::Greater
        }
    }

    ghost rises = { λ _. tens_rise };
}

/// How many pairs a walk gives from the key 990 on, and of all, and within the span.
fn walks<L: Ledger>(alloc: Global, blank: Blank) -> Result<(usize, usize, usize), NoMemory>
    requires name { blank.name ≡ L.name }
    requires parts { blank.parts ≡ L.parts }
    requires some { 0 < blank.parts }
{
    let mut steps = Steps::<L>::start(blank);
    let tree = tree_of_thousand(alloc, &mut steps)?;
    let end = tree.walk(alloc, Some(&990), &mut steps)?.len();
    let all = tree.walk(alloc, None, &mut steps)?.len();
    let tens = tree.walk_within(alloc, &Tens, &mut steps)?.len();
    Ok((end, all, tens))
}

/// The values at the keys 500 and 0 once the key 0 has the value 7.
fn values<L: Ledger>(
    alloc: Global,
    blank: Blank,
) -> Result<(Option<u32>, Option<u32>, Option<u32>), NoMemory>
    requires name { blank.name ≡ L.name }
    requires parts { blank.parts ≡ L.parts }
    requires some { 0 < blank.parts }
{
    let mut steps = Steps::<L>::start(blank);
    let old = tree_of_thousand(alloc, &mut steps)?;
    let new = old.insert(alloc, 0, 7, &mut steps)?;
    let before = old.get(&0, &mut steps).copied();
    let after = new.get(&0, &mut steps).copied();
    let shared = new.get(&500, &mut steps).copied();
    Ok((before, after, shared))
}

/// Whether a tree without an absent key has the pairs that it had.
fn stays_equal<L: Ledger>(alloc: Global, blank: Blank) -> Result<bool, NoMemory>
    requires name { blank.name ≡ L.name }
    requires parts { blank.parts ≡ L.parts }
    requires some { 0 < blank.parts }
{
    let mut steps = Steps::<L>::start(blank);
    let old = tree_of_thousand(alloc, &mut steps)?;
    let same = old.remove(alloc, &5000, &mut steps)?;
    let before = old.walk(alloc, None, &mut steps)?;
    let after = same.walk(alloc, None, &mut steps)?;
    Ok(before.as_slice() == after.as_slice())
}

#[test]
fn an_old_tree_stays_and_an_absent_key_takes_nothing_out(rt: HostRuntime) -> Result<(), Fail> {
    let (old, more, shared, same) = sizes::<Brand>(rt.alloc(), Blank::new(1))?;
    assert_eq!(rt; old, 1000);
    assert_eq!(rt; more, 1001);
    assert_eq!(rt; shared, 1000);
    assert_eq!(rt; same, 1000);
    Ok(())
}

#[test]
fn a_tree_without_an_absent_key_is_equal(rt: HostRuntime) -> Result<(), Fail> {
    let equal = stays_equal::<Brand>(rt.alloc(), Blank::new(1))?;
    assert!(rt; equal);
    Ok(())
}

#[test]
fn walks_begin_and_end_where_they_should(rt: HostRuntime) -> Result<(), Fail> {
    let (end, all, tens) = walks::<Brand>(rt.alloc(), Blank::new(1))?;
    assert_eq!(rt; end, 11);
    assert_eq!(rt; all, 1000);
    assert_eq!(rt; tens, 10);
    Ok(())
}

#[test]
fn a_value_is_found_in_its_own_tree_alone(rt: HostRuntime) -> Result<(), Fail> {
    let (before, after, shared) = values::<Brand>(rt.alloc(), Blank::new(1))?;
    assert_eq!(rt; before, None);
    assert_eq!(rt; after, Some(7));
    assert_eq!(rt; shared, Some(500));
    Ok(())
}
