//! Lists in blocks at the limits of a block, a thousand changes of one, and that there is memory for
//! each of their calls.
ghost use Rattle.nm_blocks.specs.Items.{IsRising};
ghost use Rattle.std.specs.Ordering.{nat_cmp};
ghost use Rattle.std.specs.Prelude.{◌+◌, ◌*◌, ◌<◌, IfOk};

use nm_base::NoMemory;
use nm_blocks::{Blocks, Keyed};
use std::alloc::Global;
use std::collections::BTreeMap;
use std::sync::Arc;
use std::test::Fail;

/// A number at its key.
#[derive(Drop)]
struct Entry {
    key: u32,
    number: u32,
}

impl Keyed for Entry {
    type Key = u32;

    ghost key = { λ entry. entry.key };

    fn key(&self) -> &u32 {
        &self.key
    }

    fn share(&self) -> Result<Entry, NoMemory> {
        Ok(Entry {
            key: self.key,
            number: self.number,
        })
    }
}

/// So many entries with every second key from one on, each with its own key as its number.
fn entries(alloc: Global, first: u32, count: u32) -> Result<Vec<Entry>, NoMemory>
    requires { first + 2 * count < u32.MAX }
    ensures { IfOk result (λ made. IsRising ⟦<Entry as Keyed>⟧.key nat_cmp made.items) }
{
    let mut made = Vec::new(alloc);
    for place in 0..count {
        let key = first + 2 * place;
        made.push(Entry { key, number: key })?;
    }
    Ok(made)
}

/// A list of so many entries with even keys.
fn list_of(alloc: Global, count: u32) -> Result<Blocks<Entry>, NoMemory>
    requires { count < 10000 }
{
    Blocks::from_sorted(alloc, entries(alloc, 0, count)?)
}

/// The list with one entry more.
fn with_key(alloc: Global, list: &Blocks<Entry>, key: u32) -> Result<Blocks<Entry>, NoMemory> {
    list.with(alloc, Entry { key, number: 7 })
}

/// How long each block of the list is.
fn lengths(alloc: Global, list: &Blocks<Entry>) -> Result<Vec<usize>, NoMemory> {
    let mut lengths = Vec::new(alloc);
    for block in list.as_blocks() {
        lengths.push(block.len())?;
    }
    Ok(lengths)
}

/// How long the blocks of a list of so many entries are.
fn lengths_of(alloc: Global, count: u32) -> Result<Vec<usize>, NoMemory>
    requires { count < 10000 }
{
    lengths(alloc, &list_of(alloc, count)?)
}

/// Those of such a list with one entry more.
fn lengths_with(alloc: Global, count: u32, key: u32) -> Result<Vec<usize>, NoMemory>
    requires { count < 10000 }
{
    lengths(alloc, &with_key(alloc, &list_of(alloc, count)?, key)?)
}

#[test]
fn blocks_have_64_entries_at_most(rt: HostRuntime) -> Result<(), Fail> {
    let below = lengths_of(rt.alloc(), 63)?;
    let full = lengths_of(rt.alloc(), 64)?;
    let more = lengths_of(rt.alloc(), 65)?;
    assert!(rt; below.as_slice() == [63].as_slice());
    assert!(rt; full.as_slice() == [64].as_slice());
    assert!(rt; more.as_slice() == [64, 1].as_slice());
    Ok(())
}

#[test]
fn a_block_is_cut_evenly_and_the_last_one_where_it_is_full(rt: HostRuntime) -> Result<(), Fail> {
    let inner = lengths_with(rt.alloc(), 128, 1)?;
    let last = lengths_with(rt.alloc(), 128, 1000)?;
    assert!(rt; inner.as_slice() == [33, 32, 64].as_slice());
    assert!(rt; last.as_slice() == [64, 64, 1].as_slice());
    Ok(())
}

/// The list without the entries at so many even keys from one on, taken out one by one.
fn without_from(
    alloc: Global,
    list: &Blocks<Entry>,
    first: u32,
    count: u32,
) -> Result<Blocks<Entry>, NoMemory> {
    let mut left = list.share(alloc)?;
    for place in 0..count {
        left = left.without(alloc, &first.wrapping_add(place.wrapping_mul(2)))?;
    }
    Ok(left)
}

/// How long the blocks of a list of 192 entries are without these.
fn lengths_without(alloc: Global, first: u32, count: u32) -> Result<Vec<usize>, NoMemory> {
    lengths(
        alloc,
        &without_from(alloc, &list_of(alloc, 192)?, first, count)?,
    )
}

#[test]
fn blocks_that_fit_into_one_are_joined(rt: HostRuntime) -> Result<(), Fail> {
    let apart = lengths_without(rt.alloc(), 0, 63)?;
    let gone = lengths_without(rt.alloc(), 0, 64)?;
    let behind = lengths_without(rt.alloc(), 66, 64)?;
    assert!(rt; apart.as_slice() == [1, 64, 64].as_slice());
    assert!(rt; gone.as_slice() == [64, 64].as_slice());
    assert!(rt; behind.as_slice() == [64, 64].as_slice());
    Ok(())
}

/// A number of a fixed sequence in which no order is seen.
fn scattered(place: u32) -> u32 {
    place.wrapping_mul(2_654_435_761) >> 20
}

/// Changes the list and the map alike: every third change takes an entry out.
fn change(
    alloc: Global,
    list: &Blocks<Entry>,
    map: &mut BTreeMap<u32, u32>,
    place: u32,
) -> Result<Blocks<Entry>, NoMemory> {
    let key = scattered(place) % 600;
    if place % 3 == 0 {
        map.remove(&key);
        return list.without(alloc, &key);
    }
    map.insert(key, place)?;
    list.with(alloc, Entry { key, number: place })
}

/// Whether the list has the pairs of the map and no others.
fn are_alike(list: &Blocks<Entry>, map: &BTreeMap<u32, u32>) -> bool {
    for block in list.as_blocks() {
        for entry in block.iter() {
            if map.get(&entry.key) != Some(&entry.number) {
                return false;
            }
        }
    }
    list.len() == map.len()
}

fn thousand_changes(alloc: Global) -> Result<bool, NoMemory> {
    let mut map = BTreeMap::new(alloc);
    let mut list = Blocks::empty(alloc);
    for place in 0..1000 {
        list = change(alloc, &list, &mut map, place)?;
    }
    Ok(are_alike(&list, &map) && !list.is_empty())
}

#[test]
fn a_thousand_changes_leave_what_they_leave_of_a_map(rt: HostRuntime) -> Result<(), Fail> {
    let alike = thousand_changes(rt.alloc())?;
    assert!(rt; alike);
    Ok(())
}

/// How many entries a list of 192 has with 100 at odd keys, and without those at these keys.
fn changed_at_once(alloc: Global) -> Result<(usize, usize), NoMemory> {
    let old = list_of(alloc, 192)?;
    let more = old.with_all(alloc, entries(alloc, 101, 100)?)?;
    let less = more.without_all(alloc, &[2, 3, 128])?;
    Ok((more.len(), less.len()))
}

#[test]
fn many_come_and_go_at_once(rt: HostRuntime) -> Result<(), Fail> {
    let (more, less) = changed_at_once(rt.alloc())?;
    assert_eq!(rt; more, 292);
    assert_eq!(rt; less, 290);
    Ok(())
}

/// How many blocks no other list holds.
fn copied(list: &Blocks<Entry>) -> usize {
    let mut copied: usize = 0;
    for block in list.as_blocks() {
        if Arc::strong_count(block) == 1 {
            copied = copied.saturating_add(1);
        }
    }
    copied
}

/// How many blocks of a list of 4,096 entries are copied by an entry that comes, by one that goes and
/// by eight that come into two blocks.
fn copied_by_changes(alloc: Global) -> Result<(usize, usize, usize), NoMemory> {
    let old = list_of(alloc, 4096)?;
    let more = copied(&with_key(alloc, &old, 4000)?);
    let less = copied(&old.without(alloc, &4000)?);
    let many = copied(&old.with_all(alloc, entries(alloc, 2040, 8)?)?);
    Ok((more, less, many))
}

#[test]
fn a_change_copies_the_blocks_that_it_touches(rt: HostRuntime) -> Result<(), Fail> {
    let (more, less, many) = copied_by_changes(rt.alloc())?;
    assert_eq!(rt; more, 1);
    assert_eq!(rt; less, 1);
    assert_eq!(rt; many, 2);
    Ok(())
}

/// The numbers at the key 64, and of the first entry from 65 on, in a list of 192 entries.
fn numbers(alloc: Global) -> Result<(Option<u32>, Option<u32>), NoMemory> {
    let list = list_of(alloc, 192)?;
    let at = list.find(&64).map(|entry| entry.number);
    let from = list.first_from(&65).map(|entry| entry.number);
    Ok((at, from))
}

#[test]
fn entries_are_found(rt: HostRuntime) -> Result<(), Fail> {
    let (at, from) = numbers(rt.alloc())?;
    assert_eq!(rt; at, Some(64));
    assert_eq!(rt; from, Some(66));
    Ok(())
}
