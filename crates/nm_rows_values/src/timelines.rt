//! Timelines of single statements.
ghost use Rattle.nm_timeline.specs.Timeline.{CanAdd, without_keys};
ghost use Rattle.std.specs.Prelude.{[], ◌∷◌};

use nm_day::{Day, Key};
use nm_ident::NoMemory;
use nm_timeline::{Mark, Part, Timeline};
use std::alloc::Global;
use std::test::Fail;

const NEEDED: Mark = Mark {
    pre: true,
    rev: false,
    fwd: false,
};

const TAKEN: Mark = Mark {
    pre: false,
    rev: true,
    fwd: false,
};

const ADDED: Mark = Mark {
    pre: false,
    rev: false,
    fwd: true,
};

fn day(text: &[u8]) -> Result<Day, Fail> {
    Ok(Day::parse(text).ok().ok_or("no day")?)
}

fn key(text: &[u8], filing: u32) -> Result<Key, Fail> {
    Ok(Key {
        day: day(text)?,
        filing,
        stage: 0,
    })
}

/// The timeline with this entry, in place of the one at its key.
fn with(alloc: Global, timeline: &Timeline, key: Key, mark: Mark) -> Result<Timeline, NoMemory> {
    let added = [(key, mark)];
    put(alloc, timeline, &key, &added)
}

fn put(
    alloc: Global,
    timeline: &Timeline,
    key: &Key,
    added: &[(Key, Mark)],
) -> Result<Timeline, NoMemory>
    requires { CanAdd (without_keys (key.now ∷ []) timeline.now.entries) added.now }
{
    let removed = [*key];
    timeline.edited(alloc, &removed, added)
}

fn without(alloc: Global, timeline: &Timeline, key: Key) -> Result<Timeline, NoMemory> {
    put(alloc, timeline, &key, &[])
}

/// A statement of the base that is taken away in April and added again in June.
fn away(alloc: Global) -> Result<Timeline, Fail> {
    let timeline = Timeline::new(alloc, true);
    let timeline = with(alloc, &timeline, key(b"2027-06-01", 2)?, ADDED)?;
    Ok(with(alloc, &timeline, key(b"2027-04-01", 3)?, TAKEN)?)
}

fn breaks_at(timeline: &Timeline, key: Key, part: Part) -> bool {
    timeline.first_break() == Some((key, part))
}

#[test]
fn a_statement_goes_and_comes_with_the_steps(rt: HostRuntime) -> Result<(), Fail> {
    let timeline = away(rt.alloc())?;
    assert!(rt; timeline.present(day(b"2027-03-31")?));
    assert!(rt; !timeline.present(day(b"2027-04-01")?));
    assert!(rt; !timeline.present(day(b"2027-05-31")?));
    assert!(rt; timeline.present(day(b"2027-06-01")?));
    assert!(rt; timeline.first_break().is_none());
    Ok(())
}

#[test]
fn a_step_that_is_moved_before_another_breaks_it(rt: HostRuntime) -> Result<(), Fail> {
    let alloc = rt.alloc();
    let timeline = without(alloc, &away(alloc)?, key(b"2027-04-01", 3)?)?;
    let june = key(b"2027-06-01", 2)?;
    assert!(rt; breaks_at(&timeline, june, Part::Forward));
    let late = with(alloc, &timeline, key(b"2027-06-01", 3)?, TAKEN)?;
    assert!(rt; breaks_at(&late, june, Part::Forward));
    let early = with(alloc, &timeline, key(b"2027-06-01", 1)?, TAKEN)?;
    assert!(rt; early.first_break().is_none());
    Ok(())
}

#[test]
fn a_precondition_needs_what_was_there_before_its_step(rt: HostRuntime) -> Result<(), Fail> {
    let alloc = rt.alloc();
    let may = key(b"2027-05-01", 4)?;
    let timeline = with(alloc, &away(alloc)?, may, NEEDED)?;
    assert!(rt; breaks_at(&timeline, may, Part::Precondition));
    let own = Mark {
        pre: true,
        rev: true,
        fwd: true,
    };
    let timeline = with(alloc, &timeline, may, own)?;
    assert!(rt; breaks_at(&timeline, may, Part::Precondition));
    assert!(rt; timeline.present(may.day));
    Ok(())
}
