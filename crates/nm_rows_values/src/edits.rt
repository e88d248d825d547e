//! Edits of the timelines of a store: what is refused, and what days and subjects tell after one.
ghost use Rattle.nm_check.specs.Edit.{CanEdit, edited_steps};
ghost use Rattle.nm_check.specs.Kept.{AreTimelinesOf};
ghost use Rattle.nm_check.specs.Replay.{HasSets};
ghost use Rattle.nm_rows_values.specs.Edits.{IsOne, IsPair};
ghost use Rattle.std.specs.Prelude.{◌≡◌, ◌<◌, [], IfOk};

use nm_base::Steps;
use nm_check::{EditError, Timelines};
use nm_day::{Day, Key};
use nm_ident::{Ident, Ids, Name, NoMemory};
use nm_stage::Step;
use nm_statement::{Change, Literal, Object, Set, Statement};
use nm_timeline::Part;
use std::alloc::Global;
use std::marker::Brand;
use std::sync::Arc;
use std::sync::ledger::{Blank, Ledger};
use std::test::Fail;

const NAMESPACE: &[u8] = b"http://iec.ch/TC57/2013/CIM-schema-cim16#";

const SUBSTATION: u128 = 7;

/// That the substation has this name.
fn named(alloc: Global, name: &[u8]) -> Result<Statement, Fail> {
    Ok(Statement {
        subject: Ident::Uuid(SUBSTATION),
        predicate: Name::new(alloc, NAMESPACE, b"IdentifiedObject.name")?,
        object: Object::Literal(Literal::new(alloc, name)?),
    })
}

/// The statements of these names.
fn set_of(alloc: Global, names: &[&[u8]]) -> Result<Set, Fail> {
    let mut statements = Vec::new(alloc);
    for name in names {
        statements.push(named(alloc, name)?)?;
    }
    Ok(Set::of_list(alloc, statements)?)
}

fn day(text: &[u8]) -> Result<Day, Fail> {
    Ok(Day::parse(text).ok().ok_or("no day")?)
}

/// The names in the preconditions, the reverse and the forward statements of a step.
type Names<'a> = (&'a [&'a [u8]], &'a [&'a [u8]], &'a [&'a [u8]]);

fn change_of(alloc: Global, names: Names<'_>) -> Result<Change, Fail> {
    let (pre, rev, fwd) = names;
    Ok(Change {
        pre: set_of(alloc, pre)?,
        rev: set_of(alloc, rev)?,
        fwd: set_of(alloc, fwd)?,
    })
}

fn step(alloc: Global, text: &[u8], filing: u32, names: Names<'_>) -> Result<Step, Fail> {
    Ok(Step {
        key: Key {
            day: day(text)?,
            filing,
            stage: 0,
        },
        model: 0,
        dependencies: Ids::of_list(Vec::new(alloc)),
        change: Arc::new(alloc, change_of(alloc, names)?)?,
    })
}

// ---- edits

/// Reads that the parts of the step's change are sets.
fn are_sets(step: &Step)
    ensures { HasSets step.now }
{
    let _pre = step.change.pre.as_slice();
    let _rev = step.change.rev.as_slice();
    let _fwd = step.change.fwd.as_slice();
}

/// The list of this step.
fn only(alloc: Global, first: Step) -> Result<Vec<Step>, NoMemory>
    ensures { IfOk result (λ steps. IsOne steps.items) }
{
    are_sets(&first);
    let mut steps = Vec::new(alloc);
    steps.push(first)?;
    Ok(steps)
}

/// The list of these steps, which stand at different keys.
fn pair(alloc: Global, first: Step, second: Step) -> Result<Vec<Step>, NoMemory>
    ensures { IfOk result (λ steps. IsPair steps.items) }
{
    are_sets(&first);
    are_sets(&second);
    if first.key == second.key {
        return Err(NoMemory);
    }
    let mut steps = Vec::new(alloc);
    steps.push(first)?;
    steps.push(second)?;
    Ok(steps)
}

/// The timelines of a base and these steps.
fn filed<L: Ledger>(
    alloc: Global,
    base: &Set,
    added: &[Step],
    counted: &mut Steps<L>,
) -> Result<Timelines, EditError>
    requires { CanEdit [] added.now [] }
    ensures { IfOk result (λ timelines. AreTimelinesOf base.now (edited_steps [] added.now []) timelines) }
{
    let _statements = base.as_slice();
    let timelines = Timelines::of_base(alloc, base, counted)?;
    timelines.edit(alloc, &[], added, counted)
}

/// The timelines of a base and a step.
fn with_one<L: Ledger>(
    alloc: Global,
    base: &Set,
    added: &[Step],
    counted: &mut Steps<L>,
) -> Result<Timelines, EditError>
    requires { IsOne added.now }
{
    filed(alloc, base, added, counted)
}

/// The timelines of a base and two steps.
fn with_two<L: Ledger>(
    alloc: Global,
    base: &Set,
    added: &[Step],
    counted: &mut Steps<L>,
) -> Result<Timelines, EditError>
    requires { IsPair added.now }
{
    filed(alloc, base, added, counted)
}

/// The timelines of a base after a step was filed and withdrawn.
fn withdrawn<L: Ledger>(
    alloc: Global,
    base: &Set,
    taken: &[Step],
    counted: &mut Steps<L>,
) -> Result<Timelines, EditError>
    requires { IsOne taken.now }
{
    let timelines = filed(alloc, base, taken, counted)?;
    timelines.edit(alloc, taken, &[], counted)
}

/// The timelines of a base after a step was filed, and moved to where the later one stands.
fn moved<'a, L: Ledger>(
    alloc: Global,
    base: &Set,
    taken: &'a [Step],
    later: &'a [Step],
    counted: &mut Steps<L>,
) -> Result<Timelines, EditError>
    requires taken { IsOne taken.now }
    requires later { IsOne later.now }
{
    let timelines = filed(alloc, base, taken, counted)?;
    timelines.edit(alloc, taken, later, counted)
}

/// The timelines of a base after two steps were filed, and the first withdrawn.
fn first_withdrawn<L: Ledger>(
    alloc: Global,
    base: &Set,
    both: &[Step],
    counted: &mut Steps<L>,
) -> Result<Timelines, EditError>
    requires { IsPair both.now }
{
    let timelines = filed(alloc, base, both, counted)?;
    timelines.edit(alloc, &both[..1], &[], counted)
}

// ---- what is told

/// The filing number of the step that breaks, the part, and whether the statement is this one.
fn break_of(
    edited: Result<Timelines, EditError>,
    statement: &Statement,
) -> Result<(u32, Part, bool), Fail> {
    match edited {
        Ok(_timelines) => Err("no break".into()),
        Err(EditError::NoMemory) => Err("no memory".into()),
        Err(EditError::Break(found)) => {
            let same = found.statement == *statement;
            Ok((found.key.filing, found.part, same))
        }
    }
}

/// How many statements there are on a day, how many timelines the substation has, how many entries
/// its first one has, and whether a set of the day has as many.
fn told(
    alloc: Global,
    timelines: &Timelines,
    text: &[u8],
) -> Result<(usize, usize, usize, bool), Fail> {
    let count = timelines.count(alloc, day(text)?)?;
    let same = timelines.at(alloc, day(text)?)?.len() == count;
    let lines = timelines.of_subject(alloc, &Ident::Uuid(SUBSTATION))?;
    let entries = match lines.as_slice().first() {
        Some(line) => line.1.entries().len(),
        None => 0,
    };
    Ok((count, lines.len(), entries, same))
}

/// The base in which the substation is named North.
fn north(alloc: Global) -> Result<Set, Fail> {
    set_of(alloc, &[b"North"])
}

/// A step that renames North to North 2.
fn renames(alloc: Global, text: &[u8]) -> Result<Step, Fail> {
    step(alloc, text, 1, (&[], &[b"North"], &[b"North 2"]))
}

/// A later step that rests on the name North 2.
fn rests(alloc: Global) -> Result<Step, Fail> {
    step(alloc, b"2027-05-01", 2, (&[b"North 2"], &[], &[]))
}

fn lost_precondition<L: Ledger>(alloc: Global, blank: Blank) -> Result<(u32, Part, bool), Fail>
    requires name { blank.name ≡ L.name }
    requires parts { blank.parts ≡ L.parts }
    requires some { 0 < blank.parts }
{
    let mut counted = Steps::<L>::start(blank);
    let base = north(alloc)?;
    let statement = named(alloc, b"North 2")?;
    let first = renames(alloc, b"2027-04-01")?;
    let second = rests(alloc)?;
    let both = pair(alloc, first, second)?;
    break_of(
        first_withdrawn(alloc, &base, &both, &mut counted),
        &statement,
    )
}

#[test]
fn a_precondition_is_gone_after_a_withdrawal(rt: HostRuntime) -> Result<(), Fail> {
    let found = lost_precondition::<Brand>(rt.alloc(), Blank::new(1))?;
    assert!(rt; found == (2, Part::Precondition, true));
    Ok(())
}

fn least_part<L: Ledger>(alloc: Global, blank: Blank) -> Result<(u32, Part, bool), Fail>
    requires name { blank.name ≡ L.name }
    requires parts { blank.parts ≡ L.parts }
    requires some { 0 < blank.parts }
{
    let mut counted = Steps::<L>::start(blank);
    let base = north(alloc)?;
    let statement = named(alloc, b"South")?;
    let both = step(alloc, b"2027-04-01", 1, (&[], &[b"South"], &[b"North"]))?;
    let added = only(alloc, both)?;
    break_of(with_one(alloc, &base, &added, &mut counted), &statement)
}

#[test]
fn of_two_breaks_of_a_step_the_first_part_counts(rt: HostRuntime) -> Result<(), Fail> {
    let found = least_part::<Brand>(rt.alloc(), Blank::new(1))?;
    assert!(rt; found == (1, Part::Reverse, true));
    Ok(())
}

fn first_step<L: Ledger>(alloc: Global, blank: Blank) -> Result<(u32, Part, bool), Fail>
    requires name { blank.name ≡ L.name }
    requires parts { blank.parts ≡ L.parts }
    requires some { 0 < blank.parts }
{
    let mut counted = Steps::<L>::start(blank);
    let base = north(alloc)?;
    let statement = named(alloc, b"North")?;
    let later = step(alloc, b"2027-05-01", 1, (&[b"East"], &[], &[]))?;
    let earlier = step(alloc, b"2027-04-01", 2, (&[], &[], &[b"North"]))?;
    let both = pair(alloc, later, earlier)?;
    break_of(with_two(alloc, &base, &both, &mut counted), &statement)
}

#[test]
fn the_first_step_counts_though_its_statement_is_greater(rt: HostRuntime) -> Result<(), Fail> {
    let found = first_step::<Brand>(rt.alloc(), Blank::new(1))?;
    assert!(rt; found == (2, Part::Forward, true));
    Ok(())
}

fn told_after_a_withdrawal<L: Ledger>(
    alloc: Global,
    blank: Blank,
) -> Result<(usize, usize, usize, bool), Fail>
    requires name { blank.name ≡ L.name }
    requires parts { blank.parts ≡ L.parts }
    requires some { 0 < blank.parts }
{
    let mut counted = Steps::<L>::start(blank);
    let base = north(alloc)?;
    let needs = step(alloc, b"2027-04-01", 1, (&[b"North"], &[], &[b"South"]))?;
    let taken = only(alloc, needs)?;
    let timelines = ok(withdrawn(alloc, &base, &taken, &mut counted))?;
    told(alloc, &timelines.share()?, b"2027-05-01")
}

fn ok(edited: Result<Timelines, EditError>) -> Result<Timelines, Fail> {
    match edited {
        Ok(timelines) => Ok(timelines),
        Err(_error) => Err("an edit was refused".into()),
    }
}

#[test]
fn a_withdrawal_takes_its_preconditions_with_it(rt: HostRuntime) -> Result<(), Fail> {
    let found = told_after_a_withdrawal::<Brand>(rt.alloc(), Blank::new(1))?;
    assert!(rt; found == (1, 1, 0, true));
    Ok(())
}

fn told_after_a_move<L: Ledger>(
    alloc: Global,
    blank: Blank,
    text: &[u8],
) -> Result<(usize, usize, usize, bool), Fail>
    requires name { blank.name ≡ L.name }
    requires parts { blank.parts ≡ L.parts }
    requires some { 0 < blank.parts }
{
    let mut counted = Steps::<L>::start(blank);
    let base = north(alloc)?;
    let first = step(alloc, b"2027-04-01", 1, (&[], &[b"North"], &[]))?;
    let later = step(alloc, b"2027-06-01", 1, (&[], &[b"North"], &[]))?;
    let taken = only(alloc, first)?;
    let added = only(alloc, later)?;
    let timelines = ok(moved(alloc, &base, &taken, &added, &mut counted))?;
    told(alloc, &timelines, text)
}

#[test]
fn a_moved_step_stands_at_its_new_day_alone(rt: HostRuntime) -> Result<(), Fail> {
    let before = told_after_a_move::<Brand>(rt.alloc(), Blank::new(1), b"2027-05-31")?;
    assert!(rt; before == (1, 1, 1, true));
    let after = told_after_a_move::<Brand>(rt.alloc(), Blank::new(1), b"2027-06-01")?;
    assert!(rt; after == (0, 1, 1, true));
    Ok(())
}

fn both_parts<L: Ledger>(alloc: Global, blank: Blank) -> Result<(u32, Part, bool), Fail>
    requires name { blank.name ≡ L.name }
    requires parts { blank.parts ≡ L.parts }
    requires some { 0 < blank.parts }
{
    let mut counted = Steps::<L>::start(blank);
    let base = north(alloc)?;
    let statement = named(alloc, b"North")?;
    let both = step(alloc, b"2027-04-01", 1, (&[], &[b"North"], &[b"North"]))?;
    let added = only(alloc, both)?;
    break_of(with_one(alloc, &base, &added, &mut counted), &statement)
}

#[test]
fn a_forward_statement_may_not_be_there_though_it_is_reverse_too(
    rt: HostRuntime,
) -> Result<(), Fail> {
    let found = both_parts::<Brand>(rt.alloc(), Blank::new(1))?;
    assert!(rt; found == (1, Part::Forward, true));
    Ok(())
}
