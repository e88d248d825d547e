//! Live projects, their steps, and dependencies that are not met.
ghost use Rattle.nm_stage.specs.Live.{without_filing};
ghost use Rattle.std.specs.Prelude.{◌≡◌, IfOk};

use nm_day::{Day, Key};
use nm_ident::{Ids, NoMemory};
use nm_stage::{Live, Project, changes_leave_others};
use nm_statement::{Change, Set};
use std::alloc::Global;
use std::sync::Arc;
use std::test::Fail;

/// The change of nothing.
fn no_change(alloc: Global) -> Result<Arc<Change>, Fail> {
    let change = Change {
        pre: Set::of_list(alloc, Vec::new(alloc))?,
        rev: Set::of_list(alloc, Vec::new(alloc))?,
        fwd: Set::of_list(alloc, Vec::new(alloc))?,
    };
    Ok(Arc::new(alloc, change)?)
}

fn ids(alloc: Global, ids: &[u128]) -> Result<Ids, NoMemory> {
    Ok(Ids::of_list(ids.to_vec(alloc)?))
}

/// The list with one project more, which has this id and this filing number.
fn with(
    alloc: Global,
    live: &Live,
    filing: u32,
    day: &[u8],
    id: u128,
    dependencies: &[u128],
) -> Result<Live, Fail>
    ensures { IfOk result (λ made. without_filing filing made ≡ without_filing filing live.now) }
{
    changes_leave_others();
    live.projects_are_live();
    let others = live.without(alloc, filing)?;
    if others.holds(id) {
        return Err("the id is in use".into());
    }
    let mut lineage = Vec::new(alloc);
    lineage.push(id)?;
    let project = Project {
        filing,
        lineage: Ids::of_list(lineage),
        day: Day::parse(day).ok().ok_or("no day")?,
        dependencies: ids(alloc, dependencies)?,
        change: no_change(alloc)?,
    };
    Ok(live.with(alloc, project)?)
}

/// A filing number, a day, an id and dependencies.
type Filed<'a> = (u32, &'a [u8], u128, &'a [u128]);

/// The list of these projects, filed one after another.
fn live_of(alloc: Global, projects: &[Filed<'_>]) -> Result<Live, Fail> {
    let mut live = Live::empty(alloc);
    for (filing, day, id, dependencies) in projects {
        live = with(alloc, &live, *filing, day, *id, dependencies)?;
    }
    Ok(live)
}

fn are_filed(live: &Live, filings: &[u32]) -> bool {
    filings
        .iter()
        .all(|filing| live.filed_as(*filing).is_some())
}

/// Whether the projects of these filing numbers are all that are live.
fn has_filings(live: &Live, due: &[u32]) -> bool {
    live.len() == due.len() && are_filed(live, due)
}

/// The models of the steps, in their order.
fn models_of(alloc: Global, live: &Live) -> Result<Vec<u128>, NoMemory> {
    let mut models = Vec::new(alloc);
    for step in live.steps(alloc)? {
        models.push(step.model)?;
    }
    Ok(models)
}

fn has_models(alloc: Global, live: &Live, due: &[u128]) -> Result<bool, NoMemory> {
    Ok(models_of(alloc, live)?.as_slice() == due)
}

/// The projects of filing numbers 1 to 3, the second of which comes into service first.
fn three_projects(alloc: Global) -> Result<Live, Fail> {
    live_of(
        alloc,
        &[
            (3, b"2027-06-01", 30, &[]),
            (1, b"2027-06-01", 10, &[]),
            (2, b"2027-04-01", 20, &[]),
        ],
    )
}

fn do_three_projects_stand_in_order(alloc: Global) -> Result<bool, Fail> {
    let live = three_projects(alloc)?;
    Ok(has_filings(&live, &[1, 2, 3]) && has_models(alloc, &live, &[20, 10, 30])?)
}

#[test]
fn projects_are_found_by_filing_number_and_steps_stand_by_day(rt: HostRuntime) -> Result<(), Fail> {
    assert!(rt; do_three_projects_stand_in_order(rt.alloc())?);
    Ok(())
}

/// The three projects, the second of which comes into service last.
fn redated(alloc: Global) -> Result<Live, Fail> {
    let live = three_projects(alloc)?;
    with(alloc, &live, 2, b"2027-07-01", 20, &[])
}

fn is_dated(live: &Live, id: u128, day: &[u8]) -> bool {
    match live.find(id) {
        Some(project) => project.day.text().as_slice() == day,
        None => false,
    }
}

/// Whether the list without the first project has the second and the third.
fn is_first_taken_out(alloc: Global, live: &Live) -> Result<bool, NoMemory> {
    let others = live.without(alloc, 1)?;
    Ok(has_filings(&others, &[2, 3]))
}

fn is_second_redated_and_first_taken_out(alloc: Global) -> Result<bool, Fail> {
    let live = redated(alloc)?;
    Ok(live.len() == 3 && is_dated(&live, 20, b"2027-07-01") && is_first_taken_out(alloc, &live)?)
}

#[test]
fn a_project_is_redated_and_taken_out(rt: HostRuntime) -> Result<(), Fail> {
    assert!(rt; is_second_redated_and_first_taken_out(rt.alloc())?);
    Ok(())
}

/// The filing number and the id of the first dependency that neither the model 5 nor an earlier step meets.
fn missing(alloc: Global, live: &Live) -> Result<Option<(u32, u128)>, NoMemory> {
    let known = ids(alloc, &[5])?;
    Ok(filing_and_id(live.missing(alloc, &known)?))
}

fn filing_and_id(missing: Option<(Key, u128)>) -> Option<(u32, u128)> {
    match missing {
        Some((key, id)) => Some((key.filing, id)),
        None => None,
    }
}

/// Two projects, the second of which depends on the first, and both on the model 5.
fn two_projects(alloc: Global) -> Result<Live, Fail> {
    live_of(
        alloc,
        &[
            (1, b"2027-04-01", 10, &[5]),
            (3, b"2027-06-01", 30, &[5, 10]),
        ],
    )
}

/// The two projects, and one that depends on a later step.
fn two_projects_and_one_ahead(alloc: Global) -> Result<Live, Fail> {
    let live = two_projects(alloc)?;
    with(alloc, &live, 2, b"2027-06-01", 20, &[50, 30, 40])
}

fn misses_nothing(alloc: Global) -> Result<bool, Fail> {
    let live = two_projects(alloc)?;
    Ok(missing(alloc, &live)?.is_none())
}

fn misses_a_later_step(alloc: Global) -> Result<bool, Fail> {
    let live = two_projects_and_one_ahead(alloc)?;
    Ok(missing(alloc, &live)? == Some((2, 30)))
}

#[test]
fn a_dependency_is_met_by_what_is_known_and_by_earlier_steps(rt: HostRuntime) -> Result<(), Fail> {
    assert!(rt; misses_nothing(rt.alloc())?);
    assert!(rt; misses_a_later_step(rt.alloc())?);
    Ok(())
}

/// What is missing once the project of this filing number is withdrawn from a list where nothing was.
fn missing_without(
    alloc: Global,
    before: &Live,
    filing: u32,
) -> Result<Option<(u32, u128)>, NoMemory> {
    let known = ids(alloc, &[5])?;
    if before.missing(alloc, &known)?.is_some() {
        return Ok(None);
    }
    changes_leave_others();
    let after = before.without(alloc, filing)?;
    Ok(filing_and_id(after.missing_since(&known, before, filing)))
}

fn misses_the_withdrawn(alloc: Global) -> Result<bool, Fail> {
    let live = two_projects(alloc)?;
    Ok(
        missing_without(alloc, &live, 1)? == Some((3, 10))
            && missing_without(alloc, &live, 3)?.is_none(),
    )
}

/// What is missing once the first of the two projects comes into service on another day.
fn missing_from_day(alloc: Global, day: &[u8]) -> Result<Option<(u32, u128)>, Fail> {
    let known = ids(alloc, &[5])?;
    let before = two_projects(alloc)?;
    if before.missing(alloc, &known)?.is_some() {
        return Ok(None);
    }
    let after = with(alloc, &before, 1, day, 10, &[5])?;
    Ok(filing_and_id(after.missing_since(&known, &before, 1)))
}

fn misses_what_comes_later(alloc: Global) -> Result<bool, Fail> {
    Ok(
        missing_from_day(alloc, b"2027-06-01")?.is_none()
            && missing_from_day(alloc, b"2027-06-02")? == Some((3, 10)),
    )
}

#[test]
fn a_change_leaves_unmet_what_the_old_project_met(rt: HostRuntime) -> Result<(), Fail> {
    assert!(rt; misses_the_withdrawn(rt.alloc())?);
    assert!(rt; misses_what_comes_later(rt.alloc())?);
    Ok(())
}
