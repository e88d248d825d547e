// The first dependency of a step that is not met.
ghost use Rattle.nm_stage.specs.Dependencies as spec;
ghost use Rattle.std.specs.BTreeSet.{contains};
ghost use Rattle.std.specs.List.{filter};
ghost use Rattle.std.specs.Ordering.{nat_cmp};
ghost use Rattle.std.specs.Prelude.{◌≡◌, ◌++◌, ℕ, List, IfOk, OnOk, map, not};

use crate::project::Project;
use nm_day::Key;
use nm_ident::NoMemory;
use std::alloc::Global;
use std::collections::BTreeSet;

/// The first of the projects with a dependency that is neither known nor in the lineage of an
/// earlier one, and the least such dependency.
pub(crate) fn first_missing(
    alloc: Global,
    known: &[u128],
    projects: &[&Project],
) -> Result<Option<(Key, u128)>, NoMemory>
    ensures { IfOk result (λ found. found ≡ spec.missing_from known.now (map (λ one. one.now) projects.now)) }
{
    let mut reached = BTreeSet::new(alloc);
    add_ids(&mut reached, known)?;
    for project in projects {
        if let Some(id) = least_unmet(&reached, project.dependencies.as_slice()) {
            return Ok(Some((project.key(), id)));
        }
        add_ids(&mut reached, project.lineage.as_slice())?;
    }
    Ok(None)
}

fn add_ids(reached: &mut BTreeSet<u128>, ids: &[u128]) -> Result<(), NoMemory>
    ensures { OnOk result ((known : List ℕ) → spec.HasIds reached.old known → spec.HasIds reached.new (known ++ ids.now)) }
{
    for id in ids {
        reached.insert(*id)?;
    }
    Ok(())
}

/// The least dependency that was not reached.
fn least_unmet(reached: &BTreeSet<u128>, dependencies: &[u128]) -> Option<u128>
    ensures { result ≡ spec.least_of (filter (λ id. not (contains nat_cmp reached.now id)) dependencies.now) }
{
    let mut least = None;
    for id in dependencies {
        if !reached.contains(id) {
            least = Some(lesser(*id, least));
        }
    }
    least
}

fn lesser(id: u128, other: Option<u128>) -> u128
    ensures { result ≡ spec.least_or id other }
{
    match other {
        Some(other) => id.min(other),
        None => id,
    }
}
