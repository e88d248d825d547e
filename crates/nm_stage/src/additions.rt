// What a project adds to the lists beside the live projects.
ghost use Rattle.nm_ident.specs.Rising.{rising_by};
ghost use Rattle.nm_stage.specs.Listed as spec;
ghost use Rattle.nm_stage.specs.Project.{key_of};
ghost use Rattle.std.specs.Ordering.{nat_cmp};
ghost use Rattle.std.specs.Prelude.{◌≡◌, IfOk, map};

use crate::listed::{Dependent, Holder};
use crate::project::Project;
use nm_day::Key;
use nm_ident::NoMemory;
use std::alloc::Global;

/// The ids of the lineage, in order.
pub(crate) fn lineage_of(alloc: Global, project: &Project) -> Result<Vec<u128>, NoMemory>
    ensures { IfOk result (λ ids. ids.items ≡ rising_by nat_cmp project.now.lineage) }
{
    rising(alloc, project.lineage.as_slice())
}

/// The ids of the lineage, in order, each with the filing number of the project.
pub(crate) fn holders_of(alloc: Global, project: &Project) -> Result<Vec<Holder>, NoMemory>
    ensures { IfOk result (λ made. made.items ≡ spec.holders project.now.filing project.now.lineage) }
{
    let ids = lineage_of(alloc, project)?;
    holders(alloc, &ids, project.filing)
}

fn holders(alloc: Global, ids: &[u128], filing: u32) -> Result<Vec<Holder>, NoMemory>
    ensures { IfOk result (λ made. made.items ≡ map (spec.holder filing) ids.now) }
{
    let mut made = Vec::with_capacity(alloc, ids.len())?;
    for id in ids {
        made.push(Holder { id: *id, filing })?;
    }
    Ok(made)
}

/// The dependencies, in order and each once, each with the key of the project.
pub(crate) fn dependents_of(alloc: Global, project: &Project) -> Result<Vec<Dependent>, NoMemory>
    ensures { IfOk result (λ made. made.items ≡ spec.dependents (key_of project.now) project.now.dependencies) }
{
    let ids = rising(alloc, project.dependencies.as_slice())?;
    dependents(alloc, &ids, &project.key())
}

fn dependents(alloc: Global, ids: &[u128], key: &Key) -> Result<Vec<Dependent>, NoMemory>
    ensures { IfOk result (λ made. made.items ≡ map (spec.dependent key.now) ids.now) }
{
    let mut made = Vec::with_capacity(alloc, ids.len())?;
    for id in ids {
        made.push(Dependent::of_id(*id, key))?;
    }
    Ok(made)
}

/// The ids in order, each once.
fn rising(alloc: Global, ids: &[u128]) -> Result<Vec<u128>, NoMemory>
    ensures { IfOk result (λ made. made.items ≡ rising_by nat_cmp ids.now) }
{
    let mut made = ids.to_vec(alloc)?;
    made.sort_unstable();
    made.dedup();
    Ok(made)
}
