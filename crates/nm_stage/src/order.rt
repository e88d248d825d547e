// The projects in the order of their steps.
ghost use Rattle.nm_stage.specs.Live.{filing_cmp};
ghost use Rattle.nm_blocks.specs.Blocks.{items_of};
ghost use Rattle.nm_stage.specs.Project.{step_of};
ghost use Rattle.nm_stage.specs.Steps as spec;
ghost use Rattle.std.specs.List.Sorted.{IsStrictlySortedBy};
ghost use Rattle.std.specs.Prelude.{◌≡◌, ◌++◌, IfOk, OnOk, map};

use crate::listed::Filed;
use crate::project::{Project, Step};
use nm_ident::NoMemory;
use std::alloc::Global;
use std::sync::Arc;

/// The projects in the order of their keys.
pub(crate) fn in_order(alloc: Global, blocks: &[Arc<Vec<Filed>>]) -> Result<Vec<&Project>, NoMemory>
    requires { IsStrictlySortedBy filing_cmp (items_of blocks.now) }
    ensures { IfOk result (λ ordered. map (λ one. one.now) ordered.items ≡ spec.in_order (items_of blocks.now)) }
{
    let mut projects = borrowed(alloc, blocks)?;
    projects.sort_unstable_by_key(|project| project.key());
    Ok(projects)
}

fn borrowed(alloc: Global, blocks: &[Arc<Vec<Filed>>]) -> Result<Vec<&Project>, NoMemory>
    ensures { IfOk result (λ projects. map (λ one. one.now) projects.items ≡ items_of blocks.now) }
{
    let mut projects = Vec::new(alloc);
    for block in blocks {
        append_borrowed(&mut projects, block)?;
    }
    Ok(projects)
}

fn append_borrowed<'a>(projects: &mut Vec<&'a Project>, block: &'a [Filed]) -> Result<(), NoMemory>
    ensures { OnOk result (map (λ one. one.now) projects.new.items ≡ map (λ one. one.now) projects.old.items ++ block.entry.now) }
{
    for filed in block {
        projects.push(filed.project())?;
    }
    Ok(())
}

/// The steps of these projects.
pub(crate) fn steps_of(alloc: Global, projects: &[&Project]) -> Result<Vec<Step>, NoMemory>
    ensures { IfOk result (λ steps. steps.items ≡ map (λ one. step_of one.now) projects.now) }
{
    let mut steps = Vec::with_capacity(alloc, projects.len())?;
    for project in projects {
        steps.push(project.step(alloc)?)?;
    }
    Ok(steps)
}
