// The rows of the live projects.
ghost use Rattle.nm_version.specs.Projects.{row_of};
ghost use Rattle.std.specs.Prelude.{◌≡◌, IfOk, map};

use nm_base::NoMemory;
use nm_day::Day;
use nm_stage::Project;
use std::alloc::Global;

/// A live project, with its day and its current model.
#[derive(Clone, Copy, Debug, PartialEq, Eq)]
pub struct Row {
    /// The first model id that the project had.
    pub project: u128,
    /// The day from which it is in service.
    pub day: Day,
    /// Its current model id.
    pub current: u128,
}

impl Row {
    fn of(project: &Project) -> Row
        ensures { result ≡ row_of project.now }
    {
        Row {
            project: project.id(),
            day: project.day,
            current: project.model(),
        }
    }
}

/// A row for each project.
pub(crate) fn rows(alloc: Global, projects: &[&Project]) -> Result<Vec<Row>, NoMemory>
    ensures { IfOk result (λ rows. rows.items ≡ map (λ project. row_of project.now) projects.now) }
{
    let mut rows = Vec::with_capacity(alloc, projects.len())?;
    for project in projects {
        rows.push(Row::of(project))?;
    }
    Ok(rows)
}
