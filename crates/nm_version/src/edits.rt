// What a command makes of a version.
ghost use Rattle.nm_stage.specs.Live.{CanJoin, holds, project_of, with_project};
ghost use Rattle.nm_stage.specs.Project.{step_of};
ghost use Rattle.nm_version.specs.ByTimelines.{IsChanged, filing_changed, own_project};
ghost use Rattle.nm_version.specs.Changed as spec;
ghost use Rattle.nm_version.specs.Command.{header_of};
ghost use Rattle.nm_version.specs.Edits.{step_filed, step_redated, step_revised, taken_by};
ghost use Rattle.nm_version.specs.Kept.{number_of};
ghost use Rattle.nm_version.specs.Limits.{most_commits};
ghost use Rattle.nm_version.specs.Refusal as refused;
ghost use Rattle.nm_model.specs.Header.{dependencies_of};
ghost use Rattle.std.specs.Arc.{arc_value};
ghost use Rattle.std.specs.List.{filter};
ghost use Rattle.std.specs.Option.{option_map};
ghost use Rattle.std.specs.Prelude.{◌≡◌, ◌+◌, ◌<◌, ◌==◌, ◌++◌, ◌∷◌, [], IfOk, None, Some, not, false};

use crate::command::{Command, Entry};
use crate::version::Version;
use nm_base::NoMemory;
use nm_day::Day;
use nm_ident::Ids;
use nm_model::{Difference, Document, Header};
use nm_stage::{Live, Project, Step, projects_can_join};
use nm_statement::Change;
use std::alloc::Global;
use std::sync::Arc;

/// What a command makes of a version: the live projects, the steps that it adds, and what the log
/// keeps of it.
#[derive(Drop)]
pub(crate) struct Changed {
    pub(crate) live: Live,
    pub(crate) added: Vec<Step>,
    pub(crate) entry: Entry,
}

impl Version {
    /// The step that a command takes away: that of the live project that it names.
    pub(crate) fn steps_taken(
        &self,
        alloc: Global,
        command: &Command,
    ) -> Result<Vec<Step>, NoMemory>
        ensures { IfOk result (λ steps. steps.items ≡ taken_by self.now command.now) }
    {
        let mut steps = Vec::new(alloc);
        if let Some(project) = self.own_project(command) {
            steps.push(project.step(alloc)?)?;
        }
        Ok(steps)
    }

    /// The live project that a command names.
    fn own_project(&self, command: &Command) -> Option<&Project>
        ensures { option_map (λ project. project.now) result ≡ own_project self.now command.now }
    {
        let id = command.project()?;
        self.live_projects().find(id)
    }

    /// The filing number of the project that a command changes: that of the one that it names, or
    /// the next one.
    pub(crate) fn filing_changed(&self, command: &Command) -> u32
        ensures { result ≡ filing_changed self.now command.now }
    {
        match self.own_project(command) {
            Some(project) => project.filing,
            None => self.number() + 1,
        }
    }

    /// What a command makes of this version that no rule before the breaks refuses.
    pub(crate) fn changed(&self, alloc: Global, command: Command) -> Result<Changed, NoMemory>
        requires { refused.early_refusal self.now command ≡ None }
        ensures { IfOk result (λ changed. IsChanged self.now command changed.live changed.added.items changed.entry) }
    {
        match command {
            Command::File {
                day,
                document,
                bytes,
            } => {
                let (live, added) = self.filed(alloc, day, document)?;
                let entry = Entry::File { day, bytes };
                Ok(Changed { live, added, entry })
            }
            Command::Revise {
                project,
                document,
                bytes,
            } => {
                let (live, added) = self.revised(alloc, project, document)?;
                let entry = Entry::Revise { project, bytes };
                Ok(Changed { live, added, entry })
            }
            Command::Redate { project, day } => {
                let (live, added) = self.redated(alloc, project, day)?;
                let entry = Entry::Redate { project, day };
                Ok(Changed { live, added, entry })
            }
            Command::Withdraw { project } => {
                let live = self.withdrawn(alloc, project)?;
                let added = Vec::new(alloc);
                let entry = Entry::Withdraw { project };
                Ok(Changed { live, added, entry })
            }
        }
    }

    /// With one project more, and its step.
    fn filed(
        &self,
        alloc: Global,
        day: Day,
        document: Document,
    ) -> Result<(Live, Vec<Step>), NoMemory>
        requires kind { refused.kind_of document ≡ None }
        requires free { holds self.now.live (header_of document).id ≡ false }
        requires few { number_of self.now < most_commits }
        ensures live { IfOk result (λ filed. filed.0 ≡ spec.live_filed (number_of self.now + 1) day document self.now.live) }
        ensures added { IfOk result (λ filed. filed.1.items ≡ step_filed (number_of self.now + 1) day document) }
    {
        let Document::Difference(difference) = document else {
            unreachable!();
        };
        let project = project_filed(alloc, self.number() + 1, day, difference)?;
        projects_can_join();
        self.joined(alloc, project)
    }

    /// With a difference in the place of the project's current one, and the step of the project.
    fn revised(
        &self,
        alloc: Global,
        id: u128,
        document: Document,
    ) -> Result<(Live, Vec<Step>), NoMemory>
        requires kind { refused.kind_of document ≡ None }
        requires known { refused.unknown_of id (project_of id self.now.live) ≡ None }
        requires free { holds self.now.live (header_of document).id ≡ false }
        ensures live { IfOk result (λ revised. revised.0 ≡ spec.live_revised document (project_of id self.now.live) self.now.live) }
        ensures added { IfOk result (λ revised. revised.1.items ≡ step_revised document (project_of id self.now.live)) }
    {
        let Document::Difference(difference) = document else {
            unreachable!();
        };
        let Some(project) = self.live_projects().find(id) else {
            unreachable!();
        };
        let revised = project_revised(alloc, project, difference)?;
        projects_can_join();
        self.joined(alloc, revised)
    }

    /// With the project on another day, or on its own, and the step of the project.
    fn redated(&self, alloc: Global, id: u128, day: Day) -> Result<(Live, Vec<Step>), NoMemory>
        requires { refused.unknown_of id (project_of id self.now.live) ≡ None }
        ensures live { IfOk result (λ redated. redated.0 ≡ spec.live_redated day (project_of id self.now.live) self.now.live) }
        ensures added { IfOk result (λ redated. redated.1.items ≡ step_redated day (project_of id self.now.live)) }
    {
        let Some(project) = self.live_projects().find(id) else {
            unreachable!();
        };
        let redated = project_redated(alloc, project, day)?;
        projects_can_join();
        self.joined(alloc, redated)
    }

    /// With the project at its place, or in place of the one of its filing number, and its step.
    fn joined(&self, alloc: Global, project: Project) -> Result<(Live, Vec<Step>), NoMemory>
        requires { CanJoin project self.now.live }
        ensures live { IfOk result (λ joined. joined.0 ≡ with_project project self.now.live) }
        ensures added { IfOk result (λ joined. joined.1.items ≡ step_of project ∷ []) }
    {
        let mut added = Vec::with_capacity(alloc, 1)?;
        added.push(project.step(alloc)?)?;
        let live = self.live_projects().with(alloc, project)?;
        Ok((live, added))
    }

    /// Without the project.
    fn withdrawn(&self, alloc: Global, id: u128) -> Result<Live, NoMemory>
        requires { refused.unknown_of id (project_of id self.now.live) ≡ None }
        ensures { IfOk result (λ live. live ≡ spec.live_withdrawn (project_of id self.now.live) self.now.live) }
    {
        let Some(project) = self.live_projects().find(id) else {
            unreachable!();
        };
        self.live_projects().without(alloc, project.filing)
    }
}

/// The project that a difference files by the command of this number.
fn project_filed(
    alloc: Global,
    number: u32,
    day: Day,
    difference: Difference,
) -> Result<Project, NoMemory>
    ensures { IfOk result (λ project. project ≡ spec.project_filed number day difference) }
{
    let Difference { header, change } = difference;
    let change = Arc::new(alloc, change)?;
    new_project(alloc, number, day, &header, change)
}

/// A new project with this header and change.
fn new_project(
    alloc: Global,
    number: u32,
    day: Day,
    header: &Header,
    change: Arc<Change, Global>,
) -> Result<Project, NoMemory>
    ensures { IfOk result (λ project. project ≡ spec.project_filed number day (record { header = header.now; change = arc_value change })) }
{
    Ok(Project {
        filing: number,
        lineage: with_id(alloc, &[], header.id)?,
        day,
        dependencies: header.dependencies(alloc)?,
        change,
    })
}

/// The project with a difference in the place of its current one.
fn project_revised(
    alloc: Global,
    project: &Project,
    difference: Difference,
) -> Result<Project, NoMemory>
    ensures { IfOk result (λ revised. revised ≡ spec.project_revised difference project.now) }
{
    let Difference { header, change } = difference;
    let change = Arc::new(alloc, change)?;
    next_project(alloc, project, &header, change)
}

/// The project with this header and change in the place of its current ones.
fn next_project(
    alloc: Global,
    project: &Project,
    header: &Header,
    change: Arc<Change, Global>,
) -> Result<Project, NoMemory>
    ensures { IfOk result (λ revised. revised ≡ spec.project_revised (record { header = header.now; change = arc_value change }) project.now) }
{
    Ok(Project {
        filing: project.filing,
        lineage: with_id(alloc, project.lineage.as_slice(), header.id)?,
        day: project.day,
        dependencies: other_dependencies(alloc, header, project.model())?,
        change,
    })
}

/// The identifiers, and one more.
fn with_id(alloc: Global, ids: &[u128], id: u128) -> Result<Ids, NoMemory>
    ensures { IfOk result (λ more. more ≡ ids.now ++ id ∷ []) }
{
    let mut more = ids.to_vec(alloc)?;
    more.push(id)?;
    Ok(Ids::of_list(more))
}

/// What a header depends on, but for one model.
fn other_dependencies(alloc: Global, header: &Header, model: u128) -> Result<Ids, NoMemory>
    ensures { IfOk result (λ ids. ids ≡ filter (λ id. not (id == model)) (dependencies_of header.now)) }
{
    let all = header.dependencies(alloc)?;
    let others = all
        .as_slice()
        .iter()
        .copied()
        .filter(|id| *id != model)
        .collect(alloc)?;
    Ok(Ids::of_list(others))
}

/// The project on another day.
fn project_redated(alloc: Global, project: &Project, day: Day) -> Result<Project, NoMemory>
    ensures { IfOk result (λ redated. redated ≡ spec.project_redated day project.now) }
{
    Ok(Project {
        filing: project.filing,
        lineage: project.lineage.copy(alloc)?,
        day,
        dependencies: project.dependencies.copy(alloc)?,
        change: Arc::try_clone(&project.change)?,
    })
}
