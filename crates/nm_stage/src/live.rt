// The list of the projects that are live.
ghost use Rattle.nm_stage.specs.Dependencies.{missing_of};
ghost use Rattle.nm_day.specs.Key.{key_cmp};
ghost use Rattle.nm_stage.specs.Live as spec;
ghost use Rattle.nm_stage.specs.Project.{has_id, key_of};
ghost use Rattle.nm_stage.specs.Steps as ordered;
ghost use Rattle.nm_stage.specs.Unmet.{IsFirst};
ghost use Rattle.std.specs.Option.{option_map};
ghost use Rattle.std.specs.Ordering.{is_lt};
ghost use Rattle.std.specs.Prelude.{◌≡◌, ◌&&◌, ◌==◌, [], length, not, IfOk, map, None};

use crate::additions::{dependents_of, holders_of, lineage_of};
use crate::dependencies::first_missing;
use crate::listed::{Dependent, Filed, Holder};
use crate::order::{in_order, steps_of};
use crate::project::{Project, Step};
use nm_blocks::Blocks;
use nm_day::Key;
use nm_ident::{Ids, NoMemory};
use std::alloc::Global;
use std::marker::Model;

/// The projects that were filed and not withdrawn, in the order of filing. A contract sees the list
/// of them.
///
/// Filing numbers strictly rise, lineages are not empty, and no id stands twice over all lineages.
///
/// A change gives a new list, which shares its projects with the old one. The projects stand in
/// shared blocks, and so do, beside them, the ids in use and the dependencies, each with its project:
/// whether an id is in use, which project has it and what depends on it are binary searches, and a
/// change copies the blocks that it touches and a pointer for each of the others.
#[derive(Drop)]
pub struct Live {
    projects: Blocks<Filed>,
    /// The ids of all lineages, with the filing number of the project.
    ids: Blocks<Holder>,
    /// The dependencies of all projects, with the key of the project.
    dependents: Blocks<Dependent>,
}

impl Model for Live {
    ghost use Rattle.std.specs.Prelude.{List};
    ghost use Rattle.nm_stage.specs.Project.{PlainProject};
    ghost use Rattle.nm_stage.specs.Listed.{AreListed};
    ghost use Rattle.nm_stage.specs.Live.{IsLive};

    ghost Value = { List PlainProject };

    ghost view = { λ live. live.projects };

    ghost invariant = { λ live. IsLive live.projects × AreListed live.ids live.dependents live.projects };
}

impl Live {
    /// The list of no project.
    pub fn empty(alloc: Global) -> Live
        ensures { result ≡ [] }
    {
        Live {
            projects: Blocks::empty(alloc),
            ids: Blocks::empty(alloc),
            dependents: Blocks::empty(alloc),
        }
    }

    /// How many projects are live.
    pub fn len(&self) -> usize
        ensures { result ≡ length self.now }
    {
        self.projects.len()
    }

    /// Whether no project is live.
    pub fn is_empty(&self) -> bool
        ensures { result ≡ (length self.now == 0) }
    {
        self.projects.is_empty()
    }

    /// The list is live. It takes no time: a call brings to a proof what the type keeps.
    pub fn projects_are_live(&self)
        ensures { spec.IsLive self.now }
    {
        let _projects = &self.projects;
    }

    /// The project with this filing number.
    pub fn filed_as(&self, filing: u32) -> Option<&Project>
        ensures { option_map (λ project. project.now) result ≡ spec.filed_as filing self.now }
    {
        let filed = self.projects.find(&filing)?;
        Some(filed.project())
    }

    /// The project in whose lineage the id stands.
    pub(crate) fn holder_of(&self, id: u128) -> Option<&Project>
        ensures live { spec.IsLive self.now }
        ensures found { option_map (λ project. project.now) result ≡ spec.holder_of id self.now }
    {
        let holder = self.ids.find(&id)?;
        self.filed_as(holder.filing)
    }

    /// The key of the first project, from this one's key on, that has its dependency.
    pub(crate) fn first_dependent(&self, from: &Dependent) -> Option<Key>
        ensures { IsFirst self.now (λ project id. has_id project.dependencies id) (λ project id. has_id project.dependencies id && ((id == from.now.dependency) && not (is_lt (key_cmp (key_of project) from.now.key)))) (option_map (λ key. (key, from.now.dependency)) result) }
    {
        let _rising = self.dependents.as_blocks();
        let first = self.dependents.first_from(from)?;
        if first.dependency == from.dependency {
            Some(first.key)
        } else {
            None
        }
    }

    /// The project with this id, which is the first of its lineage.
    pub fn find(&self, project: u128) -> Option<&Project>
        ensures found { option_map (λ found. found.now) result ≡ spec.project_of project self.now }
        ensures live { spec.IsLive self.now }
    {
        let found = self.holder_of(project)?;
        if found.id() == project {
            Some(found)
        } else {
            None
        }
    }

    /// Whether the id stands in a lineage.
    pub fn holds(&self, id: u128) -> bool
        ensures held { result ≡ spec.holds self.now id }
        ensures live { spec.IsLive self.now }
    {
        self.ids.find(&id).is_some()
    }

    /// The projects, in the order of their keys.
    pub fn in_order(&self, alloc: Global) -> Result<Vec<&Project>, NoMemory>
        ensures { IfOk result (λ projects. map (λ one. one.now) projects.items ≡ ordered.in_order self.now) }
    {
        in_order(alloc, self.projects.as_blocks())
    }

    /// The steps of the projects, in the order of their keys. They share their changes with the
    /// projects.
    pub fn steps(&self, alloc: Global) -> Result<Vec<Step>, NoMemory>
        ensures { IfOk result (λ steps. steps.items ≡ ordered.steps_of self.now) }
    {
        let projects = self.in_order(alloc)?;
        steps_of(alloc, &projects)
    }

    /// The first step, in the order of keys, with a dependency that is not met, and the least such
    /// dependency.
    ///
    /// A dependency is met where it is one of `known`, or stands in the lineage of a project of an
    /// earlier step. The time is that of a sort of the projects by key and of one look-up in an
    /// ordered set for each id.
    pub fn missing(&self, alloc: Global, known: &Ids) -> Result<Option<(Key, u128)>, NoMemory>
        ensures { IfOk result (λ found. found ≡ missing_of known.now self.now) }
    {
        let projects = self.in_order(alloc)?;
        first_missing(alloc, known.as_slice(), &projects)
    }

    /// The list with this project in place of the one of its filing number, or else at its place.
    pub fn with(&self, alloc: Global, project: Project) -> Result<Live, NoMemory>
        requires { spec.CanJoin project self.now }
        ensures { IfOk result (λ live. live ≡ spec.with_project project self.now) }
    {
        let _projects = &self.projects;
        if self.filed_as(project.filing).is_none() {
            return self.with_new(alloc, project);
        }
        let others = self.without(alloc, project.filing)?;
        others.with_new(alloc, project)
    }

    /// The list with this project at its place.
    fn with_new(&self, alloc: Global, project: Project) -> Result<Live, NoMemory>
        requires joins { spec.CanJoin project self.now }
        requires new { spec.filed_as project.filing self.now ≡ None }
        ensures { IfOk result (λ live. live ≡ spec.with_project project self.now) }
    {
        let ids = self.ids.with_all(alloc, holders_of(alloc, &project)?)?;
        let dependents = self
            .dependents
            .with_all(alloc, dependents_of(alloc, &project)?)?;
        let projects = self
            .projects
            .with(alloc, Filed::of_project(alloc, project)?)?;
        Ok(Live {
            projects,
            ids,
            dependents,
        })
    }

    /// The same list.
    fn share(&self, alloc: Global) -> Result<Live, NoMemory>
        ensures { IfOk result (λ live. live ≡ self.now) }
    {
        Ok(Live {
            projects: self.projects.share(alloc)?,
            ids: self.ids.share(alloc)?,
            dependents: self.dependents.share(alloc)?,
        })
    }

    /// The list without the project of this filing number, if it has one.
    pub fn without(&self, alloc: Global, filing: u32) -> Result<Live, NoMemory>
        ensures { IfOk result (λ live. live ≡ spec.without_filing filing self.now) }
    {
        let Some(project) = self.filed_as(filing) else {
            return self.share(alloc);
        };
        let ids = self.ids.without_all(alloc, &lineage_of(alloc, project)?)?;
        let dependents = self
            .dependents
            .without_all(alloc, &dependents_of(alloc, project)?)?;
        Ok(Live {
            projects: self.projects.without(alloc, &filing)?,
            ids,
            dependents,
        })
    }
}
