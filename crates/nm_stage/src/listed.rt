// What the lists of the live projects hold.
ghost use Rattle.nm_stage.specs.Listed as spec;
ghost use Rattle.std.specs.Prelude.{◌≡◌, IfOk};

use crate::project::Project;
use nm_blocks::Keyed;
use nm_day::Key;
use nm_ident::NoMemory;
use std::alloc::Global;
use std::marker::Model;
use std::sync::Arc;

/// A project at its filing number, which stands beside it so that a search opens no project.
#[derive(Drop)]
pub(crate) struct Filed {
    filing: u32,
    project: Arc<Project>,
}

impl Model for Filed {
    ghost use Rattle.nm_stage.specs.Project.{PlainProject};
    ghost use Rattle.std.specs.Arc.{arc_value};
    ghost use Rattle.std.specs.Prelude.{◌≡◌};

    ghost Value = { PlainProject };

    ghost view = { λ filed. arc_value filed.project };

    ghost invariant = { λ filed. filed.filing ≡ (arc_value filed.project).filing };
}

impl Filed {
    pub(crate) fn of_project(alloc: Global, project: Project) -> Result<Filed, NoMemory>
        ensures { IfOk result (λ filed. filed ≡ project) }
    {
        Ok(Filed {
            filing: project.filing,
            project: Arc::new(alloc, project)?,
        })
    }

    pub(crate) fn project(&self) -> &Project
        ensures { result.now ≡ self.now }
    {
        &self.project
    }
}

impl Keyed for Filed {
    type Key = u32;

    ghost key = { λ project. project.filing };

    fn key(&self) -> &u32 {
        &self.filing
    }

    fn share(&self) -> Result<Filed, NoMemory> {
        Ok(Filed {
            filing: self.filing,
            project: Arc::try_clone(&self.project)?,
        })
    }
}

/// An id of a lineage, with the filing number of the project whose lineage it is.
#[derive(Clone, Copy)]
pub(crate) struct Holder {
    pub(crate) id: u128,
    pub(crate) filing: u32,
}

impl Keyed for Holder {
    type Key = u128;

    ghost key = { λ holder. holder.id };

    fn key(&self) -> &u128 {
        &self.id
    }

    fn share(&self) -> Result<Holder, NoMemory> {
        Ok(*self)
    }
}

/// A dependency of a project, with the key of the project. One of an id comes before those of higher
/// ids, and among those of one id the first is that of the earliest project.
#[derive(Clone, Copy, PartialEq, Eq, PartialOrd, Ord)]
pub(crate) struct Dependent {
    pub(crate) dependency: u128,
    pub(crate) key: Key,
}

impl Dependent {
    pub(crate) fn of_id(dependency: u128, key: &Key) -> Dependent
        ensures { result ≡ spec.dependent key.now dependency }
    {
        Dependent {
            dependency,
            key: *key,
        }
    }
}

impl Keyed for Dependent {
    type Key = Dependent;

    ghost key = { λ dependent. dependent };

    fn key(&self) -> &Dependent {
        self
    }

    fn share(&self) -> Result<Dependent, NoMemory> {
        Ok(*self)
    }
}
