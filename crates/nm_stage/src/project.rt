// Projects, and the steps that they are.
ghost use Rattle.nm_stage.specs.Project as spec;
ghost use Rattle.std.specs.Prelude.{◌≡◌, IfOk};

use nm_day::{Day, Key};
use nm_ident::{Ids, NoMemory};
use nm_statement::Change;
use std::alloc::Global;
use std::marker::Model;
use std::sync::Arc;

/// A change of the base that was filed, and the day from which on it is in service.
#[derive(Drop)]
pub struct Project {
    /// The number of the command that filed it.
    pub filing: u32,
    /// The model ids that it has had, from the first to the current one.
    pub lineage: Ids,
    /// The day from which on it is in service.
    pub day: Day,
    /// The models that have to be in service before it.
    pub dependencies: Ids,
    /// What it changes.
    pub change: Arc<Change>,
}

impl Model for Project {
    ghost use Rattle.nm_stage.specs.Project.{PlainProject};
    ghost use Rattle.std.specs.Arc.{arc_value};

    ghost Value = { PlainProject };

    ghost view = { λ p. record { filing = p.filing; lineage = p.lineage; day = p.day; dependencies = p.dependencies; change = arc_value p.change } };
}

impl Project {
    /// The id of the project: the first model id that it had, or 0 if it has none.
    pub fn id(&self) -> u128
        ensures { result ≡ spec.id_of self.now }
    {
        self.lineage.as_slice().first().copied().unwrap_or(0)
    }

    /// The current model id: the last that it had, or 0 if it has none.
    pub fn model(&self) -> u128
        ensures { result ≡ spec.model_of self.now }
    {
        self.lineage.as_slice().last().copied().unwrap_or(0)
    }

    /// Where the project stands among the steps.
    pub fn key(&self) -> Key
        ensures { result ≡ spec.key_of self.now }
    {
        Key {
            day: self.day,
            filing: self.filing,
            stage: 0,
        }
    }

    /// The step of the project, which shares its change.
    pub fn step(&self, alloc: Global) -> Result<Step, NoMemory>
        ensures { IfOk result (λ step. step ≡ spec.step_of self.now) }
    {
        Ok(Step {
            key: self.key(),
            model: self.model(),
            dependencies: self.dependencies.copy(alloc)?,
            change: Arc::try_clone(&self.change)?,
        })
    }
}

/// A project as it stands among the others in time.
#[derive(Drop)]
pub struct Step {
    /// Where it stands.
    pub key: Key,
    /// The current model id of the project.
    pub model: u128,
    /// The models that have to be in service before it.
    pub dependencies: Ids,
    /// What it changes.
    pub change: Arc<Change>,
}

impl Model for Step {
    ghost use Rattle.nm_stage.specs.Project.{PlainStep};
    ghost use Rattle.std.specs.Arc.{arc_value};

    ghost Value = { PlainStep };

    ghost view = { λ s. record { key = s.key; model = s.model; dependencies = s.dependencies; change = arc_value s.change } };
}
