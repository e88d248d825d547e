// The model of a day.
ghost use Rattle.nm_day.specs.Day.{day_cmp};
ghost use Rattle.nm_stage.specs.Project.{step_of};
ghost use Rattle.nm_version.specs.Assembly as spec;
ghost use Rattle.nm_version.specs.Replay as replay;
ghost use Rattle.nm_model.specs.Header.{rising_ids};
ghost use Rattle.std.specs.List.{filter};
ghost use Rattle.std.specs.Ordering.{is_le};
ghost use Rattle.std.specs.Prelude.{◌≡◌, ◌∷◌, ◌++◌, IfOk, OnOk, codes, length, map};

use crate::version::Version;
use nm_base::NoMemory;
use nm_day::Day;
use nm_ident::{Ids, id_text};
use nm_model::{Full, Header};
use nm_stage::Step;
use nm_statement::Literal;
use std::alloc::Global;
use uuid::Uuid;

impl Version {
    /// The model of a day: the base changed by the projects in service, in the order of day and
    /// filing.
    ///
    /// Its id is the version 5 UUID (RFC 9562, section 5.5) in the namespace of the base's id. The
    /// name is the day and an LF, and then each model in service and an LF. It supersedes the base
    /// and the models in service.
    pub fn assemble(&self, alloc: Global, day: Day) -> Result<Full, NoMemory>
        ensures { IfOk result (λ full. full ≡ spec.assembly self.now.base self.now.live day) }
    {
        let steps = self.in_service(alloc, day)?;
        Ok(Full {
            header: header_of(alloc, self.header(), &steps, day)?,
            statements: self.timelines().at(alloc, day)?,
        })
    }

    /// How many statements the model of a day has.
    pub fn count(&self, alloc: Global, day: Day) -> Result<usize, NoMemory>
        ensures { IfOk result (λ count. count ≡ length (replay.statements_at self.now.base self.now.live day)) }
    {
        self.timelines().count(alloc, day)
    }

    /// The steps whose day is at most this one, in order.
    fn in_service(&self, alloc: Global, day: Day) -> Result<Vec<Step>, NoMemory>
        ensures { IfOk result (λ steps. steps.items ≡ map step_of (replay.in_service self.now.live day)) }
    {
        let steps = self.live_projects().steps(alloc)?;
        Ok(up_to(steps, day))
    }
}

fn up_to(steps: Vec<Step>, day: Day) -> Vec<Step>
    ensures { result.items ≡ filter (λ step. is_le (day_cmp step.key.day day)) steps.items }
{
    let mut steps = steps;
    steps.retain(|step| is_up_to(step, day));
    steps
}

fn is_up_to(step: &Step, day: Day) -> bool
    ensures { result ≡ is_le (day_cmp step.now.key.day day) }
{
    step.key.day <= day
}

/// The header of an assembled model.
fn header_of(alloc: Global, base: &Header, steps: &[Step], day: Day) -> Result<Header, NoMemory>
    ensures { IfOk result (λ header. header ≡ spec.assembly_header base.now (map (λ step. step.model) steps.now) day) }
{
    let name = name_of(alloc, steps, day)?;
    Ok(Header {
        id: name_based(base.id, &name),
        created: copy_property(alloc, &base.created)?,
        scenario_time: Some(scenario_time(alloc, day)?),
        version: None,
        description: None,
        authority: copy_property(alloc, &base.authority)?,
        profiles: base.profiles.copy(alloc)?,
        depends: base.depends.copy(alloc)?,
        supersedes: superseded(alloc, base.id, steps)?,
    })
}

fn copy_property(alloc: Global, property: &Option<Literal>) -> Result<Option<Literal>, NoMemory>
    ensures { IfOk result (λ copy. copy ≡ property.now) }
{
    match property {
        Some(text) => Ok(Some(text.copy(alloc)?)),
        None => Ok(None),
    }
}

/// The name-based UUID (RFC 9562, section 5.5) of a name in a namespace.
#[tactic(auto, unfolding(crate::specs::Assembly::name_based))]
fn name_based(namespace: u128, name: &[u8]) -> u128
    ensures { result ≡ spec.name_based namespace name.now }
{
    Uuid::new_v5(&Uuid::from_u128(namespace), name).as_u128()
}

/// What identifies an assembly in the namespace of its base: the day, and the models in service,
/// each on a line of its own.
fn name_of(alloc: Global, steps: &[Step], day: Day) -> Result<Vec<u8>, NoMemory>
    ensures { IfOk result (λ name. name.items ≡ spec.assembly_name day (map (λ step. step.model) steps.now)) }
{
    let mut name = day.text().to_vec(alloc)?;
    name.push(b'\n')?;
    for step in steps {
        append_line(&mut name, &id_text(step.model))?;
    }
    Ok(name)
}

/// The text and a line feed.
pub(crate) fn append_line(out: &mut Vec<u8>, text: &[u8]) -> Result<(), NoMemory>
    ensures { OnOk result (out.new.items ≡ out.old.items ++ spec.text_line text.now) }
{
    out.extend_from_slice(text)?;
    out.push(b'\n')?;
    Ok(())
}

/// The first moment of the day. A day's text is digits and hyphens, so that no text is refused.
fn scenario_time(alloc: Global, day: Day) -> Result<Literal, NoMemory>
    ensures { IfOk result (λ time. time ≡ day ++ codes "T00:00:00Z") }
{
    let mut text = day.text().to_vec(alloc)?;
    text.extend_from_slice(b"T00:00:00Z")?;
    Literal::new(alloc, &text).map_err(|_| NoMemory)
}

/// The base and the models in service, strictly rising.
fn superseded(alloc: Global, base: u128, steps: &[Step]) -> Result<Ids, NoMemory>
    ensures { IfOk result (λ ids. ids ≡ rising_ids (base ∷ map (λ step. step.model) steps.now)) }
{
    let mut ids = Vec::new(alloc);
    ids.push(base)?;
    for step in steps {
        ids.push(step.model)?;
    }
    ids.sort_unstable();
    ids.dedup();
    Ok(Ids::of_list(ids))
}
