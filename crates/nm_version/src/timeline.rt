// What the base and the projects say of one subject.
ghost use Rattle.nm_tree.specs.Span.{values_of};
ghost use Rattle.nm_version.specs.ByTimelines as spec;
ghost use Rattle.nm_version.specs.Timeline.{timeline_of};
ghost use Rattle.nm_version.specs.declared.line.Line as declared;
ghost use Rattle.nm_version.specs.declared.line.Line.TheVariants as told;
ghost use Rattle.std.specs.List.{flat_map};
ghost use Rattle.std.specs.Prelude.{◌≡◌, ◌++◌, ◌∷◌, [], IfOk, OnOk};

use crate::line::Line;
use crate::step_refusal::model_filed;
use crate::version::Version;
use nm_base::NoMemory;
use nm_day::Key;
use nm_ident::Ident;
use nm_stage::Live;
use nm_statement::Statement;
use nm_timeline::{Mark, Part, Timeline};
use std::alloc::Global;

impl Version {
    /// Each statement of the subject that the base or a live project names, with where it is named:
    /// the line of the base, and then a line for each part of each project, in the order of the
    /// steps. The statements stand in their order.
    pub fn timeline(&self, alloc: Global, ident: &Ident) -> Result<Vec<Line>, NoMemory>
        ensures { IfOk result (λ lines. lines.items ≡ timeline_of self.now.base self.now.live ident.now) }
    {
        let subject = self.timelines().of_subject(alloc, ident)?;
        lines_of(alloc, self.live_projects(), subject.as_slice())
    }
}

/// The lines of these statements, by their timelines.
fn lines_of(
    alloc: Global,
    live: &Live,
    timelines: &[&(Statement, Timeline)],
) -> Result<Vec<Line>, NoMemory>
    ensures { IfOk result (λ lines. lines.items ≡ flat_map (spec.lines_told live.now) (values_of timelines.now)) }
{
    let mut lines = Vec::new(alloc);
    for pair in timelines {
        append_statement(alloc, &mut lines, live, &pair.0, &pair.1)?;
    }
    Ok(lines)
}

/// Appends the lines of a statement.
fn append_statement(
    alloc: Global,
    lines: &mut Vec<Line>,
    live: &Live,
    statement: &Statement,
    timeline: &Timeline,
) -> Result<(), NoMemory>
    ensures { OnOk result (lines.new.items ≡ lines.old.items ++ spec.lines_told live.now (statement.now, timeline.now)) }
{
    if timeline.base() {
        lines.push(Line::Base {
            statement: statement.copy(alloc)?,
        })?;
    }
    append_entries(alloc, lines, live, statement, timeline.entries())
}

/// Appends the lines of the steps that name a statement.
fn append_entries(
    alloc: Global,
    lines: &mut Vec<Line>,
    live: &Live,
    statement: &Statement,
    entries: &[(Key, Mark)],
) -> Result<(), NoMemory>
    ensures { OnOk result (lines.new.items ≡ lines.old.items ++ flat_map (spec.entry_lines live.now statement.now) entries.now) }
{
    for (key, mark) in entries {
        let model = model_filed(live, key.filing);
        if mark.pre {
            append_named(alloc, lines, key, model, Part::Precondition, statement)?;
        }
        if mark.rev {
            append_named(alloc, lines, key, model, Part::Reverse, statement)?;
        }
        if mark.fwd {
            append_named(alloc, lines, key, model, Part::Forward, statement)?;
        }
    }
    Ok(())
}

/// Appends the line of a part of a step that names a statement.
fn append_named(
    alloc: Global,
    lines: &mut Vec<Line>,
    key: &Key,
    model: u128,
    part: Part,
    statement: &Statement,
) -> Result<(), NoMemory>
    ensures { OnOk result (lines.new.items ≡ lines.old.items ++ told.Named key.now.day model part statement.now ∷ []) }
{
    lines.push(Line::Named {
        day: key.day,
        model,
        part,
        statement: statement.copy(alloc)?,
    })?;
    Ok(())
}
