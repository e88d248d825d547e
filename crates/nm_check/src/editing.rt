// The timelines of the touched statements, one after another.
ghost use Rattle.nm_check.specs.Breaks.{break_at, break_cmp, lesser_break};
ghost use Rattle.nm_check.specs.Edit.{keys_naming};
ghost use Rattle.nm_check.specs.Timelines as lists;
ghost use Rattle.nm_check.specs.Touched as spec;
ghost use Rattle.nm_statement.specs.Order.{statement_cmp};
ghost use Rattle.nm_statement.specs.declared.statement.Statement as declared;
ghost use Rattle.nm_timeline.specs.Timeline.{CanAdd, edited_of, first_break_of, without_keys};
ghost use Rattle.nm_tree.specs.Depth.{depth_of};
ghost use Rattle.nm_tree.specs.Pairs.{IsRising};
ghost use Rattle.nm_tree.specs.Span.{values_of};
ghost use Rattle.std.specs.Prelude.{◌≡◌, ◌+◌, ◌*◌, ◌≤◌, None, Some, IfOk, OnOk, length};

use crate::breaks::Break;
use crate::naming::{entries_of, keys_of};
use nm_base::Steps;
use nm_day::Key;
use nm_ident::NoMemory;
use nm_stage::Step;
use nm_statement::Statement;
use nm_timeline::{Part, Timeline};
use nm_tree::Tree;
use std::alloc::Global;
use std::cmp::Ordering;
use std::sync::ledger::Ledger;

/// Timelines that are being edited, and the least break of those that were.
#[derive(Drop)]
pub(crate) struct Edited {
    pub(crate) tree: Tree<Statement, Timeline>,
    pub(crate) least: Option<Break>,
}

/// The timelines after the edit of the touched ones, and their least break.
pub(crate) fn edit_touched<L: Ledger>(
    alloc: Global,
    old: &Tree<Statement, Timeline>,
    remove: &[Step],
    add: &[Step],
    touched: &mut Vec<&Statement>,
    steps: &mut Steps<L>,
) -> Result<Edited, NoMemory>
    requires can { (statement : declared.Statement) → spec.CanEditAt remove.now add.now old.now statement }
    ensures tree { IfOk result (λ edited. edited.tree ≡ spec.edited_from remove.now add.now old.now old.now (values_of touched.old.items)) }
    ensures least { IfOk result (λ edited. edited.least ≡ spec.least_from remove.now add.now old.now None (values_of touched.old.items)) }
    ensures rising { IfOk result (λ edited. IsRising statement_cmp edited.tree) }
    ensures steps { steps.new ≤ steps.old + length (values_of touched.old.items) * (4 * (depth_of (length old.now + length (values_of touched.old.items)) + 2)) }
{
    let mut edited = Edited {
        tree: old.share()?,
        least: None,
    };
    edit_each(alloc, old, remove, add, touched, &mut edited, steps)?;
    are_rising(&edited.tree);
    Ok(edited)
}

/// Edits the timelines of the touched statements, the last first.
fn edit_each<L: Ledger>(
    alloc: Global,
    old: &Tree<Statement, Timeline>,
    remove: &[Step],
    add: &[Step],
    touched: &mut Vec<&Statement>,
    edited: &mut Edited,
    steps: &mut Steps<L>,
) -> Result<(), NoMemory>
    requires can { (statement : declared.Statement) → spec.CanEditAt remove.now add.now old.now statement }
    requires few { length edited.old.tree ≤ length old.now }
    ensures tree { OnOk result (edited.new.tree ≡ spec.edited_from remove.now add.now old.now edited.old.tree (values_of touched.old.items)) }
    ensures least { OnOk result (edited.new.least ≡ spec.least_from remove.now add.now old.now edited.old.least (values_of touched.old.items)) }
    ensures steps { steps.new ≤ steps.old + length (values_of touched.old.items) * (4 * (depth_of (length old.now + length (values_of touched.old.items)) + 2)) }
{
    'statements: while let Some(statement) = touched.pop() {
        edit_one(alloc, old, edited, remove, add, statement, steps)?;
    }
    Ok(())
}

/// Edits the timeline of a statement: one look-up and one change of the tree.
fn edit_one<L: Ledger>(
    alloc: Global,
    old: &Tree<Statement, Timeline>,
    edited: &mut Edited,
    remove: &[Step],
    add: &[Step],
    statement: &Statement,
    steps: &mut Steps<L>,
) -> Result<(), NoMemory>
    requires can { spec.CanEditAt remove.now add.now old.now statement.now }
    ensures tree { OnOk result (edited.new.tree ≡ spec.with_timeline statement.now (spec.edited_at remove.now add.now old.now statement.now) edited.old.tree) }
    ensures least { OnOk result (edited.new.least ≡ spec.least_with statement.now (first_break_of (spec.edited_at remove.now add.now old.now statement.now)) edited.old.least) }
    ensures steps { steps.new ≤ steps.old + (depth_of (length old.now) + (3 * depth_of (length edited.old.tree) + 8)) }
{
    let before = timeline_of(old, statement, steps);
    let timeline = edited_timeline(alloc, before, remove, add, statement)?;
    if let Some((key, part)) = timeline.first_break() {
        keep_least(alloc, &mut edited.least, key, part, statement)?;
    }
    edited.tree = with_timeline(alloc, &edited.tree, statement, timeline, steps)?;
    Ok(())
}

/// The timeline of a statement, if it has one.
fn timeline_of<'a, L: Ledger>(
    tree: &'a Tree<Statement, Timeline>,
    statement: &Statement,
    steps: &mut Steps<L>,
) -> Option<&'a Timeline>
    ensures timeline { spec.timeline_or_blank result ≡ spec.timeline_at tree.entry.now statement.now }
    ensures steps { steps.new ≤ steps.old + depth_of (length tree.entry.now) }
{
    tree.get(statement, steps)
}

/// The timeline of a statement after the edit. Without one before, neither the base nor a step had
/// named it.
fn edited_timeline(
    alloc: Global,
    timeline: Option<&Timeline>,
    remove: &[Step],
    add: &[Step],
    statement: &Statement,
) -> Result<Timeline, NoMemory>
    requires { CanAdd (without_keys (keys_naming remove.now statement.now) (spec.timeline_or_blank timeline).entries) (lists.entries_of add.now statement.now) }
    ensures { IfOk result (λ edited. edited ≡ edited_of (spec.timeline_or_blank timeline.entry) (keys_naming remove.now statement.now) (lists.entries_of add.now statement.now)) }
{
    let removed = keys_of(alloc, remove, statement)?;
    let added = entries_of(alloc, add, statement)?;
    match timeline {
        Some(timeline) => timeline.edited(alloc, &removed, &added),
        None => Timeline::new(alloc, false).edited(alloc, &removed, &added),
    }
}

/// The tree with this timeline of the statement, or without the statement where neither the base
/// nor a step names it.
fn with_timeline<L: Ledger>(
    alloc: Global,
    tree: &Tree<Statement, Timeline>,
    statement: &Statement,
    timeline: Timeline,
    steps: &mut Steps<L>,
) -> Result<Tree<Statement, Timeline>, NoMemory>
    ensures tree { IfOk result (λ after. after ≡ spec.with_timeline statement.now timeline tree.now) }
    ensures steps { steps.new ≤ steps.old + (3 * depth_of (length tree.now) + 8) }
{
    if is_blank(&timeline) {
        return tree.remove(alloc, statement, steps);
    }
    tree.insert(alloc, statement.copy(alloc)?, timeline, steps)
}

/// Whether neither the base nor a step names the statement.
fn is_blank(timeline: &Timeline) -> bool
    ensures { result ≡ spec.is_blank timeline.now }
{
    !timeline.base() && timeline.entries().is_empty()
}

/// Keeps the lesser of two breaks.
fn keep_least(
    alloc: Global,
    least: &mut Option<Break>,
    key: Key,
    part: Part,
    statement: &Statement,
) -> Result<(), NoMemory>
    ensures { OnOk result (least.new ≡ Some (lesser_break (break_at key part statement.now) least.old)) }
{
    if is_above_least(least, key, part, statement) {
        return Ok(());
    }
    *least = Some(Break {
        key,
        part,
        statement: statement.copy(alloc)?,
    });
    Ok(())
}

/// Whether the break stands behind the least one.
fn is_above_least(least: &Option<Break>, key: Key, part: Part, statement: &Statement) -> bool
    ensures { result ≡ spec.is_above_least (break_at key part statement.now) least.now }
{
    match least {
        Some(other) => compare(&key, &part, statement, other) == Ordering::Greater,
        None => false,
    }
}

/// Compares by key, part and statement.
fn compare(key: &Key, part: &Part, statement: &Statement, other: &Break) -> Ordering
    ensures { result ≡ break_cmp (break_at key.now part.now statement.now) other.now }
{
    let by_key = key.cmp(&other.key);
    let by_part = part.cmp(&other.part);
    let by_statement = statement.cmp(&other.statement);
    by_key.then(by_part.then(by_statement))
}

/// The statements of the tree rise.
fn are_rising(tree: &Tree<Statement, Timeline>)
    ensures { IsRising statement_cmp tree.now }
{
    let _len = tree.len();
}
