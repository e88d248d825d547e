// How steps name a statement, and which statements they name.
ghost use Rattle.nm_check.specs.Edit.{keys_naming};
ghost use Rattle.nm_check.specs.Timelines as spec;
ghost use Rattle.nm_check.specs.Touched.{touched_by};
ghost use Rattle.nm_statement.specs.Set.{set_of};
ghost use Rattle.nm_tree.specs.Span.{values_of};
ghost use Rattle.std.specs.Prelude.{◌≡◌, ◌++◌, IfOk, OnOk};

use nm_day::Key;
use nm_ident::NoMemory;
use nm_stage::Step;
use nm_statement::{Change, Set, Statement};
use nm_timeline::Mark;
use std::alloc::Global;

/// The keys of the steps that name the statement.
pub(crate) fn keys_of(
    alloc: Global,
    steps: &[Step],
    statement: &Statement,
) -> Result<Vec<Key>, NoMemory>
    ensures { IfOk result (λ keys. keys.items ≡ keys_naming steps.now statement.now) }
{
    let mut keys = Vec::new(alloc);
    for step in steps {
        if is_named(&step.change, statement) {
            keys.push(step.key)?;
        }
    }
    Ok(keys)
}

/// The entries of the steps that name the statement.
pub(crate) fn entries_of(
    alloc: Global,
    steps: &[Step],
    statement: &Statement,
) -> Result<Vec<(Key, Mark)>, NoMemory>
    ensures { IfOk result (λ entries. entries.items ≡ spec.entries_of steps.now statement.now) }
{
    let mut entries = Vec::new(alloc);
    for step in steps {
        if is_named(&step.change, statement) {
            entries.push((step.key, mark_of(&step.change, statement)))?;
        }
    }
    Ok(entries)
}

/// Whether the change names the statement.
fn is_named(change: &Change, statement: &Statement) -> bool
    ensures { result ≡ spec.is_named change.now statement.now }
{
    change.pre.contains(statement)
        || change.rev.contains(statement)
        || change.fwd.contains(statement)
}

/// In which parts the change names the statement.
fn mark_of(change: &Change, statement: &Statement) -> Mark
    ensures { result ≡ spec.mark_of change.now statement.now }
{
    Mark {
        pre: change.pre.contains(statement),
        rev: change.rev.contains(statement),
        fwd: change.fwd.contains(statement),
    }
}

/// The statements that these steps name, in order, each once.
pub(crate) fn touched<'a>(
    alloc: Global,
    remove: &'a [Step],
    add: &'a [Step],
) -> Result<Vec<&'a Statement>, NoMemory>
    ensures { IfOk result (λ touched. values_of touched.items ≡ touched_by remove.entry.now add.entry.now) }
{
    let mut statements = Vec::new(alloc);
    append_named(&mut statements, remove)?;
    append_named(&mut statements, add)?;
    in_order(statements)
}

/// The statements in order, each once.
fn in_order(mut statements: Vec<&Statement>) -> Result<Vec<&Statement>, NoMemory>
    ensures { IfOk result (λ ordered. values_of ordered.items ≡ set_of (values_of statements.entry.items)) }
{
    statements.sort_unstable();
    statements.dedup();
    Ok(statements)
}

fn append_named<'a>(statements: &mut Vec<&'a Statement>, steps: &'a [Step]) -> Result<(), NoMemory>
    ensures { OnOk result (values_of statements.new.items ≡ values_of statements.old.items ++ spec.named_by_steps steps.entry.now) }
{
    for step in steps {
        append_all(statements, &step.change.pre)?;
        append_all(statements, &step.change.rev)?;
        append_all(statements, &step.change.fwd)?;
    }
    Ok(())
}

fn append_all<'a>(statements: &mut Vec<&'a Statement>, set: &'a Set) -> Result<(), NoMemory>
    ensures { OnOk result (values_of statements.new.items ≡ values_of statements.old.items ++ set.entry.now) }
{
    for statement in set.as_slice() {
        statements.push(statement)?;
    }
    Ok(())
}
