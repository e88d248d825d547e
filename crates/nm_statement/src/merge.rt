// Unions and differences of two rising lists of statements, each in one walk along both.
ghost use Rattle.nm_statement.specs.Order.{statement_cmp};
ghost use Rattle.nm_statement.specs.Set.{IsRising, minus_of, union_of};
ghost use Rattle.std.specs.List.{AllByRecursion, position_or_len};
ghost use Rattle.std.specs.Ordering.{is_ge};
ghost use Rattle.std.specs.Prelude.{◌≡◌, ◌++◌, ◌∷◌, if◌then◌else◌, IfOk, OnOk};

use crate::statement::Statement;
use nm_ident::NoMemory;
use std::alloc::Global;
use std::cmp::Ordering;

/// The statements of either list.
pub fn either(
    alloc: Global,
    left: &[Statement],
    right: &[Statement],
) -> Result<Vec<Statement>, NoMemory>
    requires left { IsRising left.now }
    requires right { IsRising right.now }
    ensures { IfOk result (λ statements. statements.items ≡ union_of left.now right.now) }
{
    let mut statements = Vec::with_capacity(alloc, left.len())?;
    let mut rest = right;
    for statement in left {
        let (below, _, above) = around(rest, statement);
        append_copies(alloc, &mut statements, below)?;
        statements.push(statement.copy(alloc)?)?;
        rest = above;
    }
    append_copies(alloc, &mut statements, rest)?;
    Ok(statements)
}

/// The statements of the first list that are not in the second.
pub fn first_alone(
    alloc: Global,
    left: &[Statement],
    right: &[Statement],
) -> Result<Vec<Statement>, NoMemory>
    requires left { IsRising left.now }
    requires right { IsRising right.now }
    ensures { IfOk result (λ statements. statements.items ≡ minus_of left.now right.now) }
{
    let mut statements = Vec::new(alloc);
    let mut rest = right;
    for statement in left {
        let (_, found, above) = around(rest, statement);
        if !found {
            statements.push(statement.copy(alloc)?)?;
        }
        rest = above;
    }
    Ok(statements)
}

/// What of a rising list is below a statement, whether the list has the statement, and what is
/// above it.
fn around<'a>(
    statements: &'a [Statement],
    statement: &Statement,
) -> (&'a [Statement], bool, &'a [Statement])
    requires { IsRising statements.now }
    ensures whole { statements.now
        ≡ result.0.now ++ (if result.1 then statement.now ∷ result.2.now else result.2.now) }
    ensures below { AllByRecursion (λ s. statement_cmp s statement.now ≡ Ordering.Less) result.0.now }
    ensures above { AllByRecursion (λ s. statement_cmp statement.now s ≡ Ordering.Less) result.2.now }
{
    let (below, rest) = statements.split_at(count_below(statements, statement));
    match rest.split_first() {
        Some((first, above)) if first == statement => (below, true, above),
        _ => (below, false, rest),
    }
}

/// How many of the statements, from the first on, are below the limit.
fn count_below(statements: &[Statement], limit: &Statement) -> usize
    ensures { result ≡ position_or_len (λ s. is_ge (statement_cmp s limit.now)) statements.now }
{
    statements
        .iter()
        .position(|s| s >= limit)
        .unwrap_or(statements.len())
}

/// Appends copies of the statements.
pub fn append_copies(
    alloc: Global,
    copies: &mut Vec<Statement>,
    statements: &[Statement],
) -> Result<(), NoMemory>
    ensures { OnOk result (copies.new.items ≡ copies.old.items ++ statements.now) }
{
    for statement in statements {
        copies.push(statement.copy(alloc)?)?;
    }
    Ok(())
}
