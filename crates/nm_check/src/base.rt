// The statements of a base, each with its timeline before any step.
ghost use Rattle.nm_check.specs.Touched.{unchanged};
ghost use Rattle.std.specs.Prelude.{◌≡◌, IfOk, map};

use nm_ident::NoMemory;
use nm_statement::Statement;
use nm_timeline::Timeline;
use std::alloc::Global;

/// The statements, each with the timeline of one that the base has and no step names.
pub(crate) fn pairs_of(
    alloc: Global,
    base: Vec<Statement>,
) -> Result<Vec<(Statement, Timeline)>, NoMemory>
    ensures { IfOk result (λ pairs. pairs.items ≡ map (λ statement. (statement, unchanged)) base.items) }
{
    let mut pairs = Vec::with_capacity(alloc, base.len())?;
    for statement in base {
        pairs.push((statement, Timeline::new(alloc, true)))?;
    }
    Ok(pairs)
}
