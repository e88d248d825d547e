// The statements of a day.
ghost use Rattle.nm_check.specs.Timelines.{present_of};
ghost use Rattle.nm_tree.specs.Span.{values_of};
ghost use Rattle.nm_statement.specs.Set.{set_of};
ghost use Rattle.std.specs.Prelude.{◌≡◌, IfOk, length};

use nm_day::Day;
use nm_ident::NoMemory;
use nm_statement::{Set, Statement};
use nm_timeline::Timeline;
use std::alloc::Global;

/// Copies of the statements that are there on a day.
pub(crate) fn copy_present(
    alloc: Global,
    pairs: &[&(Statement, Timeline)],
    day: Day,
) -> Result<Vec<Statement>, NoMemory>
    ensures { IfOk result (λ present. present.items ≡ present_of (values_of pairs.now) day) }
{
    let mut present = Vec::new(alloc);
    for pair in pairs {
        if pair.1.present(day) {
            present.push(pair.0.copy(alloc)?)?;
        }
    }
    Ok(present)
}

/// The set of the statements that are there on a day.
pub(crate) fn set_of_present(
    alloc: Global,
    pairs: &[&(Statement, Timeline)],
    day: Day,
) -> Result<Set, NoMemory>
    ensures { IfOk result (λ set. set ≡ set_of (present_of (values_of pairs.now) day)) }
{
    Set::of_list(alloc, copy_present(alloc, pairs, day)?)
}

/// How many of the statements are there on a day.
pub(crate) fn count_present(pairs: &[&(Statement, Timeline)], day: Day) -> usize
    ensures { result ≡ length (present_of (values_of pairs.now) day) }
{
    let mut count = 0;
    for pair in pairs {
        if pair.1.present(day) {
            count += 1;
        }
    }
    count
}
