// The first break of the live projects, as a refusal.
ghost use Rattle.nm_version.specs.ByTimelines as spec;
ghost use Rattle.nm_version.specs.Lesser as lesser;
ghost use Rattle.std.specs.Prelude.{◌≡◌, Some};

use crate::refusal::{Cause, Refusal};
use nm_check::Break;
use nm_day::Key;
use nm_stage::Live;
use nm_statement::Statement;
use nm_timeline::Part;

/// The refusal of the lesser, by the keys of their steps, of a dependency that is not met and a
/// statement that does not fit. At one key it is the dependency.
pub(crate) fn refusal_of_lesser(live: &Live, missing: Option<(Key, u128)>, found: Break) -> Refusal
    ensures { Some result ≡ spec.refusal_where live.now (lesser.lesser_cause missing (Some found)) }
{
    let Break {
        key,
        part,
        statement,
    } = found;
    match missing {
        Some((at, id)) if at <= key => refusal_of(live, at, Cause::Dependency(id)),
        _ => refusal_of(live, key, cause_by(part, statement)),
    }
}

/// The refusal of a cause at a key. It names the current model of the project whose key it is.
pub(crate) fn refusal_of(live: &Live, key: Key, cause: Cause) -> Refusal
    ensures { result ≡ spec.refusal_told live.now (key, cause) }
{
    Refusal::Step {
        day: key.day,
        model: model_filed(live, key.filing),
        cause,
    }
}

/// The cause of a statement that does not fit.
fn cause_by(part: Part, statement: Statement) -> Cause
    ensures { result ≡ lesser.cause_by part statement }
{
    match part {
        Part::Precondition => Cause::Precondition(statement),
        Part::Reverse => Cause::Reverse(statement),
        Part::Forward => Cause::Forward(statement),
    }
}

/// The current model of the project with this filing number, or 0 where there is none.
pub(crate) fn model_filed(live: &Live, filing: u32) -> u128
    ensures { result ≡ spec.model_filed live.now filing }
{
    match live.filed_as(filing) {
        Some(project) => project.model(),
        None => 0,
    }
}
