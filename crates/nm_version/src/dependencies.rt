// The first dependency that a command leaves unmet.
ghost use Rattle.nm_stage.specs.Dependencies.{missing_of};
ghost use Rattle.nm_stage.specs.Live.{without_filing};
ghost use Rattle.nm_version.specs.Replay as spec;
ghost use Rattle.std.specs.Prelude.{◌≡◌, IfOk, None};

use nm_base::NoMemory;
use nm_day::Key;
use nm_ident::Ids;
use nm_model::Header;
use nm_stage::Live;
use std::alloc::Global;

/// The first step, in the order of keys, with a dependency that is not met, and the least such
/// dependency, after a change of the project of one filing number. The base and the models that it
/// depends on meet those of all steps.
pub(crate) fn missing_since(
    alloc: Global,
    base: &Header,
    before: &Live,
    live: &Live,
    filing: u32,
) -> Result<Option<(Key, u128)>, NoMemory>
    requires complete { missing_of (spec.known_before base.now) before.now ≡ None }
    requires same { without_filing filing before.now ≡ without_filing filing live.now }
    ensures { IfOk result (λ found. found ≡ missing_of (spec.known_before base.now) live.now) }
{
    let known = known_before(alloc, base)?;
    Ok(live.missing_since(&known, before, filing))
}

/// The base and the models that it depends on.
fn known_before(alloc: Global, base: &Header) -> Result<Ids, NoMemory>
    ensures { IfOk result (λ ids. ids ≡ spec.known_before base.now) }
{
    let mut ids = Vec::with_capacity(alloc, base.depends.as_slice().len() + 1)?;
    ids.push(base.id)?;
    ids.extend_from_slice(base.depends.as_slice())?;
    Ok(Ids::of_list(ids))
}
