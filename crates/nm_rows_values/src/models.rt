//! Headers of models: what they depend on, and which are sound.
use nm_ident::{Ids, NoMemory, Texts};
use nm_model::Header;
use std::alloc::Global;

fn header_of(alloc: Global, depends: Ids, supersedes: Ids) -> Header {
    Header {
        id: 1,
        created: None,
        scenario_time: None,
        version: None,
        description: None,
        authority: None,
        profiles: Texts::of_list(Vec::new(alloc)),
        depends,
        supersedes,
    }
}

fn ids(alloc: Global, ids: &[u128]) -> Result<Ids, NoMemory> {
    Ok(Ids::of_list(ids.to_vec(alloc)?))
}

fn header_with(alloc: Global, depends: &[u128], supersedes: &[u128]) -> Result<Header, NoMemory> {
    let depends = ids(alloc, depends)?;
    let supersedes = ids(alloc, supersedes)?;
    Ok(header_of(alloc, depends, supersedes))
}

fn is_sound(alloc: Global, depends: &[u128], supersedes: &[u128]) -> Result<bool, NoMemory> {
    let header = header_with(alloc, depends, supersedes)?;
    Ok(header.is_sound())
}

fn has_dependencies(alloc: Global, header: &Header, due: &[u128]) -> Result<bool, NoMemory> {
    Ok(header.dependencies(alloc)?.as_slice() == due)
}

/// Whether a model that depends on these models and supersedes those has all these dependencies.
fn are_dependencies(
    alloc: Global,
    depends: &[u128],
    supersedes: &[u128],
    due: &[u128],
) -> Result<bool, NoMemory> {
    let header = header_with(alloc, depends, supersedes)?;
    has_dependencies(alloc, &header, due)
}

#[test]
fn dependencies_are_named_once_in_order(rt: HostRuntime) -> Result<(), NoMemory> {
    assert!(rt; are_dependencies(rt.alloc(), &[2, 5], &[1, 2], &[1, 2, 5])?);
    assert!(rt; is_sound(rt.alloc(), &[2, 5], &[1, 2])?);
    Ok(())
}

#[test]
fn lists_that_do_not_rise_are_not_sound(rt: HostRuntime) -> Result<(), NoMemory> {
    assert!(rt; !is_sound(rt.alloc(), &[5, 2], &[])?);
    assert!(rt; !is_sound(rt.alloc(), &[], &[1, 1])?);
    Ok(())
}
