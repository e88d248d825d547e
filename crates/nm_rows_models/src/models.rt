//! Parts of models that several tests build.
use nm_ident::{Ids, Texts};
use nm_model::Header;
use nm_samples::{ANOTHER_NAME, BARE_BASE, NORTH, RENAMED};
use std::alloc::Global;

/// The namespace of CIM 16.
pub const CIM: &[u8] = b"http://iec.ch/TC57/2013/CIM-schema-cim16#";

/// The id of a model that others start from.
pub const BASE: u128 = 0x10000000_0000_4000_8000_000000000001;

/// A header with nothing but an id.
pub fn bare_header(alloc: Global, id: u128) -> Header {
    Header {
        id,
        created: None,
        scenario_time: None,
        version: None,
        description: None,
        authority: None,
        profiles: Texts::of_list(Vec::new(alloc)),
        depends: Ids::of_list(Vec::new(alloc)),
        supersedes: Ids::of_list(Vec::new(alloc)),
    }
}

// A function that names a long constant is kept small, since each step of its proof carries the bytes.

fn part(session: &[u8], start: usize, end: usize) -> &[u8] {
    match session.get(start..end) {
        Some(part) => part,
        None => b"",
    }
}

/// A full model that states nothing.
pub fn bare_base() -> &'static [u8] {
    part(BARE_BASE, 9, 274)
}

/// A full model of one substation.
pub fn north() -> &'static [u8] {
    part(NORTH, 9, 471)
}

/// All of [`north`] but its last byte.
pub fn north_cut_off() -> &'static [u8] {
    part(NORTH, 9, 470)
}

/// A difference model with preconditions.
pub fn renamed() -> &'static [u8] {
    part(RENAMED, 492, 1570)
}

/// A difference model without preconditions.
pub fn another_name() -> &'static [u8] {
    part(ANOTHER_NAME, 491, 1477)
}

/// A difference model that adds what it takes away.
pub fn same_name() -> &'static [u8] {
    part(ANOTHER_NAME, 1497, 2487)
}
