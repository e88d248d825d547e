// The models of generated streams.
ghost use Rattle.nm_gen.specs.Models as spec;
ghost use Rattle.std.specs.Prelude.{◌≡◌, ◌≤◌, [], ◌∷◌, ◌++◌, IfOk, OnOk};

use crate::terms::{
    base_id, level_id, level_name, named, of_class, other_name, project_id, substation_id,
    substation_name,
};
use nm_ident::{Ids, NoMemory, Texts};
use nm_model::{Difference, Full, Header};
use nm_statement::{Change, Set, Statement};
use std::alloc::Global;

/// How many substations the base has.
const SUBSTATION_COUNT: u32 = 2_000;

/// The base: its substations and their names.
pub fn base_model(alloc: Global) -> Result<Full, NoMemory>
    ensures { IfOk result (λ full. full ≡ spec.base_model) }
{
    Ok(Full {
        header: header_of(alloc, base_id(), Vec::new(alloc)),
        statements: Set::of_list(alloc, substations(alloc, SUBSTATION_COUNT)?)?,
    })
}

/// What is stated of so many substations.
fn substations(alloc: Global, count: u32) -> Result<Vec<Statement>, NoMemory>
    ensures { IfOk result (λ statements. statements.items ≡ spec.substations count) }
{
    let mut statements = Vec::new(alloc);
    for number in 0..count {
        append_substation(alloc, &mut statements, number)?;
    }
    Ok(statements)
}

/// Appends what is stated of a substation.
fn append_substation(
    alloc: Global,
    statements: &mut Vec<Statement>,
    number: u32,
) -> Result<(), NoMemory>
    ensures { OnOk result (statements.new.items ≡ statements.old.items ++ spec.substation number) }
{
    let name = substation_name(alloc, number)?;
    statements.push(is_substation(alloc, number)?)?;
    statements.push(named(alloc, substation_id(number), name)?)?;
    Ok(())
}

fn is_substation(alloc: Global, number: u32) -> Result<Statement, NoMemory>
    ensures { IfOk result (λ statement. statement ≡ spec.is_substation number) }
{
    of_class(alloc, substation_id(number), b"Substation")
}

/// The difference model of a project: it gives a substation another name, and adds a voltage level.
pub fn project_model(alloc: Global, number: u32) -> Result<Difference, NoMemory>
    requires { 1 ≤ number }
    ensures { IfOk result (λ difference. difference ≡ spec.project_model number) }
{
    let mut supersedes = Vec::new(alloc);
    supersedes.push(base_id())?;
    Ok(Difference {
        header: header_of(alloc, project_id(number), supersedes),
        change: change_of(alloc, number)?,
    })
}

/// What a project changes.
fn change_of(alloc: Global, number: u32) -> Result<Change, NoMemory>
    requires { 1 ≤ number }
    ensures { IfOk result (λ change. change ≡ spec.change_of number) }
{
    let place = number - 1;
    let name = substation_name(alloc, place)?;
    Ok(Change {
        pre: set_of_one(alloc, is_substation(alloc, place)?)?,
        rev: set_of_one(alloc, named(alloc, substation_id(place), name)?)?,
        fwd: Set::of_list(alloc, added(alloc, number)?)?,
    })
}

/// What a project adds.
fn added(alloc: Global, number: u32) -> Result<Vec<Statement>, NoMemory>
    requires { 1 ≤ number }
    ensures { IfOk result (λ statements. statements.items ≡ spec.added number) }
{
    let other_name = other_name(alloc, number - 1)?;
    let level_name = level_name(alloc, number)?;
    let mut statements = Vec::new(alloc);
    statements.push(named(alloc, substation_id(number - 1), other_name)?)?;
    statements.push(of_class(alloc, level_id(number), b"VoltageLevel")?)?;
    statements.push(named(alloc, level_id(number), level_name)?)?;
    Ok(statements)
}

fn set_of_one(alloc: Global, statement: Statement) -> Result<Set, NoMemory>
    ensures { IfOk result (λ set. set ≡ statement ∷ []) }
{
    let mut statements = Vec::new(alloc);
    statements.push(statement)?;
    Set::of_list(alloc, statements)
}

/// A header that says nothing but what its model supersedes.
fn header_of(alloc: Global, id: u128, supersedes: Vec<u128>) -> Header
    ensures { result ≡ spec.header_of id supersedes.items }
{
    Header {
        id,
        created: None,
        scenario_time: None,
        version: None,
        description: None,
        authority: None,
        profiles: Texts::of_list(Vec::new(alloc)),
        depends: Ids::of_list(Vec::new(alloc)),
        supersedes: Ids::of_list(supersedes),
    }
}
