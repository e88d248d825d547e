//! A model of 100,000 statements, written and read back, and models about the limit on statements.
use crate::documents::{full_of, read};
use crate::models::{BASE, CIM, bare_header};
use nm_ident::{Ident, Name, NoMemory, RDF_NAMESPACE, Text};
use nm_model::{Document, Full};
use nm_statement::{Literal, Object, Set, Statement};
use nm_writer::write_full;
use std::alloc::Global;
use std::test::Fail;

const SUBSTATIONS: u32 = 50_000;

/// How the document goes on behind its header.
const FIRST_SUBSTATION: &[u8] =
    b"</md:FullModel>\n<cim:Substation rdf:ID=\"s00000\">\n<cim:IdentifiedObject.name>00000</cim:IdentifiedObject.name>\n</cim:Substation>\n<cim:Substation rdf:ID=\"s00001\">\n";

fn stating(
    alloc: Global,
    id: &[u8],
    ns: &[u8],
    local: &[u8],
    object: Object,
) -> Result<Statement, Fail> {
    Ok(Statement {
        subject: Ident::of_id(alloc, id)?,
        predicate: Name::new(alloc, ns, local)?,
        object,
    })
}

pub fn named(alloc: Global, id: &[u8], name: &[u8]) -> Result<Statement, Fail> {
    let object = Object::Literal(Literal::new(alloc, name)?);
    stating(alloc, id, CIM, b"IdentifiedObject.name", object)
}

pub fn classed(alloc: Global, id: &[u8]) -> Result<Statement, Fail> {
    let class = b"http://iec.ch/TC57/2013/CIM-schema-cim16#Substation";
    let object = Object::Iri(Text::of_slice(alloc, class)?);
    stating(alloc, id, RDF_NAMESPACE, b"type", object)
}

fn push_substation(
    alloc: Global,
    statements: &mut Vec<Statement>,
    number: u32,
) -> Result<(), Fail> {
    let name = format!(in alloc; "{number:05}")?;
    let id = format!(in alloc; "s{number:05}")?;
    statements.push(named(alloc, id.as_bytes(), name.as_bytes())?)?;
    statements.push(classed(alloc, id.as_bytes())?)?;
    Ok(())
}

/// The class and the name of so many substations, the last one first.
pub fn substations(alloc: Global, count: u32) -> Result<Set, Fail> {
    let mut statements = Vec::new(alloc);
    for number in (0..count).rev() {
        push_substation(alloc, &mut statements, number)?;
    }
    Ok(Set::of_list(alloc, statements)?)
}

fn large_model(alloc: Global) -> Result<Full, Fail> {
    Ok(Full {
        header: bare_header(alloc, BASE),
        statements: substations(alloc, SUBSTATIONS)?,
    })
}

fn count_lines(text: &[u8]) -> usize {
    text.iter().filter(|byte| **byte == b'\n').count()
}

/// Whether the first substation stands behind the header.
fn begins_with_the_first(text: &[u8]) -> bool {
    match text.get(292..) {
        Some(text) => text.starts_with(FIRST_SUBSTATION),
        None => false,
    }
}

fn is_same(full: &Full, other: &Full) -> bool {
    full.header.id == other.header.id && full.statements.as_slice() == other.statements.as_slice()
}

/// Whether the text reads back as the model.
fn is_read_back(alloc: Global, text: &[u8], full: &Full) -> Result<bool, NoMemory> {
    match full_of(read(alloc, text)?) {
        Some(read) => Ok(is_same(&read, full)),
        None => Ok(false),
    }
}

/// Whether the model is written as a text with so many lines, in order, and read back from it.
fn is_written_and_read_back(alloc: Global, full: &Full, lines: usize) -> Result<bool, NoMemory> {
    let text = write_full(alloc, full)?;
    Ok(
        count_lines(&text) == lines
            && begins_with_the_first(&text)
            && is_read_back(alloc, &text, full)?,
    )
}

fn is_large_model_read_back(alloc: Global) -> Result<bool, Fail> {
    let full = large_model(alloc)?;
    Ok(full.statements.len() == 100_000 && is_written_and_read_back(alloc, &full, 150_005)?)
}

#[test]
fn many_statements_are_written_in_order_and_read_back(rt: HostRuntime) -> Result<(), Fail> {
    assert!(rt; is_large_model_read_back(rt.alloc())?);
    Ok(())
}

/// A link to the resource of the number.
fn link(alloc: Global, predicate: &Name, number: u32) -> Result<Statement, NoMemory> {
    Ok(Statement {
        subject: Ident::Uuid(BASE),
        predicate: predicate.copy(alloc)?,
        object: Object::Resource(Ident::Uuid(u128::from(number))),
    })
}

/// Links from one resource to so many others.
fn links(alloc: Global, predicate: &Name, count: u32) -> Result<Vec<Statement>, NoMemory> {
    let mut statements = Vec::with_capacity(alloc, count as usize)?;
    for number in 0..count {
        statements.push(link(alloc, predicate, number)?)?;
    }
    Ok(statements)
}

fn linked_set(alloc: Global, count: u32) -> Result<Set, Fail> {
    let predicate = Name::new(alloc, CIM, b"Equipment.EquipmentContainer")?;
    Ok(Set::of_list(alloc, links(alloc, &predicate, count)?)?)
}

/// A model that links one resource to so many others.
fn linked(alloc: Global, count: u32) -> Result<Document, Fail> {
    Ok(Document::Full(Full {
        header: bare_header(alloc, BASE),
        statements: linked_set(alloc, count)?,
    }))
}

fn is_within_limits(alloc: Global, count: u32) -> Result<bool, Fail> {
    Ok(linked(alloc, count)?.is_within_limits())
}

#[test]
fn a_full_model_states_at_most_1_048_576_statements(rt: HostRuntime) -> Result<(), Fail> {
    assert!(rt; is_within_limits(rt.alloc(), 1_048_576)?);
    assert!(rt; !is_within_limits(rt.alloc(), 1_048_577)?);
    Ok(())
}
