//! Canonical documents: which bytes are one, and how one goes to a sink.
use crate::documents::{full_of, is_canonical, read};
use crate::large::{classed, named, substations};
use crate::models::{BASE, bare_header, north, north_cut_off};
use nm_base::{MemorySink, SteadySink};
use nm_ident::NoMemory;
use nm_model::{Document, Full};
use nm_statement::Statement;
use nm_writer::{WriteError, write_document, write_to};
use std::alloc::Global;
use std::test::Fail;

/// How many bytes a block has at least.
const BLOCK: usize = 65536;

/// A limit's type, spelt otherwise than `nm` does: behind a byte order mark, with a comment and spaces,
/// the declarations and the statements in another order, and letters of a UUID in upper case.
const FREELY_SPELT: &[u8] = b"\xEF\xBB\xBF<?xml version=\"1.0\" encoding=\"utf-8\"?>\r
<!-- EQ export -->\r
<rdf:RDF xmlns:cim=\"http://iec.ch/TC57/2013/CIM-schema-cim16#\" xmlns:md=\"http://iec.ch/TC57/61970-552/ModelDescription/1#\" xmlns:rdf=\"http://www.w3.org/1999/02/22-rdf-syntax-ns#\">\r
  <md:FullModel rdf:about=\"urn:uuid:10000000-0000-4000-8000-000000000001\">\r
    <md:Model.profile>http://entsoe.eu/CIM/EquipmentCore/3/1</md:Model.profile>\r
    <md:Model.created>2026-11-02T08:00:00Z</md:Model.created>\r
    <md:Model.DependentOn rdf:resource=\"urn:uuid:30000000-0000-4000-8000-000000000004\"/>\r
  </md:FullModel>\r
  <cim:OperationalLimitType rdf:ID=\"_2000000A-0000-4000-8000-0000000000AB\">\r
    <cim:OperationalLimitType.direction rdf:resource=\"http://iec.ch/TC57/2013/CIM-schema-cim16#OperationalLimitDirectionKind.absoluteValue\"/>\r
    <cim:IdentifiedObject.name>PATL</cim:IdentifiedObject.name>\r
  </cim:OperationalLimitType>\r
</rdf:RDF>\r
";

/// The substation that [`north`] states.
const ID: &[u8] = b"_20000000-0000-4000-8000-000000000001";

fn is_at(full: &Full, place: usize, statement: &Statement) -> bool {
    match full.statements.as_slice().get(place) {
        Some(other) => other == statement,
        None => false,
    }
}

fn names_north(alloc: Global, full: &Full) -> Result<bool, Fail> {
    let statement = named(alloc, ID, b"North")?;
    Ok(is_at(full, 0, &statement))
}

fn classes_north(alloc: Global, full: &Full) -> Result<bool, Fail> {
    let statement = classed(alloc, ID)?;
    Ok(is_at(full, 1, &statement))
}

/// Whether the model states a name and a class, and no more.
fn states_north(alloc: Global, full: &Full) -> Result<bool, Fail> {
    Ok(
        full.header.id == BASE
            && full.statements.len() == 2
            && names_north(alloc, full)?
            && classes_north(alloc, full)?,
    )
}

fn is_north_read(alloc: Global) -> Result<bool, Fail> {
    match full_of(read(alloc, north())?) {
        Some(full) => states_north(alloc, &full),
        None => Ok(false),
    }
}

#[test]
fn the_model_of_a_canonical_document_is_read(rt: HostRuntime) -> Result<(), Fail> {
    assert!(rt; is_north_read(rt.alloc())?);
    Ok(())
}

#[test]
fn other_bytes_are_not_canonical(rt: HostRuntime) -> Result<(), Fail> {
    assert!(rt; !is_canonical(rt.alloc(), FREELY_SPELT)?);
    assert!(rt; !is_canonical(rt.alloc(), b"")?);
    assert!(rt; !is_canonical(rt.alloc(), north_cut_off())?);
    Ok(())
}

/// Whether the document goes to a sink with so much room with this result, and the sink is given
/// these bytes.
fn goes_to(
    alloc: Global,
    model: &Document,
    room: usize,
    due: Result<(), WriteError>,
    text: &[u8],
) -> Result<bool, NoMemory> {
    let mut sink = SteadySink::new(alloc, room)?;
    let result = write_to(alloc, model, &mut sink);
    Ok(result == due && sink.bytes() == text)
}

fn fits_in_its_length(alloc: Global, model: &Document) -> Result<bool, NoMemory> {
    Ok(
        goes_to(alloc, model, 462, Ok(()), north())?
            && goes_to(alloc, model, 461, Err(WriteError::Fault), north_cut_off())?,
    )
}

fn does_north_fit(alloc: Global) -> Result<bool, NoMemory> {
    match read(alloc, north())? {
        Some(model) => fits_in_its_length(alloc, &model),
        None => Ok(false),
    }
}

#[test]
fn a_document_fits_in_the_room_that_it_has(rt: HostRuntime) -> Result<(), Fail> {
    assert!(rt; does_north_fit(rt.alloc())?);
    Ok(())
}

/// A model whose document has more than three blocks.
fn long_model(alloc: Global) -> Result<Document, Fail> {
    Ok(Document::Full(Full {
        header: bare_header(alloc, BASE),
        statements: substations(alloc, 2_000)?,
    }))
}

/// Whether a sink is given the document of the model as this text.
fn is_given_whole(alloc: Global, model: &Document, text: &[u8]) -> bool {
    let mut sink = MemorySink::new(alloc, Vec::new(alloc));
    let result = write_to(alloc, model, &mut sink);
    result == Ok(()) && sink.bytes() == text
}

/// Whether the bytes are the first two blocks of the text, each with less than one object more than
/// a block has.
fn are_two_blocks(bytes: &[u8], text: &[u8]) -> bool {
    text.starts_with(bytes) && bytes.len() >= 2 * BLOCK && bytes.len() < 2 * BLOCK + 400
}

/// Whether a sink whose third call fails is given the first two blocks of the text.
fn is_given_two_blocks(alloc: Global, model: &Document, text: &[u8]) -> Result<bool, NoMemory> {
    let mut sink = MemorySink::new(alloc, vec![in alloc; 2]?);
    let result = write_to(alloc, model, &mut sink);
    Ok(result == Err(WriteError::Fault) && are_two_blocks(sink.bytes(), text))
}

/// Whether the document of the model has more than three blocks, and goes to a sink in blocks.
fn goes_in_blocks(alloc: Global, model: &Document) -> Result<bool, Fail> {
    let text = write_document(alloc, model)?;
    Ok(
        text.len() > 3 * BLOCK
            && is_given_whole(alloc, model, &text)
            && is_given_two_blocks(alloc, model, &text)?,
    )
}

fn does_long_model_go_in_blocks(alloc: Global) -> Result<bool, Fail> {
    let model = long_model(alloc)?;
    goes_in_blocks(alloc, &model)
}

#[test]
fn a_document_goes_to_a_sink_block_by_block(rt: HostRuntime) -> Result<(), Fail> {
    assert!(rt; does_long_model_go_in_blocks(rt.alloc())?);
    Ok(())
}
