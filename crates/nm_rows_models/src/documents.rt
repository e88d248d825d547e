//! Documents that are read, and written again as they were.
use crate::models::{another_name, bare_base, north, renamed, same_name};
use nm_canon::{CanonicalError, read_canonical};
use nm_ident::NoMemory;
use nm_model::{Document, Full};
use nm_samples::full_model;
use nm_writer::{write_document, write_full};
use std::alloc::Global;
use std::test::Fail;

/// A name of characters that are spelt by references, and of one outside the basic plane.
const CHARACTERS: &[u8] =
    b"</md:FullModel>\n<cim:Substation rdf:ID=\"_20000000-0000-4000-8000-000000000001\">\n<cim:IdentifiedObject.name>a&#13;b]]&gt;\"\xF0\x9D\x84\x9E</cim:IdentifiedObject.name>\n</cim:Substation>\n";

/// A name of no characters.
const EMPTY_NAME: &[u8] =
    b"</md:FullModel>\n<cim:Substation rdf:ID=\"_20000000-0000-4000-8000-000000000001\">\n<cim:IdentifiedObject.name></cim:IdentifiedObject.name>\n</cim:Substation>\n";

/// An object of two classes, the less of which names its element, and one of none.
const TWO_CLASSES: &[u8] =
    b"</md:FullModel>\n<rdf:Description rdf:about=\"#a\">\n<cim:p>x</cim:p>\n</rdf:Description>\n<cim:A rdf:ID=\"b\">\n<rdf:type rdf:resource=\"http://iec.ch/TC57/2013/CIM-schema-cim16#B\"/>\n</cim:A>\n";

/// A limit's type, in a model that says when it was made, its profile, and what it depends on.
const EQUIPMENT: &[u8] =
    b"<md:Model.profile>http://entsoe.eu/CIM/EquipmentCore/3/1</md:Model.profile>\n<md:Model.DependentOn rdf:resource=\"urn:uuid:30000000-0000-4000-8000-000000000004\"/>\n</md:FullModel>\n<cim:OperationalLimitType rdf:ID=\"_2000000a-0000-4000-8000-0000000000ab\">\n<cim:IdentifiedObject.name>PATL</cim:IdentifiedObject.name>\n<cim:OperationalLimitType.direction rdf:resource=\"http://iec.ch/TC57/2013/CIM-schema-cim16#OperationalLimitDirectionKind.absoluteValue\"/>\n</cim:OperationalLimitType>\n";

/// The line that says when [`EQUIPMENT`] was made.
const CREATED: &[u8] = b"<md:Model.created>2026-11-02T08:00:00Z</md:Model.created>\n";

/// The model that the document states, if it is canonical.
pub fn read(alloc: Global, text: &[u8]) -> Result<Option<Document>, NoMemory> {
    match read_canonical(alloc, text) {
        Ok(model) => Ok(Some(model)),
        Err(CanonicalError::NotCanonical) => Ok(None),
        Err(CanonicalError::NoMemory) => Err(NoMemory),
    }
}

/// Whether the text is the canonical document of a model.
pub fn is_canonical(alloc: Global, text: &[u8]) -> Result<bool, NoMemory> {
    Ok(read(alloc, text)?.is_some())
}

fn is_document_of(alloc: Global, model: &Document, text: &[u8]) -> Result<bool, NoMemory> {
    Ok(write_document(alloc, model)?.as_slice() == text)
}

/// Whether the text is read, and what it states is written as the text is.
pub fn is_written_again(alloc: Global, text: &[u8]) -> Result<bool, NoMemory> {
    match read(alloc, text)? {
        Some(model) => is_document_of(alloc, &model, text),
        None => Ok(false),
    }
}

/// Whether the full model with these parts is written again as it is.
pub fn is_full_model_written_again(alloc: Global, parts: &[&[u8]]) -> Result<bool, NoMemory> {
    let text = full_model(alloc, parts)?;
    is_written_again(alloc, &text)
}

fn are_parts_written_again(alloc: Global) -> Result<bool, NoMemory> {
    Ok(
        is_full_model_written_again(alloc, &[CHARACTERS])?
            && is_full_model_written_again(alloc, &[EMPTY_NAME])?
            && is_full_model_written_again(alloc, &[TWO_CLASSES])?,
    )
}

#[test]
fn full_models_are_written_again(rt: HostRuntime) -> Result<(), Fail> {
    assert!(rt; is_written_again(rt.alloc(), bare_base())?);
    assert!(rt; is_written_again(rt.alloc(), north())?);
    assert!(rt; are_parts_written_again(rt.alloc())?);
    Ok(())
}

#[test]
fn differences_are_written_again(rt: HostRuntime) -> Result<(), Fail> {
    assert!(rt; is_written_again(rt.alloc(), renamed())?);
    assert!(rt; is_written_again(rt.alloc(), another_name())?);
    assert!(rt; is_written_again(rt.alloc(), same_name())?);
    Ok(())
}

/// The model, where it is a full one.
pub fn full_of(model: Option<Document>) -> Option<Full> {
    match model {
        Some(Document::Full(full)) => Some(full),
        Some(Document::Difference(_difference)) => None,
        None => None,
    }
}

/// What the full model with these parts states.
pub fn stated(alloc: Global, parts: &[&[u8]]) -> Result<Option<Full>, NoMemory> {
    let text = full_model(alloc, parts)?;
    Ok(full_of(read(alloc, &text)?))
}

/// Whether the model is written as the full model with these parts.
pub fn is_written_as(alloc: Global, full: &Full, parts: &[&[u8]]) -> Result<bool, NoMemory> {
    let text = full_model(alloc, parts)?;
    Ok(write_full(alloc, full)? == text)
}

/// Whether the model says that it was made at this time.
fn is_made_at(full: &Full, time: &[u8]) -> bool {
    match &full.header.created {
        Some(created) => created.as_slice() == time,
        None => false,
    }
}

/// Whether the model says when it was made, and is [`EQUIPMENT`] where it does not.
fn is_equipment_with_time(alloc: Global, full: &mut Full) -> Result<bool, NoMemory> {
    let is_said = is_made_at(full, b"2026-11-02T08:00:00Z");
    full.header.created = None;
    Ok(is_said && is_written_as(alloc, full, &[EQUIPMENT])?)
}

fn is_time_read_and_written(alloc: Global) -> Result<bool, NoMemory> {
    match stated(alloc, &[CREATED, EQUIPMENT])? {
        Some(full) => {
            let mut full = full;
            is_equipment_with_time(alloc, &mut full)
        }
        None => Ok(false),
    }
}

#[test]
fn a_time_of_creation_is_read_and_written(rt: HostRuntime) -> Result<(), Fail> {
    assert!(rt; is_time_read_and_written(rt.alloc())?);
    Ok(())
}
