//! Documents of every spelling: the models that they state, and the first faults of others.
use nm_ident::NoMemory;
use nm_model::Document;
use nm_reader::{Code, Fault, ReadError, read};
use nm_samples::{EQUIPMENT, EQUIPMENT_WRITTEN, RENAMED, full_model, joined};
use nm_writer::{write_difference, write_full};
use std::alloc::Global;
use std::test::Fail;

const DECLARATION: &[u8] = b"<?xml version=\"1.0\" encoding=\"UTF-8\"?>\n";

const ROOT: &[u8] =
    b"<rdf:RDF xmlns:rdf=\"http://www.w3.org/1999/02/22-rdf-syntax-ns#\" xmlns:md=\"http://iec.ch/TC57/61970-552/ModelDescription/1#\" xmlns:cim=\"http://iec.ch/TC57/2013/CIM-schema-cim16#\">\n";

/// The root of a namespace that ends in a letter.
const ODD_ROOT: &[u8] =
    b"<rdf:RDF xmlns:rdf=\"http://www.w3.org/1999/02/22-rdf-syntax-ns#\" xmlns:md=\"http://iec.ch/TC57/61970-552/ModelDescription/1#\" xmlns:cim=\"http://iec.ch/TC57/2013/CIM-schema-cim16x\">\n";

const HEADER: &[u8] =
    b"<md:FullModel rdf:about=\"urn:uuid:10000000-0000-4000-8000-000000000001\">\n</md:FullModel>";

/// A header of another name.
const OTHER_HEADER: &[u8] =
    b"<md:FullModes rdf:about=\"urn:uuid:10000000-0000-4000-8000-000000000001\">\n</md:FullModes>";

/// The tag of a header of another model.
const SECOND_HEADER: &[u8] =
    b"<md:FullModel rdf:about=\"urn:uuid:30000000-0000-4000-8000-000000000002\">";

const SUBSTATION: &[u8] = b"<cim:Substation rdf:ID=\"_20000000-0000-4000-8000-000000000001\">\n";

const NAME: &[u8] = b"<cim:IdentifiedObject.name>";

const END_OF_NAME: &[u8] = b"</cim:IdentifiedObject.name>\n";

const END: &[u8] = b"</cim:Substation>\n</rdf:RDF>\n";

/// The first fault of the text, or none.
pub fn fault_of(alloc: Global, text: &[u8]) -> Result<Option<Fault>, NoMemory> {
    match read(alloc, text) {
        Ok(_document) => Ok(None),
        Err(ReadError::Fault(fault)) => Ok(Some(fault)),
        Err(ReadError::NoMemory) => Err(NoMemory),
    }
}

/// Whether the text that the parts make has this fault first.
fn is_at_fault(alloc: Global, parts: &[&[u8]], at: u64, code: Code) -> Result<bool, NoMemory> {
    let text = joined(alloc, parts)?;
    Ok(fault_of(alloc, &text)? == Some(Fault { at, code }))
}

/// What the model that the text states is written as.
fn canonical_of(alloc: Global, text: &[u8]) -> Result<Option<Vec<u8>>, NoMemory> {
    match read(alloc, text) {
        Ok(Document::Full(full)) => Ok(Some(write_full(alloc, &full)?)),
        Ok(Document::Difference(difference)) => Ok(Some(write_difference(alloc, &difference)?)),
        Err(ReadError::Fault(_fault)) => Ok(None),
        Err(ReadError::NoMemory) => Err(NoMemory),
    }
}

#[test]
fn the_front_of_a_document_is_judged(rt: HostRuntime) -> Result<(), Fail> {
    let alloc = rt.alloc();
    let latin = b"<?xml version=\"1.0\" encoding=\"ISO-8859-1\"?>\n";
    assert!(rt; is_at_fault(alloc, &[latin, ROOT, HEADER], 0, Code::Encoding)?);
    let doctype = b"<!DOCTYPE rdf:RDF>";
    assert!(rt; is_at_fault(alloc, &[DECLARATION, doctype, ROOT], 39, Code::Doctype)?);
    assert!(rt; is_at_fault(alloc, &[DECLARATION, ROOT, OTHER_HEADER], 219, Code::Header)?);
    let front = joined(alloc, &[DECLARATION, ROOT, HEADER])?;
    assert!(rt;
        is_at_fault(
            alloc,
            &[front.as_slice(), b"x\n", SUBSTATION],
            307,
            Code::Text
        )?
    );
    assert!(rt;
        is_at_fault(
            alloc,
            &[front.as_slice(), b"\n", SECOND_HEADER],
            308,
            Code::Stray
        )?
    );
    Ok(())
}

#[test]
fn an_object_is_judged(rt: HostRuntime) -> Result<(), Fail> {
    let alloc = rt.alloc();
    let front = joined(alloc, &[DECLARATION, ROOT, HEADER, b"\n"])?;
    let odd = joined(alloc, &[DECLARATION, ODD_ROOT, HEADER, b"\n"])?;
    let undeclared = b"<xxx:Substation rdf:ID=\"_20000000-0000-4000-8000-000000000001\">\n";
    assert!(rt; is_at_fault(alloc, &[front.as_slice(), undeclared], 308, Code::Prefix)?);
    assert!(rt; is_at_fault(alloc, &[&odd, SUBSTATION], 308, Code::Namespace)?);
    let blank = b"<cim:Substation rdf:nodeID=\"_20000000-0000-4000-8000-000000000001\">\n";
    assert!(rt; is_at_fault(alloc, &[front.as_slice(), blank], 308, Code::Attribute)?);
    let digit = b"<cim:Substation rdf:ID=\"1abc\">\n";
    assert!(rt; is_at_fault(alloc, &[front.as_slice(), digit], 308, Code::Identifier)?);
    let nested = [
        front.as_slice(),
        SUBSTATION,
        NAME,
        b"North<b/>",
        END_OF_NAME,
        END,
    ];
    assert!(rt; is_at_fault(alloc, &nested, 404, Code::Nesting)?);
    assert!(rt; is_at_fault(alloc, &[front.as_slice(), b"<cim:"], 308, Code::Cut)?);
    Ok(())
}

#[test]
fn bytes_that_are_no_document_are_judged(rt: HostRuntime) -> Result<(), Fail> {
    let alloc = rt.alloc();
    assert!(rt; is_at_fault(alloc, &[b"PK\x03\x04"], 0, Code::Piece)?);
    assert!(rt; is_at_fault(alloc, &[], 0, Code::Cut)?);
    // A byte order mark is no piece, but its bytes are counted; a second one is text.
    assert!(rt; is_at_fault(alloc, &[b"\xEF\xBB\xBF"], 3, Code::Cut)?);
    assert!(rt; is_at_fault(alloc, &[b"\xEF\xBB\xBF<a"], 3, Code::Cut)?);
    assert!(rt; is_at_fault(alloc, &[b"\xEF\xBB\xBF\xEF\xBB\xBF"], 3, Code::Text)?);
    Ok(())
}

#[test]
fn a_literal_has_at_most_65_536_bytes(rt: HostRuntime) -> Result<(), Fail> {
    let alloc = rt.alloc();
    let front = joined(alloc, &[DECLARATION, ROOT, HEADER, b"\n", SUBSTATION, NAME])?;
    let long = b"x".repeat(alloc, 65_536)?;
    let kept = joined(alloc, &[front.as_slice(), &long, END_OF_NAME, END])?;
    assert_eq!(rt; fault_of(alloc, &kept)?, None);
    let name = joined(alloc, &[&long, b"x"])?;
    assert!(rt;
        is_at_fault(
            alloc,
            &[front.as_slice(), &name, END_OF_NAME, END],
            399,
            Code::Limit
        )?
    );
    let parts = [
        front.as_slice(),
        b"y<![CDATA[",
        &long,
        b"]]>",
        END_OF_NAME,
        END,
    ];
    assert!(rt; is_at_fault(alloc, &parts, 400, Code::Limit)?);
    Ok(())
}

/// [`EQUIPMENT`] with another prefix and a UUID in `rdf:about`.
const EQUIPMENT_ABOUT: &[u8] =
    b"\xEF\xBB\xBF<?xml version=\"1.0\" encoding=\"utf-8\"?>\r\n<!-- EQ export -->\r\n<rdf:RDF xmlns:c=\"http://iec.ch/TC57/2013/CIM-schema-cim16#\" xmlns:md=\"http://iec.ch/TC57/61970-552/ModelDescription/1#\" xmlns:rdf=\"http://www.w3.org/1999/02/22-rdf-syntax-ns#\">\r\n  <md:FullModel rdf:about=\"urn:uuid:10000000-0000-4000-8000-000000000001\">\r\n    <md:Model.profile>http://entsoe.eu/CIM/EquipmentCore/3/1</md:Model.profile>\r\n    <md:Model.created>2026-11-02T08:00:00Z</md:Model.created>\r\n    <md:Model.DependentOn rdf:resource=\"urn:uuid:30000000-0000-4000-8000-000000000004\"/>\r\n  </md:FullModel>\r\n  <c:OperationalLimitType rdf:about=\"urn:uuid:2000000a-0000-4000-8000-0000000000ab\">\r\n    <c:OperationalLimitType.direction rdf:resource=\"http://iec.ch/TC57/2013/CIM-schema-cim16#OperationalLimitDirectionKind.absoluteValue\"/>\r\n    <c:IdentifiedObject.name>PATL</c:IdentifiedObject.name>\r\n  </c:OperationalLimitType>\r\n</rdf:RDF>\r\n";

/// The same with a hash in `rdf:about`, and with attributes that are allowed and not kept.
const EQUIPMENT_HASH: &[u8] =
    b"\xEF\xBB\xBF<?xml version=\"1.0\" encoding=\"utf-8\"?>\r\n<!-- EQ export -->\r\n<rdf:RDF xmlns:cim=\"http://iec.ch/TC57/2013/CIM-schema-cim16#\" xmlns:md=\"http://iec.ch/TC57/61970-552/ModelDescription/1#\" xmlns:rdf=\"http://www.w3.org/1999/02/22-rdf-syntax-ns#\" xml:base=\"urn:uuid:10000000-0000-4000-8000-000000000001\">\r\n  <md:FullModel rdf:about=\"urn:uuid:10000000-0000-4000-8000-000000000001\">\r\n    <md:Model.profile>http://entsoe.eu/CIM/EquipmentCore/3/1</md:Model.profile>\r\n    <md:Model.created>2026-11-02T08:00:00Z</md:Model.created>\r\n    <md:Model.DependentOn rdf:resource=\"urn:uuid:30000000-0000-4000-8000-000000000004\"/>\r\n  </md:FullModel>\r\n  <cim:OperationalLimitType rdf:about=\"#_2000000A-0000-4000-8000-0000000000AB\">\r\n    <cim:OperationalLimitType.direction rdf:resource=\"http://iec.ch/TC57/2013/CIM-schema-cim16#OperationalLimitDirectionKind.absoluteValue\"/>\r\n    <cim:IdentifiedObject.name xml:lang=\"en\" rdf:datatype=\"http://www.w3.org/2001/XMLSchema#string\">PATL</cim:IdentifiedObject.name>\r\n  </cim:OperationalLimitType>\r\n</rdf:RDF>\r\n";

#[test]
fn a_model_is_written_the_same_of_every_spelling(rt: HostRuntime) -> Result<(), Fail> {
    let alloc = rt.alloc();
    for text in [
        EQUIPMENT,
        EQUIPMENT_ABOUT,
        EQUIPMENT_HASH,
        EQUIPMENT_WRITTEN,
    ] {
        assert!(rt; canonical_of(alloc, text)? == Some(EQUIPMENT_WRITTEN.to_vec(alloc)?));
    }
    Ok(())
}

/// The document of one substation with this in the place of its name's element.
fn with_name(alloc: Global, element: &[u8]) -> Result<Vec<u8>, NoMemory> {
    joined(
        alloc,
        &[DECLARATION, ROOT, HEADER, b"\n", SUBSTATION, element, END],
    )
}

#[test]
fn a_literal_is_written_in_one_spelling(rt: HostRuntime) -> Result<(), Fail> {
    let alloc = rt.alloc();
    for (spelt, written) in [
        (
            b"<cim:IdentifiedObject.name>a&#13;b]]&gt;&quot;&#x1D11E;</cim:IdentifiedObject.name>\n".as_slice(),
            b"<cim:IdentifiedObject.name>a&#13;b]]&gt;\"\xF0\x9D\x84\x9E</cim:IdentifiedObject.name>\n".as_slice(),
        ),
        (
            b"<cim:IdentifiedObject.name/>\n".as_slice(),
            b"<cim:IdentifiedObject.name></cim:IdentifiedObject.name>\n".as_slice(),
        ),
    ] {
        let text = with_name(alloc, spelt)?;
        assert!(rt; canonical_of(alloc, &text)? == Some(with_name(alloc, written)?));
    }
    Ok(())
}

/// Two objects, the first of two classes.
const CLASSES: &[u8] =
    b"</md:FullModel><cim:B rdf:ID=\"b\"><rdf:type rdf:resource=\"http://iec.ch/TC57/2013/CIM-schema-cim16#A\"/></cim:B><rdf:Description rdf:about=\"#a\"><cim:p>x</cim:p></rdf:Description>";

/// What is written of them.
const CLASSES_KEPT: &[u8] =
    b"</md:FullModel>\n<rdf:Description rdf:about=\"#a\">\n<cim:p>x</cim:p>\n</rdf:Description>\n<cim:A rdf:ID=\"b\">\n<rdf:type rdf:resource=\"http://iec.ch/TC57/2013/CIM-schema-cim16#B\"/>\n</cim:A>\n";

#[test]
fn the_least_class_names_an_object(rt: HostRuntime) -> Result<(), Fail> {
    let alloc = rt.alloc();
    let text = full_model(alloc, &[CLASSES])?;
    assert!(rt; canonical_of(alloc, &text)? == Some(full_model(alloc, &[CLASSES_KEPT])?));
    Ok(())
}

#[test]
fn a_section_that_is_not_there_is_written(rt: HostRuntime) -> Result<(), Fail> {
    let alloc = rt.alloc();
    let (front, rest) = (&RENAMED[492..1312], &RENAMED[1537..1570]);
    let text = joined(alloc, &[front, rest])?;
    assert_eq!(rt; text.len(), 853);
    let section =
        b"<dm:reverseDifferences rdf:parseType=\"Statements\">\n</dm:reverseDifferences>\n";
    let written = joined(alloc, &[front, section, rest])?;
    assert_eq!(rt; written.len(), 929);
    assert!(rt; canonical_of(alloc, &text)? == Some(written));
    Ok(())
}
