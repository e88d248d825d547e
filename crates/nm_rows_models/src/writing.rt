//! How models are spelt: prefixes, groups, references and headers.
use crate::documents::{
    is_canonical, is_full_model_written_again, is_written_again, is_written_as, stated,
};
use crate::models::{BASE, north};
use nm_ident::{Ids, NoMemory, Text, Texts};
use nm_model::{Full, Header};
use nm_statement::Literal;
use std::alloc::Global;
use std::test::Fail;

/// Four namespaces in the order of their bytes, the first of CIM's two as `cim`.
const PREFIXES: &[u8] = br##"<?xml version="1.0" encoding="UTF-8"?>
<rdf:RDF xmlns:rdf="http://www.w3.org/1999/02/22-rdf-syntax-ns#" xmlns:md="http://iec.ch/TC57/61970-552/ModelDescription/1#" xmlns:n1="http://a.org/#" xmlns:cim="http://iec.ch/TC57/2013/CIM-schema-cim16#" xmlns:n2="http://iec.ch/TC57/CIM100#" xmlns:n3="http://z.org/">
<md:FullModel rdf:about="urn:uuid:10000000-0000-4000-8000-000000000001">
</md:FullModel>
<rdf:Description rdf:about="#s">
<n3:z></n3:z>
</rdf:Description>
<rdf:Description rdf:about="#t">
<n2:y></n2:y>
</rdf:Description>
<n1:W rdf:ID="u">
<cim:x></cim:x>
</n1:W>
</rdf:RDF>
"##;

/// A UUID before local identifiers, links to both, and a resource of two classes.
const GROUPS: &[u8] = br##"</md:FullModel>
<rdf:Description rdf:about="#_20000000-0000-4000-8000-000000000001">
<cim:q rdf:resource="#b"/>
</rdf:Description>
<rdf:Description rdf:about="#a">
<cim:p>x</cim:p>
<cim:q rdf:resource="#_20000000-0000-4000-8000-000000000001"/>
</rdf:Description>
<cim:A rdf:ID="b">
<cim:r rdf:resource="http://a.org/?q=&quot;1&quot;&amp;r"/>
<rdf:type rdf:resource="http://iec.ch/TC57/2013/CIM-schema-cim16#B"/>
</cim:A>
"##;

/// A namespace with bytes that an attribute spells by references.
const REFERENCES: &[u8] = br##"<?xml version="1.0" encoding="UTF-8"?>
<rdf:RDF xmlns:rdf="http://www.w3.org/1999/02/22-rdf-syntax-ns#" xmlns:md="http://iec.ch/TC57/61970-552/ModelDescription/1#" xmlns:n1="http://a.org/?x&amp;&lt;&quot;&gt;#">
<md:FullModel rdf:about="urn:uuid:10000000-0000-4000-8000-000000000001">
</md:FullModel>
<rdf:Description rdf:about="#s">
<n1:p>v</n1:p>
</rdf:Description>
</rdf:RDF>
"##;

#[test]
fn spellings_are_written_again(rt: HostRuntime) -> Result<(), Fail> {
    assert!(rt; is_written_again(rt.alloc(), PREFIXES)?);
    assert!(rt; is_written_again(rt.alloc(), REFERENCES)?);
    assert!(rt; is_full_model_written_again(rt.alloc(), &[GROUPS])?);
    Ok(())
}

/// A limit's type.
const LIMIT: &[u8] = br##"</md:FullModel>
<cim:OperationalLimitType rdf:ID="_2000000a-0000-4000-8000-0000000000ab">
<cim:OperationalLimitType.direction rdf:resource="http://iec.ch/TC57/2013/CIM-schema-cim16#OperationalLimitDirectionKind.absoluteValue"/>
</cim:OperationalLimitType>
"##;

/// All that a header can say.
const HEADER: &[u8] = br##"<md:Model.created>2026-11-02T08:00:00Z</md:Model.created>
<md:Model.scenarioTime>2027-01-01T00:00:00Z</md:Model.scenarioTime>
<md:Model.version>4</md:Model.version>
<md:Model.description>as &gt; built</md:Model.description>
<md:Model.modelingAuthoritySet>http://a.org/</md:Model.modelingAuthoritySet>
<md:Model.profile>http://entsoe.eu/CIM/EquipmentCore/3/1</md:Model.profile>
<md:Model.DependentOn rdf:resource="urn:uuid:30000000-0000-4000-8000-000000000004"/>
<md:Model.Supersedes rdf:resource="urn:uuid:00000000-0000-0000-0000-000000000001"/>
<md:Model.Supersedes rdf:resource="urn:uuid:10000000-0000-4000-8000-000000000001"/>
"##;

fn say(alloc: Global, property: &mut Option<Literal>, text: &[u8]) -> Result<(), Fail> {
    *property = Some(Literal::new(alloc, text)?);
    Ok(())
}

fn say_texts(alloc: Global, header: &mut Header) -> Result<(), Fail> {
    say(alloc, &mut header.created, b"2026-11-02T08:00:00Z")?;
    say(alloc, &mut header.scenario_time, b"2027-01-01T00:00:00Z")?;
    say(alloc, &mut header.version, b"4")?;
    say(alloc, &mut header.description, b"as > built")?;
    say(alloc, &mut header.authority, b"http://a.org/")
}

fn say_profile(alloc: Global, profiles: &mut Texts, text: &[u8]) -> Result<(), NoMemory> {
    let mut list = Vec::new(alloc);
    list.push(Text::of_slice(alloc, text)?)?;
    *profiles = Texts::of_list(list);
    Ok(())
}

fn say_ids(alloc: Global, ids: &mut Ids, list: &[u128]) -> Result<(), NoMemory> {
    *ids = Ids::of_list(list.to_vec(alloc)?);
    Ok(())
}

fn say_lists(alloc: Global, header: &mut Header) -> Result<(), NoMemory> {
    say_profile(
        alloc,
        &mut header.profiles,
        b"http://entsoe.eu/CIM/EquipmentCore/3/1",
    )?;
    say_ids(
        alloc,
        &mut header.depends,
        &[0x30000000_0000_4000_8000_000000000004],
    )?;
    say_ids(alloc, &mut header.supersedes, &[1, BASE])
}

/// Whether the model, once its header says all that it can, is written so.
fn is_written_with_all(alloc: Global, full: &mut Full) -> Result<bool, Fail> {
    say_texts(alloc, &mut full.header)?;
    say_lists(alloc, &mut full.header)?;
    Ok(is_written_as(alloc, full, &[HEADER, LIMIT])?)
}

fn is_header_written(alloc: Global) -> Result<bool, Fail> {
    match stated(alloc, &[LIMIT])? {
        Some(full) => {
            let mut full = full;
            is_written_with_all(alloc, &mut full)
        }
        None => Ok(false),
    }
}

#[test]
fn all_properties_of_a_header_are_written(rt: HostRuntime) -> Result<(), Fail> {
    assert!(rt; is_header_written(rt.alloc())?);
    Ok(())
}

/// The document without the byte at the place.
fn without(alloc: Global, document: &[u8], place: usize) -> Result<Vec<u8>, NoMemory> {
    let mut text = Vec::new(alloc);
    for (at, byte) in document.iter().enumerate() {
        if at != place {
            text.push(*byte)?;
        }
    }
    Ok(text)
}

/// How many of the texts that are a byte shorter than the document are a model's.
fn count_models(alloc: Global, document: &[u8]) -> Result<u32, NoMemory> {
    let mut models = 0u32;
    for place in 0..document.len() {
        let text = without(alloc, document, place)?;
        if is_canonical(alloc, &text)? {
            models = models.saturating_add(1);
        }
    }
    Ok(models)
}

#[test]
fn a_byte_less_is_another_model_or_none(rt: HostRuntime) -> Result<(), Fail> {
    // One less of the name's 5 bytes, of the identity's 36 digits and hyphens, or of the 21 bytes
    // of the namespace between `http://iec.ch/TC57/` and `#`.
    assert_eq!(rt; count_models(rt.alloc(), north())?, 62);
    Ok(())
}
