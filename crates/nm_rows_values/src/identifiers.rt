//! Identifiers of resources and models, and names.
use nm_ident::{
    Ident, IdentError, Ids, Name, NameError, NoMemory, Target, Text, Texts, id_text, model_id,
};
use std::alloc::Global;

/// The example of RFC 9562, section 4, and its number.
const EXAMPLE: &[u8] = b"f81d4fae-7dec-11d0-a765-00a0c91e6bf6";

const EXAMPLE_NUMBER: u128 = 329800735698586629295641978511506172918;

const CIM: &[u8] = b"http://iec.ch/TC57/CIM100#";

fn local(alloc: Global, bytes: &[u8]) -> Result<Ident, NoMemory> {
    Ok(Ident::Local(Text::of_slice(alloc, bytes)?))
}

fn is_model_id(text: &[u8], id: u128) -> bool {
    model_id(text) == Some(id)
}

#[test]
fn reads_and_writes_uuids(rt: HostRuntime) {
    assert!(rt; is_model_id(EXAMPLE, EXAMPLE_NUMBER));
    assert!(rt; is_model_id(b"F81D4FAE-7DEC-11D0-A765-00A0C91E6BF6", EXAMPLE_NUMBER));
    assert!(rt; model_id(b"f81d4fae7dec11d0a76500a0c91e6bf6").is_none());
    assert!(rt; id_text(EXAMPLE_NUMBER).as_slice() == EXAMPLE);
}

fn is_uuid(read: Result<Ident, IdentError>, id: u128) -> bool {
    matches!(&read, Ok(Ident::Uuid(number)) if *number == id)
}

fn is_target(alloc: Global, text: &[u8], id: u128) -> bool {
    let read = Ident::of_resource(alloc, text);
    matches!(&read, Ok(Target::Ident(Ident::Uuid(number))) if *number == id)
}

#[test]
fn the_three_spellings_name_one_resource(rt: HostRuntime) {
    let id = b"_f81d4fae-7dec-11d0-a765-00a0c91e6bf6";
    let hash = b"#_F81D4FAE-7DEC-11D0-A765-00A0C91E6BF6";
    let urn = b"urn:uuid:f81d4fae-7dec-11d0-a765-00a0c91e6bf6";
    assert!(rt; Ident::is_about(urn));
    assert!(rt; is_uuid(Ident::of_id(rt.alloc(), id), EXAMPLE_NUMBER));
    assert!(rt; is_uuid(Ident::of_about(rt.alloc(), hash), EXAMPLE_NUMBER));
    assert!(rt; is_uuid(Ident::of_about(rt.alloc(), urn), EXAMPLE_NUMBER));
    assert!(rt; is_target(rt.alloc(), urn, EXAMPLE_NUMBER));
}

fn is_local(read: Result<Ident, IdentError>, text: &[u8]) -> bool {
    matches!(&read, Ok(Ident::Local(name)) if name.as_slice() == text)
}

/// Whether the text is an `rdf:ID` of a local identifier, and this one is an `rdf:about` of it.
fn is_local_read(alloc: Global, text: &[u8], about: &[u8]) -> bool {
    is_local(Ident::of_id(alloc, text), text) && is_local(Ident::of_about(alloc, about), text)
}

fn is_bad_about(alloc: Global, text: &[u8]) -> bool {
    matches!(&Ident::of_about(alloc, text), Err(IdentError::Bad))
}

fn is_iri(alloc: Global, text: &[u8]) -> bool {
    let read = Ident::of_resource(alloc, text);
    matches!(&read, Ok(Target::Iri(iri)) if iri.as_slice() == text)
}

fn is_no_target(alloc: Global, text: &[u8]) -> bool {
    Ident::of_resource(alloc, text).is_err()
}

fn is_copied(alloc: Global, ident: &Ident) -> Result<bool, NoMemory> {
    Ok(ident.copy(alloc)? == *ident)
}

fn is_id(alloc: Global, ident: &Ident, text: &[u8]) -> Result<bool, NoMemory> {
    let mut id = Vec::new(alloc);
    ident.append_id(&mut id)?;
    Ok(id.as_slice() == text)
}

/// Whether the local identifier is copied, and written as this text.
fn is_local_kept(alloc: Global, text: &[u8]) -> Result<bool, NoMemory> {
    let ident = local(alloc, text)?;
    Ok(is_copied(alloc, &ident)? && is_id(alloc, &ident, text)?)
}

#[test]
fn reads_local_identifiers_and_iris(rt: HostRuntime) -> Result<(), NoMemory> {
    let code = b"http://iec.ch/TC57/CIM100#PhaseCode.A";
    assert!(rt; is_local_read(rt.alloc(), b"Line-1", b"#Line-1"));
    assert!(rt; is_bad_about(rt.alloc(), b"Line-1"));
    assert!(rt; is_local_kept(rt.alloc(), b"Line-1")?);
    assert!(rt; is_iri(rt.alloc(), code));
    assert!(rt; is_no_target(rt.alloc(), b"#"));
    Ok(())
}

fn has_parts(name: &Name, ns: &[u8], local: &[u8]) -> bool {
    name.ns().as_slice() == ns && name.local().as_slice() == local
}

fn is_name_copied(alloc: Global, name: &Name) -> Result<bool, NoMemory> {
    Ok(name.copy(alloc)? == *name)
}

/// Whether there is a name with these parts, and it is copied.
fn is_name(alloc: Global, ns: &[u8], local: &[u8]) -> Result<bool, NoMemory> {
    match Name::new(alloc, ns, local) {
        Ok(name) => Ok(has_parts(&name, ns, local) && is_name_copied(alloc, &name)?),
        Err(_error) => Ok(false),
    }
}

fn is_before(alloc: Global, name: &Name, local: &[u8]) -> bool {
    match Name::new(alloc, CIM, local) {
        Ok(other) => other > *name,
        Err(_error) => false,
    }
}

/// Whether the name of CIM with the first local part stands before the one with the second.
fn are_in_order(alloc: Global, first: &[u8], second: &[u8]) -> bool {
    match Name::new(alloc, CIM, first) {
        Ok(name) => is_before(alloc, &name, second),
        Err(_error) => false,
    }
}

fn is_bad_name(alloc: Global, ns: &[u8], local: &[u8]) -> bool {
    matches!(&Name::new(alloc, ns, local), Err(NameError::Bad))
}

#[test]
fn makes_names(rt: HostRuntime) -> Result<(), NoMemory> {
    assert!(rt; is_name(rt.alloc(), CIM, b"ACLineSegment.r")?);
    assert!(rt; are_in_order(rt.alloc(), b"ACLineSegment.r", b"ACLineSegment.x"));
    assert!(rt; is_bad_name(rt.alloc(), b"http://iec.ch/TC57/CIM100", b"r"));
    Ok(())
}

fn is_before_local(alloc: Global, ident: &Ident, text: &[u8]) -> Result<bool, NoMemory> {
    Ok(*ident < local(alloc, text)?)
}

fn are_locals_in_order(alloc: Global, first: &[u8], second: &[u8]) -> Result<bool, NoMemory> {
    let ident = local(alloc, first)?;
    is_before_local(alloc, &ident, second)
}

fn are_numbers_in_order(first: u128, second: u128) -> bool {
    Ident::Uuid(first) < Ident::Uuid(second)
}

fn is_number_before_local(alloc: Global, number: u128, text: &[u8]) -> Result<bool, NoMemory> {
    is_before_local(alloc, &Ident::Uuid(number), text)
}

#[test]
fn orders_identifiers(rt: HostRuntime) -> Result<(), NoMemory> {
    assert!(rt; are_numbers_in_order(9, 10));
    assert!(rt; is_number_before_local(rt.alloc(), 10, b"A")?);
    assert!(rt; are_locals_in_order(rt.alloc(), b"A", b"AB")?);
    Ok(())
}

fn has_five_and_three(ids: &Ids) -> bool {
    ids.as_slice() == [5, 3].as_slice() && ids.contains(3) && !ids.contains(4)
}

fn are_five_and_three_copied(alloc: Global) -> Result<bool, NoMemory> {
    let ids = Ids::of_list(vec![in alloc; 5, 3]?);
    Ok(has_five_and_three(&ids.copy(alloc)?))
}

/// The list of this text alone.
fn alone(alloc: Global, text: &[u8]) -> Result<Texts, NoMemory> {
    let mut list = Vec::new(alloc);
    list.push(Text::of_slice(alloc, text)?)?;
    Ok(Texts::of_list(list))
}

fn is_alone(texts: &Texts, text: &[u8]) -> bool {
    match texts.as_slice() {
        [only] => only.as_slice() == text,
        _ => false,
    }
}

fn is_text_copied(alloc: Global, text: &[u8]) -> Result<bool, NoMemory> {
    let texts = alone(alloc, text)?;
    Ok(is_alone(&texts.copy(alloc)?, text))
}

#[test]
fn copies_lists(rt: HostRuntime) -> Result<(), NoMemory> {
    assert!(rt; are_five_and_three_copied(rt.alloc())?);
    assert!(rt; is_text_copied(rt.alloc(), b"core")?);
    Ok(())
}

fn says(alloc: Global, error: IdentError, text: &str) -> Result<bool, NoMemory> {
    Ok(format!(in alloc; "{}", error)?.as_str() == text)
}

fn says_of_name(alloc: Global, error: NameError, text: &str) -> Result<bool, NoMemory> {
    Ok(format!(in alloc; "{}", error)?.as_str() == text)
}

#[test]
fn says_what_was_refused(rt: HostRuntime) -> Result<(), NoMemory> {
    assert!(rt; says(rt.alloc(), IdentError::Bad, "no identifier")?);
    assert!(rt; says_of_name(rt.alloc(), NameError::NoMemory, "out of memory")?);
    Ok(())
}
