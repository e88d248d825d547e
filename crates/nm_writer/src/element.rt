// The objects of a canonical document: the statements of a set, grouped by subject.
ghost use Rattle.nm_ident.specs.Ident.{id_of};
ghost use Rattle.nm_ident.specs.Name.{ends_namespace, type_name};
ghost use Rattle.nm_ident.specs.Order.{name_cmp};
ghost use Rattle.nm_ident.specs.QualifiedName.{QualifiedName};
ghost use Rattle.nm_text.specs.Escape.{attribute_spelling};
ghost use Rattle.nm_writer.specs.Canonical.{class_of, class_of_iri, element, element_of, element_start, group_length, identity, is_about, link_line, object_line, properties_of, property_line, IsNamedBy};
ghost use Rattle.std.specs.List.{flat_map, prefix_len};
ghost use Rattle.std.specs.Ordering.{is_eq};
ghost use Rattle.std.specs.Prelude.{◌≡◌, ◌≤◌, ◌++◌, length, take, drop, not, codes, reverse, position, MatchOption, None, Some, OnOk};

use crate::lines::{append_all, append_closing, append_value_line};
use crate::prefixes::{Prefixes, is_rdf};
use nm_ident::{Ident, Name, NoMemory, is_predicate};
use nm_statement::{Object, Statement};
use nm_text::append_escaped_attribute;
use std::alloc::Global;

/// A class that can name an element.
#[derive(Clone, Copy)]
pub struct Class<'a> {
    pub ns: &'a [u8],
    pub local: &'a [u8],
}

/// The class that a statement gives its subject, where that can name an element.
fn class_of(statement: &Statement) -> Option<Class<'_>>
    ensures { MatchOption result (class_of statement.now ≡ None)
        (λ class. class_of statement.now ≡ Some (record { ns = class.ns.now; local = class.local.now })) }
{
    if !is_type(&statement.predicate) {
        return None;
    }
    match &statement.object {
        Object::Iri(iri) => class_of_iri(iri.as_slice()),
        _ => None,
    }
}

fn is_type(predicate: &Name) -> bool
    ensures { result ≡ is_eq (name_cmp predicate.now type_name) }
{
    is_rdf(predicate.ns().as_slice()) && predicate.local().as_slice() == b"type".as_slice()
}

/// The class of an IRI, split after its last `#` or `/`.
fn class_of_iri(iri: &[u8]) -> Option<Class<'_>>
    ensures { MatchOption result (class_of_iri iri.now ≡ None)
        (λ class. class_of_iri iri.now ≡ Some (record { ns = class.ns.now; local = class.local.now })) }
{
    let (ns, local) = iri.split_at(iri.len() - local_length(iri)?);
    if is_predicate(ns, local) && !is_rdf(ns) {
        Some(Class { ns, local })
    } else {
        None
    }
}

/// How many bytes stand after the last `#` or `/`.
fn local_length(iri: &[u8]) -> Option<usize>
    ensures { result ≡ position ends_namespace (reverse iri.now) }
{
    iri.iter()
        .rev()
        .position(|byte| matches!(*byte, b'#' | b'/'))
}

/// The statements of the first one's subject, and those behind them.
pub fn split_group(statements: &[Statement]) -> (&[Statement], &[Statement])
    ensures group { result.0.now ≡ take (group_length statements.now) statements.now }
    ensures behind { result.1.now ≡ drop (group_length statements.now) statements.now }
{
    statements.split_at(group_length(statements))
}

/// How many statements at the front are of the first one's subject.
fn group_length(statements: &[Statement]) -> usize
    ensures within { result ≤ length statements.now }
    ensures value { result ≡ group_length statements.now }
{
    match statements {
        [] => 0,
        [first, others @ ..] => 1 + length_about(&first.subject, others),
    }
}

/// How many statements at the front are of a subject.
fn length_about(subject: &Ident, statements: &[Statement]) -> usize
    ensures within { result ≤ length statements.now }
    ensures value { result ≡ prefix_len (is_about subject.now) statements.now }
{
    first_other(subject, statements).unwrap_or(statements.len())
}

/// The place of the first statement that is of another subject.
fn first_other(subject: &Ident, statements: &[Statement]) -> Option<usize>
    ensures { result ≡ position (λ statement. not (is_about subject.now statement)) statements.now }
{
    statements
        .iter()
        .position(|statement| !is_about(subject, statement))
}

fn is_about(subject: &Ident, statement: &Statement) -> bool
    ensures { result ≡ is_about subject.now statement.now }
{
    *subject == statement.subject
}

/// The statement that names the element of these, which are of one subject, and its class.
pub fn element_class(group: &[Statement]) -> Option<(usize, Class<'_>)>
    ensures { MatchOption result ((element_of group.now ≡ None) × (properties_of group.now ≡ group.now))
        (λ found. IsNamedBy group.now found.0 (record { ns = found.1.ns.now; local = found.1.local.now })) }
{
    for (place, statement) in group.iter().enumerate() {
        if let Some(class) = class_of(statement) {
            return Some((place, class));
        }
    }
    None
}

/// Appends the object of a subject.
pub fn append_element(
    alloc: Global,
    out: &mut Vec<u8>,
    is_full: bool,
    prefixes: &Prefixes,
    subject: &Ident,
    group: &[Statement],
) -> Result<(), NoMemory>
    ensures { OnOk result (out.new.items ≡ out.old.items ++ element is_full prefixes.now subject.now group.now) }
{
    match element_class(group) {
        Some((place, class)) => {
            let tag = prefixes.tag(alloc, class.ns, class.local)?;
            append_start(out, &tag, is_full, subject)?;
            append_properties(alloc, out, prefixes, &group[..place])?;
            append_properties(alloc, out, prefixes, &group[place + 1..])?;
            append_closing(out, &tag)
        }
        None => {
            let tag = b"rdf:Description";
            append_start(out, tag, false, subject)?;
            append_properties(alloc, out, prefixes, group)?;
            append_closing(out, tag)
        }
    }
}

/// Appends the opening tag of an object, which says `rdf:ID` where the object is new.
fn append_start(
    out: &mut Vec<u8>,
    tag: &[u8],
    is_new: bool,
    subject: &Ident,
) -> Result<(), NoMemory>
    ensures { OnOk result (out.new.items ≡ out.old.items ++ element_start tag.now is_new subject.now) }
{
    append_all(out, &[b"<", tag])?;
    append_identity(out, is_new, subject)?;
    append_all(out, &[b">\n"])
}

fn append_identity(out: &mut Vec<u8>, is_new: bool, subject: &Ident) -> Result<(), NoMemory>
    ensures { OnOk result (out.new.items ≡ out.old.items ++ identity is_new subject.now) }
{
    if is_new {
        append_all(out, &[b" rdf:ID=\""])?;
    } else {
        append_all(out, &[b" rdf:about=\"#"])?;
    }
    subject.append_id(out)?;
    append_all(out, &[b"\""])
}

fn append_properties(
    alloc: Global,
    out: &mut Vec<u8>,
    prefixes: &Prefixes,
    statements: &[Statement],
) -> Result<(), NoMemory>
    ensures { OnOk result (out.new.items ≡ out.old.items ++ flat_map (property_line prefixes.now) statements.now) }
{
    for statement in statements {
        append_property(alloc, out, prefixes, statement)?;
    }
    Ok(())
}

fn append_property(
    alloc: Global,
    out: &mut Vec<u8>,
    prefixes: &Prefixes,
    statement: &Statement,
) -> Result<(), NoMemory>
    ensures { OnOk result (out.new.items ≡ out.old.items ++ property_line prefixes.now statement.now) }
{
    let predicate = &statement.predicate;
    let tag = prefixes.tag(
        alloc,
        predicate.ns().as_slice(),
        predicate.local().as_slice(),
    )?;
    append_object(out, &tag, &statement.object)
}

fn append_object(out: &mut Vec<u8>, tag: &[u8], object: &Object) -> Result<(), NoMemory>
    ensures { OnOk result (out.new.items ≡ out.old.items ++ object_line tag.now object.now) }
{
    match object {
        Object::Literal(text) => append_value_line(out, tag, text.as_slice()),
        Object::Resource(ident) => append_resource(out, tag, ident),
        Object::Iri(iri) => append_iri(out, tag, iri.as_slice()),
    }
}

fn append_resource(out: &mut Vec<u8>, tag: &[u8], ident: &Ident) -> Result<(), NoMemory>
    ensures { OnOk result (out.new.items ≡ out.old.items ++ link_line tag.now (codes "#" ++ id_of ident.now)) }
{
    append_all(out, &[b"<", tag, b" rdf:resource=\"#"])?;
    ident.append_id(out)?;
    append_all(out, &[b"\"/>\n"])
}

fn append_iri(out: &mut Vec<u8>, tag: &[u8], iri: &[u8]) -> Result<(), NoMemory>
    ensures { OnOk result (out.new.items ≡ out.old.items ++ link_line tag.now (attribute_spelling iri.now)) }
{
    append_all(out, &[b"<", tag, b" rdf:resource=\""])?;
    append_escaped_attribute(out, iri)?;
    append_all(out, &[b"\"/>\n"])
}
