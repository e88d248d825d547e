// The attributes of a tag that are no declarations, under the names that are meant.
ghost use Rattle.nm_ident.specs.QualifiedName.{QualifiedName};
ghost use Rattle.nm_reader.specs.Context.{scope_in};
ghost use Rattle.nm_reader.specs.Meaning as spec;
ghost use Rattle.nm_reader.specs.Namespaces.{given_by as given_by_of, same_name};
ghost use Rattle.nm_reader.specs.Seen.{all_seen, seen};
ghost use Rattle.std.specs.List.{list_all, list_any};
ghost use Rattle.std.specs.Option.{option_map};
ghost use Rattle.std.specs.Prelude.{◌≡◌, ◌++◌, ◌∷◌, IfOk, codes, map, nat_le, length};

use crate::namespaces::{XML_NAMESPACE, attribute_namespace, is_declaration};
use crate::opened::{Declarations, Opened};
use crate::place::Role;
use crate::tag::TagAttribute;
use nm_ident::{NoMemory, RDF_NAMESPACE};
use std::alloc::Global;

/// An attribute that is no declaration: its namespace, which is empty where it has none, its local
/// name and its value.
#[derive(Clone, Copy, Drop)]
pub struct GivenAttribute<'a> {
    pub ns: &'a [u8],
    pub local: &'a [u8],
    pub value: &'a [u8],
}

/// Which attributes an element may have.
#[derive(Clone, Copy, Drop)]
pub enum Allowed {
    OfRoot,
    OfIdentity,
    OfSection,
    OfProperty,
}

/// The attributes of a tag that are no declarations.
pub fn given_by<'a, 'b>(
    alloc: Global,
    own: &'b Declarations<'a>,
    elements: &'b [Opened<'a>],
    attributes: &'b [TagAttribute<'a>],
) -> Result<Vec<GivenAttribute<'b>>, NoMemory>
    ensures { IfOk result (λ given. all_seen given.items ≡ given_by_of (own.now ++ scope_in elements.now) attributes.now) }
{
    let mut given = Vec::new(alloc);
    let mut rest = attributes;
    while let [attribute, others @ ..] = rest {
        if !is_declaration(attribute) {
            given.push(GivenAttribute {
                ns: attribute_namespace(own, elements, attribute.name.prefix),
                local: attribute.name.local,
                value: attribute.value(),
            })?;
        }
        rest = others;
    }
    Ok(given)
}

fn is_xml_name(local: &[u8], attribute: &GivenAttribute<'_>) -> bool
    ensures { result ≡ same_name (spec.xml local.now) (seen attribute.now).name }
{
    XML_NAMESPACE == attribute.ns && local == attribute.local
}

fn is_rdf_name(local: &[u8], attribute: &GivenAttribute<'_>) -> bool
    ensures { result ≡ same_name (spec.rdf local.now) (seen attribute.now).name }
{
    RDF_NAMESPACE == attribute.ns && local == attribute.local
}

fn is_one_of(allowed: Allowed, attribute: &GivenAttribute<'_>) -> bool
    ensures { result ≡ spec.is_one_of (spec.names_of allowed) (seen attribute.now) }
{
    match allowed {
        Allowed::OfRoot => is_xml_name(b"base", attribute) || is_xml_name(b"lang", attribute),
        Allowed::OfIdentity => is_rdf_name(b"about", attribute) || is_rdf_name(b"ID", attribute),
        Allowed::OfSection => is_rdf_name(b"parseType", attribute),
        Allowed::OfProperty => {
            is_rdf_name(b"resource", attribute)
                || is_xml_name(b"lang", attribute)
                || is_rdf_name(b"datatype", attribute)
        }
    }
}

fn same_given(x: &GivenAttribute<'_>, y: &GivenAttribute<'_>) -> bool
    ensures { result ≡ spec.same_given (seen x.now) (seen y.now) }
{
    x.ns == y.ns && x.local == y.local
}

/// Whether one of the others has the attribute's name.
fn is_repeated(attribute: &GivenAttribute<'_>, others: &[GivenAttribute<'_>]) -> bool
    ensures { result ≡ list_any (spec.same_given (seen attribute.now)) (all_seen others.now) }
{
    let mut rest = others;
    while let [other, behind @ ..] = rest {
        if same_given(attribute, other) {
            return true;
        }
        rest = behind;
    }
    false
}

/// Whether each attribute is allowed, and none stands twice. Where a scan goes far, few names are
/// left that are no repeats, so there are few scans.
fn has_only(allowed: Allowed, given: &[GivenAttribute<'_>]) -> bool
    ensures { result ≡ spec.has_only (spec.names_of allowed) (all_seen given.now) }
{
    let mut rest = given;
    while let [attribute, others @ ..] = rest {
        if !is_one_of(allowed, attribute) || is_repeated(attribute, others) {
            return false;
        }
        rest = others;
    }
    true
}

/// Whether each value is `Statements`.
fn are_statements(given: &[GivenAttribute<'_>]) -> bool
    ensures { result ≡ list_all spec.is_statements (all_seen given.now) }
{
    let mut rest = given;
    while let [attribute, others @ ..] = rest {
        if attribute.value != b"Statements".as_slice() {
            return false;
        }
        rest = others;
    }
    true
}

/// Whether an element may have these attributes in its role.
pub fn are_allowed(role: Role, given: &[GivenAttribute<'_>]) -> bool
    ensures { result ≡ spec.are_allowed role (all_seen given.now) }
{
    match role {
        Role::RootElement | Role::EmptyRoot => has_only(Allowed::OfRoot, given),
        Role::ModelHeader { .. } | Role::ObjectElement { .. } => {
            has_only(Allowed::OfIdentity, given) && given.len() <= 1
        }
        Role::SectionElement { .. } => has_only(Allowed::OfSection, given) && are_statements(given),
        _ => has_only(Allowed::OfProperty, given),
    }
}

/// The value of the attribute of RDF of this local name.
pub fn rdf_value<'a>(local: &[u8], given: &[GivenAttribute<'a>]) -> Option<&'a [u8]>
    ensures { option_map (λ value. value.now) result ≡ spec.value_of (spec.rdf local.now) (all_seen given.now) }
{
    let mut rest = given;
    while let [attribute, others @ ..] = rest {
        if attribute.ns == RDF_NAMESPACE && attribute.local == local {
            return Some(attribute.value);
        }
        rest = others;
    }
    None
}
