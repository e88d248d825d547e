// What an element means, with its attributes, in its role (RDF/XML, section 7.2; IEC 61970-552).
ghost use Rattle.nm_ident.specs.QualifiedName.{QualifiedName};
ghost use Rattle.nm_ident.specs.Ident.{target_of as target_of_text};
ghost use Rattle.nm_ident.specs.Name.{is_predicate, type_name};
ghost use Rattle.nm_reader.specs.Limits as limits;
ghost use Rattle.nm_reader.specs.Meaning as spec;
ghost use Rattle.nm_reader.specs.Namespaces.{same_name};
ghost use Rattle.nm_reader.specs.Place.{description_name};
ghost use Rattle.nm_reader.specs.Seen.{all_seen};
ghost use Rattle.std.specs.Option.{option_map};
ghost use Rattle.std.specs.Prelude.{◌≡◌, ◌++◌, IfOk, Some, true};

use crate::attributes::{GivenAttribute, rdf_value};
use crate::counts::Counts;
use crate::fact::{Fact, Kind, LinkProperty, Part, TextProperty};
use crate::names::Names;
use crate::place::{Owner, Place, Role};
use nm_ident::{Ident, IdentError, Name, NoMemory, RDF_NAMESPACE, Target, Text};
use nm_statement::{Object, Statement};
use std::alloc::Global;

/// What an element means: the place inside it, what it tells with its tag, and what it counts for.
#[derive(Drop)]
pub struct Meaning {
    pub inside: Place,
    pub tells: Option<Fact>,
    pub counts: Counts,
}

const NOTHING: Counts = Counts {
    statements: 0,
    changes: 0,
    profiles: 0,
    dependencies: 0,
    superseded: 0,
};

/// The resource that `rdf:about` or `rdf:ID` names.
fn identity_of(alloc: Global, given: &[GivenAttribute<'_>]) -> Result<Option<Ident>, NoMemory>
    ensures { IfOk result (λ ident. ident ≡ spec.identity_of (all_seen given.now)) }
{
    let read = match rdf_value(b"about", given) {
        Some(about) => Ident::of_about(alloc, about),
        None => match rdf_value(b"ID", given) {
            Some(id) => Ident::of_id(alloc, id),
            None => return Ok(None),
        },
    };
    match read {
        Ok(ident) => Ok(Some(ident)),
        Err(IdentError::Bad) => Ok(None),
        Err(IdentError::NoMemory) => Err(NoMemory),
    }
}

/// The model that `rdf:about` or `rdf:ID` names.
fn model_id_of(alloc: Global, given: &[GivenAttribute<'_>]) -> Result<Option<u128>, NoMemory>
    ensures { IfOk result (λ id. id ≡ spec.model_id_of (all_seen given.now)) }
{
    match identity_of(alloc, given)? {
        Some(Ident::Uuid(id)) => Ok(Some(id)),
        _ => Ok(None),
    }
}

/// What the text of an `rdf:resource` points to.
fn target_of(alloc: Global, resource: &[u8]) -> Result<Option<Target>, NoMemory>
    ensures { IfOk result (λ target. target ≡ target_of_text resource.now) }
{
    match Ident::of_resource(alloc, resource) {
        Ok(target) => Ok(Some(target)),
        Err(IdentError::Bad) => Ok(None),
        Err(IdentError::NoMemory) => Err(NoMemory),
    }
}

/// The model that `rdf:resource` names.
fn linked_by(alloc: Global, given: &[GivenAttribute<'_>]) -> Result<Option<u128>, NoMemory>
    ensures { IfOk result (λ id. id ≡ spec.linked_by (all_seen given.now)) }
{
    let Some(resource) = rdf_value(b"resource", given) else {
        return Ok(None);
    };
    match target_of(alloc, resource)? {
        Some(Target::Ident(Ident::Uuid(id))) => Ok(Some(id)),
        _ => Ok(None),
    }
}

fn part_counts(part: Part) -> Counts
    ensures { result ≡ spec.part_counts part }
{
    match part {
        Part::Whole => Counts {
            statements: 1,
            ..NOTHING
        },
        Part::Preconditions | Part::Forward | Part::Reverse => Counts {
            changes: 1,
            ..NOTHING
        },
    }
}

fn text_counts(property: TextProperty) -> Counts
    ensures { result ≡ spec.text_counts property }
{
    match property {
        TextProperty::Profile => Counts {
            profiles: 1,
            ..NOTHING
        },
        _ => NOTHING,
    }
}

fn link_counts(property: LinkProperty) -> Counts
    ensures { result ≡ spec.link_counts property }
{
    match property {
        LinkProperty::DependentOn => Counts {
            dependencies: 1,
            ..NOTHING
        },
        LinkProperty::Supersedes => Counts {
            superseded: 1,
            ..NOTHING
        },
    }
}

fn only_inside(inside: Place) -> Meaning
    ensures { result ≡ spec.only_inside inside }
{
    Meaning {
        inside,
        tells: None,
        counts: NOTHING,
    }
}

/// A model's header names its model.
fn header(
    alloc: Global,
    kind: Kind,
    given: &[GivenAttribute<'_>],
) -> Result<Option<Meaning>, NoMemory>
    ensures { IfOk result (λ meaning. meaning ≡ option_map (spec.header_meaning kind) (spec.model_id_of (all_seen given.now))) }
{
    let Some(id) = model_id_of(alloc, given)? else {
        return Ok(None);
    };
    Ok(Some(Meaning {
        inside: Place::InHeader { kind },
        tells: Some(Fact::Heads { kind, id }),
        counts: NOTHING,
    }))
}

/// A header property with a literal has no `rdf:resource`.
fn header_text(
    alloc: Global,
    property: TextProperty,
    given: &[GivenAttribute<'_>],
) -> Option<Meaning>
    ensures { result ≡ spec.header_text_meaning property (spec.value_of spec.resource_name (all_seen given.now)) }
{
    match rdf_value(b"resource", given) {
        Some(_) => None,
        None => Some(Meaning {
            inside: Place::InLiteral {
                owner: Owner::OfModel { property },
                text: Text::of_list(Vec::new(alloc)),
            },
            tells: None,
            counts: text_counts(property),
        }),
    }
}

/// A header property that names another model.
fn header_link(
    alloc: Global,
    property: LinkProperty,
    given: &[GivenAttribute<'_>],
) -> Result<Option<Meaning>, NoMemory>
    ensures { IfOk result (λ meaning. meaning ≡ option_map (spec.header_link_meaning property) (spec.linked_by (all_seen given.now))) }
{
    let Some(id) = linked_by(alloc, given)? else {
        return Ok(None);
    };
    Ok(Some(Meaning {
        inside: Place::InLink,
        tells: Some(Fact::Links { property, id }),
        counts: link_counts(property),
    }))
}

/// Whether the element is an `rdf:Description`.
fn is_description(ns: &[u8], local: &[u8]) -> bool
    ensures { result ≡ same_name (record { ns = ns.now; local = local.now }) description_name }
{
    ns == RDF_NAMESPACE && local == b"Description".as_slice()
}

/// The class that an element's name is.
fn class_of(alloc: Global, ns: &[u8], local: &[u8]) -> Result<Text, NoMemory>
    ensures { IfOk result (λ class. class ≡ ns.now ++ local.now) }
{
    let mut class = Vec::with_capacity(alloc, ns.len().saturating_add(local.len()))?;
    class.extend_from_slice(ns)?;
    class.extend_from_slice(local)?;
    Ok(Text::of_list(class))
}

/// An object's element states its class, unless it is an `rdf:Description`.
fn object(
    alloc: Global,
    names: &mut Names,
    part: Part,
    ns: &[u8],
    local: &[u8],
    subject: Ident,
) -> Result<Meaning, NoMemory>
    ensures { IfOk result (λ meaning. meaning ≡ spec.object_meaning part (record { ns = ns.now; local = local.now }) subject) }
{
    if is_description(ns, local) {
        return Ok(only_inside(Place::InObject { part, subject }));
    }
    let statement = Statement {
        subject: subject.copy(alloc)?,
        predicate: names.predicate(alloc, RDF_NAMESPACE, b"type")?,
        object: Object::Iri(class_of(alloc, ns, local)?),
    };
    Ok(Meaning {
        inside: Place::InObject { part, subject },
        tells: Some(Fact::States { part, statement }),
        counts: part_counts(part),
    })
}

/// A property that points to something.
fn link(
    alloc: Global,
    part: Part,
    subject: &Ident,
    predicate: Name,
    target: Target,
) -> Result<Meaning, NoMemory>
    ensures { IfOk result (λ meaning. meaning ≡ spec.link_meaning part subject.now predicate target) }
{
    let object = match target {
        Target::Ident(ident) => Object::Resource(ident),
        Target::Iri(iri) => Object::Iri(iri),
    };
    let statement = Statement {
        subject: subject.copy(alloc)?,
        predicate,
        object,
    };
    Ok(Meaning {
        inside: Place::InLink,
        tells: Some(Fact::States { part, statement }),
        counts: part_counts(part),
    })
}

/// A property with a literal.
fn literal(alloc: Global, part: Part, subject: &Ident, predicate: Name) -> Result<Meaning, NoMemory>
    ensures { IfOk result (λ meaning. Some meaning ≡ spec.property_meaning (Place.InObject part subject.now) predicate None) }
{
    Ok(Meaning {
        inside: Place::InLiteral {
            owner: Owner::OfSubject {
                part,
                subject: subject.copy(alloc)?,
                predicate,
            },
            text: Text::of_list(Vec::new(alloc)),
        },
        tells: None,
        counts: part_counts(part),
    })
}

/// A property states its `rdf:resource`, or else the literal inside it.
fn property(
    alloc: Global,
    names: &mut Names,
    place: &Place,
    ns: &[u8],
    local: &[u8],
    given: &[GivenAttribute<'_>],
) -> Result<Option<Meaning>, NoMemory>
    requires { is_predicate (record { ns = ns.now; local = local.now }) ≡ true }
    ensures { IfOk result (λ meaning. meaning ≡ spec.property_meaning place.now (record { ns = ns.now; local = local.now }) (spec.value_of spec.resource_name (all_seen given.now))) }
{
    let Place::InObject { part, subject } = place else {
        return Ok(None);
    };
    match rdf_value(b"resource", given) {
        None => Ok(Some(literal(alloc, *part, subject, names.predicate(alloc, ns, local)?)?)),
        Some(resource) => match target_of(alloc, resource)? {
            None => Ok(None),
            Some(target) => Ok(Some(link(
                alloc,
                *part,
                subject,
                names.predicate(alloc, ns, local)?,
                target,
            )?)),
        },
    }
}

/// What an element means in its role; nothing where its attributes make no sense there.
pub fn meaning_of(
    alloc: Global,
    names: &mut Names,
    place: &Place,
    role: Role,
    ns: &[u8],
    local: &[u8],
    given: &[GivenAttribute<'_>],
) -> Result<Option<Meaning>, NoMemory>
    requires { spec.IsStatable role (record { ns = ns.now; local = local.now }) }
    ensures { IfOk result (λ meaning. meaning ≡ spec.meaning_of place.now role (record { ns = ns.now; local = local.now }) (all_seen given.now)) }
{
    match role {
        Role::RootElement => Ok(Some(only_inside(Place::InRoot))),
        Role::ModelHeader { kind } => header(alloc, kind, given),
        Role::HeaderText { property } => Ok(header_text(alloc, property, given)),
        Role::HeaderLink { property } => header_link(alloc, property, given),
        Role::OtherProperty => Ok(Some(only_inside(Place::InSkipped))),
        Role::SectionElement { part } => Ok(Some(only_inside(Place::InSection { part }))),
        Role::ObjectElement { part } => match identity_of(alloc, given)? {
            Some(subject) => Ok(Some(object(alloc, names, part, ns, local, subject)?)),
            None => Ok(None),
        },
        Role::PropertyElement => property(alloc, names, place, ns, local, given),
        Role::EmptyRoot | Role::NoHeader | Role::Stray | Role::Nested => Ok(None),
    }
}
