// What an element is in its place, by its name.
ghost use Rattle.nm_ident.specs.QualifiedName.{QualifiedName};
ghost use Rattle.nm_reader.specs.Place as spec;
ghost use Rattle.std.specs.Prelude.{◌≡◌, codes};

use crate::fact::{Kind, LinkProperty, Part, TextProperty};
use crate::place::{Place, Role};
use nm_ident::{DIFFERENCE_NAMESPACE, MODEL_NAMESPACE, RDF_NAMESPACE};

/// The header of a model.
fn header(ns: &[u8], local: &[u8]) -> Role
    ensures { result ≡ spec.role_in spec.headers (record { ns = ns.now; local = local.now }) Role.NoHeader }
{
    if MODEL_NAMESPACE == ns && b"FullModel".as_slice() == local {
        Role::ModelHeader { kind: Kind::Full }
    } else if DIFFERENCE_NAMESPACE == ns && b"DifferenceModel".as_slice() == local {
        Role::ModelHeader {
            kind: Kind::Difference,
        }
    } else {
        Role::NoHeader
    }
}

/// A property in a header: one of those that are kept, or any other.
fn property(ns: &[u8], local: &[u8]) -> Role
    ensures { result ≡ spec.role_in spec.properties (record { ns = ns.now; local = local.now }) Role.OtherProperty }
{
    if MODEL_NAMESPACE == ns && b"Model.created".as_slice() == local {
        Role::HeaderText {
            property: TextProperty::Created,
        }
    } else if MODEL_NAMESPACE == ns && b"Model.scenarioTime".as_slice() == local {
        Role::HeaderText {
            property: TextProperty::ScenarioTime,
        }
    } else if MODEL_NAMESPACE == ns && b"Model.version".as_slice() == local {
        Role::HeaderText {
            property: TextProperty::Version,
        }
    } else if MODEL_NAMESPACE == ns && b"Model.description".as_slice() == local {
        Role::HeaderText {
            property: TextProperty::Description,
        }
    } else if MODEL_NAMESPACE == ns && b"Model.modelingAuthoritySet".as_slice() == local {
        Role::HeaderText {
            property: TextProperty::Authority,
        }
    } else if MODEL_NAMESPACE == ns && b"Model.profile".as_slice() == local {
        Role::HeaderText {
            property: TextProperty::Profile,
        }
    } else if MODEL_NAMESPACE == ns && b"Model.DependentOn".as_slice() == local {
        Role::HeaderLink {
            property: LinkProperty::DependentOn,
        }
    } else if MODEL_NAMESPACE == ns && b"Model.Supersedes".as_slice() == local {
        Role::HeaderLink {
            property: LinkProperty::Supersedes,
        }
    } else {
        Role::OtherProperty
    }
}

/// The section of a difference model.
fn section(kind: Kind, ns: &[u8], local: &[u8]) -> Role
    ensures { result ≡ spec.role_in (spec.sections kind) (record { ns = ns.now; local = local.now }) Role.Stray }
{
    match kind {
        Kind::Full => Role::Stray,
        Kind::Difference => {
            if DIFFERENCE_NAMESPACE == ns && b"preconditions".as_slice() == local {
                Role::SectionElement {
                    part: Part::Preconditions,
                }
            } else if DIFFERENCE_NAMESPACE == ns && b"forwardDifferences".as_slice() == local {
                Role::SectionElement {
                    part: Part::Forward,
                }
            } else if DIFFERENCE_NAMESPACE == ns && b"reverseDifferences".as_slice() == local {
                Role::SectionElement {
                    part: Part::Reverse,
                }
            } else {
                Role::Stray
            }
        }
    }
}

/// What stands in a header.
fn in_header(kind: Kind, ns: &[u8], local: &[u8]) -> Role
    ensures { result ≡ spec.header_role kind (record { ns = ns.now; local = local.now }) }
{
    if ns == RDF_NAMESPACE {
        Role::Stray
    } else if ns == DIFFERENCE_NAMESPACE {
        section(kind, ns, local)
    } else {
        property(ns, local)
    }
}

/// Whether the name stands neither in an object nor for one: a name of headers, of difference models,
/// or of RDF other than the one that is allowed.
fn is_foreign(allowed: &[u8], ns: &[u8], local: &[u8]) -> bool
    ensures { result ≡ spec.is_foreign allowed.now (record { ns = ns.now; local = local.now }) }
{
    ns == MODEL_NAMESPACE || ns == DIFFERENCE_NAMESPACE || (ns == RDF_NAMESPACE && local != allowed)
}

/// What an element of this name is in its place.
pub fn role_of(place: &Place, ns: &[u8], local: &[u8]) -> Role
    ensures { result ≡ spec.role_of place.now (record { ns = ns.now; local = local.now }) }
{
    match place {
        Place::BeforeRoot => {
            if RDF_NAMESPACE == ns && b"RDF".as_slice() == local {
                Role::RootElement
            } else {
                Role::Stray
            }
        }
        Place::InRoot => header(ns, local),
        Place::InBody => {
            if is_foreign(b"Description", ns, local) {
                Role::Stray
            } else {
                Role::ObjectElement { part: Part::Whole }
            }
        }
        Place::InSection { part } => {
            if is_foreign(b"Description", ns, local) {
                Role::Stray
            } else {
                Role::ObjectElement { part: *part }
            }
        }
        Place::InObject { .. } => {
            if is_foreign(b"type", ns, local) {
                Role::Stray
            } else {
                Role::PropertyElement
            }
        }
        Place::InHeader { kind } => in_header(*kind, ns, local),
        Place::InRest | Place::AfterRoot => Role::Stray,
        Place::InLiteral { .. } | Place::InLink | Place::InSkipped => Role::Nested,
    }
}
