// What is asked of a tag in its place, and what it means there.
ghost use Rattle.nm_ident.specs.Name.{is_name};
ghost use Rattle.nm_ident.specs.QualifiedName.{QualifiedName};
ghost use Rattle.nm_piece.specs.Raw.{name_of as written};
ghost use Rattle.nm_reader.specs.Context.{scope_in};
ghost use Rattle.nm_reader.specs.Limits as limits;
ghost use Rattle.nm_reader.specs.Meaning as meanings;
ghost use Rattle.nm_reader.specs.Namespaces.{declared_by, same_name};
ghost use Rattle.nm_reader.specs.Place.{place_behind as place_behind_of, root_name};
ghost use Rattle.nm_reader.specs.Rules as rules;
ghost use Rattle.nm_reader.specs.Shape as spec;
ghost use Rattle.nm_reader.specs.Shape.{IsSum};
ghost use Rattle.nm_reader.specs.Taken.{IsJudged, IsTagRefusal};
ghost use Rattle.std.specs.Prelude.{◌≡◌, ◌&&◌, MatchResult, true};

use crate::attributes::{are_allowed, given_by};
use crate::counts::Counts;
use crate::fact::{Fact, Kind};
use crate::fault::Code;
use crate::meaning::{Meaning, meaning_of};
use crate::names::Names;
use crate::namespaces::{are_spelt_once, element_namespace, has_declared_prefixes};
use crate::opened::{Declarations, Opened};
use crate::place::{Place, Role};
use crate::refusal::Refusal;
use crate::roles::role_of;
use crate::tag::TagAttribute;
use nm_ident::{RDF_NAMESPACE, is_namespace};
use nm_model::{MOST_CHANGES, MOST_DEPENDENCIES, MOST_PROFILES, MOST_STATEMENTS, MOST_SUPERSEDED};
use nm_piece::RawName;
use nm_statement::{LONGEST_IRI, Object};
use std::alloc::Global;

/// A tag to which no rule applies: what its element is, and what it means.
#[derive(Drop)]
pub struct Judged {
    pub role: Role,
    pub meaning: Meaning,
    /// How much has been stated with this tag.
    pub counted: Counts,
}

/// Whether the element is an `rdf:RDF`.
fn is_root_name(ns: &[u8], local: &[u8]) -> bool
    ensures { result ≡ same_name root_name (record { ns = ns.now; local = local.now }) }
{
    RDF_NAMESPACE == ns && b"RDF".as_slice() == local
}

/// An empty `rdf:RDF` is one in every place but inside a property.
fn role_at(role: Role, empty_root: bool) -> Role
    ensures { result ≡ rules.role_at role empty_root }
{
    match role {
        Role::Nested => Role::Nested,
        _ => { if empty_root { Role::EmptyRoot } else { role } }
    }
}

/// Whether the header is wanting: another element stands in its place, or an empty `rdf:RDF` with
/// attributes that it may have.
fn lacks_header(role: Role, allowed: bool) -> bool
    ensures { result ≡ rules.lacks_header role allowed }
{
    match role {
        Role::NoHeader => true,
        Role::EmptyRoot => allowed,
        _ => false,
    }
}

/// The code of a tag by its name, its place and the names of its attributes.
fn shape_code(role: Role, once: bool, declared: bool, kept: bool, allowed: bool) -> Option<Code>
    ensures { result ≡ spec.shape_code role once declared kept allowed }
{
    if matches!(role, Role::Nested) {
        Some(Code::Nesting)
    } else if !once {
        Some(Code::Attribute)
    } else if !declared {
        Some(Code::Prefix)
    } else if !kept {
        Some(Code::Namespace)
    } else if lacks_header(role, allowed) {
        Some(Code::Header)
    } else if matches!(role, Role::Stray) {
        Some(Code::Stray)
    } else if !allowed {
        Some(Code::Attribute)
    } else {
        None
    }
}

/// The code of a tag by the values of its attributes.
fn value_code(role: Role, means: bool) -> Option<Code>
    ensures { result ≡ spec.value_code role means }
{
    if means {
        return None;
    }
    match role {
        Role::ModelHeader { .. } | Role::HeaderText { .. } | Role::HeaderLink { .. } => Some(
            Code::Header,
        ),
        Role::ObjectElement { .. } | Role::PropertyElement => Some(Code::Identifier),
        _ => None,
    }
}

/// The counts behind a tag, where they are within the limits.
fn counted_behind(counted: Counts, tag: Counts) -> Option<Counts>
    ensures { IsSum result counted tag }
{
    let sum = Counts {
        statements: counted.statements.saturating_add(tag.statements),
        changes: counted.changes.saturating_add(tag.changes),
        profiles: counted.profiles.saturating_add(tag.profiles),
        dependencies: counted.dependencies.saturating_add(tag.dependencies),
        superseded: counted.superseded.saturating_add(tag.superseded),
    };
    if sum.statements <= MOST_STATEMENTS
        && sum.changes <= MOST_CHANGES
        && sum.profiles <= MOST_PROFILES
        && sum.dependencies <= MOST_DEPENDENCIES
        && sum.superseded <= MOST_SUPERSEDED
    {
        Some(sum)
    } else {
        None
    }
}

/// Whether no IRI that is told is too long.
fn has_short_iris(tells: &Option<Fact>) -> bool
    ensures { result ≡ meanings.has_short_iris (meanings.listed tells.now) }
{
    match tells {
        Some(Fact::States { statement, .. }) => match &statement.object {
            Object::Iri(iri) => iri.as_slice().len() <= LONGEST_IRI,
            _ => true,
        },
        _ => true,
    }
}

/// The place behind an element.
pub fn place_behind(role: Role, place: Place) -> Place
    ensures { result ≡ place_behind_of role place }
{
    match role {
        Role::RootElement => Place::AfterRoot,
        Role::ModelHeader { kind: Kind::Full } => Place::InBody,
        Role::ModelHeader {
            kind: Kind::Difference,
        } => Place::InRest,
        _ => place,
    }
}

#[tactic(auto, using(crate::proofs::Judged::statable, crate::proofs::Judged::means, crate::proofs::Judged::kept_if_shaped), unfolding(crate::specs::Taken::tag_code, crate::specs::Tag::counted_by_tag))]
/// Judges a tag by the rules on tags: the open elements around it stand innermost first, and `own`
/// is what the tag declares itself.
pub fn judge<'a>(
    alloc: Global,
    names: &mut Names,
    place: &Place,
    elements: &[Opened<'a>],
    own: &Declarations<'a>,
    name: &RawName<'a>,
    attributes: &[TagAttribute<'a>],
    empty: bool,
    counted: Counts,
) -> Result<Judged, Refusal>
    requires own { own.now ≡ declared_by attributes.now }
    requires named { is_name (written name.now).local ≡ true }
    ensures { MatchResult result
        (λ judged. IsJudged (record { place = place.now; outer = scope_in elements.now; name = written name.now; attributes = attributes.now }) empty counted judged)
        (λ refusal. IsTagRefusal refusal (record { place = place.now; outer = scope_in elements.now; name = written name.now; attributes = attributes.now }) empty counted) }
{
    let ns = element_namespace(own, elements, name);
    let local = name.local;
    let role = role_of(place, ns, local);
    let judged = role_at(role, empty && is_root_name(ns, local));
    let once = are_spelt_once(alloc, attributes)?;
    let declared = has_declared_prefixes(own, elements, name, attributes);
    let kept = is_namespace(ns);
    let given = given_by(alloc, own, elements, attributes)?;
    let allowed = are_allowed(judged, &given);
    if let Some(code) = shape_code(judged, once, declared, kept, allowed) {
        return Err(Refusal::Rule(code));
    }
    let meant = meaning_of(alloc, names, place, role, ns, local, &given)?;
    if let Some(code) = value_code(judged, meant.is_some()) {
        return Err(Refusal::Rule(code));
    }
    let Some(meaning) = meant else { unreachable!() };
    let Some(counted) = counted_behind(counted, meaning.counts) else {
        return Err(Refusal::Rule(Code::Limit));
    };
    if !has_short_iris(&meaning.tells) {
        return Err(Refusal::Rule(Code::Limit));
    }
    Ok(Judged {
        role,
        meaning,
        counted,
    })
}
