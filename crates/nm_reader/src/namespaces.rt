// What a tag declares, and what names mean (Namespaces in XML, sections 3 to 6).
ghost use Rattle.nm_piece.specs.Raw.{name_of as written};
ghost use Rattle.nm_reader.specs.Context.{scope_in};
ghost use Rattle.nm_reader.specs.Lent.{prefix_of};
ghost use Rattle.nm_reader.specs.Namespaces as spec;
ghost use Rattle.nm_reader.specs.Seen.{named, spelt};
ghost use Rattle.std.specs.List.{list_any, list_all};
ghost use Rattle.std.specs.Option.{option_map};
ghost use Rattle.std.specs.Prelude.{◌≡◌, ◌++◌, IfOk, Some, codes, is_some, map};

use crate::distinct::are_distinct;
use crate::opened::{Declaration, Declarations, Opened};
use crate::tag::TagAttribute;
use nm_ident::{NoMemory, Text};
use nm_piece::RawName;
use std::alloc::Global;

/// From how many on the attributes of a tag are put in order, so that those that are spelt alike stand
/// side by side.
const MANY: usize = 16;

/// A name as it is spelt: its prefix, and what stands behind that.
type Spelling<'a> = (Option<&'a [u8]>, &'a [u8]);

/// The namespace of the prefix `xml` (Namespaces in XML, section 3).
pub const XML_NAMESPACE: &[u8] = b"http://www.w3.org/XML/1998/namespace";

/// Whether the prefixes are spelt alike, or both are wanting.
fn same_prefix(x: Option<&[u8]>, y: Option<&[u8]>) -> bool
    ensures { result ≡ spec.same_prefix (prefix_of x.entry) (prefix_of y.entry) }
{
    match x {
        Some(x) => match y {
            Some(y) => x == y,
            None => false,
        },
        None => y.is_none(),
    }
}

/// Whether the names are spelt alike.
pub fn same_spelling(x: &RawName<'_>, y: &RawName<'_>) -> bool
    ensures { result ≡ spec.same_spelling (written x.now) (written y.now) }
{
    same_prefix(x.prefix, y.prefix) && x.local == y.local
}

/// The namespace that the first of the declarations of a prefix gives it.
pub fn declared<'a>(declarations: &'a [Declaration<'_>], prefix: Option<&[u8]>) -> Option<&'a [u8]>
    ensures { option_map (λ namespace. namespace.now) result ≡ spec.declared declarations.now (prefix_of prefix.entry) }
{
    let mut rest = declarations;
    while let [declaration, others @ ..] = rest {
        if same_prefix(declaration.prefix, prefix) {
            return Some(declaration.namespace.as_slice());
        }
        rest = others;
    }
    None
}

/// Whether the attribute is a declaration.
pub fn is_declaration(attribute: &TagAttribute<'_>) -> bool
    ensures { result ≡ is_some (spec.declaration_of attribute.now) }
{
    match attribute.name.prefix {
        Some(prefix) => prefix == b"xmlns".as_slice(),
        None => attribute.name.local == b"xmlns".as_slice(),
    }
}

/// Whether the prefix may be declared for the namespace.
fn is_allowed_prefix(prefix: &[u8], namespace: &[u8]) -> bool
    ensures { result ≡ spec.is_allowed_prefix (Some prefix.now) namespace.now }
{
    prefix != b"xml".as_slice() && prefix != b"xmlns".as_slice() && !namespace.is_empty()
}

#[tactic(auto, using(crate::proofs::Scopes::declared_first, crate::proofs::Scopes::declared_later))]
/// The namespace of a prefix by the declarations of the open elements, of which the innermost
/// stands first.
fn in_force<'a, 'b>(elements: &'b [Opened<'a>], prefix: Option<&'a [u8]>) -> Option<&'b [u8]>
    ensures { option_map (λ namespace. namespace.now) result ≡ spec.declared (scope_in elements.now) (prefix_of prefix.entry) }
{
    let mut rest = elements;
    while let [opened, outer @ ..] = rest {
        match opened.declared.find(prefix) {
            Some(namespace) => return Some(namespace),
            None => rest = outer,
        }
    }
    None
}

/// Whether the prefix is `xml`.
fn is_xml(prefix: Option<&[u8]>) -> bool
    ensures { result ≡ spec.same_prefix (prefix_of prefix.entry) (Some (codes "xml")) }
{
    match prefix {
        Some(prefix) => prefix == b"xml".as_slice(),
        None => false,
    }
}

#[tactic(auto, using(crate::proofs::Scopes::declared_first, crate::proofs::Scopes::declared_later))]
/// The namespace of a prefix by a tag's own declarations and those of the open elements.
pub fn namespace_of<'a, 'b>(
    own: &'b Declarations<'a>,
    elements: &'b [Opened<'a>],
    prefix: Option<&'a [u8]>,
) -> Option<&'b [u8]>
    ensures { option_map (λ namespace. namespace.now) result ≡ spec.namespace_of (own.now ++ scope_in elements.now) (prefix_of prefix.entry) }
{
    if is_xml(prefix) {
        return Some(XML_NAMESPACE);
    }
    match own.find(prefix) {
        Some(namespace) => Some(namespace),
        None => in_force(elements, prefix),
    }
}

/// The namespace of an element: empty where it has none.
pub fn element_namespace<'a, 'b>(
    own: &'b Declarations<'a>,
    elements: &'b [Opened<'a>],
    name: &RawName<'a>,
) -> &'b [u8]
    ensures { result.now ≡ (spec.element_name (own.now ++ scope_in elements.now) (written name.now)).ns }
{
    match namespace_of(own, elements, name.prefix) {
        Some(namespace) => namespace,
        None => &[],
    }
}

/// The namespace of an attribute: empty where it has none.
pub fn attribute_namespace<'a, 'b>(
    own: &'b Declarations<'a>,
    elements: &'b [Opened<'a>],
    prefix: Option<&'a [u8]>,
) -> &'b [u8]
    ensures { result.now ≡ spec.attribute_namespace (own.now ++ scope_in elements.now) (prefix_of prefix.entry) }
{
    if prefix.is_none() {
        return &[];
    }
    match namespace_of(own, elements, prefix) {
        Some(namespace) => namespace,
        None => &[],
    }
}

/// Whether the prefix is declared; a name without one needs no declaration.
fn is_declared<'a>(
    own: &Declarations<'a>,
    elements: &[Opened<'a>],
    prefix: Option<&'a [u8]>,
) -> bool
    ensures { result ≡ spec.is_declared (own.now ++ scope_in elements.now) (prefix_of prefix.entry) }
{
    prefix.is_none() || namespace_of(own, elements, prefix).is_some()
}

/// Whether the attribute is an allowed declaration, or else has a declared prefix or none.
fn has_declared_prefix<'a>(
    own: &Declarations<'a>,
    elements: &[Opened<'a>],
    attribute: &TagAttribute<'a>,
) -> bool
    ensures { result ≡ spec.has_declared_prefix (spec.declaration_of attribute.now) (own.now ++ scope_in elements.now) attribute.now }
{
    match attribute.name.prefix {
        Some(prefix) if prefix == b"xmlns".as_slice() => {
            is_allowed_prefix(attribute.name.local, attribute.value())
        }
        _ => is_declared(own, elements, attribute.name.prefix),
    }
}

/// Whether every prefix of a tag is declared, and each of its declarations is allowed.
pub fn has_declared_prefixes<'a>(
    own: &Declarations<'a>,
    elements: &[Opened<'a>],
    name: &RawName<'a>,
    attributes: &[TagAttribute<'a>],
) -> bool
    ensures { result ≡ spec.has_declared_prefixes (own.now ++ scope_in elements.now) (written name.now) attributes.now }
{
    is_declared(own, elements, name.prefix) && have_declared_prefixes(own, elements, attributes)
}

fn have_declared_prefixes<'a>(
    own: &Declarations<'a>,
    elements: &[Opened<'a>],
    attributes: &[TagAttribute<'a>],
) -> bool
    ensures { result ≡ list_all (λ attribute. spec.has_declared_prefix (spec.declaration_of attribute) (own.now ++ scope_in elements.now) attribute) attributes.now }
{
    let mut rest = attributes;
    while let [attribute, others @ ..] = rest {
        if !has_declared_prefix(own, elements, attribute) {
            return false;
        }
        rest = others;
    }
    true
}

/// Whether one of the others is spelt as the attribute.
fn is_repeated(attribute: &TagAttribute<'_>, others: &[TagAttribute<'_>]) -> bool
    ensures { result ≡ list_any (spec.are_spelt_alike attribute.now) others.now }
{
    others
        .iter()
        .any(|other| same_spelling(&attribute.name, &other.name))
}

/// Whether no attribute of a tag is spelt twice.
pub fn are_spelt_once(alloc: Global, attributes: &[TagAttribute<'_>]) -> Result<bool, NoMemory>
    ensures { IfOk result (λ once. once ≡ spec.are_spelt_once attributes.now) }
{
    if attributes.len() < MANY {
        Ok(are_few_spelt_once(attributes))
    } else {
        are_many_spelt_once(alloc, attributes)
    }
}

/// The same by comparing each two of them.
fn are_few_spelt_once(attributes: &[TagAttribute<'_>]) -> bool
    ensures { result ≡ spec.are_spelt_once attributes.now }
{
    let mut rest = attributes;
    while let [attribute, others @ ..] = rest {
        if is_repeated(attribute, others) {
            return false;
        }
        rest = others;
    }
    true
}

/// The same by sorting their names.
fn are_many_spelt_once(alloc: Global, attributes: &[TagAttribute<'_>]) -> Result<bool, NoMemory>
    ensures { IfOk result (λ once. once ≡ spec.are_spelt_once attributes.now) }
{
    Ok(are_distinct(spellings_of(alloc, attributes)?))
}

/// The names of attributes, as they are spelt.
fn spellings_of<'a>(
    alloc: Global,
    attributes: &[TagAttribute<'a>],
) -> Result<Vec<Spelling<'a>>, NoMemory>
    ensures { IfOk result (λ spellings. map spelt spellings.items ≡ map named attributes.now) }
{
    let mut spellings = Vec::with_capacity(alloc, attributes.len())?;
    let mut rest = attributes;
    while let [attribute, others @ ..] = rest {
        spellings.push(spelling_of(&attribute.name))?;
        rest = others;
    }
    Ok(spellings)
}

fn spelling_of<'a>(name: &RawName<'a>) -> Spelling<'a>
    ensures { spelt result ≡ written name.now }
{
    (name.prefix, name.local)
}

/// What the attributes of a tag declare.
pub fn declared_by<'a>(
    alloc: Global,
    attributes: &[TagAttribute<'a>],
) -> Result<Vec<Declaration<'a>>, NoMemory>
    ensures { IfOk result (λ declarations. declarations.items ≡ spec.declared_by attributes.now) }
{
    let mut declarations = Vec::new(alloc);
    let mut rest = attributes;
    while let [attribute, others @ ..] = rest {
        if let Some(declaration) = declaration_of(alloc, attribute)? {
            declarations.push(declaration)?;
        }
        rest = others;
    }
    Ok(declarations)
}

/// What the attribute declares.
fn declaration_of<'a>(
    alloc: Global,
    attribute: &TagAttribute<'a>,
) -> Result<Option<Declaration<'a>>, NoMemory>
    ensures { IfOk result (λ declaration. declaration ≡ spec.declaration_of attribute.now) }
{
    if !is_declaration(attribute) {
        return Ok(None);
    }
    let prefix = match attribute.name.prefix {
        Some(_) => Some(attribute.name.local),
        None => None,
    };
    Ok(Some(Declaration {
        prefix,
        namespace: Text::of_slice(alloc, attribute.value())?,
    }))
}
