// Names of the documents' subset, and the names of properties and classes.
ghost use Rattle.nm_ident.specs.Name as spec;
ghost use Rattle.nm_ident.specs.NameError.{wants_memory};
ghost use Rattle.nm_ident.specs.Order.{is_same_name, name_cmp, names_alike, names_ordered, names_partly_ordered, names_tied};
ghost use Rattle.nm_terms.specs.Bytes.{is_visible as is_visible_byte};
ghost use Rattle.nm_terms.specs.Due.{IsDue};
ghost use Rattle.std.specs.Cmp.{partial_equiv_from_equiv};
ghost use Rattle.std.specs.List.{list_all};
ghost use Rattle.std.specs.Prelude.{◌≡◌, IfOk, Some, refl};

use crate::error::{NameError, NoMemory};
use crate::text::Text;
use std::alloc::Global;
use std::cmp::Ordering;
use std::marker::Model;
use std::sync::Arc;

/// The longest name, in bytes.
pub const LONGEST_NAME: usize = 128;

/// The longest namespace, in bytes.
pub const LONGEST_NAMESPACE: usize = 256;

/// The namespace of RDF (RDF/XML, section 5.1).
pub const RDF_NAMESPACE: &[u8] = b"http://www.w3.org/1999/02/22-rdf-syntax-ns#";

/// The namespace of model headers (IEC 61970-552).
pub const MODEL_NAMESPACE: &[u8] = b"http://iec.ch/TC57/61970-552/ModelDescription/1#";

/// The namespace of difference models (IEC 61970-552).
pub const DIFFERENCE_NAMESPACE: &[u8] = b"http://iec.ch/TC57/61970-552/DifferenceModel/1#";

/// Whether the bytes are a name: an ASCII letter or `_`, then ASCII letters, digits, `_`, `-` and
/// `.`, 1 to 128 bytes in all. These are the names of Namespaces in XML that are ASCII and short.
pub fn is_name(bytes: &[u8]) -> bool
    ensures { result ≡ spec.is_name bytes.now }
{
    match bytes {
        [] => false,
        [first, others @ ..] => {
            begins_name(*first) && all_in_name(others) && bytes.len() <= LONGEST_NAME
        }
    }
}

fn begins_name(byte: u8) -> bool
    ensures { result ≡ spec.begins_name byte }
{
    byte.is_ascii_alphabetic() || byte == b'_'
}

fn continues_name(byte: u8) -> bool
    ensures { result ≡ spec.continues_name byte }
{
    begins_name(byte) || matches!(byte, b'0'..=b'9' | b'-' | b'.')
}

// No early end: so the loop looks at many bytes at once.
fn all_in_name(bytes: &[u8]) -> bool
    ensures { result ≡ list_all spec.continues_name bytes.now }
{
    let mut all = true;
    for byte in bytes {
        all &= continues_name(*byte);
    }
    all
}

/// Whether the bytes are a namespace that names may have: 2 to 256 visible ASCII bytes that do not
/// begin with `#` and end in `#` or `/`.
pub fn is_namespace(ns: &[u8]) -> bool
    ensures { result ≡ spec.is_namespace ns.now }
{
    ns.len() >= 2
        && ns.len() <= LONGEST_NAMESPACE
        && all_visible(ns)
        && ns[0] != b'#'
        && matches!(ns[ns.len() - 1], b'#' | b'/')
}

fn is_visible(byte: u8) -> bool
    ensures { result ≡ is_visible_byte byte }
{
    byte.is_ascii_graphic()
}

// No early end: so the loop looks at many bytes at once.
fn all_visible(bytes: &[u8]) -> bool
    ensures { result ≡ list_all is_visible_byte bytes.now }
{
    let mut all = true;
    for byte in bytes {
        all &= is_visible(*byte);
    }
    all
}

/// Whether a property or a class of a model may have this namespace and local name, so that
/// [`Name::new`] takes them.
pub fn is_predicate(ns: &[u8], local: &[u8]) -> bool
    ensures { result ≡ spec.is_predicate (record { ns = ns.now; local = local.now }) }
{
    is_namespace(ns)
        && is_name(local)
        && ns != MODEL_NAMESPACE
        && ns != DIFFERENCE_NAMESPACE
        && (ns != RDF_NAMESPACE || local == b"type".as_slice())
}

/// The two texts of a name.
#[derive(Debug, Drop, PartialEq, Eq, PartialOrd, Ord)]
struct Parts {
    ns: Text,
    local: Text,
}

/// The name of a property or class: a namespace and a local name. Names stand in the order of their
/// namespaces, and then of their local names. A copy shares the texts.
#[derive(Debug, Drop)]
pub struct Name {
    parts: Arc<Parts, Global>,
}

impl Model for Name {
    ghost use Rattle.std.specs.Arc.{arc_value};
    ghost use Rattle.nm_ident.specs.QualifiedName.{QualifiedName};

    ghost Value = { QualifiedName };

    ghost view = { λ name. record { ns = (arc_value name.parts).ns; local = (arc_value name.parts).local } };
}

impl Name {
    /// The name with this namespace and local name.
    ///
    /// `Bad` where `ns` is not 2 to 256 bytes from 0x21 to 0x7E that do not begin with `#` and end
    /// in `#` or `/`, or `local` is no name, or `ns` is the namespace of model headers or of
    /// difference models, or `ns` is RDF's and `local` is not `type`.
    pub fn new(alloc: Global, ns: &[u8], local: &[u8]) -> Result<Name, NameError>
        ensures { IsDue wants_memory result (spec.name_of (record { ns = ns.now; local = local.now })) }
    {
        if !is_predicate(ns, local) {
            return Err(NameError::Bad);
        }
        let parts = Parts {
            ns: Text::of_slice(alloc, ns)?,
            local: Text::of_slice(alloc, local)?,
        };
        Ok(Name {
            parts: Arc::new(alloc, parts).map_err(NoMemory::from)?,
        })
    }

    /// The same name, which shares the texts. An `Err` also where they are shared too often.
    pub fn copy(&self, _alloc: Global) -> Result<Name, NoMemory>
        ensures { IfOk result (λ name. name ≡ self.now) }
    {
        Ok(Name {
            parts: Arc::try_clone(&self.parts)?,
        })
    }

    /// The namespace.
    pub fn ns(&self) -> &Text
        ensures { result.now ≡ self.now.ns }
    {
        &self.parts.ns
    }

    /// The local name.
    pub fn local(&self) -> &Text
        ensures { result.now ≡ self.now.local }
    {
        &self.parts.local
    }
}

impl PartialEq for Name {
    ghost eq = { is_same_name };

    ghost laws = { partial_equiv_from_equiv names_alike };

    fn eq(&self, other: &Name) -> bool {
        *self.parts == *other.parts
    }
}

impl Eq for Name {
    ghost laws = { names_alike };
}

impl PartialOrd for Name {
    ghost partial_cmp = { λ x y. Some (name_cmp x y) };

    ghost laws = { names_partly_ordered };

    fn partial_cmp(&self, other: &Name) -> Option<Ordering> {
        Some(self.cmp(other))
    }
}

impl Ord for Name {
    ghost cmp = { name_cmp };

    ghost total = { names_ordered };

    ghost matches_partial_cmp = { λ x y. refl };

    ghost matches_eq = { names_tied };

    fn cmp(&self, other: &Name) -> Ordering {
        self.parts.cmp(&other.parts)
    }
}
