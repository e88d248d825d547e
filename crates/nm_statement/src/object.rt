// What a statement gives its subject.
ghost use Rattle.nm_ident.specs.Ident.{is_iri};
ghost use Rattle.nm_statement.specs.Sound as spec;
ghost use Rattle.nm_statement.specs.Sound.{is_sound_object};
ghost use Rattle.nm_statement.specs.Text.{object_of};
ghost use Rattle.nm_statement.specs.TextError.{wants_memory};
ghost use Rattle.nm_terms.specs.Due.{IsDue};
ghost use Rattle.std.specs.Prelude.{◌≡◌, IfOk};

use crate::error::TextError;
use crate::literal::Literal;
use nm_ident::{Ident, NoMemory, Target, Text};
use nm_text::is_text;
use std::alloc::Global;

/// The longest IRI, in bytes.
pub const LONGEST_IRI: usize = 2_048;

/// The object of a statement. Literals stand before resources, and resources before IRIs.
#[derive(Debug, Drop, PartialEq, Eq, PartialOrd, Ord)]
pub enum Object {
    /// A value.
    Literal(Literal),
    /// A resource of a model.
    Resource(Ident),
    /// An IRI.
    Iri(Text),
}

impl Object {
    /// The object that `rdf:resource` points to.
    ///
    /// `Bad` for an IRI that is not UTF-8 of XML characters (XML 1.0, section 2.2), and `Long` for
    /// one that is such and has more than 2,048 bytes.
    pub fn of_target(_alloc: Global, target: Target) -> Result<Object, TextError>
        ensures { IsDue wants_memory result (object_of target) }
    {
        match target {
            Target::Ident(ident) => Ok(Object::Resource(ident)),
            Target::Iri(iri) => {
                if !is_text(iri.as_slice()) {
                    return Err(TextError::Bad);
                }
                if iri.as_slice().len() > LONGEST_IRI {
                    return Err(TextError::Long);
                }
                Ok(Object::Iri(iri))
            }
        }
    }

    /// Whether a document can state the object: a resource that it can name, or an IRI that is not
    /// empty, is no identifier, and is UTF-8 of XML characters in at most 2,048 bytes. Each literal
    /// is such.
    pub fn is_sound(&self) -> bool
        ensures { result ≡ is_sound_object self.now }
    {
        match self {
            Object::Literal(literal) => {
                let _text = literal.as_slice();
                true
            }
            Object::Resource(ident) => ident.is_sound(),
            Object::Iri(iri) => is_sound_iri(iri.as_slice()),
        }
    }

    /// The same object in memory of its own.
    pub fn copy(&self, alloc: Global) -> Result<Object, NoMemory>
        ensures { IfOk result (λ object. object ≡ self.now) }
    {
        match self {
            Object::Literal(literal) => Ok(Object::Literal(literal.copy(alloc)?)),
            Object::Resource(ident) => Ok(Object::Resource(ident.copy(alloc)?)),
            Object::Iri(iri) => Ok(Object::Iri(iri.copy(alloc)?)),
        }
    }
}

/// Whether the text is an IRI that a document can state.
fn is_sound_iri(iri: &[u8]) -> bool
    ensures { result ≡ spec.is_sound_iri iri.now }
{
    begins_iri(iri) && !Ident::is_about(iri) && is_text(iri) && iri.len() <= LONGEST_IRI
}

fn begins_iri(iri: &[u8]) -> bool
    ensures { result ≡ is_iri iri.now }
{
    match iri {
        [] => false,
        [first, ..] => *first != b'#',
    }
}
