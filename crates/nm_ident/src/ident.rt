// The identity of a resource, and its spellings.
ghost use Rattle.nm_ident.specs.Ident.{id_of, ident_of_about, ident_of_id, is_sound_ident, target_of, uuid_behind_underscore as uuid_behind_underscore_of};
ghost use Rattle.nm_ident.specs.IdentError.{wants_memory};
ghost use Rattle.nm_terms.specs.Due.{IsDue};
ghost use Rattle.std.specs.Option.{ok_or};
ghost use Rattle.std.specs.Prelude.{◌≡◌, ◌++◌, IfOk, OnOk, is_some};

use crate::error::{IdentError, NoMemory};
use crate::name::is_name;
use crate::text::Text;
use crate::uuid_text::{id_text, model_id};
use std::alloc::Global;

/// What stands before a UUID in an `rdf:about` (RFC 9562, section 4).
const URN_PREFIX: &[u8] = b"urn:uuid:";

/// What names a resource. UUIDs stand before local identifiers, UUIDs in the order of their
/// numbers and local identifiers in the order of their bytes.
#[derive(Debug, Drop, PartialEq, Eq, PartialOrd, Ord)]
pub enum Ident {
    /// The number of a UUID.
    Uuid(u128),
    /// A name that is not `_` followed by a UUID.
    Local(Text),
}

/// What `rdf:resource` points to.
#[derive(Debug, Drop)]
pub enum Target {
    /// A resource of a model.
    Ident(Ident),
    /// An IRI, as it is written.
    Iri(Text),
}

impl Ident {
    /// Reads the text of an `rdf:ID`: `_` and a UUID in either letter case, or any other name.
    /// `Bad` for any other text.
    pub fn of_id(alloc: Global, text: &[u8]) -> Result<Ident, IdentError>
        ensures { IsDue wants_memory result (ok_or (ident_of_id text.now) IdentError.Bad) }
    {
        named_by_id(alloc, text)?.ok_or(IdentError::Bad)
    }

    /// Reads the text of an `rdf:about`: `#` and the text of an `rdf:ID`, or `urn:uuid:` and a UUID
    /// (RFC 9562, section 4). `Bad` for any other text.
    ///
    /// ```text
    /// #_f81d4fae-7dec-11d0-a765-00a0c91e6bf6          Uuid(0xf81d4fae7dec11d0a76500a0c91e6bf6)
    /// urn:uuid:F81D4FAE-7DEC-11D0-A765-00A0C91E6BF6   the same
    /// #Line-1                                         Local of `Line-1`
    /// Line-1                                          Bad
    /// ```
    pub fn of_about(alloc: Global, text: &[u8]) -> Result<Ident, IdentError>
        ensures { IsDue wants_memory result (ok_or (ident_of_about text.now) IdentError.Bad) }
    {
        named_by_about(alloc, text)?.ok_or(IdentError::Bad)
    }

    /// Whether [`Ident::of_about`] reads the text as an identifier.
    pub fn is_about(text: &[u8]) -> bool
        ensures { result ≡ is_some (ident_of_about text.now) }
    {
        if let Some(uuid) = text.strip_prefix(URN_PREFIX) {
            return model_id(uuid).is_some();
        }
        match text {
            [b'#', id @ ..] => is_id(id),
            _ => false,
        }
    }

    /// Reads the text of an `rdf:resource`: an identifier where [`Ident::of_about`] reads one, and
    /// else an IRI, as it is written. `Bad` for an empty text, and for one that begins with `#` and
    /// is no identifier.
    pub fn of_resource(alloc: Global, text: &[u8]) -> Result<Target, IdentError>
        ensures { IsDue wants_memory result (ok_or (target_of text.now) IdentError.Bad) }
    {
        if let Some(ident) = named_by_about(alloc, text)? {
            return Ok(Target::Ident(ident));
        }
        match text {
            [] | [b'#', ..] => Err(IdentError::Bad),
            _ => Ok(Target::Iri(Text::of_slice(alloc, text)?)),
        }
    }

    /// Whether a document can name the identifier: a UUID, or a name that is not `_` and a UUID.
    pub fn is_sound(&self) -> bool
        ensures { result ≡ is_sound_ident self.now }
    {
        match self {
            Ident::Uuid(id) => {
                // Every number of the type is that of a UUID.
                let _id = *id;
                true
            }
            Ident::Local(text) => {
                let text = text.as_slice();
                is_name(text) && uuid_behind_underscore(text).is_none()
            }
        }
    }

    /// Appends the text of the `rdf:ID` that names the resource: `_` and the UUID in lower case, or
    /// the local identifier.
    pub fn append_id(&self, out: &mut Vec<u8>) -> Result<(), NoMemory>
        ensures { OnOk result (out.new.items ≡ out.old.items ++ id_of self.now) }
    {
        match self {
            Ident::Uuid(id) => {
                out.push(b'_')?;
                out.extend_from_slice(&id_text(*id))?;
            }
            Ident::Local(text) => out.extend_from_slice(text.as_slice())?,
        }
        Ok(())
    }

    /// The same identifier in memory of its own.
    pub fn copy(&self, alloc: Global) -> Result<Ident, NoMemory>
        ensures { IfOk result (λ ident. ident ≡ self.now) }
    {
        match self {
            Ident::Uuid(id) => Ok(Ident::Uuid(*id)),
            Ident::Local(text) => Ok(Ident::Local(text.copy(alloc)?)),
        }
    }
}

/// What the text of an `rdf:ID` names.
fn named_by_id(alloc: Global, text: &[u8]) -> Result<Option<Ident>, NoMemory>
    ensures { IfOk result (λ ident. ident ≡ ident_of_id text.now) }
{
    if let Some(id) = uuid_behind_underscore(text) {
        return Ok(Some(Ident::Uuid(id)));
    }
    if !is_name(text) {
        return Ok(None);
    }
    Ok(Some(Ident::Local(Text::of_slice(alloc, text)?)))
}

/// What the text of an `rdf:about` names.
fn named_by_about(alloc: Global, text: &[u8]) -> Result<Option<Ident>, NoMemory>
    ensures { IfOk result (λ ident. ident ≡ ident_of_about text.now) }
{
    if let Some(uuid) = text.strip_prefix(URN_PREFIX) {
        return Ok(model_id(uuid).map(Ident::Uuid));
    }
    match text {
        [b'#', id @ ..] => named_by_id(alloc, id),
        _ => Ok(None),
    }
}

fn uuid_behind_underscore(text: &[u8]) -> Option<u128>
    ensures { result ≡ uuid_behind_underscore_of text.now }
{
    match text {
        [b'_', uuid @ ..] => model_id(uuid),
        _ => None,
    }
}

fn is_id(text: &[u8]) -> bool
    ensures { result ≡ is_some (ident_of_id text.now) }
{
    uuid_behind_underscore(text).is_some() || is_name(text)
}
