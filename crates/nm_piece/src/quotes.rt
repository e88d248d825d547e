// Values between quotes (XML 1.0, sections 2.3 and 3.1).
ghost use Rattle.nm_piece.specs.Raw.{read_as};
ghost use Rattle.nm_piece.specs.Spells.{is_quote as is_quote_byte};
ghost use Rattle.nm_piece.specs.Value as spec;
ghost use Rattle.nm_text.specs.Characters.{is_text as is_xml_text};
ghost use Rattle.nm_text.specs.Split.{lacks};
ghost use Rattle.std.specs.Prelude.{◌≡◌, ◌&&◌, true, Some, drop, is_some};

use crate::plain::{begins_references, begins_text, is_plain};
use crate::raw::RawValue;
use crate::reading::{Read, first, unfinished_if};
use crate::unread::Unread;
use nm_text::{are_references_sound, is_text, split_before};

/// What stands between two `"` or two `'`.
pub fn quoted(bytes: &[u8]) -> Read<'_, &[u8]>
    ensures { read_as (λ read. (read.0.now, read.1.now)) result ≡ spec.quoted_at Some (λ inside. true) bytes.now }
{
    let (quote, behind) = first(bytes)?;
    if !is_quote(quote) {
        return Err(Unread::NoPiece);
    }
    let (inside, end) = split_before(quote, behind);
    let (_, rest) = first(end)?;
    Ok((inside, rest))
}

fn is_quote(byte: u8) -> bool
    ensures { result ≡ is_quote_byte byte }
{
    matches!(byte, b'"' | b'\'')
}

/// What stands behind the quote of a value that has no end.
pub fn behind_quote(bytes: &[u8]) -> &[u8]
    ensures { result.now ≡ drop 1 bytes.now }
{
    match bytes.split_first() {
        Some((_, inside)) => inside,
        None => bytes,
    }
}

/// The value of an attribute, between its quotes.
pub fn attribute_value(bytes: &[u8]) -> Read<'_, RawValue<'_>>
    ensures { read_as (λ read. (read.0, read.1.now)) result ≡ spec.quoted_at spec.value_of spec.begins_value bytes.now }
{
    match quoted(bytes) {
        Ok((spelling, rest)) if is_value(spelling) => Ok((RawValue { spelling }, rest)),
        Ok(_) => Err(Unread::NoPiece),
        Err(Unread::Unfinished) => Err(unfinished_if(begins_value(behind_quote(bytes)))),
        Err(error) => Err(error),
    }
}

/// Whether the bytes are characters and references without `<`.
fn is_value(bytes: &[u8]) -> bool
    ensures { result ≡ is_some (spec.value_of bytes.now) }
{
    is_plain(bytes) || is_untagged_text(bytes) && are_references_sound(bytes)
}

/// Whether the bytes are characters without `<`.
fn is_untagged_text(bytes: &[u8]) -> bool
    ensures { result ≡ (is_xml_text bytes.now && lacks 60 bytes.now) }
{
    is_text(bytes) && lacks_tag(bytes)
}

/// Whether a value begins so.
#[tactic(auto, unfolding(crate::specs::Value::begins_value))]
fn begins_value(bytes: &[u8]) -> bool
    ensures { result ≡ spec.begins_value bytes.now }
{
    begins_text(bytes) && lacks_tag(bytes) && begins_references(bytes)
}

/// Whether no `<` stands in the bytes.
pub fn lacks_tag(bytes: &[u8]) -> bool
    ensures { result ≡ lacks 60 bytes.now }
{
    let (_, tag) = split_before(b'<', bytes);
    tag.is_empty()
}
