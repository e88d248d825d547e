// Tags of elements and their attributes (XML 1.0, section 3.1; Namespaces in XML, section 6).
ghost use Rattle.nm_piece.specs.Inside.{IsNext, without_attributes};
ghost use Rattle.nm_piece.specs.Raw.{attribute_of, read_as};
ghost use Rattle.nm_piece.specs.Tag as spec;
ghost use Rattle.nm_piece.specs.Token.{piece_of};
ghost use Rattle.std.specs.Prelude.{◌≡◌, [], ◌∷◌, MatchOption, MatchResult};

use crate::naming::{equals, gap, qname};
use crate::quotes::attribute_value;
use crate::raw::{RawAttribute, RawAttributes, Token};
use crate::reading::{Read, first, literal};
use crate::unread::Unread;

/// What comes next inside a start tag.
#[derive(Drop)]
pub enum Inside<'a> {
    /// An attribute.
    Attribute(RawAttribute<'a>),
    /// The end of the tag.
    End {
        /// Whether it is `/>`.
        empty: bool,
    },
}

/// A start tag behind its `<`.
#[tactic(auto, unfolding(crate::specs::Tag::open_at))]
pub fn open(bytes: &[u8]) -> Read<'_, Token<'_>>
    ensures { read_as (λ read. (piece_of read.0, read.1.now)) result ≡ spec.open_at bytes.now }
{
    let (name, inside) = qname(bytes)?;
    let (empty, rest) = end_of_tag(inside)?;
    let attributes = RawAttributes { bytes: inside };
    Ok((
        Token::Open {
            name,
            attributes,
            empty,
        },
        rest,
    ))
}

/// An end tag behind its `</`.
#[tactic(auto, unfolding(crate::specs::Tag::close_at))]
pub fn close(bytes: &[u8]) -> Read<'_, Token<'_>>
    ensures { read_as (λ read. (piece_of read.0, read.1.now)) result ≡ spec.close_at bytes.now }
{
    let (name, rest) = qname(bytes)?;
    let (_, rest) = gap(rest)?;
    let rest = literal(b">", rest)?;
    Ok((Token::Close { name }, rest))
}

/// Whether the tag is that of an empty element, behind all of its attributes.
fn end_of_tag(bytes: &[u8]) -> Read<'_, bool>
    ensures { read_as (λ read. (read.0, read.1.now)) result ≡ without_attributes (spec.inside_at bytes.now) }
{
    let mut rest = bytes;
    loop {
        let (inside, behind) = next_inside(rest)?;
        match inside {
            Inside::Attribute(_) => rest = behind,
            Inside::End { empty } => return Ok((empty, behind)),
        }
    }
}

/// The next attribute, or the end of the tag.
fn next_inside(bytes: &[u8]) -> Read<'_, Inside<'_>>
    ensures { MatchResult result (λ read. IsNext bytes.now read.0 read.1.now) (λ error. spec.inside_at bytes.now ≡ Err error) }
{
    let (white, rest) = gap(bytes)?;
    let (byte, behind) = first(rest)?;
    if byte == b'>' {
        Ok((Inside::End { empty: false }, behind))
    } else if byte == b'/' {
        Ok((Inside::End { empty: true }, literal(b">", behind)?))
    } else if white {
        let (attribute, behind) = attribute(rest)?;
        Ok((Inside::Attribute(attribute), behind))
    } else {
        Err(Unread::NoPiece)
    }
}

/// An attribute without the white space before it.
#[tactic(auto, unfolding(crate::specs::Tag::attribute_at))]
fn attribute(bytes: &[u8]) -> Read<'_, RawAttribute<'_>>
    ensures { read_as (λ read. (attribute_of read.0, read.1.now)) result ≡ spec.attribute_at bytes.now }
{
    let (name, rest) = qname(bytes)?;
    let (value, rest) = attribute_value(equals(rest)?)?;
    Ok((RawAttribute { name, value }, rest))
}

impl<'a> RawAttributes<'a> {
    /// Takes the first attribute that is left. `None` where none is.
    pub fn next_attribute(&mut self) -> Option<RawAttribute<'a>>
        ensures { MatchOption result ((self.old ≡ []) × (self.new ≡ [])) (λ attribute. self.old ≡ attribute_of attribute ∷ self.new) }
    {
        let Ok((inside, behind)) = next_inside(self.bytes) else {
            return None;
        };
        match inside {
            Inside::Attribute(attribute) => {
                self.bytes = behind;
                Some(attribute)
            }
            Inside::End { .. } => None,
        }
    }
}
