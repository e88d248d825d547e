// Pieces that go on up to a mark: comments, instructions and CDATA sections (XML 1.0, sections 2.5, 2.6
// and 2.7).
ghost use Rattle.nm_piece.specs.Mark as spec;
ghost use Rattle.nm_piece.specs.Raw.{read_as};
ghost use Rattle.nm_piece.specs.Spells.{is_reserved as is_reserved_name};
ghost use Rattle.nm_piece.specs.Token.{piece_of};
ghost use Rattle.nm_text.specs.Mark.{cdata_end, holds};
ghost use Rattle.std.specs.Option.{option_map};
ghost use Rattle.std.specs.Prelude.{◌≡◌};

use crate::declaration::start;
use crate::naming::{begins_name, split_behind_name};
use crate::plain::begins_text;
use crate::raw::{RawText, Token};
use crate::reading::{Read, first, literal, unfinished_if};
use crate::unread::Unread;
use nm_ident::is_name;
use nm_text::{is_text, is_white};

/// A comment behind its `<!-`.
#[tactic(auto, unfolding(crate::specs::Mark::comment_at))]
pub fn comment(bytes: &[u8]) -> Read<'_, Token<'_>>
    ensures { read_as (λ read. (piece_of read.0, read.1.now)) result ≡ spec.comment_at bytes.now }
{
    let (_, rest) = text_until(b"--", literal(b"-", bytes)?)?;
    let rest = literal(b">", rest)?;
    Ok((Token::Skip, rest))
}

/// A CDATA section behind its `<![`.
#[tactic(auto, unfolding(crate::specs::Mark::cdata_at))]
pub fn cdata(bytes: &[u8]) -> Read<'_, Token<'_>>
    ensures { read_as (λ read. (piece_of read.0, read.1.now)) result ≡ spec.cdata_at bytes.now }
{
    let (spelling, rest) = text_until(b"]]>", literal(b"CDATA[", bytes)?)?;
    let is_cdata = true;
    Ok((Token::Text(RawText { spelling, is_cdata }), rest))
}

/// An XML declaration or an instruction, behind its `<?`.
#[tactic(auto, unfolding(crate::specs::Mark::question_at))]
pub fn question(bytes: &[u8]) -> Read<'_, Token<'_>>
    ensures { read_as (λ read. (piece_of read.0, read.1.now)) result ≡ spec.question_at bytes.now }
{
    let (target, rest) = split_behind_name(bytes);
    if rest.is_empty() {
        Err(unfinished_if(begins_name(target)))
    } else if target == b"xml".as_slice() {
        start(rest)
    } else if is_name(target) && !is_reserved(target) {
        instruction(rest)
    } else {
        Err(Unread::NoPiece)
    }
}

/// Whether the name is `xml` in any letter case.
fn is_reserved(name: &[u8]) -> bool
    ensures { result ≡ is_reserved_name name.now }
{
    name.eq_ignore_ascii_case(b"xml")
}

/// What follows an instruction's name.
#[tactic(auto, unfolding(crate::specs::Mark::instruction_behind))]
fn instruction(bytes: &[u8]) -> Read<'_, Token<'_>>
    ensures { read_as (λ read. (piece_of read.0, read.1.now)) result ≡ spec.instruction_behind bytes.now }
{
    let (byte, behind) = first(bytes)?;
    if byte == b'?' {
        let rest = literal(b">", behind)?;
        Ok((Token::Skip, rest))
    } else if is_white(byte) {
        let (_, rest) = text_until(b"?>", behind)?;
        Ok((Token::Skip, rest))
    } else {
        Err(Unread::NoPiece)
    }
}

/// Characters up to the first such mark, and what stands behind the mark.
fn text_until<'a>(mark: &[u8], bytes: &'a [u8]) -> Read<'a, &'a [u8]>
    ensures { read_as (λ read. (read.0.now, read.1.now)) result ≡ spec.text_until mark.now bytes.now }
{
    match split_at_mark(mark, bytes) {
        Some((inside, rest)) if is_text(inside) => Ok((inside, rest)),
        Some(_) => Err(Unread::NoPiece),
        None => Err(unfinished_if(begins_text(bytes))),
    }
}

/// What stands before the first such mark, and what stands behind it.
fn split_at_mark<'a>(mark: &[u8], bytes: &'a [u8]) -> Option<(&'a [u8], &'a [u8])>
    ensures { option_map (λ parts. (parts.0.now, parts.1.now)) result ≡ spec.parts_at mark.now bytes.now }
{
    for place in 0..bytes.len() {
        let (before, from) = bytes.split_at(place);
        if from.starts_with(mark) {
            let (_, behind) = from.split_at(mark.len());
            return Some((before, behind));
        }
    }
    None
}

/// Whether `]]>` stands in the bytes.
pub fn holds_cdata_end(bytes: &[u8]) -> bool
    ensures { result ≡ holds cdata_end bytes.now }
{
    split_at_mark(b"]]>", bytes).is_some()
}
