// Runs of text between tags (XML 1.0, sections 2.4 and 4.1).
ghost use Rattle.nm_piece.specs.Piece.{last_run as last_run_at};
ghost use Rattle.nm_piece.specs.Raw.{read_as};
ghost use Rattle.nm_piece.specs.Run as spec;
ghost use Rattle.nm_piece.specs.Token.{piece_of};
ghost use Rattle.nm_text.specs.Characters.{is_text as is_xml_text};
ghost use Rattle.nm_text.specs.Mark.{cdata_end, holds};
ghost use Rattle.std.specs.Prelude.{◌≡◌, ◌&&◌, not, Some, true, is_some};

use crate::marked::holds_cdata_end;
use crate::plain::{begins_references, begins_text, is_plain};
use crate::quotes::lacks_tag;
use crate::raw::{RawText, Token};
use crate::reading::{Read, unfinished_if};
use crate::unread::Unread;
use nm_text::{are_references_sound, is_text, split_before};

/// A run that `<` follows.
#[tactic(auto, unfolding(crate::specs::Run::run_at))]
pub fn run(bytes: &[u8]) -> Read<'_, Token<'_>>
    ensures { read_as (λ read. (piece_of read.0, read.1.now)) result ≡ spec.run_at bytes.now }
{
    let (spelling, rest) = split_before(b'<', bytes);
    if rest.is_empty() {
        Err(unfinished_if(begins_run(spelling)))
    } else if is_run(spelling) {
        Ok((text_of_run(spelling), rest))
    } else {
        Err(Unread::NoPiece)
    }
}

/// A run that all of the rest is.
pub fn last_run(bytes: &[u8]) -> Read<'_, Token<'_>>
    ensures { read_as (λ read. (piece_of read.0, read.1.now)) result ≡ last_run_at bytes.now }
{
    let (spelling, rest) = split_before(b'<', bytes);
    if rest.is_empty() && is_run(spelling) {
        Ok((text_of_run(spelling), rest))
    } else {
        Err(Unread::Unfinished)
    }
}

#[tactic(auto, unfolding(crate::specs::Run::run_of))]
fn text_of_run(spelling: &[u8]) -> Token<'_>
    requires { is_some (spec.run_of spelling.now) ≡ true }
    ensures { Some (piece_of result) ≡ spec.text_of_run spelling.now }
{
    let is_cdata = false;
    Token::Text(RawText { spelling, is_cdata })
}

/// Whether the bytes are one or more characters and references without `]]>`.
fn is_run(bytes: &[u8]) -> bool
    ensures { result ≡ is_some (spec.run_of bytes.now) }
{
    !bytes.is_empty() && (is_plain(bytes) || is_unmarked_text(bytes) && are_references_sound(bytes))
}

/// Whether the bytes are characters without `]]>`.
fn is_unmarked_text(bytes: &[u8]) -> bool
    ensures { result ≡ (is_xml_text bytes.now && not (holds cdata_end bytes.now)) }
{
    is_text(bytes) && !holds_cdata_end(bytes)
}

/// Whether a run begins so.
#[tactic(auto, unfolding(crate::specs::Run::begins_run))]
fn begins_run(bytes: &[u8]) -> bool
    ensures { result ≡ spec.begins_run bytes.now }
{
    begins_text(bytes) && !holds_cdata_end(bytes) && begins_references(bytes)
}
