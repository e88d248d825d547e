// The token at the front of a rest of the input.
ghost use Rattle.nm_piece.specs.Piece as spec;
ghost use Rattle.nm_piece.specs.Raw.{read_as};
ghost use Rattle.nm_piece.specs.Token.{piece_of};
ghost use Rattle.std.specs.Prelude.{◌≡◌};

use crate::elements::{close, open};
use crate::marked::{cdata, comment, question};
use crate::raw::Token;
use crate::reading::{Read, first, literal};
use crate::runs::{last_run, run};
use crate::unread::Unread;

/// The piece at the front of the bytes, as it stands there, and what follows it.
///
/// `last` says that the input ends with these bytes. `Unfinished` where the bytes are none, or end
/// before the piece does, and `NoPiece` where no piece is spelt there, whatever follows. Memory is not
/// asked for.
#[tactic(auto, unfolding(crate::specs::Piece::piece_at))]
pub fn token(bytes: &[u8], last: bool) -> Result<(Token<'_>, &[u8]), Unread>
    ensures { read_as (λ read. (piece_of read.0, read.1.now)) result ≡ spec.piece_at bytes.now last }
{
    match inner_token(bytes) {
        Err(Unread::Unfinished) if last => last_run(bytes),
        read => read,
    }
}

/// A piece that ends before the input does.
#[tactic(auto, unfolding(crate::specs::Piece::inner_piece_at))]
fn inner_token(bytes: &[u8]) -> Read<'_, Token<'_>>
    ensures { read_as (λ read. (piece_of read.0, read.1.now)) result ≡ spec.inner_piece_at bytes.now }
{
    let (byte, behind) = first(bytes)?;
    match byte {
        b'<' => markup(behind),
        _ => run(bytes),
    }
}

/// A piece behind its `<`.
#[tactic(auto, unfolding(crate::specs::Piece::markup_at))]
fn markup(bytes: &[u8]) -> Read<'_, Token<'_>>
    ensures { read_as (λ read. (piece_of read.0, read.1.now)) result ≡ spec.markup_at bytes.now }
{
    let (byte, behind) = first(bytes)?;
    match byte {
        b'/' => close(behind),
        b'!' => exclamation(behind),
        b'?' => question(behind),
        _ => open(bytes),
    }
}

/// A piece behind its `<!`.
#[tactic(auto, unfolding(crate::specs::Piece::exclamation_at))]
fn exclamation(bytes: &[u8]) -> Read<'_, Token<'_>>
    ensures { read_as (λ read. (piece_of read.0, read.1.now)) result ≡ spec.exclamation_at bytes.now }
{
    let (byte, behind) = first(bytes)?;
    match byte {
        b'-' => comment(behind),
        b'[' => cdata(behind),
        _ => doctype(bytes),
    }
}

/// The beginning of a document type declaration behind its `<!`.
#[tactic(auto, unfolding(crate::specs::Piece::doctype_at))]
fn doctype(bytes: &[u8]) -> Read<'_, Token<'_>>
    ensures { read_as (λ read. (piece_of read.0, read.1.now)) result ≡ spec.doctype_at bytes.now }
{
    let rest = literal(b"DOCTYPE", bytes)?;
    Ok((Token::Doctype, rest))
}
