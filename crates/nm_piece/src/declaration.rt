// The XML declaration (XML 1.0, section 2.8).
ghost use Rattle.nm_piece.specs.Raw.{read_as};
ghost use Rattle.nm_piece.specs.Reading.{choice};
ghost use Rattle.nm_piece.specs.Start as spec;
ghost use Rattle.nm_piece.specs.Token.{piece_of};
ghost use Rattle.nm_piece.specs.Value.{quoted_at};
ghost use Rattle.std.specs.Option.{option_map};
ghost use Rattle.std.specs.Prelude.{◌≡◌};

use crate::naming::{all_in_name, equals, gap, space};
use crate::quotes::{behind_quote, quoted};
use crate::raw::Token;
use crate::reading::{Read, first, literal, unfinished_if};
use crate::unread::Unread;

/// The longest name of an encoding, in bytes.
const LONGEST_ENCODING: usize = 40;

/// An XML declaration behind its `<?xml`.
#[tactic(auto, unfolding(crate::specs::Start::start_at))]
pub fn start(bytes: &[u8]) -> Read<'_, Token<'_>>
    ensures { read_as (λ read. (piece_of read.0, read.1.now)) result ≡ spec.start_at bytes.now }
{
    version(space(bytes)?)
}

/// The version, and what follows it.
#[tactic(auto, unfolding(crate::specs::Start::version_at))]
fn version(bytes: &[u8]) -> Read<'_, Token<'_>>
    ensures { read_as (λ read. (piece_of read.0, read.1.now)) result ≡ spec.version_at bytes.now }
{
    let rest = equals(literal(b"version", bytes)?)?;
    behind_version(one_dot_zero(rest)?)
}

/// What follows the version.
#[tactic(auto, unfolding(crate::specs::Start::behind_version))]
fn behind_version(bytes: &[u8]) -> Read<'_, Token<'_>>
    ensures { read_as (λ read. (piece_of read.0, read.1.now)) result ≡ spec.behind_version bytes.now }
{
    let (white, rest) = gap(bytes)?;
    let (byte, behind) = first(rest)?;
    if byte == b'?' {
        start_end(None, behind)
    } else if white {
        setting(rest)
    } else {
        Err(Unread::NoPiece)
    }
}

/// The encoding or whether the document stands alone, and what follows it.
fn setting(bytes: &[u8]) -> Read<'_, Token<'_>>
    ensures { read_as (λ read. (piece_of read.0, read.1.now)) result ≡ choice 101 spec.encoding_at (spec.standalone_at None) bytes.now }
{
    let (byte, behind) = first(bytes)?;
    match byte {
        b'e' => encoding(behind),
        _ => standalone(None, bytes),
    }
}

/// The encoding behind its `e`, and what follows it.
#[tactic(auto, unfolding(crate::specs::Start::encoding_at))]
fn encoding(bytes: &[u8]) -> Read<'_, Token<'_>>
    ensures { read_as (λ read. (piece_of read.0, read.1.now)) result ≡ spec.encoding_at bytes.now }
{
    let rest = equals(literal(b"ncoding", bytes)?)?;
    let (name, rest) = encoding_name(rest)?;
    behind_encoding(name, rest)
}

/// What follows the encoding.
#[tactic(auto, unfolding(crate::specs::Start::behind_encoding))]
fn behind_encoding<'a>(encoding: &'a [u8], bytes: &'a [u8]) -> Read<'a, Token<'a>>
    ensures { read_as (λ read. (piece_of read.0, read.1.now)) result ≡ spec.behind_encoding (Some encoding.now) bytes.now }
{
    let (white, rest) = gap(bytes)?;
    let (byte, behind) = first(rest)?;
    if byte == b'?' {
        start_end(Some(encoding), behind)
    } else if white {
        standalone(Some(encoding), rest)
    } else {
        Err(Unread::NoPiece)
    }
}

/// Whether the document stands alone, and the end.
#[tactic(auto, unfolding(crate::specs::Start::standalone_at))]
fn standalone<'a>(encoding: Option<&'a [u8]>, bytes: &'a [u8]) -> Read<'a, Token<'a>>
    ensures { read_as (λ read. (piece_of read.0, read.1.now)) result ≡ spec.standalone_at (option_map (λ name. name.now) encoding.entry) bytes.now }
{
    let rest = equals(literal(b"standalone", bytes)?)?;
    let (_, rest) = gap(yes_or_no(rest)?)?;
    start_end(encoding, literal(b"?", rest)?)
}

/// The end behind its `?`.
fn start_end<'a>(encoding: Option<&'a [u8]>, bytes: &'a [u8]) -> Read<'a, Token<'a>>
    ensures { read_as (λ read. (piece_of read.0, read.1.now)) result ≡ spec.start_end (option_map (λ name. name.now) encoding.entry) bytes.now }
{
    let rest = literal(b">", bytes)?;
    Ok((Token::Start { encoding }, rest))
}

/// What stands behind `1.0` in quotes.
fn one_dot_zero(bytes: &[u8]) -> Result<&[u8], Unread>
    ensures { read_as (λ rest. (tt, rest.now)) result ≡ quoted_at spec.version_of spec.begins_version bytes.now }
{
    match quoted(bytes) {
        Ok((b"1.0", rest)) => Ok(rest),
        Ok(_) => Err(Unread::NoPiece),
        Err(Unread::Unfinished) => Err(unfinished_if(begins_version(behind_quote(bytes)))),
        Err(error) => Err(error),
    }
}

fn begins_version(bytes: &[u8]) -> bool
    ensures { result ≡ spec.begins_version bytes.now }
{
    b"1.0".starts_with(bytes)
}

/// The name of an encoding.
fn encoding_name(bytes: &[u8]) -> Read<'_, &[u8]>
    ensures { read_as (λ read. (read.0.now, read.1.now)) result ≡ quoted_at spec.encoding_of spec.begins_encoding bytes.now }
{
    match quoted(bytes) {
        Ok((name, rest)) if is_encoding(name) => Ok((name, rest)),
        Ok(_) => Err(Unread::NoPiece),
        Err(Unread::Unfinished) => Err(unfinished_if(begins_encoding(behind_quote(bytes)))),
        Err(error) => Err(error),
    }
}

/// Whether the bytes are a letter and at most 39 letters, digits, `.`, `_` and `-`.
fn is_encoding(bytes: &[u8]) -> bool
    ensures { result ≡ spec.is_encoding bytes.now }
{
    match bytes.split_first() {
        Some((first, others)) => {
            first.is_ascii_alphabetic() && all_in_name(others) && bytes.len() <= LONGEST_ENCODING
        }
        None => false,
    }
}

fn begins_encoding(bytes: &[u8]) -> bool
    ensures { result ≡ spec.begins_encoding bytes.now }
{
    bytes.is_empty() || is_encoding(bytes)
}

/// What stands behind `yes` or `no` in quotes.
fn yes_or_no(bytes: &[u8]) -> Result<&[u8], Unread>
    ensures { read_as (λ rest. (tt, rest.now)) result ≡ quoted_at spec.standalone_of spec.begins_standalone bytes.now }
{
    match quoted(bytes) {
        Ok((b"yes" | b"no", rest)) => Ok(rest),
        Ok(_) => Err(Unread::NoPiece),
        Err(Unread::Unfinished) => Err(unfinished_if(begins_yes_or_no(behind_quote(bytes)))),
        Err(error) => Err(error),
    }
}

fn begins_yes_or_no(bytes: &[u8]) -> bool
    ensures { result ≡ spec.begins_standalone bytes.now }
{
    b"yes".starts_with(bytes) || b"no".starts_with(bytes)
}
