// Names and white space in tags (Namespaces in XML, sections 3 and 4; XML 1.0, section 2.3).
ghost use Rattle.nm_ident.specs.Name as ident;
ghost use Rattle.nm_ident.specs.Name.{continues_name as is_name_byte};
ghost use Rattle.nm_piece.specs.Name as spec;
ghost use Rattle.nm_piece.specs.Raw.{name_of, read_as};
ghost use Rattle.nm_piece.specs.Reading.{before, from};
ghost use Rattle.std.specs.List.{list_all};
ghost use Rattle.std.specs.Prelude.{◌≡◌, ◌≤◌, ◌<◌, length, slice_index, take, drop, not, true, false};

use crate::raw::RawName;
use crate::reading::{Read, first, literal, unfinished_if};
use crate::unread::Unread;
use nm_ident::{LONGEST_NAME, is_name};
use nm_text::is_white;

/// A name, or two joined by `:`.
#[tactic(auto, unfolding(crate::specs::Name::qname_at))]
pub fn qname(bytes: &[u8]) -> Read<'_, RawName<'_>>
    ensures { read_as (λ read. (name_of read.0, read.1.now)) result ≡ spec.qname_at bytes.now }
{
    let (front, rest) = name(bytes)?;
    let (byte, behind) = first(rest)?;
    if byte != b':' {
        return Ok((
            RawName {
                prefix: None,
                local: front,
            },
            rest,
        ));
    }
    let (local, rest) = name(behind)?;
    Ok((
        RawName {
            prefix: Some(front),
            local,
        },
        rest,
    ))
}

/// A name without `:`.
fn name(bytes: &[u8]) -> Read<'_, &[u8]>
    ensures { read_as (λ read. (read.0.now, read.1.now)) result ≡ spec.name_at bytes.now }
{
    let (front, rest) = split_behind_name(bytes);
    if rest.is_empty() {
        Err(unfinished_if(front.is_empty() || is_name_where_cut(front)))
    } else if is_name_where_cut(front) {
        Ok((front, rest))
    } else {
        Err(Unread::NoPiece)
    }
}

/// Whether the bytes are a name, where names have each of them.
// What was cut behind its last such byte is not looked at once more.
fn is_name_where_cut(front: &[u8]) -> bool
    requires { list_all is_name_byte front.now ≡ true }
    ensures { result ≡ ident.is_name front.now }
{
    match front {
        [] => false,
        [first, ..] => !follows_alone(*first) && front.len() <= LONGEST_NAME,
    }
}

/// Whether a byte that names have begins none.
fn follows_alone(byte: u8) -> bool
    requires { is_name_byte byte ≡ true }
    ensures { result ≡ not (ident.begins_name byte) }
{
    matches!(byte, b'0'..=b'9' | b'-' | b'.')
}

/// Whether a name begins so.
pub fn begins_name(bytes: &[u8]) -> bool
    ensures { result ≡ spec.begins_name bytes.now }
{
    bytes.is_empty() || is_name(bytes)
}

/// The bytes before the first that no name has, and those from it on.
pub fn split_behind_name(bytes: &[u8]) -> (&[u8], &[u8])
    ensures before { result.0.now ≡ before spec.ends_name bytes.now }
    ensures rest { result.1.now ≡ from spec.ends_name bytes.now }
{
    bytes.split_at(name_length(bytes))
}

/// How many bytes are looked at in turn without a test for the end of the input between them.
const CHUNK: usize = 8;

/// How many bytes stand before the first that no name has.
fn name_length(bytes: &[u8]) -> usize
    ensures within { result ≤ length bytes.now }
    ensures before { before spec.ends_name bytes.now ≡ take result bytes.now }
    ensures from { from spec.ends_name bytes.now ≡ drop result bytes.now }
{
    let mut rest = bytes;
    'chunks: while rest.len() >= CHUNK {
        let (chunk, behind) = rest.split_at(CHUNK);
        let length = length_in(chunk);
        if length < CHUNK {
            return bytes.len() - rest.len() + length;
        }
        rest = behind;
    }
    bytes.len() - rest.len() + length_in(rest)
}

/// How many bytes stand before the first that no name has, looked at one by one.
fn length_in(bytes: &[u8]) -> usize
    ensures within { result ≤ length bytes.now }
    ensures all { list_all is_name_byte (take result bytes.now) ≡ true }
    ensures ends { result < length bytes.now → is_name_byte (slice_index bytes.now result) ≡ false }
{
    for place in 0..bytes.len() {
        if !continues_name(bytes[place]) {
            return place;
        }
    }
    bytes.len()
}

/// Each byte of names at its own place, and a comma at every other place.
// One look-up costs less than comparisons with six ranges.
static NAME_BYTES: [u8; 256] = *b"\
    ,,,,,,,,,,,,,,,,,,,,,,,,,,,,,,,,\
    ,,,,,,,,,,,,,-.,0123456789,,,,,,\
    ,ABCDEFGHIJKLMNOPQRSTUVWXYZ,,,,_\
    ,abcdefghijklmnopqrstuvwxyz,,,,,\
    ,,,,,,,,,,,,,,,,,,,,,,,,,,,,,,,,\
    ,,,,,,,,,,,,,,,,,,,,,,,,,,,,,,,,\
    ,,,,,,,,,,,,,,,,,,,,,,,,,,,,,,,,\
    ,,,,,,,,,,,,,,,,,,,,,,,,,,,,,,,,";

/// Whether the byte stands in names.
fn continues_name(byte: u8) -> bool
    ensures { result ≡ is_name_byte byte }
{
    NAME_BYTES[byte as usize] != b','
}

/// White space or nothing, and whether there is some.
pub fn gap(bytes: &[u8]) -> Read<'_, bool>
    ensures { read_as (λ read. (read.0, read.1.now)) result ≡ spec.gap_at bytes.now }
{
    let (white, rest) = bytes.split_at(white_length(bytes));
    if rest.is_empty() {
        Err(Unread::Unfinished)
    } else {
        Ok((!white.is_empty(), rest))
    }
}

/// How many bytes stand before the first that is not white.
fn white_length(bytes: &[u8]) -> usize
    ensures within { result ≤ length bytes.now }
    ensures before { before spec.ends_white bytes.now ≡ take result bytes.now }
    ensures from { from spec.ends_white bytes.now ≡ drop result bytes.now }
{
    for place in 0..bytes.len() {
        if !is_white(bytes[place]) {
            return place;
        }
    }
    bytes.len()
}

/// What stands behind white space, which has to be there.
pub fn space(bytes: &[u8]) -> Result<&[u8], Unread>
    ensures { read_as (λ rest. (tt, rest.now)) result ≡ spec.space_at bytes.now }
{
    let (white, rest) = gap(bytes)?;
    if white {
        Ok(rest)
    } else {
        Err(Unread::NoPiece)
    }
}

/// What stands behind `=`, with white space or none on both sides of it.
#[tactic(auto, unfolding(crate::specs::Name::equals_at))]
pub fn equals(bytes: &[u8]) -> Result<&[u8], Unread>
    ensures { read_as (λ rest. (tt, rest.now)) result ≡ spec.equals_at bytes.now }
{
    let (_, sign) = gap(bytes)?;
    let (_, rest) = gap(literal(b"=", sign)?)?;
    Ok(rest)
}

/// Whether each byte stands in names.
pub fn all_in_name(bytes: &[u8]) -> bool
    ensures { result ≡ list_all is_name_byte bytes.now }
{
    bytes.iter().all(|byte| continues_name(*byte))
}
