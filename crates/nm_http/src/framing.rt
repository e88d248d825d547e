// Where a head ends, and how large it is.
ghost use Rattle.nm_http.specs.Framing as spec;
ghost use Rattle.std.specs.Prelude.{◌≡◌, ◌≤◌, IfSome, length, take};

use crate::limits::{LONGEST_HEAD, MOST_FIELDS};

/// The status with which the bytes are refused before they are read: 431 where no head ends within the
/// longest, though as many bytes are there, or where it has more field lines than are taken; 400 where the
/// head is not whole, or more stands behind it.
#[tactic(auto, unfolding(crate::specs::Framing::size_refusal))]
pub fn size_refusal(bytes: &[u8]) -> Option<u16>
    ensures { result ≡ spec.size_refusal bytes.now }
{
    match head_length(front_of(bytes, LONGEST_HEAD)) {
        Some(count) => refusal_of_head(count, bytes),
        None if bytes.len() < LONGEST_HEAD => Some(400),
        None => Some(431),
    }
}

/// The status with which a head of so many bytes is refused, in front of all bytes.
fn refusal_of_head(count: usize, bytes: &[u8]) -> Option<u16>
    requires { count ≤ length bytes.now }
    ensures { result ≡ spec.refusal_of_head count bytes.now }
{
    if line_ends(&bytes[..count]).saturating_sub(2) > MOST_FIELDS {
        Some(431)
    } else if count < bytes.len() {
        Some(400)
    } else {
        None
    }
}

/// The first bytes, at most `room`.
fn front_of(bytes: &[u8], room: usize) -> &[u8]
    ensures front { result.now ≡ take room bytes.now }
    ensures within { length result.now ≤ length bytes.now }
{
    &bytes[..bytes.len().min(room)]
}

/// The bytes of the head in front, which ends with the first empty line. `None` where none ends.
fn head_length(bytes: &[u8]) -> Option<usize>
    ensures length { result ≡ spec.head_length bytes.now }
    ensures within { IfSome result (λ count. count ≤ length bytes.now) }
{
    for place in 0..bytes.len() {
        if bytes[place..].starts_with(b"\r\n\r\n") {
            return Some(place + 4);
        }
    }
    None
}

/// How often CR LF stands in the bytes.
fn line_ends(bytes: &[u8]) -> usize
    ensures { result ≡ spec.line_ends bytes.now }
{
    let mut count = 0;
    for place in 0..bytes.len() {
        count += line_end_in_front(&bytes[place..]);
    }
    count
}

/// 1 where CR LF stands in front, and else 0.
fn line_end_in_front(bytes: &[u8]) -> usize
    ensures count { result ≡ spec.line_end_in_front bytes.now }
    ensures within { result ≤ 1 }
{
    if bytes.starts_with(b"\r\n") { 1 } else { 0 }
}
