// Bytes that are cut, before the first of some byte or into chunks.
ghost use Rattle.nm_text.specs.Split.{IsSplitBefore};
ghost use Rattle.std.specs.List.{position_or_len};
ghost use Rattle.std.specs.Prelude.{◌≡◌, ◌==◌};

use memchr::memchr;

/// How many bytes are looked at together, before one of them that is special costs a look at each.
pub const CHUNK: usize = 64;

/// The bytes before the first such byte, and those from it on.
pub fn split_before(byte: u8, bytes: &[u8]) -> (&[u8], &[u8])
    ensures { IsSplitBefore byte bytes.now result.0.now result.1.now }
{
    bytes.split_at(length_before(byte, bytes))
}

/// How many bytes stand before the first such byte.
fn length_before(byte: u8, bytes: &[u8]) -> usize
    ensures { result ≡ position_or_len (λ other. other == byte) bytes.now }
{
    match memchr(byte, bytes) {
        Some(place) => place,
        None => bytes.len(),
    }
}
