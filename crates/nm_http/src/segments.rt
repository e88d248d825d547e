// Bytes that are cut at the first of some byte.
ghost use Rattle.std.specs.List.{after_first, before_first, position, position_or_len};
ghost use Rattle.std.specs.Prelude.{◌≡◌, ◌==◌, ◌≤◌, length};

/// The bytes before the first such byte, or all where there is none.
pub fn before(mark: u8, bytes: &[u8]) -> &[u8]
    ensures { result.now ≡ before_first (λ byte. byte == mark) bytes.now }
{
    &bytes[..length_before(mark, bytes)]
}

/// The bytes behind the first such byte, or none where there is none.
pub fn behind(mark: u8, bytes: &[u8]) -> &[u8]
    ensures { result.now ≡ after_first (λ byte. byte == mark) bytes.now }
{
    let place = length_before(mark, bytes);
    if place < bytes.len() {
        &bytes[place + 1..]
    } else {
        b""
    }
}

/// How many bytes stand before the first such byte.
pub fn length_before(mark: u8, bytes: &[u8]) -> usize
    ensures length { result ≡ position_or_len (λ byte. byte == mark) bytes.now }
    ensures within { result ≤ length bytes.now }
{
    match place_of(mark, bytes) {
        Some(place) => place,
        None => bytes.len(),
    }
}

/// The place of the first such byte.
fn place_of(mark: u8, bytes: &[u8]) -> Option<usize>
    ensures { result ≡ position (λ byte. byte == mark) bytes.now }
{
    bytes.iter().position(|byte| *byte == mark)
}
