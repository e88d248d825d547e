// Characters and references inside a value or a run.
ghost use Rattle.nm_piece.specs.Value as spec;
ghost use Rattle.nm_piece.specs.Meant.{is_plain_character, stands_for_itself as is_itself};
ghost use Rattle.nm_text.specs.Utf8 as utf8;
ghost use Rattle.std.specs.List.{list_all};
ghost use Rattle.std.specs.Prelude.{◌≡◌};

use nm_text::{Place, begins_reference, reference_at, split_before};

/// Whether the bytes are ASCII characters of XML without `&`, `<` and `>`.
// No early end: so the loop looks at many bytes at once.
pub fn is_plain(bytes: &[u8]) -> bool
    ensures { result ≡ list_all is_plain_character bytes.now }
{
    let mut all = true;
    for byte in bytes {
        all &= is_plain_byte(*byte);
    }
    all
}

fn is_plain_byte(byte: u8) -> bool
    ensures { result ≡ is_plain_character byte }
{
    matches!(byte, b'\t' | b'\n' | b'\r' | b' '..=0x7F) && !matches!(byte, b'&' | b'<' | b'>')
}

/// Whether the bytes, which spell a value, are that value.
pub fn is_value_as_spelt(spelling: &[u8]) -> bool
    ensures { result ≡ list_all is_itself spelling.now }
{
    let mut all = true;
    for byte in spelling {
        all &= stands_for_itself(*byte);
    }
    all
}

fn stands_for_itself(byte: u8) -> bool
    ensures { result ≡ is_itself byte }
{
    !matches!(byte, b'&' | b'\t' | b'\n' | b'\r')
}

/// Whether a text begins so.
pub fn begins_text(bytes: &[u8]) -> bool
    ensures { result ≡ utf8.begins_text bytes.now }
{
    let mut place = Place::Between;
    for byte in bytes {
        place = place.after_byte(*byte);
    }
    place != Place::Wrong
}

/// Whether each `&` begins a reference, or can with more bytes behind them.
pub fn begins_references(bytes: &[u8]) -> bool
    ensures { result ≡ spec.begins_references bytes.now }
{
    let mut rest = bytes;
    loop {
        let (_, reference) = split_before(b'&', rest);
        let Some((_, name)) = reference.split_first() else {
            return true;
        };
        let (front, end) = split_before(b';', name);
        if end.is_empty() {
            return begins_reference(front);
        }
        let Some((_, behind)) = reference_at(name) else {
            return false;
        };
        rest = behind;
    }
}
