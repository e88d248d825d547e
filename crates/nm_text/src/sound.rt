// Whether bytes with references stand for a text (XML 1.0, section 4.1).
ghost use Rattle.nm_text.specs.Meaning.{attribute_value, run_text};
ghost use Rattle.nm_text.specs.Reference.{first_stray};
ghost use Rattle.std.specs.Prelude.{◌≡◌, is_none, is_some};

use crate::reference::reference_at;
use crate::split::split_before;

/// Whether each `&` begins a reference, so that the bytes stand for a text and for a value.
pub fn are_references_sound(bytes: &[u8]) -> bool
    ensures strays { result ≡ is_none (first_stray bytes.now) }
    ensures run { result ≡ is_some (run_text bytes.now) }
    ensures value { result ≡ is_some (attribute_value bytes.now) }
{
    let mut rest = bytes;
    loop {
        let (_, reference) = split_before(b'&', rest);
        let Some((_, name)) = reference.split_first() else {
            return true;
        };
        let Some((_, behind)) = reference_at(name) else {
            return false;
        };
        rest = behind;
    }
}
