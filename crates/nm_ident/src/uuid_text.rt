// The hyphenated text of a UUID (RFC 9562, section 4), and its number.
ghost use Rattle.nm_ident.specs.UuidText.{uuid_of, uuid_text};
ghost use Rattle.std.specs.Prelude.{◌≡◌};

use uuid::Uuid;

/// The bytes of a UUID's hyphenated text.
const TEXT_LENGTH: usize = 36;

/// The number of the UUID whose hyphenated text this is, in either letter case (RFC 9562, section 4).
/// `None` for any other text.
pub fn model_id(text: &[u8]) -> Option<u128>
    ensures { result ≡ uuid_of text.now }
{
    if text.len() != TEXT_LENGTH {
        return None;
    }
    match Uuid::try_parse_ascii(text) {
        Ok(id) => Some(id.as_u128()),
        Err(_) => None,
    }
}

/// The hyphenated text of a UUID's number in lower case (RFC 9562, section 4).
pub fn id_text(id: u128) -> [u8; 36]
    ensures { result ≡ uuid_text id }
{
    let mut buffer = Uuid::encode_buffer();
    let written = Uuid::from_u128(id).hyphenated().encode_lower(&mut buffer);
    let mut text = [0; TEXT_LENGTH];
    text.copy_from_slice(written.as_bytes());
    text
}
