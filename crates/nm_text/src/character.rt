// The characters of XML 1.0 (section 2.2), as UTF-8 (RFC 3629).
ghost use Rattle.nm_text.specs.Characters.{is_character as is_xml_character, is_text as is_xml_text};
ghost use Rattle.nm_text.specs.Utf8 as spec;
ghost use Rattle.std.specs.List.{list_all};
ghost use Rattle.std.specs.Prelude.{◌≡◌};

use crate::split::CHUNK;

/// Whether the bytes are UTF-8 of XML 1.0 characters alone.
pub fn is_text(bytes: &[u8]) -> bool
    ensures { result ≡ is_xml_text bytes.now }
{
    Place::Between.after(bytes).is_whole()
}

/// Whether the character is one of XML 1.0.
pub fn is_character(character: char) -> bool
    ensures { result ≡ is_xml_character character }
{
    matches!(
        character,
        '\t' | '\n' | '\r' | '\u{20}'..='\u{D7FF}' | '\u{E000}'..='\u{FFFD}' | '\u{10000}'..='\u{10FFFF}'
    )
}

/// Where the bytes of a text have come, which tells what the next byte may be.
///
/// A text that comes in parts is followed from [`Place::Between`] on.
#[derive(Clone, Copy, Debug, PartialEq, Eq)]
pub enum Place {
    /// Between two characters.
    Between,
    /// One byte of 80 to BF ends the character.
    Last,
    /// Two such bytes do.
    LastTwo,
    /// Three such bytes do.
    LastThree,
    /// Behind E0, which only A0 to BF follow.
    AfterE0,
    /// Behind ED, which begins the surrogates from A0 on.
    AfterED,
    /// Behind EF.
    AfterEF,
    /// Behind EF BF, which only 80 to BD follow: U+FFFE and U+FFFF are no characters.
    AfterEFBF,
    /// Behind F0, which only 90 to BF follow.
    AfterF0,
    /// Behind F4, which only 80 to 8F follow.
    AfterF4,
    /// No text begins so.
    Wrong,
}

impl Place {
    /// Whether the bytes so far are a text, no character of which is left unfinished.
    pub fn is_whole(self) -> bool
        ensures { result ≡ spec.is_whole self }
    {
        matches!(self, Place::Between)
    }

    /// Whether some bytes can still make a text of those so far.
    pub fn is_open(self) -> bool
        ensures { result ≡ spec.is_open self }
    {
        !matches!(self, Place::Wrong)
    }

    /// The place behind more bytes. Stretches of single bytes are passed without a look at each.
    pub fn after(self, bytes: &[u8]) -> Place
        ensures { result ≡ spec.place_after self bytes.now }
    {
        let mut place = self;
        let mut rest = bytes;
        while !rest.is_empty() {
            let (chunk, behind) = rest.split_at(rest.len().min(CHUNK));
            place = place.after_chunk(chunk);
            rest = behind;
        }
        place
    }

    fn after_chunk(self, chunk: &[u8]) -> Place
        ensures { result ≡ spec.place_after self chunk.now }
    {
        if self.is_whole() && are_single(chunk) {
            Place::Between
        } else {
            self.after_each(chunk)
        }
    }

    fn after_each(self, bytes: &[u8]) -> Place
        ensures { result ≡ spec.place_after self bytes.now }
    {
        let mut place = self;
        for byte in bytes {
            place = place.after_byte(*byte);
        }
        place
    }

    /// The place behind one more byte.
    pub fn after_byte(self, byte: u8) -> Place
        ensures { result ≡ spec.place_after_byte self byte }
    {
        match (self, byte) {
            (Place::Between, _) => after_first(byte),
            (Place::Last, 0x80..=0xBF) => Place::Between,
            (Place::LastTwo, 0x80..=0xBF) => Place::Last,
            (Place::LastThree, 0x80..=0xBF) => Place::LastTwo,
            (Place::AfterE0, 0xA0..=0xBF) => Place::Last,
            (Place::AfterED, 0x80..=0x9F) => Place::Last,
            (Place::AfterEF, 0x80..=0xBE) => Place::Last,
            (Place::AfterEF, 0xBF) => Place::AfterEFBF,
            (Place::AfterEFBF, 0x80..=0xBD) => Place::Between,
            (Place::AfterF0, 0x90..=0xBF) => Place::LastTwo,
            (Place::AfterF4, 0x80..=0x8F) => Place::LastTwo,
            _ => Place::Wrong,
        }
    }
}

// No early end: so the loop looks at many bytes at once.
fn are_single(bytes: &[u8]) -> bool
    ensures { result ≡ list_all spec.is_single bytes.now }
{
    let mut all = true;
    for byte in bytes {
        all &= is_single(*byte);
    }
    all
}

/// Whether the byte is a character by itself.
fn is_single(byte: u8) -> bool
    ensures { result ≡ spec.is_single byte }
{
    matches!(byte, b'\t' | b'\n' | b'\r' | 0x20..=0x7F)
}

/// The place behind the first byte of a character.
fn after_first(byte: u8) -> Place
    ensures { result ≡ spec.place_after_first byte }
{
    match byte {
        b'\t' | b'\n' | b'\r' | 0x20..=0x7F => Place::Between,
        0xC2..=0xDF => Place::Last,
        0xE0 => Place::AfterE0,
        0xED => Place::AfterED,
        0xEF => Place::AfterEF,
        0xE1..=0xEE => Place::LastTwo,
        0xF0 => Place::AfterF0,
        0xF1..=0xF3 => Place::LastThree,
        0xF4 => Place::AfterF4,
        _ => Place::Wrong,
    }
}
