// References to characters (XML 1.0, sections 4.1 and 4.6).
ghost use Rattle.nm_text.specs.Reference as spec;
ghost use Rattle.std.specs.Option.{option_map};
ghost use Rattle.std.specs.Prelude.{◌≡◌, ◌≤◌};

use crate::character::is_character;
use crate::split::split_before;
use std::char;

/// The highest number of a character.
const LAST_CHARACTER: u32 = 0x10FFFF;

/// The character of the reference that stands here, its `&` apart, and what stands behind it.
pub fn reference_at(bytes: &[u8]) -> Option<(char, &[u8])>
    ensures { option_map (λ found. (found.0, found.1.now)) result ≡ spec.reference_at bytes.now }
{
    let (name, end) = split_before(b';', bytes);
    let (_, behind) = end.split_first()?;
    let character = referred(name)?;
    Some((character, behind))
}

/// The character that a reference of this name stands for.
#[tactic(auto, unfolding(crate::specs::Reference::referred))]
fn referred(name: &[u8]) -> Option<char>
    ensures { result ≡ spec.referred name.now }
{
    match name {
        [b'#', b'x', digits @ ..] => numbered(16, digits),
        [b'#', digits @ ..] => numbered(10, digits),
        _ => predefined(name),
    }
}

/// The character of a name that needs no declaration.
fn predefined(name: &[u8]) -> Option<char>
    ensures { result ≡ spec.predefined name.now }
{
    if name == b"lt".as_slice() {
        Some('<')
    } else if name == b"gt".as_slice() {
        Some('>')
    } else if name == b"amp".as_slice() {
        Some('&')
    } else if name == b"quot".as_slice() {
        Some('"')
    } else if name == b"apos".as_slice() {
        Some('\'')
    } else {
        None
    }
}

/// The character whose number the digits write.
fn numbered(radix: u32, digits: &[u8]) -> Option<char>
    requires low { 2 ≤ radix }
    requires high { radix ≤ 16 }
    ensures { result ≡ spec.numbered radix digits.now }
{
    if digits.is_empty() {
        return None;
    }
    character_of(number_of(radix, digits)?)
}

/// The number that the digits write, where it is at most that of the last character.
fn number_of(radix: u32, digits: &[u8]) -> Option<u32>
    requires low { 2 ≤ radix }
    requires high { radix ≤ 16 }
    ensures { result ≡ spec.number_of radix digits.now }
{
    let mut number = 0;
    for digit in digits {
        number = number * radix + char::from(*digit).to_digit(radix)?;
        if number > LAST_CHARACTER {
            return None;
        }
    }
    Some(number)
}

/// The character of this number.
fn character_of(number: u32) -> Option<char>
    ensures { result ≡ spec.character_of number }
{
    match char::from_u32(number) {
        Some(character) if is_character(character) => Some(character),
        _ => None,
    }
}

/// Whether the name of a reference begins so.
#[tactic(auto, unfolding(crate::specs::Reference::begins_name))]
pub fn begins_reference(name: &[u8]) -> bool
    ensures { result ≡ spec.begins_name name.now }
{
    match name {
        [] => true,
        [b'#'] => true,
        [b'#', b'x', digits @ ..] => number_of(16, digits).is_some(),
        [b'#', digits @ ..] => number_of(10, digits).is_some(),
        _ => begins_predefined(name),
    }
}

/// Whether a name that needs no declaration begins so.
fn begins_predefined(name: &[u8]) -> bool
    ensures { result ≡ spec.begins_predefined name.now }
{
    b"lt".starts_with(name)
        || b"gt".starts_with(name)
        || b"amp".starts_with(name)
        || b"quot".starts_with(name)
        || b"apos".starts_with(name)
}
