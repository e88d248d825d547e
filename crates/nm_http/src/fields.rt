// What the fields of a head say.
ghost use Rattle.httparse.specs.Borrowed.{header_parts};
ghost use Rattle.nm_http.specs.Fields as spec;
ghost use Rattle.std.specs.List.{list_all, list_any, position, position_or_len};
ghost use Rattle.std.specs.Option.{option_map};
ghost use Rattle.std.specs.Prelude.{◌≡◌, ◌≤◌, find, map, length, true};
ghost use Rattle.std.specs.Char.{is_ascii_digit};
ghost use Rattle.std.specs.Str.{str_eq_ignore_ascii_case};
ghost use Rattle.std.specs.Str.Parse.{digits_value};
ghost use Rattle.httparse.specs.Grammar.{is_ows};

use crate::segments::{before, behind, length_before};
use httparse::Header;

/// Whether there is a field of this name, in any letter case.
pub fn has_field(fields: &[Header<'_>], name: &[u8]) -> bool
    ensures { result ≡ spec.has_field name.now (map header_parts fields.now) }
{
    any_named(fields, name)
}

/// The same, by the fields as `httparse` gives them.
fn any_named(fields: &[Header<'_>], name: &[u8]) -> bool
    ensures { result ≡ list_any (λ field. spec.is_named name.now (header_parts field)) fields.now }
{
    fields.iter().any(|field| is_named(field, name))
}

/// Whether the field has this name, in any letter case.
#[tactic(auto, unfolding(crate::specs::Fields::is_named))]
fn is_named(field: &Header<'_>, name: &[u8]) -> bool
    ensures { result ≡ spec.is_named name.now (header_parts field.now) }
{
    field.name.as_bytes().eq_ignore_ascii_case(name)
}

/// A length that is not 1 to 19 digits, or another than that of the field before.
#[derive(Clone, Copy, Debug, PartialEq, Eq)]
pub struct BadLength;

/// The length of the body that the fields give (RFC 9112, section 6.2). `BadLength` where a value is not 1
/// to 19 digits, or two give different numbers.
pub fn content_length(fields: &[Header<'_>]) -> Result<Option<u64>, BadLength>
    ensures { result ≡ spec.content_length (map header_parts fields.now) }
{
    let Some(first) = first_length(fields) else {
        return Ok(None);
    };
    match length_of(first.value) {
        Some(number) if all_agree(number, fields) => Ok(Some(number)),
        _ => Err(BadLength),
    }
}

/// The first field that gives a length.
fn first_length<'a, 'b>(fields: &'a [Header<'b>]) -> Option<&'a Header<'b>>
    ensures { option_map (λ field. field.now) result ≡ find (λ field. spec.is_named spec.length_name (header_parts field)) fields.now }
{
    fields.iter().find(|field| is_length(field))
}

/// Whether the field gives a length.
fn is_length(field: &Header<'_>) -> bool
    ensures { result ≡ spec.is_named spec.length_name (header_parts field.now) }
{
    is_named(field, b"content-length")
}

/// Whether each field that gives a length gives this one.
fn all_agree(number: u64, fields: &[Header<'_>]) -> bool
    ensures { result ≡ list_all (λ field. spec.agrees number (header_parts field)) fields.now }
{
    fields.iter().all(|field| agrees(number, field))
}

/// Whether the field gives this length, where it gives one.
fn agrees(number: u64, field: &Header<'_>) -> bool
    ensures { result ≡ spec.agrees number (header_parts field.now) }
{
    !is_length(field) || length_of(field.value) == Some(number)
}

/// The number that 1 to 19 decimal digits spell. `None` for any other text.
#[tactic(auto, unfolding(crate::specs::Fields::length_of))]
fn length_of(value: &[u8]) -> Option<u64>
    ensures { result ≡ spec.length_of value.now }
{
    if value.is_empty() || value.len() > 19 || !are_digits(value) {
        return None;
    }
    Some(number_of(value))
}

/// Whether each byte is a digit.
fn are_digits(text: &[u8]) -> bool
    ensures { result ≡ list_all is_ascii_digit text.now }
{
    text.iter().all(|byte| byte.is_ascii_digit())
}

/// The number that digits spell.
fn number_of(digits: &[u8]) -> u64
    requires short { length digits.now ≤ 19 }
    requires all { list_all is_ascii_digit digits.now ≡ true }
    ensures { result ≡ digits_value 10 digits.now }
{
    let mut number = 0;
    for digit in digits {
        number = number * 10 + u64::from(*digit - b'0');
    }
    number
}

/// Whether a field asks that the connection ends (RFC 9112, section 9.6).
pub fn any_closes(fields: &[Header<'_>]) -> bool
    ensures { result ≡ list_any spec.closes (map header_parts fields.now) }
{
    any_header_closes(fields)
}

/// The same, by the fields as `httparse` gives them.
fn any_header_closes(fields: &[Header<'_>]) -> bool
    ensures { result ≡ list_any (λ field. spec.closes (header_parts field)) fields.now }
{
    fields.iter().any(|field| closes(field))
}

/// Whether the field asks that the connection ends.
fn closes(field: &Header<'_>) -> bool
    ensures { result ≡ spec.closes (header_parts field.now) }
{
    is_named(field, b"connection") && lists_close(field.value)
}

/// Whether a part of the value between commas is `close`.
fn lists_close(value: &[u8]) -> bool
    ensures { result ≡ spec.lists_close value.now }
{
    let mut rest = value;
    'parts: loop {
        if is_close(before(b',', rest)) {
            return true;
        }
        if length_before(b',', rest) == rest.len() {
            return false;
        }
        rest = behind(b',', rest);
    }
}

/// Whether the part is `close` in any letter case, with spaces and tabs around it.
#[tactic(auto, unfolding(crate::specs::Fields::is_close))]
fn is_close(part: &[u8]) -> bool
    ensures { result ≡ spec.is_close part.now }
{
    is_close_word(&part[white_length(part)..])
}

/// Whether the text is `close` in any letter case, with spaces and tabs behind it.
fn is_close_word(text: &[u8]) -> bool
    ensures { result ≡ spec.is_close_word text.now }
{
    let (word, rest) = text.split_at(text.len().min(5));
    is_same_word(word, b"close") && is_white(rest)
}

/// Whether the texts are the same but for the case of letters.
fn is_same_word(text: &[u8], word: &[u8]) -> bool
    ensures { result ≡ str_eq_ignore_ascii_case text.now word.now }
{
    text.eq_ignore_ascii_case(word)
}

/// Whether the bytes are spaces and tabs.
fn is_white(bytes: &[u8]) -> bool
    ensures { result ≡ list_all is_ows bytes.now }
{
    bytes.iter().all(|byte| is_white_byte(*byte))
}

/// Whether the byte is a space or a tab.
fn is_white_byte(byte: u8) -> bool
    ensures { result ≡ is_ows byte }
{
    byte == b' ' || byte == b'\t'
}

/// How many spaces and tabs stand in front.
fn white_length(bytes: &[u8]) -> usize
    ensures length { result ≡ position_or_len spec.is_no_white bytes.now }
    ensures within { result ≤ length bytes.now }
{
    match first_no_white(bytes) {
        Some(place) => place,
        None => bytes.len(),
    }
}

/// The place of the first byte that is no space and no tab.
fn first_no_white(bytes: &[u8]) -> Option<usize>
    ensures { result ≡ position spec.is_no_white bytes.now }
{
    bytes.iter().position(|byte| !is_white_byte(*byte))
}

/// Whether a field says that the client waits for `100 Continue` (RFC 9110, section 10.1.1).
pub fn any_expects(fields: &[Header<'_>]) -> bool
    ensures { result ≡ list_any spec.expects (map header_parts fields.now) }
{
    any_header_expects(fields)
}

/// The same, by the fields as `httparse` gives them.
fn any_header_expects(fields: &[Header<'_>]) -> bool
    ensures { result ≡ list_any (λ field. spec.expects (header_parts field)) fields.now }
{
    fields.iter().any(|field| expects(field))
}

/// Whether the field says that the client waits.
fn expects(field: &Header<'_>) -> bool
    ensures { result ≡ spec.expects (header_parts field.now) }
{
    is_named(field, b"expect") && is_same_word(field.value, b"100-continue")
}
