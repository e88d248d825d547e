// What bytes with references stand for (XML 1.0, sections 2.11, 3.3.3 and 4.4).
ghost use Rattle.nm_terms.specs.Due.{OrWant, RefusalIsDue};
ghost use Rattle.nm_text.specs.Meaning as spec;
ghost use Rattle.nm_text.specs.Reference.{without_references};
ghost use Rattle.nm_text.specs.Refusal.{refusal_of, wants_memory};
ghost use Rattle.std.specs.Fmt.{option_append};
ghost use Rattle.std.specs.Prelude.{◌≡◌, ◌++◌, None, Some, encode_utf8, IfOk, IfErr, OnOk};
ghost use Rattle.std.specs.List.{list_any};

use crate::error::{NoMemory, RefError};
use crate::lines::append_lines;
use crate::reference::reference_at;
use crate::split::split_before;
use std::alloc::Global;

/// What bytes with references are read as.
#[derive(Clone, Copy)]
enum Form {
    /// As they are.
    Plain,
    /// As a text between tags.
    Run,
    /// As an attribute's value.
    Value,
}

/// The bytes with each reference replaced by its character.
///
/// The five predefined names and numbers of XML characters are references, with any number of
/// leading zeros. `At` is the place of the first `&` that begins none.
pub fn read_references(alloc: Global, bytes: &[u8]) -> Result<Vec<u8>, RefError>
    ensures text { IfOk result (λ text. without_references bytes.now ≡ Some text.items) }
    ensures stray { IfErr result (λ error. RefusalIsDue wants_memory error (refusal_of bytes.now)) }
    ensures nothing { IfErr result (λ error. OrWant (wants_memory error) (without_references bytes.now ≡ None)) }
{
    read_as(alloc, Form::Plain, bytes)
}

/// The text that a text between tags stands for: CR LF and every other CR is LF, and each reference
/// its character.
///
/// `At` is the place of the first `&` that begins no reference.
pub fn read_run(alloc: Global, bytes: &[u8]) -> Result<Vec<u8>, RefError>
    ensures text { IfOk result (λ text. spec.run_text bytes.now ≡ Some text.items) }
    ensures stray { IfErr result (λ error. RefusalIsDue wants_memory error (refusal_of bytes.now)) }
    ensures nothing { IfErr result (λ error. OrWant (wants_memory error) (spec.run_text bytes.now ≡ None)) }
{
    read_as(alloc, Form::Run, bytes)
}

/// The value that an attribute's value between its quotes stands for: CR LF, CR, LF and tab are each
/// a space, and each reference is its character.
///
/// `At` is the place of the first `&` that begins no reference.
pub fn read_attribute(alloc: Global, bytes: &[u8]) -> Result<Vec<u8>, RefError>
    ensures value { IfOk result (λ value. spec.attribute_value bytes.now ≡ Some value.items) }
    ensures stray { IfErr result (λ error. RefusalIsDue wants_memory error (refusal_of bytes.now)) }
    ensures nothing { IfErr result (λ error. OrWant (wants_memory error) (spec.attribute_value bytes.now ≡ None)) }
{
    read_as(alloc, Form::Value, bytes)
}

/// Appends what a text between tags stands for, as [`read_run`] reads it. After an error `out` has a
/// part of it.
pub fn append_run(out: &mut Vec<u8>, bytes: &[u8]) -> Result<(), RefError>
    ensures text { OnOk result (option_append (Some out.old.items) (spec.run_text bytes.now) ≡ Some out.new.items) }
    ensures stray { IfErr result (λ error. RefusalIsDue wants_memory error (refusal_of bytes.now)) }
    ensures nothing { IfErr result (λ error. OrWant (wants_memory error) (spec.run_text bytes.now ≡ None)) }
{
    append_as(out, Form::Run, bytes)
}

/// Appends what an attribute's value stands for, as [`read_attribute`] reads it. After an error `out`
/// has a part of it.
pub fn append_attribute(out: &mut Vec<u8>, bytes: &[u8]) -> Result<(), RefError>
    ensures value { OnOk result (option_append (Some out.old.items) (spec.attribute_value bytes.now) ≡ Some out.new.items) }
    ensures stray { IfErr result (λ error. RefusalIsDue wants_memory error (refusal_of bytes.now)) }
    ensures nothing { IfErr result (λ error. OrWant (wants_memory error) (spec.attribute_value bytes.now ≡ None)) }
{
    append_as(out, Form::Value, bytes)
}

fn read_as(alloc: Global, form: Form, bytes: &[u8]) -> Result<Vec<u8>, RefError>
    ensures text { IfOk result (λ text. spec.meaning_of form bytes.now ≡ Some text.items) }
    ensures stray { IfErr result (λ error. RefusalIsDue wants_memory error (refusal_of bytes.now)) }
    ensures nothing { IfErr result (λ error. OrWant (wants_memory error) (spec.meaning_of form bytes.now ≡ None)) }
{
    let mut text = Vec::with_capacity(alloc, bytes.len())?;
    append_as(&mut text, form, bytes)?;
    Ok(text)
}

/// Appends what the bytes stand for. After an error `out` has a part of it.
fn append_as(out: &mut Vec<u8>, form: Form, bytes: &[u8]) -> Result<(), RefError>
    ensures text { OnOk result (option_append (Some out.old.items) (spec.meaning_of form bytes.now) ≡ Some out.new.items) }
    ensures stray { IfErr result (λ error. RefusalIsDue wants_memory error (refusal_of bytes.now)) }
    ensures nothing { IfErr result (λ error. OrWant (wants_memory error) (spec.meaning_of form bytes.now ≡ None)) }
{
    let mut rest = bytes;
    loop {
        let (plain, reference) = split_before(b'&', rest);
        append_plain(out, form, plain)?;
        let Some((_, name)) = reference.split_first() else {
            return Ok(());
        };
        let Some((character, behind)) = reference_at(name) else {
            return Err(RefError::At(bytes.len() - reference.len()));
        };
        append_character(out, character)?;
        rest = behind;
    }
}

/// Appends bytes in which no reference stands.
fn append_plain(out: &mut Vec<u8>, form: Form, bytes: &[u8]) -> Result<(), NoMemory>
    ensures { OnOk result (out.new.items ≡ out.old.items ++ spec.prepared form bytes.now) }
{
    match form {
        Form::Plain => out.extend_from_slice(bytes),
        Form::Run => append_lines(out, bytes),
        Form::Value => append_with_spaces(out, bytes),
    }
}

/// Appends the bytes with CR LF, CR, LF and tab as spaces.
fn append_with_spaces(out: &mut Vec<u8>, bytes: &[u8]) -> Result<(), NoMemory>
    ensures { OnOk result (out.new.items ≡ out.old.items ++ spec.with_spaces bytes.now) }
{
    if has_other_white(bytes) {
        append_each_with_spaces(out, bytes)
    } else {
        out.extend_from_slice(bytes)
    }
}

fn append_each_with_spaces(out: &mut Vec<u8>, bytes: &[u8]) -> Result<(), NoMemory>
    ensures { OnOk result (out.new.items ≡ out.old.items ++ spec.with_spaces bytes.now) }
{
    let mut rest = bytes;
    while let [byte, behind @ ..] = rest {
        if !is_before_line_feed(*byte, behind) {
            out.push(if is_other_white(*byte) { b' ' } else { *byte })?;
        }
        rest = behind;
    }
    Ok(())
}

/// Whether the byte is the CR of CR LF.
fn is_before_line_feed(byte: u8, behind: &[u8]) -> bool
    ensures { result ≡ spec.is_before_line_feed byte behind.now }
{
    match behind {
        [b'\n', ..] => byte == b'\r',
        _ => false,
    }
}

// No early end: so the loop looks at many bytes at once.
fn has_other_white(bytes: &[u8]) -> bool
    ensures { result ≡ list_any spec.is_other_white bytes.now }
{
    let mut any = false;
    for byte in bytes {
        any |= is_other_white(*byte);
    }
    any
}

/// Whether the byte is white space that is no space.
fn is_other_white(byte: u8) -> bool
    ensures { result ≡ spec.is_other_white byte }
{
    matches!(byte, b'\t' | b'\n' | b'\r')
}

fn append_character(out: &mut Vec<u8>, character: char) -> Result<(), NoMemory>
    ensures { OnOk result (out.new.items ≡ out.old.items ++ encode_utf8 character) }
{
    let mut buffer = [0; 4];
    out.extend_from_slice(character.encode_utf8(&mut buffer).as_bytes())
}
