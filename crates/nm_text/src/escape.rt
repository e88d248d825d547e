// Spellings of characters in a canonical document (XML 1.0, section 2.4).
ghost use Rattle.nm_text.specs.Escape.{attribute_spelling, spelt_in, spelt_in_attribute, spelt_in_text, text_spelling};
ghost use Rattle.std.specs.List.{flat_map};
ghost use Rattle.std.specs.Prelude.{◌≡◌, ◌∷◌, [], ◌++◌, IfOk, OnOk};
ghost use Rattle.std.specs.Bool.{OnFalse};

use crate::error::NoMemory;
use crate::split::CHUNK;
use std::alloc::Global;

/// Where a text is spelt.
#[derive(Clone, Copy)]
enum Setting {
    Text,
    Attribute,
}

/// The spelling of a text between tags: `&`, `<`, `>` and CR by references, all else as it is.
pub fn escape_text(alloc: Global, text: &[u8]) -> Result<Vec<u8>, NoMemory>
    ensures { IfOk result (λ spelt. spelt.items ≡ text_spelling text.now) }
{
    let mut out = Vec::with_capacity(alloc, text.len())?;
    append_escaped_text(&mut out, text)?;
    Ok(out)
}

/// The spelling of an attribute's value: as in a text, and `"`, LF and tab by references too.
pub fn escape_attribute(alloc: Global, text: &[u8]) -> Result<Vec<u8>, NoMemory>
    ensures { IfOk result (λ spelt. spelt.items ≡ attribute_spelling text.now) }
{
    let mut out = Vec::with_capacity(alloc, text.len())?;
    append_escaped_attribute(&mut out, text)?;
    Ok(out)
}

/// Appends the spelling of a text between tags.
pub fn append_escaped_text(out: &mut Vec<u8>, text: &[u8]) -> Result<(), NoMemory>
    ensures { OnOk result (out.new.items ≡ out.old.items ++ text_spelling text.now) }
{
    append_spelling(out, Setting::Text, text)
}

/// Appends the spelling of an attribute's value.
pub fn append_escaped_attribute(out: &mut Vec<u8>, text: &[u8]) -> Result<(), NoMemory>
    ensures { OnOk result (out.new.items ≡ out.old.items ++ attribute_spelling text.now) }
{
    append_spelling(out, Setting::Attribute, text)
}

/// Appends the spelling of the text. Stretches in which nothing is escaped are copied as they are.
fn append_spelling(out: &mut Vec<u8>, setting: Setting, text: &[u8]) -> Result<(), NoMemory>
    ensures { OnOk result (out.new.items ≡ out.old.items ++ flat_map (spelt_in setting) text.now) }
{
    let mut rest = text;
    while !rest.is_empty() {
        let (chunk, behind) = rest.split_at(rest.len().min(CHUNK));
        append_chunk(out, setting, chunk)?;
        rest = behind;
    }
    Ok(())
}

fn append_chunk(out: &mut Vec<u8>, setting: Setting, chunk: &[u8]) -> Result<(), NoMemory>
    ensures { OnOk result (out.new.items ≡ out.old.items ++ flat_map (spelt_in setting) chunk.now) }
{
    if has_special(setting, chunk) {
        append_each(out, setting, chunk)
    } else {
        out.extend_from_slice(chunk)
    }
}

fn append_each(out: &mut Vec<u8>, setting: Setting, bytes: &[u8]) -> Result<(), NoMemory>
    ensures { OnOk result (out.new.items ≡ out.old.items ++ flat_map (spelt_in setting) bytes.now) }
{
    for byte in bytes {
        append_byte(out, setting, *byte)?;
    }
    Ok(())
}

fn append_byte(out: &mut Vec<u8>, setting: Setting, byte: u8) -> Result<(), NoMemory>
    ensures { OnOk result (out.new.items ≡ out.old.items ++ spelt_in setting byte) }
{
    match setting {
        Setting::Text => append_in_text(out, byte),
        Setting::Attribute => append_in_attribute(out, byte),
    }
}

fn append_in_text(out: &mut Vec<u8>, byte: u8) -> Result<(), NoMemory>
    ensures { OnOk result (out.new.items ≡ out.old.items ++ spelt_in_text byte) }
{
    match byte {
        b'&' => out.extend_from_slice(b"&amp;"),
        b'<' => out.extend_from_slice(b"&lt;"),
        b'>' => out.extend_from_slice(b"&gt;"),
        b'\r' => out.extend_from_slice(b"&#13;"),
        _ => out.push(byte).map_err(NoMemory::from),
    }
}

fn append_in_attribute(out: &mut Vec<u8>, byte: u8) -> Result<(), NoMemory>
    ensures { OnOk result (out.new.items ≡ out.old.items ++ spelt_in_attribute byte) }
{
    match byte {
        b'"' => out.extend_from_slice(b"&quot;"),
        b'\n' => out.extend_from_slice(b"&#10;"),
        b'\t' => out.extend_from_slice(b"&#9;"),
        _ => append_in_text(out, byte),
    }
}

/// Whether some byte is not spelt as it is.
fn has_special(setting: Setting, bytes: &[u8]) -> bool
    ensures { OnFalse result (flat_map (spelt_in setting) bytes.now ≡ bytes.now) }
{
    match setting {
        Setting::Text => has_special_in_text(bytes),
        Setting::Attribute => has_special_in_attribute(bytes),
    }
}

// No early end: so the loop looks at many bytes at once.
fn has_special_in_text(bytes: &[u8]) -> bool
    ensures { OnFalse result (text_spelling bytes.now ≡ bytes.now) }
{
    let mut any = false;
    for byte in bytes {
        any |= is_special_in_text(*byte);
    }
    any
}

fn has_special_in_attribute(bytes: &[u8]) -> bool
    ensures { OnFalse result (attribute_spelling bytes.now ≡ bytes.now) }
{
    let mut any = false;
    for byte in bytes {
        any |= is_special_in_attribute(*byte);
    }
    any
}

fn is_special_in_text(byte: u8) -> bool
    ensures { OnFalse result (spelt_in_text byte ≡ byte ∷ []) }
{
    matches!(byte, b'&' | b'<' | b'>' | b'\r')
}

fn is_special_in_attribute(byte: u8) -> bool
    ensures { OnFalse result (spelt_in_attribute byte ≡ byte ∷ []) }
{
    is_special_in_text(byte) || matches!(byte, b'"' | b'\n' | b'\t')
}
