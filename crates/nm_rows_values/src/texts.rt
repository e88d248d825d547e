//! Texts of XML: references, ends of lines, escapes and characters.
use nm_ident::NoMemory;
use nm_text::{
    Place, RefError, append_attribute, append_run, escape_attribute, escape_text, is_text,
    is_white_text, normal_lines, read_attribute, read_references, read_run,
};
use std::alloc::Global;
use std::test::Fail;

fn is_read_as(alloc: Global, bytes: &[u8], due: &[u8]) -> Result<bool, RefError> {
    Ok(read_references(alloc, bytes)?.as_slice() == due)
}

#[test]
fn reads_references(rt: HostRuntime) -> Result<(), Fail> {
    let bytes = b"a&lt;&#x41;&#00000000000000000065;&apos;&#x10FFFF;";
    assert!(rt; is_read_as(rt.alloc(), bytes, "a<AA'\u{10FFFF}".as_bytes())?);
    Ok(())
}

/// Whether the ampersand at this place is the first that begins no reference.
fn is_refused_at(alloc: Global, bytes: &[u8], place: usize) -> bool {
    matches!(&read_references(alloc, bytes), Err(RefError::At(at)) if *at == place)
}

#[test]
fn names_the_first_ampersand_that_begins_no_reference(rt: HostRuntime) {
    for (bytes, place) in [
        (b"a&b;".as_slice(), 1),
        (b"&lt;& amp;&c;", 4),
        (b"&#xD800;", 0),
        (b"&#xFFFE;", 0),
        (b"&#x110000;", 0),
        (b"&#x1000000000000000041;", 0),
        (b"&#6A;", 0),
        (b"&#x;", 0),
        (b"&AMP;", 0),
        (b"&amp", 0),
    ] {
        assert!(rt; is_refused_at(rt.alloc(), bytes, place));
    }
}

fn has_lines(alloc: Global, bytes: &[u8], due: &[u8]) -> Result<bool, NoMemory> {
    Ok(normal_lines(alloc, bytes)?.as_slice() == due)
}

fn is_run_read_as(alloc: Global, bytes: &[u8], due: &[u8]) -> Result<bool, RefError> {
    Ok(read_run(alloc, bytes)?.as_slice() == due)
}

/// Whether the text of the run, with that of another one behind it, is this one.
fn are_runs_read_as(
    alloc: Global,
    bytes: &[u8],
    others: &[u8],
    due: &[u8],
) -> Result<bool, RefError> {
    let mut text = read_run(alloc, bytes)?;
    append_run(&mut text, others)?;
    Ok(text.as_slice() == due)
}

fn is_attribute_read_as(alloc: Global, bytes: &[u8], due: &[u8]) -> Result<bool, RefError> {
    Ok(read_attribute(alloc, bytes)?.as_slice() == due)
}

/// Whether the value of the attribute, with that of another one behind it, is this one.
fn are_attributes_read_as(
    alloc: Global,
    bytes: &[u8],
    others: &[u8],
    due: &[u8],
) -> Result<bool, RefError> {
    let mut value = read_attribute(alloc, bytes)?;
    append_attribute(&mut value, others)?;
    Ok(value.as_slice() == due)
}

#[test]
fn reads_lines_and_values(rt: HostRuntime) -> Result<(), Fail> {
    let alloc = rt.alloc();
    let bytes = b"a\r\nb\rc\td&#13;&#10;";
    assert!(rt; has_lines(alloc, b"a\r\nb\r\r\nc\r", b"a\nb\n\nc\n")?);
    assert!(rt; is_run_read_as(alloc, bytes, b"a\nb\nc\td\r\n")?);
    assert!(rt; are_runs_read_as(alloc, bytes, b"\r&amp;", b"a\nb\nc\td\r\n\n&")?);
    assert!(rt; is_attribute_read_as(alloc, bytes, b"a b c d\r\n")?);
    assert!(rt; are_attributes_read_as(alloc, bytes, b"\r&quot;", b"a b c d\r\n \"")?);
    Ok(())
}

fn is_text_escaped_as(alloc: Global, text: &[u8], due: &[u8]) -> Result<bool, NoMemory> {
    Ok(escape_text(alloc, text)?.as_slice() == due)
}

fn is_attribute_escaped_as(alloc: Global, text: &[u8], due: &[u8]) -> Result<bool, NoMemory> {
    Ok(escape_attribute(alloc, text)?.as_slice() == due)
}

#[test]
fn escapes_text_and_attributes(rt: HostRuntime) -> Result<(), NoMemory> {
    let special = b"a&b<c>d\"e'f\r\n\tg";
    let text = b"a&amp;b&lt;c&gt;d\"e'f&#13;\n\tg";
    let value = b"a&amp;b&lt;c&gt;d&quot;e'f&#13;&#10;&#9;g";
    assert!(rt; is_text_escaped_as(rt.alloc(), special, text)?);
    assert!(rt; is_attribute_escaped_as(rt.alloc(), special, value)?);
    Ok(())
}

/// Whether a character is begun, which this byte ends and a letter does not go on.
fn is_begun(place: Place, last: &[u8]) -> bool {
    place.is_open()
        && !place.is_whole()
        && place.after(last).is_whole()
        && !place.after(b"o").is_open()
}

#[test]
fn tells_texts(rt: HostRuntime) {
    assert!(rt; is_text("Sundsvall \u{D7FF}\u{E000}\u{FFFD}\u{10000}\t".as_bytes()));
    assert!(rt; !is_text("\u{FFFE}".as_bytes()));
    assert!(rt; !is_text(b"\xC0\xAF"));
    assert!(rt; is_begun(Place::Between.after(b"Sundsvall \xC3"), b"\xB6"));
    assert!(rt; is_white_text(b" \t\r\n") && !is_white_text(b" a"));
}
