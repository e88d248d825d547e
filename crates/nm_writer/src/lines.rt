// The lines of a canonical document, appended to what is written.
ghost use Rattle.nm_writer.specs.Canonical.{closing, model_line, value_line};
ghost use Rattle.std.specs.List.{flat_map};
ghost use Rattle.std.specs.Prelude.{◌≡◌, ◌++◌, OnOk};

use nm_ident::{NoMemory, id_text};
use nm_text::append_escaped_text;

/// Appends the pieces, one after the other.
pub fn append_all(out: &mut Vec<u8>, pieces: &[&[u8]]) -> Result<(), NoMemory>
    ensures { OnOk result (out.new.items ≡ out.old.items ++ flat_map (λ piece. piece.now) pieces.now) }
{
    for piece in pieces {
        out.extend_from_slice(piece)?;
    }
    Ok(())
}

/// Appends an element that holds a text.
pub fn append_value_line(out: &mut Vec<u8>, tag: &[u8], text: &[u8]) -> Result<(), NoMemory>
    ensures { OnOk result (out.new.items ≡ out.old.items ++ value_line tag.now text.now) }
{
    append_all(out, &[b"<", tag, b">"])?;
    append_escaped_text(out, text)?;
    append_closing(out, tag)
}

/// Appends an element of a header that points to a model.
pub fn append_model_line(out: &mut Vec<u8>, tag: &[u8], id: u128) -> Result<(), NoMemory>
    ensures { OnOk result (out.new.items ≡ out.old.items ++ model_line tag.now id) }
{
    append_all(
        out,
        &[
            b"<",
            tag,
            b" rdf:resource=\"urn:uuid:",
            &id_text(id),
            b"\"/>\n",
        ],
    )
}

/// Appends the closing tag of an element.
pub fn append_closing(out: &mut Vec<u8>, tag: &[u8]) -> Result<(), NoMemory>
    ensures { OnOk result (out.new.items ≡ out.old.items ++ closing tag.now) }
{
    append_all(out, &[b"</", tag, b">\n"])
}
