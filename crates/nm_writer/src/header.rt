// The header of a canonical document.
ghost use Rattle.nm_writer.specs.Canonical.{header_lines, header_start, optional_line, model_line, value_line};
ghost use Rattle.std.specs.List.{flat_map};
ghost use Rattle.std.specs.Prelude.{◌≡◌, ◌++◌, OnOk};

use crate::lines::{append_all, append_model_line, append_value_line};
use nm_ident::{Ids, NoMemory, Texts, id_text};
use nm_model::Header;
use nm_statement::Literal;

/// Appends the opening tag of a header.
pub fn append_header_start(out: &mut Vec<u8>, tag: &[u8], id: u128) -> Result<(), NoMemory>
    ensures { OnOk result (out.new.items ≡ out.old.items ++ header_start tag.now id) }
{
    append_all(
        out,
        &[b"<", tag, b" rdf:about=\"urn:uuid:", &id_text(id), b"\">\n"],
    )
}

/// Appends the properties of a header.
pub fn append_header_lines(out: &mut Vec<u8>, header: &Header) -> Result<(), NoMemory>
    ensures { OnOk result (out.new.items ≡ out.old.items ++ header_lines header.now) }
{
    append_optional(out, b"md:Model.created", &header.created)?;
    append_optional(out, b"md:Model.scenarioTime", &header.scenario_time)?;
    append_optional(out, b"md:Model.version", &header.version)?;
    append_optional(out, b"md:Model.description", &header.description)?;
    append_optional(out, b"md:Model.modelingAuthoritySet", &header.authority)?;
    append_texts(out, b"md:Model.profile", &header.profiles)?;
    append_models(out, b"md:Model.DependentOn", &header.depends)?;
    append_models(out, b"md:Model.Supersedes", &header.supersedes)
}

fn append_optional(out: &mut Vec<u8>, tag: &[u8], value: &Option<Literal>) -> Result<(), NoMemory>
    ensures { OnOk result (out.new.items ≡ out.old.items ++ optional_line tag.now value.now) }
{
    match value {
        Some(text) => append_value_line(out, tag, text.as_slice()),
        None => Ok(()),
    }
}

fn append_texts(out: &mut Vec<u8>, tag: &[u8], texts: &Texts) -> Result<(), NoMemory>
    ensures { OnOk result (out.new.items ≡ out.old.items ++ flat_map (value_line tag.now) texts.now) }
{
    for text in texts.as_slice() {
        append_value_line(out, tag, text.as_slice())?;
    }
    Ok(())
}

fn append_models(out: &mut Vec<u8>, tag: &[u8], ids: &Ids) -> Result<(), NoMemory>
    ensures { OnOk result (out.new.items ≡ out.old.items ++ flat_map (model_line tag.now) ids.now) }
{
    for id in ids.as_slice() {
        append_model_line(out, tag, *id)?;
    }
    Ok(())
}
