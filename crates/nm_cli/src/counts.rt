// How many statements a model has.
ghost use Rattle.nm_cli.specs.Report as spec;
ghost use Rattle.std.specs.Prelude.{◌≡◌, IfOk};

use nm_base::NoMemory;
use nm_ident::id_text;
use nm_model::Document;
use nm_session::append_count;
use std::alloc::Global;

/// The kind and the identifier of a model, and how many statements it has.
pub fn counts_line(alloc: Global, document: &Document) -> Result<Vec<u8>, NoMemory>
    ensures { IfOk result (λ out. out.items ≡ spec.counts_line document.now) }
{
    let mut out = Vec::new(alloc);
    match document {
        Document::Full(full) => {
            out.extend_from_slice(b"full ")?;
            out.extend_from_slice(&id_text(full.header.id))?;
            append_count(alloc, &mut out, b" ", full.statements.len())?;
        }
        Document::Difference(difference) => {
            out.extend_from_slice(b"difference ")?;
            out.extend_from_slice(&id_text(difference.header.id))?;
            append_count(alloc, &mut out, b" ", difference.change.pre.len())?;
            append_count(alloc, &mut out, b" ", difference.change.rev.len())?;
            append_count(alloc, &mut out, b" ", difference.change.fwd.len())?;
        }
    }
    out.push(b'\n')?;
    Ok(out)
}
