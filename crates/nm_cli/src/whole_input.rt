// Reading a document to its end.
ghost use Rattle.std.specs.Prelude.{◌≡◌, ◌<◌, ◌≤◌, ◌⊎◌, length, take, IfOk};
ghost use Rattle.std.specs.Io.KnownBytes.{Consumes, IsAtEnd};
ghost use Rattle.nm_cli.specs.Reported.{CountsReads};
ghost use Rattle.nm_model.specs.Limits.{longest_document};

use crate::failure::Failure;
use nm_base::Source;
use nm_model::LONGEST_DOCUMENT;
use std::alloc::Global;

/// How many bytes are asked for at once.
const CHUNK: usize = 65_536;

/// Reads a source to its end, or to more bytes than a document may have.
pub fn read_through<S: Source>(alloc: Global, source: &mut S) -> Result<Vec<u8>, Failure>
    ensures taken { IfOk result (λ bytes. Consumes (S.left source.old) (S.left source.new) bytes.items) }
    ensures through { IfOk result (λ bytes. IsAtEnd (S.left source.new) ⊎ (longest_document < length bytes.items)) }
    ensures counted { CountsReads (S.faults source.old) (S.faults source.new) result }
    ensures beside_stays { S.beside source.new ≡ S.beside source.old }
{
    let mut bytes = Vec::new(alloc);
    let mut chunk = [0; CHUNK];
    'reading: while bytes.len() <= LONGEST_DOCUMENT {
        let count = read_chunk(source, &mut chunk)?;
        if count == 0 {
            return Ok(bytes);
        }
        bytes.extend_from_slice(&chunk[..count])?;
    }
    Ok(bytes)
}

/// Reads some bytes, or none at the end of the source.
fn read_chunk<S: Source>(source: &mut S, chunk: &mut [u8]) -> Result<usize, Failure>
    requires { 0 < length chunk.old }
    ensures within { IfOk result (λ count. count ≤ length chunk.new) }
    ensures taken { IfOk result (λ count. Consumes (S.left source.old) (S.left source.new) (take count chunk.new)) }
    ensures end { IfOk result (λ count. count ≡ 0 → IsAtEnd (S.left source.new)) }
    ensures counted { CountsReads (S.faults source.old) (S.faults source.new) result }
    ensures beside_stays { S.beside source.new ≡ S.beside source.old }
{
    source.read(chunk).map_err(|_| Failure::ReadFault)
}
