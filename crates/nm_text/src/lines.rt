// Ends of lines (XML 1.0, section 2.11).
ghost use Rattle.nm_text.specs.LineEnds as spec;
ghost use Rattle.std.specs.Prelude.{◌≡◌, ◌∷◌, ◌++◌, ◌≤◌, length, IfOk, OnOk};

use crate::error::NoMemory;
use crate::split::split_before;
use std::alloc::Global;

/// The bytes with CR LF, and every other CR, as LF.
///
/// This is what a CDATA section stands for.
pub fn normal_lines(alloc: Global, bytes: &[u8]) -> Result<Vec<u8>, NoMemory>
    ensures { IfOk result (λ lines. lines.items ≡ spec.normal_lines bytes.now) }
{
    let mut lines = Vec::with_capacity(alloc, bytes.len())?;
    append_lines(&mut lines, bytes)?;
    Ok(lines)
}

/// Appends the bytes with each end of a line as LF.
pub fn append_lines(out: &mut Vec<u8>, bytes: &[u8]) -> Result<(), NoMemory>
    ensures { OnOk result (out.new.items ≡ out.old.items ++ spec.normal_lines bytes.now) }
{
    let mut rest = bytes;
    loop {
        let (line, end) = split_before(b'\r', rest);
        out.extend_from_slice(line)?;
        let Some((_, behind)) = end.split_first() else {
            return Ok(());
        };
        out.push(b'\n')?;
        rest = behind_line_feed(behind);
    }
}

/// What stands behind the end of a line that CR begins.
fn behind_line_feed(bytes: &[u8]) -> &[u8]
    ensures read { spec.normal_lines (13 ∷ bytes.now) ≡ 10 ∷ spec.normal_lines result.now }
    ensures shorter { length result.now ≤ length bytes.now }
{
    match bytes {
        [b'\n', behind @ ..] => behind,
        _ => bytes,
    }
}
