// The line that reports a statement.
ghost use Rattle.nm_statement.specs.Line.{bracketed, escaped, escaped_byte, hash_of, line_of, object_text, predicate_text, quoted};
ghost use Rattle.std.specs.Prelude.{◌≡◌, ◌++◌, ◌∷◌, [], IfOk, OnOk};

use crate::object::Object;
use crate::statement::Statement;
use nm_ident::{Ident, Name, NoMemory};
use std::alloc::Global;

/// The line that reports a statement, without an end of line.
///
/// The subject is written as `#` and the text of its `rdf:ID`, the predicate as its namespace and
/// local name between `<` and `>`, and the object as a literal between two `"`, as a resource like
/// the subject, or as an IRI between `<` and `>`. A space stands between the three. In predicates,
/// literals and IRIs `\`, `"`, LF, CR and tab are written `\\`, `\"`, `\n`, `\r` and `\t`; all other
/// bytes are as they are.
///
/// A name of a substation is reported as
/// `#_20000000-0000-4000-8000-000000000001 <http://iec.ch/TC57/2013/CIM-schema-cim16#IdentifiedObject.name> "North"`.
pub fn line(alloc: Global, statement: &Statement) -> Result<Vec<u8>, NoMemory>
    ensures { IfOk result (λ line. line.items ≡ line_of statement.now) }
{
    let mut line = Vec::new(alloc);
    append_ident(&mut line, &statement.subject)?;
    line.push(b' ')?;
    append_predicate(&mut line, &statement.predicate)?;
    line.push(b' ')?;
    append_object(&mut line, &statement.object)?;
    Ok(line)
}

/// Appends `#` and the text of the identifier's `rdf:ID`.
fn append_ident(line: &mut Vec<u8>, ident: &Ident) -> Result<(), NoMemory>
    ensures { OnOk result (line.new.items ≡ line.old.items ++ hash_of ident.now) }
{
    line.push(b'#')?;
    ident.append_id(line)
}

/// Appends the namespace and the local name between `<` and `>`.
fn append_predicate(line: &mut Vec<u8>, predicate: &Name) -> Result<(), NoMemory>
    ensures { OnOk result (line.new.items ≡ line.old.items ++ predicate_text predicate.now) }
{
    line.push(b'<')?;
    append_escaped(line, predicate.ns().as_slice())?;
    append_escaped(line, predicate.local().as_slice())?;
    line.push(b'>')?;
    Ok(())
}

/// Appends the object.
fn append_object(line: &mut Vec<u8>, object: &Object) -> Result<(), NoMemory>
    ensures { OnOk result (line.new.items ≡ line.old.items ++ object_text object.now) }
{
    match object {
        Object::Literal(literal) => append_between(line, b'"', literal.as_slice(), b'"'),
        Object::Resource(ident) => append_ident(line, ident),
        Object::Iri(iri) => append_between(line, b'<', iri.as_slice(), b'>'),
    }
}

/// Appends the text, escaped, between the two bytes.
fn append_between(line: &mut Vec<u8>, before: u8, text: &[u8], after: u8) -> Result<(), NoMemory>
    ensures { OnOk result (line.new.items ≡ line.old.items ++ before ∷ escaped text.now ++ after ∷ []) }
{
    line.push(before)?;
    append_escaped(line, text)?;
    line.push(after)?;
    Ok(())
}

/// Appends the text with its special bytes behind a backslash.
fn append_escaped(line: &mut Vec<u8>, text: &[u8]) -> Result<(), NoMemory>
    ensures { OnOk result (line.new.items ≡ line.old.items ++ escaped text.now) }
{
    for byte in text {
        append_escaped_byte(line, *byte)?;
    }
    Ok(())
}

/// Appends the byte, behind a backslash where it is special.
fn append_escaped_byte(line: &mut Vec<u8>, byte: u8) -> Result<(), NoMemory>
    ensures { OnOk result (line.new.items ≡ line.old.items ++ escaped_byte byte) }
{
    match byte {
        b'\\' => line.extend_from_slice(b"\\\\")?,
        b'"' => line.extend_from_slice(b"\\\"")?,
        b'\n' => line.extend_from_slice(b"\\n")?,
        b'\r' => line.extend_from_slice(b"\\r")?,
        b'\t' => line.extend_from_slice(b"\\t")?,
        _ => line.push(byte)?,
    }
    Ok(())
}
