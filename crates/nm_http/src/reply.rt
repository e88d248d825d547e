// The text of a reply (RFC 9112, sections 4 and 5).
ghost use Rattle.nm_http.specs.Reply as spec;
ghost use Rattle.std.specs.Fmt.{decimal};
ghost use Rattle.std.specs.Prelude.{◌≡◌, ◌++◌, [], IfOk, IsTrue, OnOk, is_some, unwrap_or};

use nm_ident::{NoMemory, Text};
use std::alloc::Global;

/// What is replied to a request: the status with its fields, and the body.
#[derive(Debug, Drop)]
pub struct HttpReply {
    /// One of the statuses that have a phrase: 200, 400, 404, 405, 409, 411, 413, 422, 431, 501, 503.
    pub status: u16,
    /// Whether the body is a document, as that of an assembly, and not plain text.
    pub document: bool,
    /// The number of the version that answered.
    pub number: Option<u32>,
    /// Whether a query was answered by a look of its own, or by a version that it was told of.
    pub fresh: Option<bool>,
    /// The methods of the route, separated by `, `.
    pub allow: Option<Text>,
    /// Whether the connection ends behind the reply.
    pub close: bool,
    pub body: Text,
}

/// The bytes of a reply: the status line, a line for each field, an empty line and the body. The fields
/// are, in this order, `Content-Type`, `Content-Length` (the bytes of the body), and where they are
/// asked for `Model-Number`, `Model-Look`, `Allow` and `Connection`. Each line ends with CR LF.
///
/// A 200 with the body `ok 1` and a line feed, and with the number 1, is
/// `HTTP/1.1 200 OK`, `Content-Type: text/plain; charset=utf-8`, `Content-Length: 5`,
/// `Model-Number: 1`, an empty line, and the body.
pub fn reply_text(alloc: Global, reply: &HttpReply) -> Result<Vec<u8>, NoMemory>
    requires { IsTrue (spec.is_status reply.now.status) }
    ensures { IfOk result (λ bytes. bytes.items ≡ spec.reply_text reply.now) }
{
    let mut out = Vec::new(alloc);
    append_first_lines(alloc, &mut out, reply)?;
    append_other_lines(alloc, &mut out, reply)?;
    append_line(&mut out, b"", b"")?;
    out.extend_from_slice(reply.body.as_slice())?;
    Ok(out)
}

/// Appends what each reply begins with.
#[tactic(auto, unfolding(crate::specs::Reply::first_lines))]
fn append_first_lines(alloc: Global, out: &mut Vec<u8>, reply: &HttpReply) -> Result<(), NoMemory>
    requires { IsTrue (spec.is_status reply.now.status) }
    ensures { OnOk result (out.new.items ≡ out.old.items ++ spec.first_lines reply.now) }
{
    append_status(alloc, out, reply.status)?;
    append_type(out, reply.document)?;
    append_length(alloc, out, reply.body.as_slice())
}

/// Appends the lines that only some replies have.
#[tactic(auto, unfolding(crate::specs::Reply::other_lines))]
fn append_other_lines(alloc: Global, out: &mut Vec<u8>, reply: &HttpReply) -> Result<(), NoMemory>
    ensures { OnOk result (out.new.items ≡ out.old.items ++ spec.other_lines reply.now) }
{
    append_version(alloc, out, reply.number)?;
    append_look(out, reply.fresh)?;
    append_allow(out, &reply.allow)?;
    append_close(out, reply.close)
}

/// Appends the status line.
#[tactic(auto, unfolding(crate::specs::Reply::status_line, crate::specs::Reply::line))]
fn append_status(alloc: Global, out: &mut Vec<u8>, status: u16) -> Result<(), NoMemory>
    requires { IsTrue (spec.is_status status) }
    ensures { OnOk result (out.new.items ≡ out.old.items ++ spec.status_line status) }
{
    let digits = u64::from(status).to_string(alloc)?;
    out.extend_from_slice(b"HTTP/1.1 ")?;
    out.extend_from_slice(digits.as_bytes())?;
    out.push(b' ')?;
    out.extend_from_slice(phrase(status))?;
    out.extend_from_slice(b"\r\n")?;
    Ok(())
}

/// The phrase of a status (RFC 9110, section 15).
#[tactic(auto, unfolding(crate::specs::Reply::phrase_of))]
fn phrase(status: u16) -> &'static [u8]
    requires { IsTrue (spec.is_status status) }
    ensures { result.now ≡ unwrap_or (spec.phrase_of status) [] }
{
    match status {
        200 => b"OK",
        400 => b"Bad Request",
        404 => b"Not Found",
        405 => b"Method Not Allowed",
        409 => b"Conflict",
        411 => b"Length Required",
        413 => b"Content Too Large",
        422 => b"Unprocessable Content",
        431 => b"Request Header Fields Too Large",
        501 => b"Not Implemented",
        503 => b"Service Unavailable",
        _ => b"",
    }
}

/// Appends a line of two texts: of a field the name with its colon and space, and the value.
#[tactic(auto, unfolding(crate::specs::Reply::line))]
fn append_line(out: &mut Vec<u8>, first: &[u8], second: &[u8]) -> Result<(), NoMemory>
    ensures { OnOk result (out.new.items ≡ out.old.items ++ spec.line (first.now ++ second.now)) }
{
    out.extend_from_slice(first)?;
    out.extend_from_slice(second)?;
    out.extend_from_slice(b"\r\n")
}

/// Appends a field line whose value is a number in decimal digits.
fn append_number(alloc: Global, out: &mut Vec<u8>, name: &[u8], number: u64) -> Result<(), NoMemory>
    ensures { OnOk result (out.new.items ≡ out.old.items ++ spec.line (name.now ++ decimal number)) }
{
    let digits = number.to_string(alloc)?;
    append_line(out, name, digits.as_bytes())
}

/// Appends the media type of the body.
fn append_type(out: &mut Vec<u8>, document: bool) -> Result<(), NoMemory>
    ensures { OnOk result (out.new.items ≡ out.old.items ++ spec.type_line document) }
{
    if document {
        append_line(out, b"Content-Type: ", b"application/rdf+xml")
    } else {
        append_line(out, b"Content-Type: ", b"text/plain; charset=utf-8")
    }
}

/// Appends the number of the body's bytes.
fn append_length(alloc: Global, out: &mut Vec<u8>, body: &[u8]) -> Result<(), NoMemory>
    ensures { OnOk result (out.new.items ≡ out.old.items ++ spec.length_line body.now) }
{
    append_number(alloc, out, b"Content-Length: ", body.len() as u64)
}

/// Appends the number of the version that answered.
fn append_version(alloc: Global, out: &mut Vec<u8>, number: Option<u32>) -> Result<(), NoMemory>
    ensures { OnOk result (out.new.items ≡ out.old.items ++ spec.number_line number) }
{
    match number {
        Some(number) => append_number(alloc, out, b"Model-Number: ", u64::from(number)),
        None => Ok(()),
    }
}

/// Appends how the version that answered was come by.
fn append_look(out: &mut Vec<u8>, fresh: Option<bool>) -> Result<(), NoMemory>
    ensures { OnOk result (out.new.items ≡ out.old.items ++ spec.look_line fresh) }
{
    match fresh {
        Some(true) => append_line(out, b"Model-Look: ", b"fresh"),
        Some(false) => append_line(out, b"Model-Look: ", b"told"),
        None => Ok(()),
    }
}

/// Appends the methods of the route.
fn append_allow(out: &mut Vec<u8>, allow: &Option<Text>) -> Result<(), NoMemory>
    ensures { OnOk result (out.new.items ≡ out.old.items ++ spec.allow_line allow.now) }
{
    match allow {
        Some(methods) => append_line(out, b"Allow: ", methods.as_slice()),
        None => Ok(()),
    }
}

/// Appends that the connection ends behind the reply.
fn append_close(out: &mut Vec<u8>, close: bool) -> Result<(), NoMemory>
    ensures { OnOk result (out.new.items ≡ out.old.items ++ spec.close_line close) }
{
    if close {
        append_line(out, b"Connection: ", b"close")
    } else {
        Ok(())
    }
}
