// The head of a request.
ghost use Rattle.http_header.specs.Token.{IsToken};
ghost use Rattle.httparse.specs.Borrowed.{header_parts};
ghost use Rattle.httparse.specs.declared.Error.{Error};
ghost use Rattle.httparse.specs.declared.Status.TheVariants.{Complete};
ghost use Rattle.nm_http.specs.Head.{head_of};
ghost use Rattle.nm_http.specs.HttpError.{wants_memory};
ghost use Rattle.nm_http.specs.Requests as spec;
ghost use Rattle.nm_terms.specs.Due.{IsDue};
ghost use Rattle.std.specs.Bool.{OnFalse, OnTrue};
ghost use Rattle.std.specs.Prelude.{◌≡◌, ◌≢◌, ℕ, List, Ok, Some, map, option_copied};

use crate::error::HttpError;
use crate::fields::{any_closes, any_expects, content_length, has_field};
use crate::framing::size_refusal;
use crate::limits::MOST_FIELDS;
use crate::message::Request;
use http::Method;
use http::method::MethodError;
use httparse::{EMPTY_HEADER, Header, Status};
use nm_ident::Text;
use std::alloc::Global;

/// Reads the head of a request (RFC 9112, section 2.1), which ends with its first empty line.
///
/// The first of these that applies is answered: 431 where no head ends within 16,384 bytes, though as
/// many are there, or where more than 64 field lines end with CR LF; 400 where the bytes are not one head,
/// or its target does not begin with `/`; 501 where there is a `Transfer-Encoding`; 400 where a
/// `Content-Length` is not 1 to 19 digits, or two give different numbers.
pub fn request(alloc: Global, bytes: &[u8]) -> Result<Request, HttpError>
    ensures { IsDue wants_memory result (spec.request_of bytes.now) }
{
    match size_refusal(bytes) {
        Some(status) => Err(HttpError::Status(status)),
        None => read_head(alloc, bytes),
    }
}

/// Reads the bytes as one head.
fn read_head(alloc: Global, bytes: &[u8]) -> Result<Request, HttpError>
    ensures { IsDue wants_memory result (spec.by_head (head_of bytes.now)) }
{
    let mut room = [EMPTY_HEADER; MOST_FIELDS];
    let mut head = httparse::Request::new(&mut room);
    let parsed = head.parse(bytes);
    if !is_whole(parsed, bytes.len()) {
        return Err(HttpError::Status(400));
    }
    request_of_parsed(alloc, &head)
}

/// Whether a head was found that has so many bytes.
fn is_whole(parsed: httparse::Result<usize>, count: usize) -> bool
    ensures yes { OnTrue result (parsed ≡ Ok (Complete count)) }
    ensures other { OnFalse result (parsed ≢ Ok (Complete count)) }
{
    match parsed {
        Ok(Status::Complete(found)) => found == count,
        Ok(Status::Partial) => false,
        Err(_) => false,
    }
}

/// The request of a head that was parsed.
fn request_of_parsed(alloc: Global, head: &httparse::Request<'_, '_>) -> Result<Request, HttpError>
    ensures { (method target : List ℕ) (minor : ℕ)
        → option_copied head.now.method ≡ Some method → option_copied head.now.path ≡ Some target → head.now.version ≡ Some minor
        → IsToken method
        → IsDue wants_memory result (spec.by_words method target minor (map header_parts head.now.headers.now)) }
{
    match (head.method, head.path, head.version) {
        (Some(method), Some(target), Some(minor)) => {
            request_of_words(alloc, method, target, minor, head.headers)
        }
        _ => Err(HttpError::Status(400)),
    }
}

/// The request of the words and the fields of a head.
fn request_of_words(
    alloc: Global,
    method: &str,
    target: &str,
    minor: u8,
    fields: &[Header<'_>],
) -> Result<Request, HttpError>
    ensures { IsToken method.now → IsDue wants_memory result (spec.by_words method.now target.now minor (map header_parts fields.now)) }
{
    if fields.len() > MOST_FIELDS || !target.as_bytes().starts_with(b"/") {
        return Err(HttpError::Status(400));
    }
    sound_request(alloc, method, target, minor, fields)
}

/// The request, where its fields are sound.
#[tactic(auto, unfolding(crate::specs::Requests::request_by))]
fn sound_request(
    alloc: Global,
    method: &str,
    target: &str,
    minor: u8,
    fields: &[Header<'_>],
) -> Result<Request, HttpError>
    ensures { IsToken method.now → IsDue wants_memory result (spec.request_by method.now target.now minor (map header_parts fields.now)) }
{
    if has_field(fields, b"transfer-encoding") {
        return Err(HttpError::Status(501));
    }
    let Ok(length) = content_length(fields) else {
        return Err(HttpError::Status(400));
    };
    let method = method_of(alloc, method)?;
    let path = Text::of_slice(alloc, target.as_bytes())?;
    Ok(Request {
        method,
        path,
        length,
        close: closes_behind(minor, fields),
        expect: expects_word(minor, fields),
    })
}

/// Whether the connection ends behind the reply.
fn closes_behind(minor: u8, fields: &[Header<'_>]) -> bool
    ensures { result ≡ spec.closes_behind minor (map header_parts fields.now) }
{
    minor == 0 || any_closes(fields)
}

/// Whether the client waits for `100 Continue`.
fn expects_word(minor: u8, fields: &[Header<'_>]) -> bool
    ensures { result ≡ spec.expects_word minor (map header_parts fields.now) }
{
    minor == 1 && any_expects(fields)
}

/// The method of this name.
fn method_of(alloc: Global, name: &str) -> Result<Method, HttpError>
    ensures { IsToken name.now → IsDue wants_memory result (Ok name.now) }
{
    match Method::from_bytes(alloc, name.as_bytes()) {
        Ok(method) => Ok(method),
        Err(MethodError::Invalid) => Err(HttpError::Status(400)),
        Err(MethodError::OutOfMemory) => Err(HttpError::NoMemory),
    }
}
