//! Heads of requests, as clients sent them and as RFC 9112 shows them, and replies.
use crate::client_heads as clients;
use nm_http::{HttpError, HttpReply, Request, reply_text, request};
use nm_ident::{NoMemory, Text};
use std::alloc::Global;

// The examples of RFC 9112, sections 3.2.1 to 3.2.4, and of RFC 9110, section 10.1.1. A target that does not
// begin with `/` is not taken.

const ORIGIN_FORM: &[u8] = b"GET /where?q=now HTTP/1.1\r\nHost: www.example.org\r\n\r\n";

const ABSOLUTE_FORM: &[u8] =
    b"GET http://www.example.org/pub/WWW/TheProject.html HTTP/1.1\r\nHost: www.example.org\r\n\r\n";

const AUTHORITY_FORM: &[u8] =
    b"CONNECT www.example.com:80 HTTP/1.1\r\nHost: www.example.com\r\n\r\n";

const ASTERISK_FORM: &[u8] = b"OPTIONS * HTTP/1.1\r\nHost: www.example.org:8001\r\n\r\n";

const EXPECTING: &[u8] =
    b"PUT /somewhere/fun HTTP/1.1\r\nHost: origin.example.com\r\nContent-Type: video/h264\r\nContent-Length: 1234567890987\r\nExpect: 100-continue\r\n\r\n";

// The reply to the first command that a service accepts.

const REPLY: &[u8] =
    b"HTTP/1.1 200 OK\r\nContent-Type: text/plain; charset=utf-8\r\nContent-Length: 5\r\nModel-Number: 1\r\n\r\nok 1\n";

/// What is read of a head, or the status with which it is refused.
fn told(alloc: Global, head: &[u8]) -> Result<String, NoMemory> {
    match request(alloc, head) {
        Ok(request) => told_request(alloc, &request),
        Err(HttpError::Status(status)) => format!(in alloc; "{status}"),
        Err(HttpError::NoMemory) => Err(NoMemory),
    }
}

/// The method, the path, the length or `-`, whether the connection ends, and whether the client waits.
fn told_request(alloc: Global, request: &Request) -> Result<String, NoMemory> {
    let method = request.method.as_str();
    let path = text_of(&request.path);
    match request.length {
        Some(length) => {
            format!(in alloc;
                "{method} {path} {length} {} {}",
                request.close, request.expect
            )
        }
        None => format!(in alloc; "{method} {path} - {} {}", request.close, request.expect),
    }
}

/// The text, or nothing where it is not UTF-8.
fn text_of(text: &Text) -> &str {
    match str::from_utf8(text.as_slice()) {
        Ok(text) => text,
        Err(_) => "",
    }
}

fn is_told(alloc: Global, head: &[u8], due: &str) -> Result<bool, NoMemory> {
    Ok(told(alloc, head)?.as_str() == due)
}

#[test]
fn heads_of_curl_are_read(rt: HostRuntime) -> Result<(), NoMemory> {
    let alloc = rt.alloc();
    let cases: [(&[u8], &str); 12] = [
        (clients::CURL_GET, "GET /projects - false false"),
        (clients::CURL_GET_VERSION_1_0, "GET /log - true false"),
        (clients::CURL_GET_THAT_CLOSES, "GET /log - true false"),
        (clients::CURL_HEAD, "HEAD /log - false false"),
        (clients::CURL_OPTIONS, "400"),
        (clients::CURL_TARGET_WITHOUT_SLASH, "400"),
        (
            clients::CURL_POST,
            "POST /projects/2027-04-01 1078 false false",
        ),
        (
            clients::CURL_POST_WITHOUT_LENGTH,
            "POST /projects/2027-02-29 - false false",
        ),
        (
            clients::CURL_PUT,
            "PUT /project/30000000-0000-4000-8000-000000000001 2000000 false true",
        ),
        (clients::CURL_PUT_IN_CHUNKS, "501"),
        (
            clients::CURL_PUT_DAY,
            "PUT /project/30000000-0000-4000-8000-000000000001/day/2027-05-01 - false false",
        ),
        (
            clients::CURL_DELETE,
            "DELETE /project/30000000-0000-4000-8000-000000000001 - false false",
        ),
    ];
    for (head, due) in cases {
        assert!(rt; is_told(alloc, head, due)?, "{due}");
    }
    Ok(())
}

#[test]
fn heads_of_python_and_chromium_are_read(rt: HostRuntime) -> Result<(), NoMemory> {
    let alloc = rt.alloc();
    let cases: [(&[u8], &str); 9] = [
        (clients::PYTHON_GET, "GET /log - false false"),
        (
            clients::PYTHON_GET_BY_URLLIB,
            "GET /timeline/_20000000-0000-4000-8000-000000000001 - true false",
        ),
        (
            clients::PYTHON_POST,
            "POST /projects/2027-04-01 1078 false false",
        ),
        (
            clients::PYTHON_PUT_DAY,
            "PUT /project/30000000-0000-4000-8000-000000000001/day/2027-05-01 0 false false",
        ),
        (clients::PYTHON_PUT_IN_CHUNKS, "501"),
        (clients::CHROMIUM_PAGE, "GET /log - false false"),
        (clients::CHROMIUM_ICON, "GET /favicon.ico - false false"),
        (
            clients::CHROMIUM_POST,
            "POST /projects/2027-04-01 4 false false",
        ),
        (
            clients::CHROMIUM_DELETE,
            "DELETE /project/30000000-0000-4000-8000-000000000001 - false false",
        ),
    ];
    for (head, due) in cases {
        assert!(rt; is_told(alloc, head, due)?, "{due}");
    }
    Ok(())
}

#[test]
fn heads_of_the_standard_are_read(rt: HostRuntime) -> Result<(), NoMemory> {
    let alloc = rt.alloc();
    let cases: [(&[u8], &str); 5] = [
        (ORIGIN_FORM, "GET /where?q=now - false false"),
        (ABSOLUTE_FORM, "400"),
        (AUTHORITY_FORM, "400"),
        (ASTERISK_FORM, "400"),
        (EXPECTING, "PUT /somewhere/fun 1234567890987 false true"),
    ];
    for (head, due) in cases {
        assert!(rt; is_told(alloc, head, due)?, "{due}");
    }
    Ok(())
}

#[test]
fn fields_are_judged(rt: HostRuntime) -> Result<(), NoMemory> {
    let alloc = rt.alloc();
    let cases: [(&[u8], &str); 12] = [
        (
            b"GET / HTTP/1.0\r\nExpect: 100-continue\r\n\r\n",
            "GET / - true false",
        ),
        (
            b"GET / HTTP/1.1\r\nConnection: keep-alive, close\r\n\r\n",
            "GET / - true false",
        ),
        (
            b"GET / HTTP/1.1\r\nCONNECTION: closed\r\n\r\n",
            "GET / - false false",
        ),
        (
            b"PUT / HTTP/1.1\r\nexpect: 100-CONTINUE\r\n\r\n",
            "PUT / - false true",
        ),
        (
            b"PUT / HTTP/1.1\r\nContent-Length: 5\r\ncontent-length: 05\r\n\r\n",
            "PUT / 5 false false",
        ),
        (
            b"PUT / HTTP/1.1\r\nContent-Length: 5\r\nContent-Length: 6\r\n\r\n",
            "400",
        ),
        (b"PUT / HTTP/1.1\r\nContent-Length: +5\r\n\r\n", "400"),
        (b"PUT / HTTP/1.1\r\nContent-Length:\r\n\r\n", "400"),
        (
            b"PUT / HTTP/1.1\r\nContent-Length: 00000000000000000005\r\n\r\n",
            "400",
        ),
        (
            b"PUT / HTTP/1.1\r\nContent-Length: 9999999999999999999\r\n\r\n",
            "PUT / 9999999999999999999 false false",
        ),
        (
            b"PUT / HTTP/1.1\r\nTransfer-Encoding:\r\nContent-Length: x\r\n\r\n",
            "501",
        ),
        (b"GET / HTTP/1.1\n\n\r\n\r\n", "400"),
    ];
    for (head, due) in cases {
        assert!(rt; is_told(alloc, head, due)?, "{due}");
    }
    Ok(())
}

/// A head of so many bytes.
fn head_of_length(alloc: Global, length: usize) -> Result<Vec<u8>, NoMemory> {
    let mut head = b"GET / HTTP/1.1\r\nA: ".to_vec(alloc)?;
    for _ in 23..length {
        head.push(b'a')?;
    }
    head.extend_from_slice(b"\r\n\r\n")?;
    Ok(head)
}

/// A head with so many fields, each with a line end of its own kind.
fn head_of_fields(alloc: Global, count: usize, field: &[u8]) -> Result<Vec<u8>, NoMemory> {
    let mut head = b"GET / HTTP/1.1\r\n".to_vec(alloc)?;
    for _ in 0..count {
        head.extend_from_slice(field)?;
    }
    head.extend_from_slice(b"\r\n")?;
    Ok(head)
}

#[test]
fn large_heads_are_refused(rt: HostRuntime) -> Result<(), NoMemory> {
    let alloc = rt.alloc();
    assert!(rt;
        is_told(
            alloc,
            &head_of_length(alloc, 16_384)?,
            "GET / - false false"
        )?
    );
    assert!(rt; is_told(alloc, &head_of_length(alloc, 16_385)?, "431")?);
    assert!(rt;
        is_told(
            alloc,
            &head_of_fields(alloc, 64, b"A: a\r\n")?,
            "GET / - false false"
        )?
    );
    assert!(rt; is_told(alloc, &head_of_fields(alloc, 65, b"A: a\r\n")?, "431")?);
    assert!(rt; is_told(alloc, &head_of_fields(alloc, 33, b"A: a\nB: b\r\n")?, "400")?);
    Ok(())
}

#[test]
fn a_reply_has_its_lines_in_order(rt: HostRuntime) -> Result<(), NoMemory> {
    let alloc = rt.alloc();
    let reply = HttpReply {
        status: 200,
        document: false,
        number: Some(1),
        fresh: None,
        allow: None,
        close: false,
        body: Text::of_slice(alloc, b"ok 1\n")?,
    };
    let text = reply_text(alloc, &reply)?;
    assert!(rt; text.as_slice() == REPLY);
    Ok(())
}
