// What the head of a request says.
use http::Method;
use nm_ident::Text;

/// What the head of a request says.
#[derive(Debug, Drop)]
pub struct Request {
    /// The method. `get` is another method than `GET` (RFC 9110, section 9.1).
    pub method: Method,
    /// The target, which begins with `/`, as it was sent: nothing is decoded, and a query is part of it.
    pub path: Text,
    /// The bytes of the body, where the head gives their number; up to 9,999,999,999,999,999,999.
    pub length: Option<u64>,
    /// Whether the connection ends behind the reply, by the head alone.
    pub close: bool,
    /// Whether the client waits for `100 Continue` before it sends the body.
    pub expect: bool,
}
