//! Requests and replies of HTTP/1.1 (RFC 9112), as the service of the store speaks it: the head of a
//! request, its route, and the text of a reply.
#![tactic(auto)]

mod call;
mod error;
mod fields;
mod framing;
mod head;
mod laws;
mod limits;
mod message;
mod paths;
mod reply;
mod router;
mod segments;
mod threads;

pub use call::Route;
pub use error::HttpError;
pub use head::request;
pub use laws::heads_are_found;
pub use limits::{LONGEST_HEAD, MOST_FIELDS};
pub use message::Request;
pub use reply::{HttpReply, reply_text};
pub use router::Routes;
