//! Connections for a service over HTTP/1.1 (RFC 9112): what one is, where they come from, and the words
//! of the command line that will ask for the service. Nothing is answered on them yet.
//!
//! A [`Door`] hands out links and takes them back, and a [`Link`] is a connection as a source and a
//! sink. [`MemoryDoor`] and [`MemoryLink`] fail at calls of the caller's choice; [`TcpDoor`] and
//! [`TcpLink`] stand over a listener of TCP.
#![tactic(auto)]

mod arguments;
mod door;
mod ended;
mod limits;
mod link;
mod memory_door;
mod memory_link;
mod tcp;
mod threads;

pub use arguments::serve_form;
pub use door::Door;
pub use ended::Ended;
pub use link::Link;
pub use memory_door::MemoryDoor;
pub use memory_link::MemoryLink;
pub use tcp::{TcpDoor, TcpLink};
