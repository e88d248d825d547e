// Links and doors are sent to other threads. This does not compile where one of them could not be.
use crate::ended::Ended;
use crate::memory_door::MemoryDoor;
use crate::memory_link::MemoryLink;
use crate::tcp::{TcpDoor, TcpLink};

fn is_sent<T: Send>() {}

const _: fn() = is_sent::<Ended>;

const _: fn() = is_sent::<MemoryLink>;

const _: fn() = is_sent::<MemoryDoor>;

const _: fn() = is_sent::<TcpLink>;

const _: fn() = is_sent::<TcpDoor<'static>>;
