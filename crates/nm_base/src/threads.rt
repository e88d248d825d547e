// What holds bytes is sent to other threads, and an adapter wherever its reader or writer can be. This
// does not compile where one of them could not be.
use crate::adapters::{ReadSource, WriteSink};
use crate::memory::{MemorySink, MemorySource};
use crate::steady::{SteadySink, SteadySource};
use std::io;

fn needs_send<T: Send>() {}

fn adapters_are_send<R: Send, W: Send>() {
    needs_send::<ReadSource<R>>();
    needs_send::<WriteSink<W>>();
}

const _: fn() = needs_send::<MemorySource>;

const _: fn() = needs_send::<MemorySink>;

const _: fn() = needs_send::<SteadySource>;

const _: fn() = needs_send::<SteadySink>;

const _: fn() = adapters_are_send::<io::Empty, io::Sink>;
