// Versions, and what stands in them, are shared among threads and sent to others. This does not
// compile where one of them could not be.
use crate::command::{Command, Entry};
use crate::line::Line;
use crate::refusal::Refusal;
use crate::row::Row;
use crate::version::Version;

fn crosses_threads<T: Send + Sync>() {}

const _: fn() = crosses_threads::<Version>;

const _: fn() = crosses_threads::<Command>;

const _: fn() = crosses_threads::<Entry>;

const _: fn() = crosses_threads::<Refusal>;

const _: fn() = crosses_threads::<Row>;

const _: fn() = crosses_threads::<Line>;
