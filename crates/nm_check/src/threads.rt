// Timelines and breaks are shared among threads and sent to others. This does not compile where one
// of them could not be.
use crate::breaks::{Break, EditError};
use crate::timelines::Timelines;

fn crosses_threads<T: Send + Sync>() {}

const _: fn() = crosses_threads::<Break>;

const _: fn() = crosses_threads::<EditError>;

const _: fn() = crosses_threads::<Timelines>;
