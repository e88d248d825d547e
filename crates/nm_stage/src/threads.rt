// Projects, steps and lists of projects are shared among threads and sent to others. This does not
// compile where one of them could not be.
use crate::live::Live;
use crate::project::{Project, Step};

fn crosses_threads<T: Send + Sync>() {}

const _: fn() = crosses_threads::<Project>;

const _: fn() = crosses_threads::<Step>;

const _: fn() = crosses_threads::<Live>;
