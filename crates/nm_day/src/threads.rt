// Days and keys are shared among threads and sent to others. This does not compile where one of them
// could not be.
use crate::day::Day;
use crate::key::Key;

fn crosses_threads<T: Send + Sync>() {}

const _: fn() = crosses_threads::<Day>;

const _: fn() = crosses_threads::<Key>;
