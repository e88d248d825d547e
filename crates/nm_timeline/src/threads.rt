// Parts, marks and timelines are shared among threads and sent to others. This does not compile
// where one of them could not be.
use crate::mark::Mark;
use crate::part::Part;
use crate::timeline::Timeline;

fn crosses_threads<T: Send + Sync>() {}

const _: fn() = crosses_threads::<Part>;

const _: fn() = crosses_threads::<Mark>;

const _: fn() = crosses_threads::<Timeline>;
