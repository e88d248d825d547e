// Models are shared among threads and sent to others. This does not compile where one of them could
// not be.
use crate::document::Document;
use crate::header::Header;

fn crosses_threads<T: Send + Sync>() {}

const _: fn() = crosses_threads::<Header>;

const _: fn() = crosses_threads::<Document>;
