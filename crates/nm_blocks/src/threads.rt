// A list is shared among threads and sent to others wherever its items are. This does not compile
// where it could not be.
use crate::blocks::Blocks;
use crate::keyed::Keyed;

fn crosses_threads<T: Send + Sync>() {}

fn lists_cross<T: Keyed + Send + Sync>() {
    crosses_threads::<Blocks<T>>();
}
