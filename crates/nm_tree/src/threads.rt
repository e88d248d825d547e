// A tree is shared among threads and sent to others wherever its keys and values are. This does not
// compile where it could not be.
use crate::tree::Tree;
use crate::walk::Walk;

fn crosses_threads<T: Send + Sync>() {}

fn trees_cross<'a, K: Ord + Send + Sync + 'a, V: Send + Sync + 'a>() {
    crosses_threads::<Tree<K, V>>();
    crosses_threads::<Walk<'a, K, V>>();
}

const _: fn() = trees_cross::<u8, u8>;
