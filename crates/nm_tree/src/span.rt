// Stretches of the keys.
ghost use Rattle.std.specs.Prelude.{◌≡◌};
ghost use Rattle.nm_tree.specs.Span.{IsMonotone, key_rises, place_at};
ghost use Rattle.std.specs.declared.cmp.Ordering as declared;

use std::cmp::Ordering;

/// A stretch of the keys of a tree, given by a comparison: so a walk can begin and end where no key
/// is at hand, as at the first statement of a subject.
pub trait Span<K: Ord> {
    // Where a key lies beside the stretch.
    ghost place: { Self → K → declared.Ordering };

    /// `Less` where the key lies below the stretch, `Equal` where it lies in it, and `Greater` where
    /// it lies above. A greater key never lies lower.
    fn place(&self, key: &K) -> Ordering
        ensures { result ≡ place self.now key.now };

    ghost rises: { (span : Self) → IsMonotone K.cmp (place span) };
}

/// The keys from one on.
#[derive(Drop)]
pub(crate) struct From<'a, K> {
    pub(crate) key: &'a K,
}

impl<K: Ord> Span<K> for From<'_, K> {
    ghost place = { λ span. place_at K.cmp span.key.now };

    fn place(&self, key: &K) -> Ordering {
        key.cmp(self.key)
    }

    ghost rises = { λ span. key_rises K.total span.key.now };
}
