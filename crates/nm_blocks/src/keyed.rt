// What a list holds.
ghost use Rattle.std.specs.Prelude.{◌≡◌, IfOk};

use nm_base::NoMemory;

/// An item that stands in a list at its key.
///
/// An item that holds an `Arc` wants an `impl Model` that sees what the `Arc` holds: two pointers to
/// one value are no equal values, so that `share` would get no proof.
pub trait Keyed: Drop {
    /// What the items of a list are ordered by.
    type Key: Ord;

    // The key of an item.
    ghost key: { Self → Self.Key };

    /// The item's key.
    fn key(&self) -> &Self::Key
        ensures { result.now ≡ key self.now };

    /// An equal item, which shares what is large in it. A changed block is made of these.
    fn share(&self) -> Result<Self, NoMemory>
        ensures { IfOk result (λ item. item ≡ self.now) };
}
