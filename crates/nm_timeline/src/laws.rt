// Laws of this crate's definitions, stated for the contracts of the crates above. They take no
// time: a call brings the law to a proof.
ghost use Rattle.nm_timeline.specs.Part.{is_same_part, part_cmp};
ghost use Rattle.nm_timeline.specs.declared.part.Part as declared;
ghost use Rattle.std.specs.Prelude.{◌≡◌};

use crate::part::Part;

/// Preconditions stand before reverse statements, and these before forward ones. `cmp` and `==` go
/// by this order.
pub fn parts_are_ordered()
    ensures by_cmp { (x y : declared.Part) → ⟦<Part as Ord>⟧.cmp x y ≡ part_cmp x y }
    ensures by_eq { (x y : declared.Part) → ⟦<Part as PartialEq>⟧.eq x y ≡ is_same_part x y }
{}
