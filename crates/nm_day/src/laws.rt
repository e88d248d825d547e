// Laws of this crate's definitions, stated for the contracts of the crates above. They take no
// time: a call brings the law to a proof.
ghost use Rattle.nm_day.specs.Day.{day_cmp, is_same_day};
ghost use Rattle.nm_day.specs.Key.{key_cmp};
ghost use Rattle.nm_day.specs.Laws as law;
ghost use Rattle.nm_day.specs.declared.key.Key as declared;
ghost use Rattle.std.specs.Ordering.{eq_by_cmp};
ghost use Rattle.std.specs.Prelude.{◌≡◌, ℕ, List};

use crate::day::Day;
use crate::key::Key;

/// The text of a day is read as that day.
pub fn days_read_back()
    ensures { law.TextsReadBack }
{}

/// Days stand in the order of their numbers, which is that of their texts. Only equal days are
/// level, and `cmp` and `==` go by this order.
pub fn days_are_ordered()
    ensures total { law.DayOrderIsTotal }
    ensures apart { law.DayOrderTellsApart }
    ensures texts { law.DaysAreInTextOrder }
    ensures by_cmp { (x y : List ℕ) → ⟦<Day as Ord>⟧.cmp x y ≡ day_cmp x y }
    ensures by_eq { (x y : List ℕ) → ⟦<Day as PartialEq>⟧.eq x y ≡ is_same_day x y }
{}

/// Keys stand in the order of day, filing and stage. Only equal keys are level, and `cmp` and `==`
/// go by this order.
pub fn keys_are_ordered()
    ensures total { law.KeyOrderIsTotal }
    ensures apart { law.KeyOrderTellsApart }
    ensures by_cmp { (x y : declared.Key) → ⟦<Key as Ord>⟧.cmp x y ≡ key_cmp x y }
    ensures by_eq { (x y : declared.Key) → ⟦<Key as PartialEq>⟧.eq x y ≡ eq_by_cmp key_cmp x y }
{}
