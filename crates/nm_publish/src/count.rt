// Counts that take no bytes.
ghost use Rattle.std.specs.Prelude.{◌≡◌, ◌+◌};

use core::mem::replace_with;
use std::marker::Model;
use std::snapshot::Snapshot;

/// One more than the count that it remembers, or none.
#[derive(Drop)]
struct Next {
    before: Option<Snapshot<Next>>,
}

impl Model for Next {
    ghost use Rattle.std.specs.Prelude.{ℕ};
    ghost use Rattle.nm_publish.specs.Count.{number_after};

    ghost Value = { ℕ };

    ghost view = { λ next. number_after next.before };

    ghost size = { λ number. number };
}

/// How often something came, as a contract sees it. It takes no bytes.
#[derive(Drop)]
pub(crate) struct Count {
    number: Snapshot<Next>,
}

impl Model for Count {
    ghost use Rattle.std.specs.Prelude.{ℕ};

    ghost Value = { ℕ };

    ghost view = { λ count. count.number.value };
}

impl Count {
    /// Nothing came yet.
    pub(crate) fn none() -> Count
        ensures { result ≡ 0 }
    {
        Count {
            number: Snapshot::of(&Next { before: None }),
        }
    }

    /// The count after one more came.
    pub(crate) fn and_one(self) -> Count
        ensures { result ≡ self + 1 }
    {
        Count {
            number: Snapshot::of(&Next {
                before: Some(self.number),
            }),
        }
    }

    /// It came once more.
    pub(crate) fn rise(&mut self)
        ensures { self.new ≡ self.old + 1 }
    {
        replace_with(self, (), |count, _nothing| (count.and_one(), ()))
    }
}
