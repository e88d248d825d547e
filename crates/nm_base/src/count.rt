ghost use Rattle.std.specs.Prelude.{◌≡◌, ◌≤◌};
ghost use Rattle.nm_base.specs.Faults.{one_more};

use crate::flow::Failed;
use std::marker::Model;

/// A count of faults, which stays at 2^64 - 1 once it is there. A contract sees the number.
#[derive(Drop)]
pub struct FaultCount {
    faults: u64,
}

impl Model for FaultCount {
    ghost use Rattle.std.specs.Prelude.{ℕ};

    ghost Value = { ℕ };

    ghost view = { λ c. c.faults };
}

impl FaultCount {
    /// A count of no faults.
    pub fn new() -> FaultCount
        ensures { result ≡ 0 }
    {
        FaultCount { faults: 0 }
    }

    /// Counts a fault, and gives the answer that goes with it.
    pub fn raise(&mut self) -> Failed
        ensures raised { self.new ≡ one_more self.old }
        ensures kept { self.old ≤ self.new }
    {
        self.faults = self.faults.saturating_add(1);
        Failed
    }
}
