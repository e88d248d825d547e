ghost use Rattle.std.specs.Prelude.{◌≡◌, ◌==◌, is_err};
ghost use Rattle.std.specs.List.{list_any};
ghost use Rattle.nm_base.specs.Faults.{CountsFaults};
ghost use Rattle.nm_base.specs.Plan.{plan_of, fails_next, Advances, CountsFault};

use crate::count::FaultCount;
use crate::flow::Failed;
use std::marker::Model;

/// Which calls are to fail, and how far the calls have come.
#[derive(Drop)]
pub struct FaultPlan {
    fails: Vec<u32>,
    calls: u64,
    faults: FaultCount,
}

impl Model for FaultPlan {
    ghost use Rattle.nm_base.specs.Plan.{Plan};

    ghost Value = { Plan };

    ghost view = { λ p. record { fails = p.fails.items; calls = p.calls; faults = p.faults } };
}

impl FaultPlan {
    /// A plan before its first call, of which the calls with the numbers `fails` fail. The first
    /// call has number 0.
    pub fn new(fails: Vec<u32>) -> FaultPlan
        ensures { result ≡ plan_of fails.items }
    {
        FaultPlan {
            fails,
            calls: 0,
            faults: FaultCount::new(),
        }
    }

    /// Begins the next call, which fails where its number is listed.
    pub fn begin_call(&mut self) -> Result<(), Failed>
        ensures listed { is_err result ≡ fails_next self.old }
        ensures plan { Advances self.old self.new result }
        ensures counted { CountsFaults self.old.faults self.new.faults result }
    {
        let number = self.calls;
        self.calls = number.saturating_add(1);
        if self.lists(number) {
            return Err(self.fault());
        }
        Ok(())
    }

    fn lists(&self, number: u64) -> bool
        ensures { result ≡ list_any (λ n. n == number) self.now.fails }
    {
        self.fails.iter().any(|listed| u64::from(*listed) == number)
    }

    /// Counts a fault that the plan does not list, such as a call past the end of what is there.
    pub fn fault(&mut self) -> Failed
        ensures { CountsFault self.old self.new }
    {
        self.faults.raise()
    }
}
