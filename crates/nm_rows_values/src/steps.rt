//! The count of steps.
ghost use Rattle.std.specs.Prelude.{◌≡◌, ◌<◌};

use nm_base::Steps;
use std::marker::Brand;
use std::mem::size_of;
use std::sync::ledger::{Blank, Ledger};

fn count_two<L: Ledger>(blank: Blank)
    requires name { blank.name ≡ L.name }
    requires parts { blank.parts ≡ L.parts }
    requires some { 0 < blank.parts }
{
    let mut steps = Steps::<L>::start(blank);
    steps.tick();
    steps.tick();
    expect_two(&steps);
}

fn expect_two<L: Ledger>(steps: &Steps<L>)
    requires { steps.now ≡ 2 }
{}

#[test]
fn two_ticks_are_two_steps_and_take_no_bytes(rt: HostRuntime) {
    count_two::<Brand>(Blank::new(1));
    assert_eq!(rt; size_of::<Steps<Brand>>(), 0);
}
