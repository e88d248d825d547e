// The place of a reader at the store.
ghost use Rattle.left_right.specs.Sides.{view};
ghost use Rattle.nm_publish.specs.Sight.{Enters};
ghost use Rattle.std.specs.Prelude.{◌≡◌, ◌+◌, ◌≤◌, IfNone, IfSome, MatchOption};

use crate::count::Count;
use crate::history::Front;
use crate::shown::Shown;
use crate::sight::{Enter, Grows, Sight};
use core::mem::replace_with;
use std::marker::Model;
use std::sync::Wait;

/// A reader of the two copies.
pub(crate) type Seat = left_right::reader::Reader<Shown, Sight, Grows>;

/// The place of a reader. A contract sees what it has seen, and how often it has entered.
#[derive(Drop)]
pub(crate) struct Gate {
    seat: Seat,
}

impl Model for Gate {
    ghost use Rattle.left_right.specs.Sides as sides;
    ghost use Rattle.nm_publish.specs.declared.sight.Sight.{Sight};

    ghost Value = { Sight };

    ghost view = { λ gate. sides.view gate.seat.place };
}

impl Gate {
    /// The place of the reader.
    pub(crate) fn new(seat: Seat) -> Gate
        ensures { result ≡ view seat.place }
    {
        Gate { seat }
    }

    /// Enters, and copies what is shown. Where no entering is granted, that is a miss.
    pub(crate) fn enter(&mut self, misses: &mut Count) -> Option<Shown>
        ensures entered { IfSome result (λ shown. Enters self.old shown.front self.new) }
        ensures missed { IfNone result (self.new ≡ self.old) }
        ensures counted { MatchOption result (misses.new ≡ misses.old + 1) (λ shown. misses.new ≡ misses.old) }
    {
        let shown = replace_with(&mut self.seat, (), |seat, _nothing| entered(seat));
        if shown.is_none() {
            misses.rise();
        }
        shown
    }

    /// Enters until an entering is granted, and gives the front that was found.
    pub(crate) fn enter_at_last<R: Wait>(&mut self, rt: &R, misses: &mut Count) -> Front
        ensures entered { Enters self.old result self.new }
        ensures misses { misses.old ≤ misses.new }
    {
        for _ in rt.forever() {
            if let Some(shown) = self.enter(misses) {
                return shown.into_front();
            }
        }
        unreachable!()
    }
}

/// What is shown, where the entering is granted.
fn entered(seat: Seat) -> (Seat, Option<Shown>)
    ensures entered { IfSome result.1 (λ shown. Enters (view seat.place) shown.front (view result.0.place)) }
    ensures missed { IfNone result.1 (view result.0.place ≡ view seat.place) }
{
    match seat.enter_as::<Enter>() {
        Ok(reading) => {
            let shown = reading.get().again();
            (reading.leave(), Some(shown))
        }
        Err(seat) => (seat, None),
    }
}
