// The days of generated projects.
ghost use Rattle.nm_gen.specs.Days as spec;
ghost use Rattle.nm_gen.specs.Days.{days_to_draw};
ghost use Rattle.nm_gen.specs.Draws.{next_state};
ghost use Rattle.std.specs.Prelude.{◌≡◌, ◌<◌};

use crate::draws::Draws;
use nm_day::Day;

/// How many days there are to draw: those of ten years, but for the last few.
const DAYS_TO_DRAW: u64 = 3_650;

/// The number of 2027-01-01, in days since 1970-01-01.
const FIRST_DAY: i64 = 20_819;

/// The day that the next draw gives.
pub fn drawn_day(draws: &mut Draws) -> Day
    ensures state { draws.new.state ≡ next_state draws.old.state }
    ensures day { result ≡ spec.drawn_day draws.new.state }
{
    day_after(draws.draw(DAYS_TO_DRAW))
}

/// The day so many days after 2027-01-01.
fn day_after(days: u64) -> Day
    requires { days < days_to_draw }
    ensures { result ≡ spec.day_after days }
{
    match Day::of_number(FIRST_DAY + days as i64) {
        Some(day) => day,
        None => unreachable!(),
    }
}
