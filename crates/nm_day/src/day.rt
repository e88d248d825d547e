// Days of the calendar.
ghost use Rattle.nm_day.specs.Calendar as calendar;
ghost use Rattle.nm_day.specs.Day as spec;
ghost use Rattle.jiff.specs.Words.{epoch_day};
ghost use Rattle.std.specs.Char.{is_ascii_digit};
ghost use Rattle.std.specs.Cmp.{int_cmp_total, on_equiv, on_total, int_eq_equiv, partial_equiv_from_equiv, partial_order_from_total};
ghost use Rattle.std.specs.List.{list_all};
ghost use Rattle.std.specs.Prelude.{◌≡◌, ◌≢◌, ◌+◌, ◌<◌, ℕ, List, length, slice_index, true, IfSome, IsNone, IsTrue, Some, refl};

use crate::error::NotADay;
use jiff::civil::{self, Date};
use jiff_core::civil as plain;
use std::cmp::Ordering;
use std::marker::Model;

const FIRST_YEAR: u16 = 1900;

const LAST_YEAR: u16 = 2999;

/// A day from 1900-01-01 to 2999-12-31. A contract sees its text.
#[derive(Clone, Copy, Debug)]
pub struct Day {
    year: u16,
    month: u8,
    day: u8,
}

impl Model for Day {
    ghost use Rattle.std.specs.Prelude.{ℕ, List, true, ◌≡◌};
    ghost use Rattle.nm_day.specs.Calendar.{is_civil, text_of, year_of, month_of, month_day_of};
    ghost use Rattle.nm_day.specs.Fields.{year_of-text_of, month_of-text_of, month_day_of-text_of};

    ghost Value = { List ℕ };

    ghost view = { λ day. text_of day.year day.month day.day };

    ghost invariant = { λ day. is_civil day.year day.month day.day ≡ true };

    ghost inverse = { λ text. record { year = year_of text; month = month_of text; day = month_day_of text } };

    ghost inverse_ok = { λ day _ i. record { year = year_of-text_of day.year day.month day.day i; month = month_of-text_of day.year day.month day.day i; day = month_day_of-text_of day.year day.month day.day i } };
}

impl Day {
    /// Reads `YYYY-MM-DD` (ISO 8601, calendar date in extended format), ten bytes that are a date
    /// from 1900-01-01 to 2999-12-31. `NotADay` for any other text.
    pub fn parse(text: &[u8]) -> Result<Day, NotADay>
        ensures { result ≡ spec.day_of text.now }
    {
        if !is_spelt(text) {
            return Err(NotADay);
        }
        let year = u16::from(pair_at(text, 0)) * 100 + u16::from(pair_at(text, 2));
        let month = pair_at(text, 5);
        let day = pair_at(text, 8);
        if !is_civil(year, month, day) {
            return Err(NotADay);
        }
        Ok(Day { year, month, day })
    }

    /// The day so many days after 1970-01-01, or before it for fewer than 0. `None` where that is not
    /// from 1900-01-01 to 2999-12-31.
    pub fn of_number(number: i64) -> Option<Day>
        ensures day { IfSome result (λ day. spec.number_of day ≡ number) }
        ensures valid { IfSome result (λ day. IsTrue (spec.is_day day)) }
        ensures none { IsNone result → (text : List ℕ) → spec.is_day text ≡ true → spec.number_of text ≢ number }
    {
        let Ok(date) = plain::Date::from_unix_epoch_day(number) else {
            return None;
        };
        let Ok(year) = u16::try_from(date.year) else {
            return None;
        };
        if !is_civil(year, date.month, date.day) {
            return None;
        }
        Some(Day {
            year,
            month: date.month,
            day: date.day,
        })
    }

    /// The date, as the calendar has it.
    fn date(&self) -> Date
        ensures number { epoch_day result ≡ spec.number_of self.now }
        ensures valid { IsTrue (spec.is_day self.now) }
    {
        civil::date(self.year as i16, self.month as i8, self.day as i8)
    }

    /// The text, `YYYY-MM-DD`.
    pub fn text(&self) -> [u8; 10]
        ensures text { result ≡ self.now }
        ensures valid { IsTrue (spec.is_day self.now) }
    {
        let [century_tens, century] = two_digits((self.year / 100) as u8);
        let [tens, ones] = two_digits((self.year % 100) as u8);
        let [month_tens, month] = two_digits(self.month);
        let [day_tens, day] = two_digits(self.day);
        [
            century_tens,
            century,
            tens,
            ones,
            b'-',
            month_tens,
            month,
            b'-',
            day_tens,
            day,
        ]
    }

    /// The days since 1970-01-01, fewer than 0 before it.
    pub fn number(&self) -> i64
        ensures number { result ≡ spec.number_of self.now }
        ensures valid { IsTrue (spec.is_day self.now) }
    {
        i64::from(self.date().to_plain().to_unix_epoch_day())
    }
}

impl PartialEq for Day {
    ghost eq = { spec.is_same_day };

    ghost laws = { partial_equiv_from_equiv (on_equiv spec.number_of int_eq_equiv) };

    fn eq(&self, other: &Day) -> bool {
        self.date() == other.date()
    }
}

impl Eq for Day {
    ghost laws = { on_equiv spec.number_of int_eq_equiv };
}

impl PartialOrd for Day {
    ghost partial_cmp = { λ x y. Some (spec.day_cmp x y) };

    ghost laws = { partial_order_from_total (on_total spec.number_of int_cmp_total) };

    fn partial_cmp(&self, other: &Day) -> Option<Ordering> {
        Some(self.cmp(other))
    }
}

impl Ord for Day {
    ghost cmp = { spec.day_cmp };

    ghost total = { on_total spec.number_of int_cmp_total };

    ghost matches_partial_cmp = { λ x y. refl };

    ghost matches_eq = { λ x y. refl };

    fn cmp(&self, other: &Day) -> Ordering {
        self.date().cmp(&other.date())
    }
}

/// Two digits of a number.
fn two_digits(number: u8) -> [u8; 2]
    requires { number < 100 }
    ensures { result ≡ calendar.two_digits number }
{
    [b'0' + number / 10, b'0' + number % 10]
}

/// Whether the text is digits but for the two `-`.
fn is_spelt(text: &[u8]) -> bool
    ensures { result ≡ calendar.is_spelt text.now }
{
    text.len() == 10
        && are_digits(&text[..4])
        && text[4] == b'-'
        && are_digits(&text[5..7])
        && text[7] == b'-'
        && are_digits(&text[8..])
}

fn are_digits(text: &[u8]) -> bool
    ensures { result ≡ list_all is_ascii_digit text.now }
{
    text.iter().all(|byte| byte.is_ascii_digit())
}

/// The number of the two digits at a place.
fn pair_at(text: &[u8], place: usize) -> u8
    requires inside { place + 1 < length text.now }
    requires digit { IsTrue (is_ascii_digit (slice_index text.now place)) }
    requires other_digit { IsTrue (is_ascii_digit (slice_index text.now (place + 1))) }
    ensures number { result ≡ calendar.pair_at text.now place }
    ensures small { result < 100 }
{
    10 * (text[place] - b'0') + (text[place + 1] - b'0')
}

/// Whether the calendar has the date, and its year is kept.
fn is_civil(year: u16, month: u8, day: u8) -> bool
    requires month { month < 100 }
    requires day { day < 100 }
    ensures { result ≡ calendar.is_civil year month day }
{
    (FIRST_YEAR..=LAST_YEAR).contains(&year)
        && Date::new(year as i16, month as i8, day as i8).is_ok()
}
