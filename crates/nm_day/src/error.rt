// What this crate refuses.

/// The text is no day: it is not `YYYY-MM-DD`, the calendar has no such date, or the date is not
/// between 1900-01-01 and 2999-12-31.
#[derive(Clone, Copy, Debug, PartialEq, Eq)]
pub struct NotADay;
