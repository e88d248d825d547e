// How a step names a statement.
ghost use Rattle.nm_timeline.specs.Timeline.{marked, part_break};
ghost use Rattle.std.specs.Prelude.{◌≡◌};

use crate::part::Part;

/// In which parts of its change a step names a statement (IEC 61970-552, the sections of
/// `dm:DifferenceModel`).
#[derive(Clone, Copy, Debug, PartialEq, Eq)]
pub struct Mark {
    /// As a precondition.
    pub pre: bool,
    /// As a reverse statement, which is taken away.
    pub rev: bool,
    /// As a forward statement, which is added.
    pub fwd: bool,
}

impl Mark {
    /// Whether the statement is there after the step, by whether it was there before.
    pub fn after(&self, present: bool) -> bool
        ensures { result ≡ marked present self.now }
    {
        (present && !self.rev) || self.fwd
    }

    /// The first part in which the step does not fit: one that needs the statement where it is
    /// absent, or adds it where it is there.
    pub fn part_break(&self, present: bool) -> Option<Part>
        ensures { result ≡ part_break present self.now }
    {
        match (present, self.pre, self.rev, self.fwd) {
            (false, true, _, _) => Some(Part::Precondition),
            (false, false, true, _) => Some(Part::Reverse),
            (true, _, _, true) => Some(Part::Forward),
            _ => None,
        }
    }
}
