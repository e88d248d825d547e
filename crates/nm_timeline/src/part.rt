// The parts of a change.

/// The parts of a change, in the order in which they are looked at (IEC 61970-552, the sections of
/// `dm:DifferenceModel`).
#[derive(Clone, Copy, Debug, PartialEq, Eq, PartialOrd, Ord)]
pub enum Part {
    /// A precondition, which has to hold.
    Precondition,
    /// A reverse statement, which is taken away.
    Reverse,
    /// A forward statement, which is added.
    Forward,
}
