// Where a step stands.
use crate::day::Day;

/// Where a step stands among the steps: by its day, then by the filing of its project, then by its
/// stage.
#[derive(Clone, Copy, Debug, PartialEq, Eq, PartialOrd, Ord)]
pub struct Key {
    /// The day from which on the step is in service.
    pub day: Day,
    /// The number of the command that filed the project.
    pub filing: u32,
    /// The number of the stage within the project, from 0.
    pub stage: u32,
}
