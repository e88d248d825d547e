// The lines of a timeline.
ghost use Rattle.nm_version.specs.Timeline.{statement_of};
ghost use Rattle.std.specs.Prelude.{◌≡◌};

use nm_day::Day;
use nm_statement::Statement;
use nm_timeline::Part;

/// Where a statement stands: in the base, or in a part of the change of a project.
#[derive(Debug, Drop)]
pub enum Line {
    /// The base has the statement.
    Base {
        /// The statement.
        statement: Statement,
    },
    /// A project names the statement.
    Named {
        /// The day from which the project is in service.
        day: Day,
        /// The current model id of the project.
        model: u128,
        /// The part of its change.
        part: Part,
        /// The statement.
        statement: Statement,
    },
}

impl Line {
    /// The statement of which the line speaks.
    pub fn statement(&self) -> &Statement
        ensures { result.now ≡ statement_of self.now }
    {
        match self {
            Line::Base { statement } => statement,
            Line::Named { statement, .. } => statement,
        }
    }
}
