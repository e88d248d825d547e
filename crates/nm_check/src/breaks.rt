// What of a step does not fit, and why an edit of steps gives no timelines.
ghost use Rattle.nm_check.specs.declared.breaks.EditError.TheVariants as edit_error;
ghost use Rattle.std.specs.Prelude.{◌≡◌};

use nm_day::Key;
use nm_ident::NoMemory;
use nm_statement::Statement;
use nm_timeline::Part;

/// A statement of a step that does not fit the steps before it.
#[derive(Debug, Drop)]
pub struct Break {
    /// Where the step stands.
    pub key: Key,
    /// The part of its change that has the statement.
    pub part: Part,
    /// The statement.
    pub statement: Statement,
}

/// Why an edit gives no timelines.
#[derive(Debug, Drop)]
pub enum EditError {
    /// After the edit a statement does not fit: the first one of the first such step.
    Break(Break),
    /// There is no memory for the timelines.
    NoMemory,
}

impl From<NoMemory> for EditError {
    ghost from_gives = { λ _ e. e ≡ edit_error.NoMemory };

    fn from(_: NoMemory) -> EditError {
        EditError::NoMemory
    }
}
