// What a request asks of the store.
ghost use Rattle.nm_http.specs.Call.{takes_document};
ghost use Rattle.std.specs.Prelude.{◌≡◌};

use nm_day::Day;
use nm_ident::Ident;

/// What a request asks of the store, with the parameters of its path.
#[derive(Debug, Drop, PartialEq, Eq)]
pub enum Route {
    /// The document of a day.
    Assemble { day: Day },
    /// The statements about an object on a day.
    Object { day: Day, ident: Ident },
    /// The statements about an object over all days.
    Timeline { ident: Ident },
    /// The live projects.
    Projects,
    /// The accepted commands.
    Log,
    /// Files a project.
    File { day: Day },
    /// Revises a project.
    Revise { project: u128 },
    /// Puts a project on another day.
    Redate { project: u128, day: Day },
    /// Withdraws a project.
    Withdraw { project: u128 },
}

/// What a request asks, without the parameters of its path.
#[derive(Clone, Copy, Debug, PartialEq, Eq)]
pub enum Call {
    Assemble,
    Object,
    Timeline,
    Projects,
    Log,
    File,
    Revise,
    Redate,
    Withdraw,
}

impl Call {
    /// Whether the body is a document, whose length the head has to give.
    pub fn takes_document(self) -> bool
        ensures { result ≡ takes_document self }
    {
        match self {
            Call::File | Call::Revise => true,
            Call::Assemble
            | Call::Object
            | Call::Timeline
            | Call::Projects
            | Call::Log
            | Call::Redate
            | Call::Withdraw => false,
        }
    }
}
