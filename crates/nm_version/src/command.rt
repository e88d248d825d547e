// Commands, and what the log keeps of them.
ghost use Rattle.nm_version.specs.Command.{HasLine, document_brought, document_size, entry_of, project_named};
ghost use Rattle.std.specs.Option.{option_map};
ghost use Rattle.std.specs.Prelude.{◌≡◌};

use nm_day::Day;
use nm_ident::Text;
use nm_model::Document;

/// What changes a store. The bytes beside a document are its spelling.
#[derive(Drop)]
pub enum Command {
    /// Files a difference model as a project that is in service from the day on.
    File {
        /// The day from which the project is in service.
        day: Day,
        /// The difference model.
        document: Document,
        /// The document as it was given.
        bytes: Text,
    },
    /// Puts a difference model in the place of a project's current one.
    Revise {
        /// The project, by the first model id that it had.
        project: u128,
        /// The difference model, which supersedes the project's current one.
        document: Document,
        /// The document as it was given.
        bytes: Text,
    },
    /// Puts a project on another day, or on its own.
    Redate {
        /// The project, by the first model id that it had.
        project: u128,
        /// The day from which the project is in service.
        day: Day,
    },
    /// Takes a project away.
    Withdraw {
        /// The project, by the first model id that it had.
        project: u128,
    },
}

impl Command {
    /// The project that it names.
    pub(crate) fn project(&self) -> Option<u128>
        ensures { result ≡ project_named self.now }
    {
        match self {
            Command::File { .. } => None,
            Command::Revise { project, .. }
            | Command::Redate { project, .. }
            | Command::Withdraw { project } => Some(*project),
        }
    }

    /// The document that it brings.
    pub(crate) fn document(&self) -> Option<&Document>
        ensures { option_map (λ document. document.now) result ≡ document_brought self.now }
    {
        match self {
            Command::File { document, .. } | Command::Revise { document, .. } => Some(document),
            Command::Redate { .. } | Command::Withdraw { .. } => None,
        }
    }

    /// A line can say it: its day is one, and its project is a number of 128 bits.
    pub(crate) fn has_line(&self)
        ensures { HasLine self.now }
    {
        match self {
            Command::File { day, .. } => {
                let _day = day.text();
            }
            Command::Revise { project, .. } => {
                let _project = *project;
            }
            Command::Redate { project, day } => {
                let _project = *project;
                let _day = day.text();
            }
            Command::Withdraw { project } => {
                let _project = *project;
            }
        }
    }

    /// How many bytes its document has.
    pub(crate) fn document_size(&self) -> u64
        ensures { result ≡ document_size (entry_of self.now) }
    {
        match self {
            Command::File { bytes, .. } | Command::Revise { bytes, .. } => {
                bytes.as_slice().len() as u64
            }
            Command::Redate { .. } | Command::Withdraw { .. } => 0,
        }
    }
}

/// An accepted command as the log keeps it: all but the value of its document, which the bytes
/// spell.
#[derive(Drop)]
pub enum Entry {
    /// A project was filed.
    File {
        /// The day from which the project is in service.
        day: Day,
        /// The document as it was given.
        bytes: Text,
    },
    /// A project was revised.
    Revise {
        /// The project, by the first model id that it had.
        project: u128,
        /// The document as it was given.
        bytes: Text,
    },
    /// A project was put on a day.
    Redate {
        /// The project, by the first model id that it had.
        project: u128,
        /// The day from which the project is in service.
        day: Day,
    },
    /// A project was taken away.
    Withdraw {
        /// The project, by the first model id that it had.
        project: u128,
    },
}
