// When a command is refused, as far as no replay is needed.
ghost use Rattle.nm_stage.specs.Live.{project_of};
ghost use Rattle.nm_stage.specs.Project.{has_id};
ghost use Rattle.nm_version.specs.Command.{document_brought, header_of, project_named};
ghost use Rattle.nm_version.specs.Refusal as spec;
ghost use Rattle.std.specs.Option.{option_map};
ghost use Rattle.std.specs.Prelude.{◌≡◌};

use crate::command::Command;
use crate::limits::{LARGEST_STORE, MOST_COMMITS, MOST_STEPS};
use crate::refusal::Refusal;
use crate::version::Version;
use nm_base::Limit;
use nm_ident::{Ids, Text};
use nm_model::{Document, Header};

impl Version {
    /// The first refusal that no replay is needed for, in the order of the rules.
    #[tactic(auto, unfolding(crate::specs::Refusal::early_refusal))]
    pub(crate) fn early_refusal(&self, command: &Command) -> Option<Refusal>
        ensures { result ≡ spec.early_refusal self.now command.now }
    {
        kind_refusal(command)
            .or(self.unknown_refusal(command))
            .or(self.superseding_refusal(command))
            .or(self.use_refusal(command))
            .or(self.steps_refusal(command))
            .or(self.commits_refusal())
            .or(self.bytes_refusal(command))
    }

    fn unknown_refusal(&self, command: &Command) -> Option<Refusal>
        ensures { result ≡ spec.unknown_refusal self.now command.now }
    {
        let project = command.project()?;
        self.refusal_if_unknown(project)
    }

    fn refusal_if_unknown(&self, project: u128) -> Option<Refusal>
        ensures { result ≡ spec.unknown_of project (project_of project self.now.live) }
    {
        match self.live_projects().find(project) {
            Some(_) => None,
            None => Some(Refusal::Unknown(project)),
        }
    }

    fn superseding_refusal(&self, command: &Command) -> Option<Refusal>
        ensures { result ≡ spec.superseding_refusal self.now command.now }
    {
        let Command::Revise {
            project,
            document,
            ..
        } = command
        else {
            return None;
        };
        let current = self.live_projects().find(*project)?.model();
        if has(&header(document).supersedes, current) {
            return None;
        }
        Some(Refusal::NotSuperseding(current))
    }

    fn use_refusal(&self, command: &Command) -> Option<Refusal>
        ensures { result ≡ spec.use_refusal self.now command.now }
    {
        let id = header(command.document()?).id;
        if self.is_in_use(id) {
            return Some(Refusal::InUse(id));
        }
        None
    }

    fn is_in_use(&self, id: u128) -> bool
        ensures { result ≡ spec.is_in_use self.now id }
    {
        self.header().id == id || self.live_projects().holds(id)
    }

    fn steps_refusal(&self, command: &Command) -> Option<Refusal>
        ensures { result ≡ spec.steps_refusal self.now command.now }
    {
        let Command::File { .. } = command else {
            return None;
        };
        if self.live() >= MOST_STEPS {
            return Some(Refusal::Limit(Limit::L4));
        }
        None
    }

    fn commits_refusal(&self) -> Option<Refusal>
        ensures { result ≡ spec.commits_refusal self.now }
    {
        if self.number() >= MOST_COMMITS {
            return Some(Refusal::Limit(Limit::L5));
        }
        None
    }

    fn bytes_refusal(&self, command: &Command) -> Option<Refusal>
        ensures { result ≡ spec.bytes_refusal self.now command.now }
    {
        match command {
            Command::File { bytes, .. } | Command::Revise { bytes, .. } => {
                self.bytes_refusal_of(bytes)
            }
            Command::Redate { .. } | Command::Withdraw { .. } => None,
        }
    }

    fn bytes_refusal_of(&self, bytes: &Text) -> Option<Refusal>
        ensures { result ≡ spec.bytes_of self.now bytes.now }
    {
        if bytes.as_slice().len() as u64 > LARGEST_STORE - self.size() {
            return Some(Refusal::Limit(Limit::L6));
        }
        None
    }
}

fn kind_refusal(command: &Command) -> Option<Refusal>
    ensures { result ≡ spec.kind_refusal command.now }
{
    match command.document()? {
        Document::Full(_) => Some(Refusal::Kind),
        Document::Difference(_) => None,
    }
}

fn header(document: &Document) -> &Header
    ensures { result.now ≡ header_of document.now }
{
    match document {
        Document::Full(full) => &full.header,
        Document::Difference(difference) => &difference.header,
    }
}

fn has(ids: &Ids, id: u128) -> bool
    ensures { result ≡ has_id ids.now id }
{
    ids.contains(id)
}
