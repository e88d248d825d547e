// The store as a value of versions.
ghost use Rattle.nm_model.specs.declared.document.Document.TheVariants as document;
ghost use Rattle.nm_reader.specs.Input.{IsDocumentOf};
ghost use Rattle.nm_stage.specs.Dependencies.{missing_of};
ghost use Rattle.nm_stage.specs.Live.{IsLive, without_filing};
ghost use Rattle.nm_check.specs.Kept.{AreTimelinesOf};
ghost use Rattle.nm_check.specs.Timelines.{base_of, timelines_of};
ghost use Rattle.nm_stage.specs.Steps.{steps_of};
ghost use Rattle.nm_terms.specs.Due.{IsDue};
ghost use Rattle.nm_version.specs.After as after;
ghost use Rattle.nm_version.specs.ByTimelines.{timelines_due};
ghost use Rattle.nm_version.specs.Command.{IsSpelt};
ghost use Rattle.nm_version.specs.Edits.{IsEdit};
ghost use Rattle.nm_version.specs.Kept as kept;
ghost use Rattle.nm_version.specs.Limits.{largest_store, most_commits};
ghost use Rattle.nm_version.specs.Projects.{rows_of};
ghost use Rattle.nm_version.specs.Refusal as refused;
ghost use Rattle.nm_version.specs.Replay.{known_before};
ghost use Rattle.nm_version.specs.Within.{IsWithin};
ghost use Rattle.nm_version.specs.Timelines.{most_steps_of, steps_of_edit, timelines_over};
ghost use Rattle.std.specs.Prelude.{◌≡◌, ◌+◌, ◌≤◌, ◌<◌, [], IfOk, None, length};

use crate::command::{Command, Entry};
use crate::dependencies::missing_since;
use crate::edits::Changed;
use crate::laws::{commands_edit_steps, what_is_reached_fits};
use crate::log::Log;
use crate::refusal::{Cause, Refusal};
use crate::row::{Row, rows};
use crate::step_refusal::{refusal_of, refusal_of_lesser};
use nm_base::{NoMemory, Steps};
use nm_check::{EditError, Timelines, base_is_of_timelines};
use nm_ident::Text;
use nm_model::{Full, Header};
use nm_stage::{Live, Step};
use nm_statement::Set;
use std::alloc::Global;
use std::marker::{Brand, Model};
use std::sync::Arc;
use std::sync::ledger::{Blank, Ledger};

/// A base with the projects that are filed to it: one version of a store. A contract sees what is
/// kept: the base, its bytes, the live projects, and the log.
///
/// A version never changes. A command makes another version of it, and the two share the base, the
/// changes of the projects, and the documents of the log.
#[derive(Drop)]
pub struct Version {
    header: Arc<Header>,
    bytes: Arc<Text>,
    live: Live,
    /// The statements of the base stand among them, so that no statement is kept twice.
    timelines: Timelines,
    log: Log,
    size: u64,
}

impl Model for Version {
    ghost use Rattle.nm_version.specs.Kept.{Kept};

    ghost Value = { Kept };

    ghost use Rattle.nm_version.specs.Within.{IsWithin, kept_of};

    ghost view = { λ version. kept_of version.header version.bytes version.live version.timelines version.log };

    ghost invariant = { λ version. IsWithin (kept_of version.header version.bytes version.live version.timelines version.log) version.timelines version.size };
}

impl Version {
    /// The store of a base whose document is `bytes`, to which nothing was filed.
    ///
    /// A document has at most 67,108,864 bytes, so that no limit is passed.
    pub fn open(alloc: Global, base: Full, bytes: Vec<u8>) -> Result<Version, NoMemory>
        requires { IsDocumentOf bytes.items (document.Full base) }
        ensures { IfOk result (λ version. version ≡ kept.opened base bytes.items) }
    {
        let size = bytes.len() as u64;
        let Full { header, statements } = base;
        let timelines = timelines_of_base::<Brand>(alloc, statements, Blank::new(1))?;
        timelines.base_is_in_order();
        Ok(Version {
            header: Arc::new(alloc, header)?,
            bytes: Arc::new(alloc, Text::of_list(bytes))?,
            live: Live::empty(alloc),
            timelines,
            log: Log::empty(alloc),
            size,
        })
    }

    /// How many commands were accepted, at most 65,536.
    pub fn number(&self) -> u32
        ensures number { result ≡ kept.number_of self.now }
        ensures few { result ≤ most_commits }
        ensures reached { after.IsReached self.now }
    {
        self.log.len() as u32
    }

    /// How many projects are live.
    pub fn live(&self) -> usize
        ensures { result ≡ length self.now.live }
    {
        self.live.len()
    }

    /// The live projects, in the order of their steps.
    pub fn projects(&self, alloc: Global) -> Result<Vec<Row>, NoMemory>
        ensures { IfOk result (λ rows. rows.items ≡ rows_of self.now.live) }
    {
        let projects = self.live.in_order(alloc)?;
        rows(alloc, &projects)
    }

    /// The version after the command, which shares with this one what did not change. This version
    /// stays as it is.
    ///
    /// The refusal is the first of these that holds: `Kind` where the document is a full model,
    /// `Unknown` where no live project has the id that the command names as its first,
    /// `NotSuperseding` where a revision does not supersede the project's current model, `InUse`
    /// where the document's id is the base's or stands in a live lineage, `Limit` where there would
    /// be more than 4,096 live projects (`L4`), 65,536 commands (`L5`) or 268,435,456 bytes of
    /// documents (`L6`), and `Step` where a step of the changed list does not fit, with the first
    /// cause of the first such step. `NoMemory` at any time.
    pub fn commit<L: Ledger>(
        &self,
        alloc: Global,
        command: Command,
        steps: &mut Steps<L>,
    ) -> Result<Version, Refusal>
        requires { IsSpelt command }
        ensures commit { IsDue refused.wants_memory result (after.commit_of self.now command) }
        ensures steps { steps.new ≤ steps.old + most_steps_of self.now command }
    {
        match self.early_refusal(&command) {
            None => self.commit_unless_broken(alloc, command, steps),
            Some(refusal) => {
                // At once, so that no other path has to drop what the command holds.
                drop(command);
                Err(refusal)
            }
        }
    }

    /// The version after a command that no rule before the breaks refuses.
    fn commit_unless_broken<L: Ledger>(
        &self,
        alloc: Global,
        command: Command,
        steps: &mut Steps<L>,
    ) -> Result<Version, Refusal>
        requires spelt { IsSpelt command }
        requires early { refused.early_refusal self.now command ≡ None }
        ensures commit { IsDue refused.wants_memory result (after.commit_of self.now command) }
        ensures steps { steps.new ≤ steps.old + most_steps_of self.now command }
    {
        command.has_line();
        commands_edit_steps();
        let size = self.size + command.document_size();
        let filing = self.filing_changed(&command);
        let taken = self.steps_taken(alloc, &command)?;
        let Changed { live, added, entry } = self.changed(alloc, command)?;
        let timelines = self.timelines_after(alloc, &taken, &added, &live, filing, steps)?;
        let version = self.with_entry(alloc, live, timelines, entry, size)?;
        Ok(version)
    }

    /// The version with these live projects and their timelines, and with one command more in the
    /// log.
    fn with_entry(
        &self,
        alloc: Global,
        live: Live,
        timelines: Timelines,
        entry: Entry,
        size: u64,
    ) -> Result<Version, NoMemory>
        requires { IsWithin (kept.with_entry self.now live entry) timelines size }
        ensures { IfOk result (λ version. version ≡ kept.with_entry self.now live entry) }
    {
        base_is_of_timelines();
        Ok(Version {
            header: Arc::try_clone(&self.header)?,
            bytes: Arc::try_clone(&self.bytes)?,
            live,
            timelines,
            log: self.log.with(alloc, entry)?,
            size,
        })
    }

    /// The timelines after an edit of steps that leaves these live projects, of which that of one
    /// filing number is not as before, or why one of their steps does not fit.
    fn timelines_after<L: Ledger>(
        &self,
        alloc: Global,
        taken: &[Step],
        added: &[Step],
        live: &Live,
        filing: u32,
        steps: &mut Steps<L>,
    ) -> Result<Timelines, Refusal>
        requires edit { IsEdit taken.now added.now (steps_of self.now.live) (steps_of live.now) }
        requires others { without_filing filing self.now.live ≡ without_filing filing live.now }
        ensures timelines { IsDue refused.wants_memory result (timelines_due self.now.base live.now) }
        ensures steps { steps.new ≤ steps.old + steps_of_edit (length (timelines_over self.now.base self.now.live)) taken.now added.now }
    {
        live.projects_are_live();
        self.dependencies_are_met();
        let missing = missing_since(alloc, self.header(), self.live_projects(), live, filing)?;
        match self.timelines().edit(alloc, taken, added, steps) {
            Ok(timelines) => match missing {
                Some((key, id)) => Err(refusal_of(live, key, Cause::Dependency(id))),
                None => Ok(timelines),
            },
            Err(EditError::Break(found)) => Err(refusal_of_lesser(live, missing, found)),
            Err(EditError::NoMemory) => Err(Refusal::NoMemory),
        }
    }

    /// Each dependency of the live projects is met. It takes no time: a call brings to a proof what
    /// the type keeps.
    fn dependencies_are_met(&self)
        ensures { missing_of (known_before self.now.base.header) self.now.live ≡ None }
    {
        what_is_reached_fits();
        let _live = &self.live;
    }

    /// The timelines of the statements that the base or the live projects name.
    pub(crate) fn timelines(&self) -> &Timelines
        ensures { AreTimelinesOf self.now.base.statements (steps_of self.now.live) result.now }
    {
        &self.timelines
    }

    /// The header of the base.
    pub(crate) fn header(&self) -> &Header
        ensures { result.now ≡ self.now.base.header }
    {
        &self.header
    }

    /// The bytes of the base's document.
    pub(crate) fn bytes(&self) -> &Text
        ensures { result.now ≡ self.now.bytes }
    {
        &self.bytes
    }

    /// The accepted commands.
    pub(crate) fn entries(&self) -> &Log
        ensures { result.now ≡ self.now.log }
    {
        &self.log
    }

    /// The live projects.
    pub(crate) fn live_projects(&self) -> &Live
        ensures projects { result.now ≡ self.now.live }
        ensures live { IsLive self.now.live }
    {
        self.live.projects_are_live();
        &self.live
    }

    /// The bytes of documents over the base and the log.
    pub(crate) fn size(&self) -> u64
        ensures size { result ≡ kept.size_of self.now }
        ensures fits { result ≤ largest_store }
    {
        self.size
    }
}

/// The timelines of a base to which nothing was filed.
fn timelines_of_base<L: Ledger>(
    alloc: Global,
    base: Set,
    blank: Blank,
) -> Result<Timelines, NoMemory>
    requires name { blank.name ≡ L.name }
    requires parts { blank.parts ≡ L.parts }
    requires some { 0 < blank.parts }
    ensures timelines { IfOk result (λ timelines. timelines ≡ timelines_of base []) }
    ensures base { IfOk result (λ timelines. base_of timelines ≡ base) }
{
    base_is_of_timelines();
    let mut steps = Steps::<L>::start(blank);
    let _statements = base.as_slice();
    Timelines::taking_base(alloc, base, &mut steps)
}
