// The keeper of a store, which commits to it.
ghost use Rattle.nm_publish.specs.Keeper.{IsKept};
ghost use Rattle.nm_publish.specs.Reader.{lent};
ghost use Rattle.nm_publish.specs.Store.{BelongsTo};
ghost use Rattle.nm_terms.specs.Due.{IsDue};
ghost use Rattle.nm_version.specs.After.{commit_of};
ghost use Rattle.nm_version.specs.Command.{IsSpelt};
ghost use Rattle.nm_version.specs.Kept.{number_of};
ghost use Rattle.nm_version.specs.Refusal.{wants_memory};
ghost use Rattle.std.specs.Arc.{arc_value};
ghost use Rattle.std.specs.Prelude.{◌≡◌, ◌+◌, ◌<◌, IfOk, MatchResult};

use crate::desk::Desk;
use crate::growth::Next;
use crate::history::Word;
use crate::reader::Reader;
use crate::receipt::Receipt;
use crate::shown::{Exhibit, Held};
use crate::site::Site;
use nm_base::{NoMemory, Steps};
use nm_version::{Command, Refusal, Version};
use std::alloc::Global;
use std::marker::{Brand, Model};
use std::snapshot::Snapshot;
use std::sync::Wait;
use std::sync::ledger::{Blank, Book, Ledger, Share};

/// The keeper of a store: whoever has it commits. A contract sees what is published.
///
/// It keeps the handle `R`, since a keeper that is dropped waits for the readers that are inside.
#[derive(Drop)]
pub struct Keeper<H: Site, R: Wait + Drop> {
    desk: Desk<R>,
    word: Word,
    exhibit: Exhibit,
    commits: Book<H>,
}

impl<H: Site, R: Wait + Drop> Model for Keeper<H, R> {
    ghost use Rattle.nm_publish.specs.Keeper.{IsKept};
    ghost use Rattle.nm_version.specs.Kept.{Kept};

    ghost Value = { Kept };

    ghost view = { λ keeper. keeper.exhibit.kept };

    ghost invariant = { λ keeper. IsKept H.book H.opening keeper.exhibit keeper.desk keeper.word keeper.commits.total };
}

impl<H: Site, R: Wait + Drop> Keeper<H, R> {
    /// The keeper of what the desk shows.
    pub(crate) fn new(desk: Desk<R>, word: Word, exhibit: Exhibit, commits: Book<H>) -> Keeper<H, R>
        requires { IsKept H.book H.opening exhibit desk word commits.total }
        ensures { result ≡ exhibit.kept }
    {
        Keeper {
            desk,
            word,
            exhibit,
            commits,
        }
    }

    /// Commits the command to the published version, and publishes the version after it. The share
    /// of the reader rises by one.
    ///
    /// It is refused as the published version refuses it; then that version stays published, and the
    /// reader stays as it is. It waits for readers that are entering or leaving.
    pub fn commit<W: Wait>(
        &mut self,
        rt: &W,
        alloc: Global,
        reader: &mut Reader<H>,
        command: Command,
    ) -> Result<Receipt<H>, Refusal>
        requires { IsSpelt command }
        ensures due { IsDue wants_memory result (commit_of self.old command) }
        ensures published { MatchResult result (λ receipt. self.new ≡ receipt) (λ refusal. self.new ≡ self.old) }
        ensures share { MatchResult result (λ receipt. reader.new ≡ lent reader.old) (λ refusal. reader.new ≡ reader.old) }
        ensures belongs { BelongsTo H.opening self.new }
    {
        let committed = self.commit_once(rt, alloc, reader, command);
        // These bring what is known of the version that is published now.
        let _number = self.exhibit.number();
        let _front = self.exhibit.front();
        committed
    }

    fn commit_once<W: Wait>(
        &mut self,
        rt: &W,
        alloc: Global,
        reader: &mut Reader<H>,
        command: Command,
    ) -> Result<Receipt<H>, Refusal>
        requires { IsSpelt command }
        ensures due { IsDue wants_memory result (commit_of self.old command) }
        ensures published { MatchResult result (λ receipt. self.new ≡ receipt) (λ refusal. self.new ≡ self.old) }
        ensures share { MatchResult result (λ receipt. reader.new ≡ lent reader.old) (λ refusal. reader.new ≡ reader.old) }
    {
        let piece = Snapshot::of(&command);
        let version = version_after(alloc, self.exhibit.held(), command)?;
        let next = Next::new(alloc, &self.exhibit, &self.word, version, &piece)?;
        let Next { kept, shown, told } = next;
        self.desk.show(rt, shown);
        self.exhibit = kept;
        reader.lend(&mut self.commits);
        Ok(Receipt::new(told))
    }

    /// A receipt of the published version.
    pub fn current(&mut self) -> Result<Receipt<H>, NoMemory>
        ensures current { IfOk result (λ receipt. receipt ≡ self.old) }
        ensures same { self.new ≡ self.old }
        ensures belongs { BelongsTo H.opening self.new }
    {
        // These bring what is known of the version that is published.
        let _number = self.exhibit.number();
        let _front = self.exhibit.front();
        Ok(Receipt::new(self.exhibit.again()?))
    }

    /// Changes nothing, and tells how the number stands to all shares together.
    pub(crate) fn audit(&mut self, all: &mut Share<H>)
        requires { all.old.parts ≡ H.parts }
        ensures sum { number_of self.old ≡ number_of H.opening + all.old.amount }
        ensures same { self.new ≡ self.old }
    {
        self.commits.audit(all);
    }
}

/// The version after a command.
fn version_after(alloc: Global, held: &Held, command: Command) -> Result<Version, Refusal>
    requires { IsSpelt command }
    ensures { IsDue wants_memory result (commit_of (arc_value held.now) command) }
{
    version_counted::<Brand>(alloc, held, command, Blank::new(1))
}

/// The same, with its steps counted in a ledger.
fn version_counted<L: Ledger>(
    alloc: Global,
    held: &Held,
    command: Command,
    blank: Blank,
) -> Result<Version, Refusal>
    requires spelt { IsSpelt command }
    requires name { blank.name ≡ L.name }
    requires parts { blank.parts ≡ L.parts }
    requires some { 0 < blank.parts }
    ensures { IsDue wants_memory result (commit_of (arc_value held.now) command) }
{
    let mut steps = Steps::<L>::start(blank);
    held.commit(alloc, command, &mut steps)
}
