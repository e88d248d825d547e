// The version that is published next.
ghost use Rattle.nm_publish.specs.History.{and_then, word_of};
ghost use Rattle.nm_publish.specs.Piece.{IsTold};
ghost use Rattle.nm_publish.specs.Shown.{told};
ghost use Rattle.nm_publish.specs.declared.piece.Piece.TheVariants.{Accepted};
ghost use Rattle.nm_version.specs.After.{accepted};
ghost use Rattle.nm_version.specs.Command.{entry_of};
ghost use Rattle.std.specs.Prelude.{◌≡◌, IfOk};

use crate::history::Word;
use crate::shown::{Exhibit, Held};
use nm_base::NoMemory;
use nm_version::{Command, Version};
use std::alloc::Global;
use std::snapshot::Snapshot;
use std::sync::Arc;

/// One exhibit three times: to keep, to show and to tell. All pointers are copied before the
/// history grows, so that nothing behind that can be refused.
#[derive(Drop)]
pub(crate) struct Next {
    pub(crate) kept: Exhibit,
    pub(crate) shown: Exhibit,
    pub(crate) told: Exhibit,
    ghost shown_is: { shown ≡ kept },
    ghost told_is: { told ≡ kept },
}

impl Next {
    /// The version after a command that was accepted, with the history that the command is put
    /// behind.
    pub(crate) fn new(
        alloc: Global,
        before: &Exhibit,
        word: &Word,
        version: Version,
        command: &Snapshot<Command>,
    ) -> Result<Next, NoMemory>
        requires word { word.now ≡ word_of before.now.front.book }
        requires after { version ≡ accepted before.now.kept command.now.value }
        ensures { IfOk result (λ next. next.kept ≡ told (and_then before.now.front (Accepted (entry_of command.now.value))) version) }
    {
        let held = Arc::new(alloc, version)?;
        let second = Arc::try_clone(&held)?;
        let third = Arc::try_clone(&held)?;
        let mut front = before.front().again();
        if !front.add(word, command) {
            return Err(NoMemory);
        }
        Ok(Next {
            kept: Exhibit::new(front.again(), held),
            shown: Exhibit::new(front.again(), second),
            told: Exhibit::new(front, third),
        })
    }
}
