// The timeline of a statement.
ghost use Rattle.nm_timeline.specs.Timeline as spec;
ghost use Rattle.std.specs.Prelude.{◌≡◌, [], IfOk};

use crate::entries::{add_entries, append_without};
use crate::mark::Mark;
use crate::part::Part;
use nm_day::{Day, Key};
use nm_ident::NoMemory;
use std::alloc::Global;
use std::marker::Model;

/// How a statement comes and goes: whether the base has it, and an entry for each step that names
/// it, in the order of the steps.
#[derive(Debug, Drop)]
pub struct Timeline {
    base: bool,
    entries: Vec<(Key, Mark)>,
}

impl Model for Timeline {
    ghost use Rattle.nm_timeline.specs.Timeline.{IsInOrder, PlainTimeline};

    ghost Value = { PlainTimeline };

    ghost view = { λ timeline. record { base = timeline.base; entries = timeline.entries.items } };

    ghost invariant = { λ timeline. IsInOrder timeline.entries.items };
}

impl Timeline {
    /// The timeline of a statement that no step names.
    pub fn new(alloc: Global, base: bool) -> Timeline
        ensures { result ≡ record { base = base; entries = [] } }
    {
        Timeline {
            base,
            entries: Vec::new(alloc),
        }
    }

    /// Whether the base has the statement.
    pub fn base(&self) -> bool
        ensures { result ≡ self.now.base }
    {
        self.base
    }

    /// The steps that name the statement, in their order, and how each does.
    pub fn entries(&self) -> &[(Key, Mark)]
        ensures entries { result.now ≡ self.now.entries }
        ensures order { spec.IsInOrder self.now.entries }
    {
        &self.entries
    }

    /// Whether the statement is there on a day: the base has it or not, and each entry whose day is
    /// at most the given one takes it away if it names it as reverse, and adds it if it names it as
    /// forward.
    pub fn present(&self, day: Day) -> bool
        ensures { result ≡ spec.present_at self.now day }
    {
        let mut present = self.base;
        for (key, mark) in &self.entries {
            if key.day <= day {
                present = mark.after(present);
            }
        }
        present
    }

    /// The first entry that does not fit what those before it leave, and its first part that does
    /// not: a precondition or a reverse statement that is absent, or a forward statement that is
    /// there.
    pub fn first_break(&self) -> Option<(Key, Part)>
        ensures { result ≡ spec.first_break_of self.now }
    {
        let mut present = self.base;
        for (key, mark) in &self.entries {
            if let Some(part) = mark.part_break(present) {
                return Some((*key, part));
            }
            present = mark.after(present);
        }
        None
    }

    /// The timeline without the entries at the keys of `remove`, and with those of `add`, each at
    /// its place. No two of `add` may stand at one key, and none at a key that remains.
    ///
    /// The time is that of a walk along the entries for each of `remove` and `add`.
    pub fn edited(
        &self,
        alloc: Global,
        remove: &[Key],
        add: &[(Key, Mark)],
    ) -> Result<Timeline, NoMemory>
        requires { spec.CanAdd (spec.without_keys remove.now self.now.entries) add.now }
        ensures { IfOk result (λ edited. edited ≡ spec.edited_of self.now remove.now add.now) }
    {
        let mut entries = Vec::with_capacity(alloc, self.entries.len() + add.len())?;
        append_without(&mut entries, &self.entries, remove)?;
        add_entries(&mut entries, add)?;
        Ok(Timeline {
            base: self.base,
            entries,
        })
    }

    /// The same timeline in memory of its own.
    pub fn copy(&self, alloc: Global) -> Result<Timeline, NoMemory>
        ensures { IfOk result (λ timeline. timeline ≡ self.now) }
    {
        Ok(Timeline {
            base: self.base,
            entries: Vec::from_slice(alloc, &self.entries)?,
        })
    }
}
