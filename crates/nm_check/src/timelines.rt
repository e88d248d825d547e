// The timelines of a store.
ghost use Rattle.nm_check.specs.Kept.{AreTimelinesOf, CanEditTimelines, due_after};
ghost use Rattle.nm_check.specs.Edit.{CanEdit};
ghost use Rattle.nm_check.specs.EditError.{wants_memory};
ghost use Rattle.nm_check.specs.Replay.{statements_at};
ghost use Rattle.nm_check.specs.Subject.{lines_of, object_at};
ghost use Rattle.nm_check.specs.Timelines.{base_of, timelines_of};
ghost use Rattle.nm_check.specs.Touched.{named_count};
ghost use Rattle.nm_stage.specs.Project.{PlainStep};
ghost use Rattle.nm_statement.specs.Set.{IsRising};
ghost use Rattle.nm_statement.specs.declared.statement.Statement as declared;
ghost use Rattle.nm_terms.specs.Due.{IsDue};
ghost use Rattle.nm_tree.specs.Depth.{depth_of};
ghost use Rattle.std.specs.Prelude.{List, ◌≡◌, ◌+◌, ◌*◌, ◌≤◌, ◌<◌, ◌==◌, [], IfOk, OnOk, length};

use crate::base::pairs_of;
use crate::breaks::EditError;
use crate::days::{count_present, set_of_present};
use crate::editing::{Edited, edit_touched};
use crate::naming::touched;
use crate::subject::OfSubject;
use nm_base::Steps;
use nm_day::Day;
use nm_ident::{Ident, NoMemory};
use nm_stage::Step;
use nm_statement::{Set, Statement};
use nm_timeline::Timeline;
use nm_tree::{Tree, Walk};
use std::alloc::Global;
use std::marker::{Brand, Model};
use std::sync::ledger::{Blank, Ledger};

/// Statements with their timelines, in order.
pub type Lines<'a> = Walk<'a, Statement, Timeline>;

/// The timelines of all statements that a base or steps name. A contract sees the list of the
/// statements, each with its timeline.
///
/// They are those of a base and of steps none of which breaks. An edit gives other timelines, which
/// share with these what did not change.
#[derive(Drop)]
pub struct Timelines {
    tree: Tree<Statement, Timeline>,
}

impl Model for Timelines {
    ghost use Rattle.std.specs.Prelude.{List};
    ghost use Rattle.nm_check.specs.Kept.{AreKept};
    ghost use Rattle.nm_statement.specs.declared.statement.Statement.{Statement};
    ghost use Rattle.nm_timeline.specs.Timeline.{PlainTimeline};

    ghost Value = { List (Statement × PlainTimeline) };

    ghost view = { λ timelines. timelines.tree };

    ghost invariant = { λ timelines. AreKept timelines.tree };
}

impl Timelines {
    /// The timelines of the statements of a base without steps. This takes one step for each.
    pub fn of_base<L: Ledger>(
        alloc: Global,
        base: &Set,
        steps: &mut Steps<L>,
    ) -> Result<Timelines, NoMemory>
        ensures timelines { IfOk result (λ timelines. timelines ≡ timelines_of base.now []) }
        ensures steps { OnOk result (steps.new ≡ steps.old + length base.now) }
        ensures most_steps { steps.new ≤ steps.old + length base.now }
    {
        Timelines::taking_base(alloc, base.copy(alloc)?, steps)
    }

    /// The timelines of the statements of a base without steps, which take the statements themselves
    /// and copy none. This takes one step for each.
    pub fn taking_base<L: Ledger>(
        alloc: Global,
        base: Set,
        steps: &mut Steps<L>,
    ) -> Result<Timelines, NoMemory>
        ensures timelines { IfOk result (λ timelines. timelines ≡ timelines_of base []) }
        ensures steps { OnOk result (steps.new ≡ steps.old + length base) }
        ensures most_steps { steps.new ≤ steps.old + length base }
    {
        let pairs = pairs_of(alloc, base.into_list())?;
        Ok(Timelines {
            tree: Tree::from_sorted(alloc, pairs, steps)?,
        })
    }

    /// The timelines after steps were taken away and added. These timelines stay as they are.
    ///
    /// `Break` where a statement of a step does not fit what the base and the steps before it leave:
    /// the first one of the first such step, by part and then by statement.
    pub fn edit<'a, L: Ledger>(
        &self,
        alloc: Global,
        remove: &'a [Step],
        add: &'a [Step],
        steps: &mut Steps<L>,
    ) -> Result<Timelines, EditError>
        requires { CanEditTimelines remove.now add.now self.now }
        ensures due { (base : List declared.Statement) (before : List PlainStep) → AreTimelinesOf base before self.now → CanEdit remove.now add.now before → IsDue wants_memory result (due_after base remove.now add.now before) }
        ensures steps { let k = named_count remove.now + named_count add.now in steps.new ≤ steps.old + 4 * k * (depth_of (length self.now + k) + 2) }
    {
        let mut touched = touched(alloc, remove, add)?;
        let Edited { tree, least } = edit_touched(
            alloc,
            &self.tree,
            remove,
            add,
            &mut touched,
            steps,
        )?;
        match least {
            Some(found) => Err(EditError::Break(found)),
            None => Ok(Timelines { tree }),
        }
    }

    /// The statements that are there on a day.
    pub fn at(&self, alloc: Global, day: Day) -> Result<Set, NoMemory>
        ensures { IfOk result (λ set. (base : List declared.Statement) (steps : List PlainStep) → AreTimelinesOf base steps self.now → set ≡ statements_at base steps day) }
    {
        let lines = self.all::<Brand>(alloc, Blank::new(1))?;
        set_of_present(alloc, lines.as_slice(), day)
    }

    /// How many statements are there on a day.
    pub fn count(&self, alloc: Global, day: Day) -> Result<usize, NoMemory>
        ensures { IfOk result (λ count. (base : List declared.Statement) (steps : List PlainStep) → AreTimelinesOf base steps self.now → count ≡ length (statements_at base steps day)) }
    {
        let lines = self.all::<Brand>(alloc, Blank::new(1))?;
        Ok(count_present(lines.as_slice(), day))
    }

    /// The statements of a subject that are there on a day. Those of other subjects are not looked
    /// at.
    pub fn object(&self, alloc: Global, day: Day, subject: &Ident) -> Result<Set, NoMemory>
        ensures { IfOk result (λ set. (base : List declared.Statement) (steps : List PlainStep) → AreTimelinesOf base steps self.now → set ≡ object_at base steps day subject.now) }
    {
        let lines = self.of_subject(alloc, subject)?;
        set_of_present(alloc, lines.as_slice(), day)
    }

    /// The statements of a subject, in order, each with its timeline.
    pub fn of_subject(&self, alloc: Global, subject: &Ident) -> Result<Lines<'_>, NoMemory>
        ensures { IfOk result (λ lines. lines ≡ lines_of subject.now self.now) }
    {
        self.within::<Brand>(alloc, subject, Blank::new(1))
    }

    fn all<L: Ledger>(&self, alloc: Global, blank: Blank) -> Result<Lines<'_>, NoMemory>
        requires name { blank.name ≡ L.name }
        requires parts { blank.parts ≡ L.parts }
        requires some { 0 < blank.parts }
        ensures { IfOk result (λ lines. lines ≡ self.now) }
    {
        let mut steps = Steps::<L>::start(blank);
        self.tree.walk(alloc, None, &mut steps)
    }

    fn within<L: Ledger>(
        &self,
        alloc: Global,
        subject: &Ident,
        blank: Blank,
    ) -> Result<Lines<'_>, NoMemory>
        requires name { blank.name ≡ L.name }
        requires parts { blank.parts ≡ L.parts }
        requires some { 0 < blank.parts }
        ensures { IfOk result (λ lines. lines ≡ lines_of subject.now self.now) }
    {
        let mut steps = Steps::<L>::start(blank);
        self.tree
            .walk_within(alloc, &OfSubject { subject }, &mut steps)
    }

    /// Equal timelines, which share what these hold. `NoMemory` where the count of those who share
    /// it is full.
    pub fn share(&self) -> Result<Timelines, NoMemory>
        ensures { IfOk result (λ timelines. timelines ≡ self.now) }
    {
        Ok(Timelines {
            tree: self.tree.share()?,
        })
    }

    /// The statements of the base stand among these in order. It takes no time: a call brings to a
    /// proof what the type keeps.
    pub fn base_is_in_order(&self)
        ensures { IsRising (base_of self.now) }
    {
        let _tree = &self.tree;
    }

    /// How many statements have a timeline.
    pub fn len(&self) -> usize
        ensures { result ≡ length self.now }
    {
        self.tree.len()
    }

    /// Whether no statement has a timeline.
    pub fn is_empty(&self) -> bool
        ensures { result ≡ (length self.now == 0) }
    {
        self.tree.is_empty()
    }
}
