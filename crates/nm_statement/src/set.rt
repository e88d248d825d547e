// Sets of statements.
ghost use Rattle.nm_statement.specs.Set.{IsRising, has, minus_of, set_of, union_of};
ghost use Rattle.nm_statement.specs.Sound.{is_sound_set, is_sound_statement};
ghost use Rattle.std.specs.List.{list_all};
ghost use Rattle.std.specs.Prelude.{◌≡◌, ◌==◌, ◌<◌, ◌^◌, length, IfOk, IsOk};
ghost use Rattle.std.specs.Iterator.Adapters.{IterYieldsInOrder};
ghost use Rattle.std.specs.Slice.Iter.{iter_rest};
ghost use Rattle.nm_statement.specs.declared.statement.Statement as declared;

use crate::merge::{append_copies, either, first_alone};
use crate::statement::Statement;
use nm_ident::NoMemory;
use std::alloc::Global;
use std::marker::Model;
use std::slice::Iter;

/// A set of statements. A contract sees it as the strictly rising list of them.
///
/// ```text
/// let kept = base.minus(alloc, &change.rev)?.union(alloc, &change.fwd)?;
/// assert!(kept.contains(&added));
/// ```
#[derive(Debug, Drop)]
pub struct Set {
    statements: Vec<Statement>,
}

impl Model for Set {
    ghost use Rattle.std.specs.Prelude.{List};
    ghost use Rattle.nm_statement.specs.declared.statement.Statement.{Statement};

    ghost Value = { List Statement };

    ghost use Rattle.nm_statement.specs.Set.{IsRising};

    ghost view = { λ set. set.statements.items };

    ghost invariant = { λ set. IsRising set.statements.items };
}

impl Set {
    /// The set of these statements, in whatever order and however often each is given.
    ///
    /// The list is sorted in place, so this takes no memory.
    pub fn of_list(_alloc: Global, list: Vec<Statement>) -> Result<Set, NoMemory>
        ensures succeeds { IsOk result }
        ensures set { IfOk result (λ set. set ≡ set_of list.items) }
    {
        let mut statements = list;
        statements.sort_unstable();
        statements.dedup();
        Ok(Set { statements })
    }

    /// Whether the set has the statement, by a binary search.
    pub fn contains(&self, statement: &Statement) -> bool
        ensures { result ≡ has self.now statement.now }
    {
        self.statements.binary_search(statement).is_ok()
    }

    /// The statements of either set, in one walk along both.
    pub fn union(&self, alloc: Global, other: &Set) -> Result<Set, NoMemory>
        ensures { IfOk result (λ set. set ≡ union_of self.now other.now) }
    {
        Ok(Set {
            statements: either(alloc, &self.statements, &other.statements)?,
        })
    }

    /// The statements of this set that are not in the other, in one walk along both.
    pub fn minus(&self, alloc: Global, other: &Set) -> Result<Set, NoMemory>
        ensures { IfOk result (λ set. set ≡ minus_of self.now other.now) }
    {
        Ok(Set {
            statements: first_alone(alloc, &self.statements, &other.statements)?,
        })
    }

    /// Whether a document can state every statement of the set.
    pub fn is_sound(&self) -> bool
        ensures { result ≡ is_sound_set self.now }
    {
        are_sound(self.as_slice())
    }

    /// The same set in memory of its own.
    pub fn copy(&self, alloc: Global) -> Result<Set, NoMemory>
        ensures { IfOk result (λ set. set ≡ self.now) }
    {
        let mut statements = Vec::with_capacity(alloc, self.len())?;
        append_copies(alloc, &mut statements, self.as_slice())?;
        Ok(Set { statements })
    }

    /// How many statements the set has.
    pub fn len(&self) -> usize
        ensures { result ≡ length self.now }
    {
        self.statements.len()
    }

    /// Whether the set has no statement.
    pub fn is_empty(&self) -> bool
        ensures { result ≡ (length self.now == 0) }
    {
        self.statements.is_empty()
    }

    /// The statements, in order.
    pub fn as_slice(&self) -> &[Statement]
        ensures statements { result.now ≡ self.now }
        ensures rising { IsRising self.now }
    {
        &self.statements
    }

    /// The list of the statements, in order. Nothing is copied.
    pub fn into_list(self) -> Vec<Statement>
        ensures statements { result.items ≡ self }
        ensures rising { IsRising result.items }
    {
        self.statements
    }

    /// The statements, in order.
    pub fn iter(&self) -> SetIter<'_>
        ensures statements { iter_rest result ≡ self.now }
        ensures rising { IsRising self.now }
        ensures bound { length (iter_rest result) < 2 ^ 64 }
        ensures runs { IterYieldsInOrder declared.Statement }
    {
        self.statements.iter()
    }
}

fn are_sound(statements: &[Statement]) -> bool
    ensures { result ≡ list_all is_sound_statement statements.now }
{
    statements.iter().all(|statement| statement.is_sound())
}

/// The statements of a set, in order.
pub type SetIter<'a> = Iter<'a, Statement>;

/// What a difference model changes: the preconditions, and the statements that it takes away and
/// adds (IEC 61970-552).
#[derive(Debug, Drop)]
pub struct Change {
    /// The statements that have to hold for the difference to apply.
    pub pre: Set,
    /// The statements that are in the old model and not in the new one.
    pub rev: Set,
    /// The statements that are in the new model and not in the old one.
    pub fwd: Set,
}

impl Change {
    /// The same change in memory of its own.
    pub fn copy(&self, alloc: Global) -> Result<Change, NoMemory>
        ensures { IfOk result (λ change. change ≡ self.now) }
    {
        Ok(Change {
            pre: self.pre.copy(alloc)?,
            rev: self.rev.copy(alloc)?,
            fwd: self.fwd.copy(alloc)?,
        })
    }
}
