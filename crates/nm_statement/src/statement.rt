// Statements.
ghost use Rattle.nm_statement.specs.Sound.{is_sound_statement};
ghost use Rattle.std.specs.Prelude.{◌≡◌, IfOk};

use crate::object::Object;
use nm_ident::{Ident, Name, NoMemory, is_predicate};
use std::alloc::Global;

/// One statement of a model, ordered by subject, predicate and object.
#[derive(Debug, Drop, PartialEq, Eq, PartialOrd, Ord)]
pub struct Statement {
    /// The resource that is spoken of.
    pub subject: Ident,
    /// The property.
    pub predicate: Name,
    /// What the property is.
    pub object: Object,
}

impl Statement {
    /// Whether a document can state it: it can name the subject and the property, and state the
    /// object.
    pub fn is_sound(&self) -> bool
        ensures { result ≡ is_sound_statement self.now }
    {
        let predicate = &self.predicate;
        self.subject.is_sound()
            && is_predicate(predicate.ns().as_slice(), predicate.local().as_slice())
            && self.object.is_sound()
    }

    /// The same statement in memory of its own.
    pub fn copy(&self, alloc: Global) -> Result<Statement, NoMemory>
        ensures { IfOk result (λ statement. statement ≡ self.now) }
    {
        Ok(Statement {
            subject: self.subject.copy(alloc)?,
            predicate: self.predicate.copy(alloc)?,
            object: self.object.copy(alloc)?,
        })
    }
}
