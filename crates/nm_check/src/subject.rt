// The statements of a subject, as a stretch of all.
ghost use Rattle.nm_check.specs.Subject.{subject_place, subjects_rise};

use nm_ident::Ident;
use nm_statement::Statement;
use nm_tree::Span;
use std::cmp::Ordering;

/// The statements of a subject.
#[derive(Drop)]
pub(crate) struct OfSubject<'a> {
    pub(crate) subject: &'a Ident,
}

impl Span<Statement> for OfSubject<'_> {
    ghost place = { λ span. subject_place span.subject.now };

    fn place(&self, statement: &Statement) -> Ordering {
        statement.subject.cmp(self.subject)
    }

    ghost rises = { λ span. subjects_rise span.subject.now };
}
