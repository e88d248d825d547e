// What a session stands in: without a base, or in a store.
ghost use Rattle.nm_session.specs.PlainWord.{plain};
ghost use Rattle.nm_session.specs.Turn as spec;
ghost use Rattle.std.specs.Prelude.{◌≡◌};

use crate::word::Word;
use nm_version::Version;

/// What a session stands in.
#[derive(Drop)]
pub enum State {
    /// No base was accepted yet.
    Empty,
    /// A base was accepted.
    Store(Version),
}

impl State {
    /// Whether the line is a command here: `base` until a base is accepted, the others after that,
    /// and `end` always.
    pub(crate) fn allows(&self, word: &Word) -> bool
        ensures { result ≡ spec.allows self.now (plain word.now) }
    {
        match self {
            State::Empty => match word {
                Word::Base { .. } | Word::End => true,
                Word::File { .. }
                | Word::Revise { .. }
                | Word::Redate { .. }
                | Word::Withdraw { .. }
                | Word::Assemble { .. }
                | Word::Object { .. }
                | Word::Timeline { .. }
                | Word::Projects
                | Word::Log
                | Word::Summary { .. } => false,
            },
            State::Store(_) => match word {
                Word::File { .. }
                | Word::Revise { .. }
                | Word::Redate { .. }
                | Word::Withdraw { .. }
                | Word::Assemble { .. }
                | Word::Object { .. }
                | Word::Timeline { .. }
                | Word::Projects
                | Word::Log
                | Word::Summary { .. }
                | Word::End => true,
                Word::Base { .. } => false,
            },
        }
    }
}
