// The history of a store: a list of pieces that only grows, of which each version holds a front.
ghost use Rattle.logbook.specs.Pages.{Book};
ghost use Rattle.nm_publish.specs.History.{BeginsIn, GoesOn, and_then, word_of};
ghost use Rattle.nm_publish.specs.declared.piece.Piece.TheVariants.{Opened, Accepted};
ghost use Rattle.nm_version.specs.Command.{entry_of};
ghost use Rattle.std.specs.Prelude.{◌≡◌, ◌+◌, ◌≤◌, [], ◌∷◌, length, true};
ghost use mathlib.Core.List.{IsPrefix};

use crate::piece::Piece;
use logbook::{Gain, Offer, Opening, Plain, Play, Rule, Seen, Start};
use nm_version::{Command, Version};
use std::marker::Model;
use std::snapshot::Snapshot;

/// The rule of the book: its one word counts the pieces behind the opening.
pub(crate) struct Law;

impl Rule<Piece, u64> for Law {
    ghost use Rattle.std.specs.Prelude.{[]};
    ghost use base.Fml.{ftrue};
    ghost use Rattle.nm_publish.specs.History.{IsCounted};

    ghost holds = { λ cells pieces. IsCounted cells pieces };

    ghost first = { [] };

    ghost hinted = { λ number pieces. Unit {0} };

    ghost shows = { λ pieces. [] };

    ghost keeps = { λ names pieces. ftrue };

    ghost moves = { λ ask before after answer. Unit {0} };
}

/// A step trades nothing.
pub(crate) struct Nothing;

impl Gain<Piece, u64> for Nothing {
    ghost use base.Fml.{ftrue};

    ghost after = { λ names about answer. ftrue };
}

/// A book is opened with the version that the store begins with.
pub(crate) struct Begin;

impl Opening<Version, Piece> for Begin {
    ghost use Rattle.std.specs.Prelude.{[], ◌∷◌};
    ghost use Rattle.nm_publish.specs.declared.piece.Piece.TheVariants.{Opened};

    ghost log = { λ words opening. Opened opening ∷ [] };
}

/// The step that puts a command behind the history.
pub(crate) struct Add;

impl Play<Piece, u64> for Add {
    ghost use Rattle.nm_publish.specs.History.{Adds};

    ghost then = { Adds };
}

impl Plain<Snapshot<Command>, Piece, u64> for Add {
    ghost use Rattle.std.specs.Prelude.{None};
    ghost use Rattle.nm_publish.specs.declared.piece.Piece.TheVariants.{Accepted};
    ghost use Rattle.nm_version.specs.Command.{entry_of};

    ghost ask = { λ command. Accepted (entry_of command.value) };

    ghost state = { λ command. None };
}

/// The word of a book.
pub(crate) type Word = logbook::Word<Piece, u64, Law>;

/// The most commands that a front is asked to count.
const MOST: u64 = 1 << 62;

/// The history as far as it was seen. A contract sees the book and the pieces; at run time it is
/// the count of the commands alone.
#[derive(Drop)]
pub(crate) struct Front {
    commits: u64,
    seen: Seen<Piece, u64, Law>,
}

impl Model for Front {
    ghost use Rattle.std.specs.Prelude.{◌≡◌, ◌+◌, length};
    ghost use Rattle.nm_publish.specs.History.{History, history};

    ghost Value = { History };

    ghost view = { λ front. history front.seen.book front.seen.log };

    ghost invariant = { λ front. front.commits + 1 ≡ length front.seen.log };
}

impl Front {
    /// A new history, which begins with the version, and the word of its book.
    pub(crate) fn open(version: &Version) -> (Front, Word)
        ensures pieces { result.0.pieces ≡ Opened version.now ∷ [] }
        ensures word { result.1 ≡ word_of result.0.book }
    {
        let (seen, mut pens) = Seen::open_row::<Version, Begin>(version, Start::alone(), 1);
        let mut pen = pens.take();
        let word = Word::tracked(0, &mut pen);
        (Front { commits: 0, seen }, word)
    }

    /// How many commands stand behind the opening.
    pub(crate) fn commits(&self) -> u64
        ensures { result + 1 ≡ length self.now.pieces }
    {
        self.commits
    }

    /// A copy.
    pub(crate) fn again(&self) -> Front
        ensures { result ≡ self.now }
    {
        Front {
            commits: self.commits,
            seen: self.seen.again(),
        }
    }

    /// Of two fronts of one book the one with fewer pieces begins the other.
    pub(crate) fn begins(&self, other: &Front)
        requires { other.now.book ≡ self.now.book }
        ensures { length self.now.pieces ≤ length other.now.pieces → GoesOn self.now other.now }
    {
        let mut both = self.seen.again();
        both.learn(&other.seen);
        let _both = (self.commits, other.commits);
    }

    /// Puts the command behind the history, and says whether it did: it did not where another has
    /// put one there since.
    pub(crate) fn add(&mut self, word: &Word, command: &Snapshot<Command>) -> bool
        requires { word.now ≡ word_of self.old.book }
        ensures book { self.new.book ≡ self.old.book }
        ensures added { result ≡ true → self.new ≡ and_then self.old (Accepted (entry_of command.now.value)) }
    {
        let commits = self.commits;
        if commits >= MOST {
            return false;
        }
        let mut offer: Offer<Piece, u64, Law, Nothing> = self
            .seen
            .plain::<Nothing, Snapshot<Command>, Add>(command);
        let mut pen = self.seen.no_pen();
        let found = word.compare_exchange::<Add, Nothing>(
            commits,
            commits + 1,
            &mut self.seen,
            &mut offer,
            &mut pen,
        );
        self.commits = if found == commits { commits + 1 } else { found };
        found == commits
    }
}
