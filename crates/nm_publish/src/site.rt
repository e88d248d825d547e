// Which opening of a store its keeper and its readers belong to.
use std::marker::Brand;
use std::sync::ledger::Ledger;

/// One opening of a store. It has no call: it names, for proofs alone, the book in which the
/// store's history stands, and the version that the store was opened with, and so the base with its
/// bytes and the log that the history begins with. As a [`Ledger`] it names a ledger of as many
/// parts as readers were wanted.
///
/// A function that is generic over `H: Site` is called at [`Brand`], and its caller picks the
/// names.
pub trait Site: Ledger {
    ghost use Rattle.logbook.specs.Pages.{Book};
    ghost use Rattle.nm_version.specs.Kept.{Kept};

    ghost book: { Book };

    ghost opening: { Kept };
}

impl Site for Brand {
    ghost use Rattle.nm_publish.specs.Nowhere.{no_version};

    ghost book = { record { number = 0; log_name = 0; cells_name = 0 } };

    ghost opening = { no_version };
}
