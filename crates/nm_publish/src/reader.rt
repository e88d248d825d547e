// A reader of a store.
ghost use Rattle.nm_publish.specs.History.{BeginsIn, GoesOn};
ghost use Rattle.nm_publish.specs.Piece.{IsTold};
ghost use Rattle.nm_publish.specs.Reader.{IsLookOf, IsPlaced, LearnsOne, TriesOnce, lent, standing};
ghost use Rattle.nm_publish.specs.Store.{BelongsTo, choose, longer_of};
ghost use Rattle.nm_version.specs.Kept.{number_of};
ghost use Rattle.std.specs.Prelude.{◌≡◌, ◌+◌, ◌≤◌, IfOk, IfErr, nat_lt};
ghost use mathlib.Core.List.{IsPrefix};

use crate::count::Count;
use crate::gate::Gate;
use crate::history::Front;
use crate::look::Look;
use crate::receipt::Receipt;
use crate::shown::Exhibit;
use crate::site::Site;
use nm_base::NoMemory;
use std::marker::Model;
use std::sync::ledger::{Book, Share};
use std::sync::{Arc, Wait};

/// A reader of a store, which looks at it without waiting for anybody. A contract sees the version
/// that it keeps, the log of its view, its counts and its share of the commits.
#[derive(Drop)]
pub struct Reader<H: Site> {
    gate: Gate,
    exhibit: Exhibit,
    misses: Count,
    learnt: Count,
    share: Share<H>,
}

impl<H: Site> Model for Reader<H> {
    ghost use Rattle.nm_publish.specs.Reader.{IsPlaced, Standing, standing};

    ghost Value = { Standing };

    ghost view = { λ reader. standing reader.exhibit.kept reader.gate reader.misses reader.learnt reader.share.amount };

    ghost invariant = { λ reader. IsPlaced H.book H.opening reader.exhibit.front reader.gate reader.share.parts };
}

impl<H: Site> Reader<H> {
    /// A reader that keeps the version of the exhibit.
    pub(crate) fn new(gate: Gate, exhibit: Exhibit, share: Share<H>) -> Reader<H>
        requires { IsPlaced H.book H.opening exhibit.front gate share.parts }
        ensures { result ≡ standing exhibit.kept gate 0 0 share.amount }
    {
        Reader {
            gate,
            exhibit,
            misses: Count::none(),
            learnt: Count::none(),
            share,
        }
    }

    /// The number of the version that it keeps.
    pub fn number(&self) -> u32
        ensures number { result ≡ number_of self.now.kept }
        ensures belongs { BelongsTo H.opening self.now.kept }
        ensures begins { IsPrefix self.now.kept.log self.now.view }
    {
        let _front = self.exhibit.front();
        self.exhibit.number()
    }

    /// Looks at the store, waits for nobody, and takes no lock.
    ///
    /// `Fresh` is the version at an entering that this look made. `Last` is the version that the
    /// reader keeps, where no entering was granted. The reader keeps what it gives.
    ///
    /// After `NoMemory`, which comes where the pointer to a version could not be copied, the reader
    /// keeps the version that it had.
    pub fn look(&mut self) -> Result<Look, NoMemory>
        ensures look { IfOk result (λ look. IsLookOf self.old self.new look) }
        ensures begins { IsPrefix self.old.kept.log self.new.kept.log }
        ensures refused { IfErr result (λ error. self.new.kept ≡ self.old.kept) }
        ensures tried { TriesOnce self.old self.new }
        ensures belongs { BelongsTo H.opening self.new.kept }
    {
        let looked = self.look_once();
        // Brings what is known of the version that is kept now.
        let _number = self.number();
        looked
    }

    fn look_once(&mut self) -> Result<Look, NoMemory>
        ensures look { IfOk result (λ look. IsLookOf self.old self.new look) }
        ensures begins { IsPrefix self.old.kept.log self.new.kept.log }
        ensures refused { IfErr result (λ error. self.new.kept ≡ self.old.kept) }
        ensures tried { TriesOnce self.old self.new }
    {
        let _front = self.exhibit.front();
        match self.gate.enter(&mut self.misses) {
            None => Ok(Look::Last(Arc::try_clone(self.exhibit.held())?)),
            Some(shown) => {
                let exhibit = shown.exhibit()?;
                let held = Arc::try_clone(exhibit.held())?;
                self.exhibit = exhibit;
                Ok(Look::Fresh(held))
            }
        }
    }

    /// Learns the receipt, so that later looks are not earlier than it: the reader keeps the version
    /// with the longer log of the two.
    ///
    /// It enters until an entering is granted, which tells that both logs begin the one that was
    /// found there, and so waits for the keeper where that is about to be dropped.
    pub fn learn<R: Wait>(&mut self, rt: &R, receipt: Receipt<H>)
        ensures kept { self.new.kept ≡ longer_of self.old.kept receipt }
        ensures begins { IsPrefix self.old.kept.log self.new.kept.log × IsPrefix receipt.log self.new.kept.log }
        ensures counted { LearnsOne self.old self.new }
        ensures belongs { BelongsTo H.opening self.new.kept }
    {
        self.learn_once(rt, receipt);
        // Brings what is known of the version that is kept now.
        let _number = self.number();
    }

    fn learn_once<R: Wait>(&mut self, rt: &R, receipt: Receipt<H>)
        ensures kept { self.new.kept ≡ longer_of self.old.kept receipt }
        ensures begins { IsPrefix self.old.kept.log self.new.kept.log × IsPrefix receipt.log self.new.kept.log }
        ensures counted { LearnsOne self.old self.new }
    {
        let exhibit = receipt.into_exhibit();
        let found = self.gate.enter_at_last(rt, &mut self.misses);
        not_later(rt, &exhibit, &found);
        keep_longer(&mut self.exhibit, exhibit);
        self.learnt.rise();
    }

    /// The count of the commits that this reader was lent for rises, and so does the ledger.
    pub(crate) fn lend(&mut self, commits: &mut Book<H>)
        ensures lent { self.new ≡ lent self.old }
        ensures total { commits.new.total ≡ commits.old.total + 1 }
    {
        commits.add(&mut self.share, 1);
    }

    /// Its part of the ledger.
    pub(crate) fn into_share(self) -> Share<H>
        ensures one { result.parts ≡ 1 }
        ensures amount { result.amount ≡ self.share }
    {
        self.share
    }
}

/// The exhibit goes before the front that was found: that it is later cannot come, and then this
/// waits for good.
fn not_later<R: Wait>(rt: &R, exhibit: &Exhibit, found: &Front)
    requires { found.now.book ≡ exhibit.now.front.book }
    ensures { GoesOn exhibit.now.front found.now }
{
    if found.commits() < exhibit.front().commits() {
        for _ in rt.forever() {}
        unreachable!()
    }
    exhibit.front().begins(found);
}

/// Keeps the exhibit whose log is the longer one.
fn keep_longer(mine: &mut Exhibit, other: Exhibit)
    ensures kept { mine.new ≡ choose (nat_lt (number_of mine.old.kept) (number_of other.kept)) mine.old other }
    ensures told { IsTold mine.old.front.pieces mine.old.kept × IsTold other.front.pieces other.kept }
{
    let _mine = mine.front();
    let _other = other.front();
    if mine.number() < other.number() {
        *mine = other;
    }
}
