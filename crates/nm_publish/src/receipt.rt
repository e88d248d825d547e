// What a commit hands out: the version that it published.
ghost use Rattle.nm_publish.specs.History.{BeginsIn};
ghost use Rattle.nm_publish.specs.Store.{BelongsTo};
ghost use Rattle.nm_version.specs.Kept.{number_of};
ghost use Rattle.std.specs.Arc.{arc_value};
ghost use Rattle.std.specs.Prelude.{◌≡◌};

use crate::shown::{Exhibit, Held};
use crate::site::Site;
use std::marker::{Model, PhantomData};

/// A version that was published, with the token by which a reader that learns it knows that its
/// log belongs to the reader's own store. A contract sees what the version keeps.
#[derive(Drop)]
pub struct Receipt<H: Site> {
    exhibit: Exhibit,
    of: PhantomData<H>,
}

impl<H: Site> Model for Receipt<H> {
    ghost use Rattle.nm_publish.specs.History.{BeginsIn};
    ghost use Rattle.nm_version.specs.Kept.{Kept};

    ghost Value = { Kept };

    ghost view = { λ receipt. receipt.exhibit.kept };

    ghost invariant = { λ receipt. BeginsIn H.book H.opening receipt.exhibit.front };
}

impl<H: Site> Receipt<H> {
    pub(crate) fn new(exhibit: Exhibit) -> Receipt<H>
        requires { BeginsIn H.book H.opening exhibit.front }
        ensures { result ≡ exhibit.kept }
    {
        Receipt {
            exhibit,
            of: PhantomData,
        }
    }

    /// The number of the version: how many commands were accepted.
    pub fn number(&self) -> u32
        ensures number { result ≡ number_of self.now }
        ensures belongs { BelongsTo H.opening self.now }
    {
        let _front = self.exhibit.front();
        self.exhibit.number()
    }

    /// The version.
    pub fn held(&self) -> &Held
        ensures held { arc_value result.now ≡ self.now }
        ensures belongs { BelongsTo H.opening self.now }
    {
        let _number = self.number();
        self.exhibit.held()
    }

    /// The version with its front.
    pub(crate) fn into_exhibit(self) -> Exhibit
        ensures kept { result.kept ≡ self }
        ensures begins { BeginsIn H.book H.opening result.front }
    {
        self.exhibit
    }
}
