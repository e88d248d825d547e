// What readers find in the store.
ghost use Rattle.nm_publish.specs.Piece.{IsTold};
ghost use Rattle.nm_publish.specs.Shown.{ComesFrom, behind, told};
ghost use Rattle.nm_version.specs.After.{IsReached};
ghost use Rattle.nm_version.specs.Kept.{number_of};
ghost use Rattle.std.specs.Arc.{arc_value};
ghost use Rattle.std.specs.Prelude.{◌≡◌, IfOk};

use crate::history::Front;
use left_right::Absorb;
use nm_base::NoMemory;
use nm_version::Version;
use std::alloc::AllocError;
use std::marker::Model;
use std::sync::Arc;

/// A version that is held: it never changes, and the copies of the pointer share it.
pub type Held = Arc<Version>;

/// A front of the history, and the version that it tells.
#[derive(Drop)]
pub(crate) struct Exhibit {
    front: Front,
    held: Held,
}

impl Model for Exhibit {
    ghost use Rattle.nm_publish.specs.Piece.{IsTold};
    ghost use Rattle.nm_publish.specs.Shown.{Told, told};
    ghost use Rattle.std.specs.Arc.{arc_value};

    ghost Value = { Told };

    ghost view = { λ exhibit. told exhibit.front (arc_value exhibit.held) };

    ghost invariant = { λ exhibit. IsTold exhibit.front.pieces (arc_value exhibit.held) };
}

impl Exhibit {
    /// The version with the front that tells it.
    pub(crate) fn new(front: Front, held: Held) -> Exhibit
        requires { IsTold front.pieces (arc_value held) }
        ensures { result ≡ told front (arc_value held) }
    {
        Exhibit { front, held }
    }

    /// The front.
    pub(crate) fn front(&self) -> &Front
        ensures front { result.now ≡ self.now.front }
        ensures told { IsTold self.now.front.pieces self.now.kept }
    {
        &self.front
    }

    /// The number of the version.
    pub(crate) fn number(&self) -> u32
        ensures number { result ≡ number_of self.now.kept }
        ensures reached { IsReached self.now.kept }
    {
        self.held.number()
    }

    /// The version.
    pub(crate) fn held(&self) -> &Held
        ensures held { arc_value result.now ≡ self.now.kept }
        ensures told { IsTold self.now.front.pieces self.now.kept }
    {
        &self.held
    }

    /// A copy, which shares the version.
    pub(crate) fn again(&self) -> Result<Exhibit, NoMemory>
        ensures { IfOk result (λ copy. copy ≡ self.now) }
    {
        Ok(Exhibit {
            front: self.front.again(),
            held: Arc::try_clone(&self.held)?,
        })
    }

    /// The front, with the version where its pointer can be copied.
    pub(crate) fn shown(&self) -> Shown
        ensures { result.front ≡ self.now.front }
    {
        Shown {
            front: self.front.again(),
            held: Arc::try_clone(&self.held).ok(),
        }
    }

    /// The front and the version.
    fn into_shown(self) -> Shown
        ensures { result.front ≡ self.front }
    {
        Shown {
            front: self.front,
            held: Some(self.held),
        }
    }
}

/// What stands in each of the store's two copies. The version is wanting where its pointer could
/// not be copied: then a look there answers that memory is wanting, until the next commit.
#[derive(Drop)]
pub(crate) struct Shown {
    front: Front,
    held: Option<Held>,
}

impl Model for Shown {
    ghost use Rattle.nm_publish.specs.Shown.{Sign, TellsHeld, behind, sign};

    ghost Value = { Sign };

    ghost view = { λ shown. sign shown.front (behind shown.held) };

    ghost invariant = { λ shown. TellsHeld shown.front (behind shown.held) };
}

impl Shown {
    /// A copy, with the version where its pointer can be copied.
    pub(crate) fn again(&self) -> Shown
        ensures { result.front ≡ self.now.front }
    {
        Shown {
            front: self.front.again(),
            held: copied(&self.held),
        }
    }

    /// The front alone.
    pub(crate) fn into_front(self) -> Front
        ensures { result ≡ self.front }
    {
        self.front
    }

    /// The front and its version, where that is there.
    pub(crate) fn exhibit(self) -> Result<Exhibit, NoMemory>
        ensures { IfOk result (λ exhibit. exhibit.front ≡ self.front) }
    {
        let Shown { front, held } = self;
        match held {
            Some(held) => Ok(Exhibit { front, held }),
            None => Err(NoMemory),
        }
    }
}

impl Absorb<Exhibit> for Shown {
    type State = Front;

    ghost state = { λ shown. shown.front };

    ghost applied = { λ before exhibit. exhibit.front };

    ghost never_fails = { Unit {0} };

    fn absorb_first(&mut self, exhibit: &Exhibit, _other: &Shown) -> Result<(), AllocError> {
        *self = exhibit.shown();
        Ok(())
    }

    fn absorb_second(&mut self, exhibit: Exhibit, _other: &Shown) -> Result<(), Exhibit> {
        *self = exhibit.into_shown();
        Ok(())
    }
}

/// The pointer, where it can be copied.
fn copied(held: &Option<Held>) -> Option<Held>
    ensures { ComesFrom (behind result) (behind held.now) }
{
    match held {
        Some(held) => Arc::try_clone(held).ok(),
        None => None,
    }
}
