// Where connections come from.
ghost use Rattle.nm_base.specs.Faults.{CountsFaults};
ghost use Rattle.nm_service.specs.Door.{EndsOne, HandsOut};
ghost use Rattle.std.specs.Prelude.{◌≡◌, ℕ, List, Option, ◌+◌, ◌<◌};

use crate::ended::Ended;
use crate::link::Link;
use nm_base::Failed;

/// Where connections come from, and where they go once they have ended.
pub trait Door: Drop {
    ghost use Rattle.nm_service.specs.declared.ended.Ended.{Ended};

    type Link: Link + Send;

    // The links that are still to come, in order, where the door tells them.
    ghost coming: { Self → Option (List Self.Link) };

    // The links that were closed, in order, each as it was then and with its ending, where the door
    // tells them.
    ghost ended: { Self → Option (List (Self.Link × Ended)) };

    // How many links were handed out.
    ghost handed: { Self → ℕ };

    // How many links were closed.
    ghost closed: { Self → ℕ };

    // How many calls of `accept` failed. A count that stands at the end of its type stays there.
    ghost faults: { Self → ℕ };

    /// Gives the next link.
    ///
    /// `Failed` comes only where the count of faults rose, and then no link was handed out. Any other
    /// call leaves the count as it is.
    fn accept(&mut self) -> Result<Self::Link, Failed>
        ensures next { HandsOut (coming self.old) (coming self.new) (handed self.old) (handed self.new) result }
        ensures counted { CountsFaults (faults self.old) (faults self.new) result }
        ensures ended_stays { ended self.new ≡ ended self.old }
        ensures closed_stays { closed self.new ≡ closed self.old };

    /// Takes back a link that was handed out, as it is, with its ending.
    fn close(&mut self, link: Self::Link, how: Ended)
        requires { closed self.old < handed self.old }
        ensures end { EndsOne (ended self.old) (ended self.new) link how }
        ensures counted { closed self.new ≡ closed self.old + 1 }
        ensures coming_stays { coming self.new ≡ coming self.old }
        ensures handed_stays { handed self.new ≡ handed self.old }
        ensures faults_stay { faults self.new ≡ faults self.old };
}
