// What the tokens of a store show. It takes no time: a call brings the law to a proof.
ghost use Rattle.nm_publish.specs.Reader.{shares_of};
ghost use Rattle.nm_version.specs.Kept.{number_of};
ghost use Rattle.std.specs.Prelude.{◌≡◌, ◌+◌, ◌<◌, length};

use crate::keeper::Keeper;
use crate::reader::Reader;
use crate::site::Site;
use std::sync::Wait;
use std::sync::ledger::Share;

/// Whoever has the keeper and all of the readers knows how many commits were made since the
/// opening: as many as the shares of the readers add up to.
pub fn shares_add_up<H: Site, R: Wait + Drop>(
    keeper: &mut Keeper<H, R>,
    first: Reader<H>,
    others: Vec<Reader<H>>,
)
    requires { length others.items + 1 ≡ H.parts }
    ensures sum { number_of keeper.old ≡ number_of H.opening + (first.share + shares_of others.items) }
    ensures same { keeper.new ≡ keeper.old }
{
    let mut all = first.into_share();
    merge_all(&mut all, others);
    keeper.audit(&mut all);
}

/// The shares of the readers, put together with the one.
fn merge_all<H: Site>(all: &mut Share<H>, others: Vec<Reader<H>>)
    ensures parts { all.new.parts ≡ all.old.parts + length others.items }
    ensures amount { all.new.amount ≡ all.old.amount + shares_of others.items }
{
    for other in others {
        all.merge(other.into_share());
    }
}
