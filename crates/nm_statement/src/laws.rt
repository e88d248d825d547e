// Laws of this crate's definitions, stated for the contracts of the crates above. They take no
// time: a call brings the law to a proof.
ghost use Rattle.nm_statement.specs.Laws as law;
ghost use Rattle.nm_statement.specs.Order.{statement_cmp};
ghost use Rattle.nm_statement.specs.Set.{is_same};
ghost use Rattle.nm_statement.specs.declared.statement.Statement as declared;
ghost use Rattle.std.specs.Prelude.{◌≡◌};

use crate::statement::Statement;

/// The order of statements is total, only equal statements stand level, and `cmp` and `==` go by it.
pub fn statements_are_ordered()
    ensures total { law.OrderIsTotal }
    ensures apart { law.OrderTellsApart }
    ensures by_cmp { (x y : declared.Statement) → ⟦<Statement as Ord>⟧.cmp x y ≡ statement_cmp x y }
    ensures by_eq { (x y : declared.Statement) → ⟦<Statement as PartialEq>⟧.eq x y ≡ is_same x y }
{}

/// What sets, unions and differences have, and that they rise.
pub fn sets_have_members()
    ensures contains { law.HasIsContains }
    ensures have { law.SetsHave }
    ensures rise { law.SetsRise }
{}

/// Sets with the same members are equal, whatever the order and the repeats of the lists that they
/// were made of.
pub fn members_make_sets()
    ensures same { law.SameMembers }
    ensures set { law.SetsOfMembers }
{}
