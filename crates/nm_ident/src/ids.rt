// Lists of model identifiers.
ghost use Rattle.std.specs.Prelude.{◌≡◌, ◌↔◌, IsTrue, Contains, IfOk};

use crate::error::NoMemory;
use std::alloc::Global;
use std::marker::Model;

/// A list of model identifiers, each the number of a UUID, in the order in which they were given.
#[derive(Debug, Drop)]
pub struct Ids {
    ids: Vec<u128>,
}

impl Model for Ids {
    ghost use Rattle.std.specs.Prelude.{ℕ, List};

    ghost Value = { List ℕ };

    ghost view = { λ list. list.ids.items };
}

impl Ids {
    /// The list of these identifiers, in this order.
    pub fn of_list(list: Vec<u128>) -> Ids
        ensures { result ≡ list.items }
    {
        Ids { ids: list }
    }

    /// The identifiers.
    pub fn as_slice(&self) -> &[u128]
        ensures { result.now ≡ self.now }
    {
        &self.ids
    }

    /// The same list in memory of its own.
    pub fn copy(&self, alloc: Global) -> Result<Ids, NoMemory>
        ensures { IfOk result (λ list. list ≡ self.now) }
    {
        Ok(Ids::of_list(self.ids.to_vec(alloc)?))
    }

    /// Whether the list has this identifier.
    pub fn contains(&self, id: u128) -> bool
        ensures { IsTrue result ↔ Contains self.now id }
    {
        self.ids.contains(&id)
    }
}
