// A door in memory.
ghost use Rattle.nm_base.specs.Faults.{CountsFaults};
ghost use Rattle.nm_base.specs.Plan.{Advances};
ghost use Rattle.nm_service.specs.Door.{EndsOne, HandsOut};
ghost use Rattle.nm_service.specs.MemoryDoor.{hall_of, handed_out, refuses_next};
ghost use Rattle.std.specs.List.{slice_get};
ghost use Rattle.std.specs.Option.{option_map};
ghost use Rattle.std.specs.Prelude.{◌≡◌, ◌+◌, ◌<◌, ◌≤◌, IfOk, Some, is_err, length};

use crate::door::Door;
use crate::ended::Ended;
use crate::memory_link::MemoryLink;
use nm_base::{Failed, FaultPlan, NoMemory};
use std::alloc::Global;
use std::marker::Model;

/// A door in memory, which fails at chosen calls and once no link is left. It tells all.
///
/// The links to come stand in reverse, so that the next one is the last. The list of closed links has
/// room for all of them from the start, so that a link can always be taken back.
#[derive(Drop)]
pub struct MemoryDoor {
    coming: Vec<MemoryLink>,
    closed: Vec<(MemoryLink, Ended)>,
    all: usize,
    plan: FaultPlan,
}

impl Model for MemoryDoor {
    ghost use Rattle.std.specs.Prelude.{◌≤◌, length, vec_capacity};
    ghost use mathlib.Core.List as list;
    ghost use Rattle.nm_service.specs.MemoryDoor.{Hall};

    ghost Value = { Hall };

    ghost view = { λ door. record { coming = list.reverse door.coming.items; ended = door.closed.items; all = door.all; plan = door.plan } };

    ghost invariant = { λ door. (length door.coming.items ≤ door.all) × (door.all ≤ vec_capacity door.closed) };
}

impl MemoryDoor {
    /// A door that hands out these links, in order. The calls of `accept` whose numbers are in `fails`
    /// fail, where the first call is number 0.
    pub fn new(
        alloc: Global,
        links: Vec<MemoryLink>,
        fails: Vec<u32>,
    ) -> Result<MemoryDoor, NoMemory>
        ensures { IfOk result (λ door. door ≡ hall_of links.items fails.items) }
    {
        let all = links.len();
        let closed = Vec::with_capacity(alloc, all)?;
        let mut coming = links;
        coming.reverse();
        Ok(MemoryDoor {
            coming,
            closed,
            all,
            plan: FaultPlan::new(fails),
        })
    }

    /// The closed link at a place, from 0, with its ending. `None` where fewer were closed.
    pub fn closed(&self, place: usize) -> Option<(&MemoryLink, &Ended)>
        ensures { option_map (λ pair. (pair.0.now, pair.1.now)) result ≡ slice_get self.now.ended place }
    {
        match self.closed.get(place) {
            Some((link, ended)) => Some((link, ended)),
            None => None,
        }
    }
}

impl Door for MemoryDoor {
    type Link = MemoryLink;

    ghost coming = { λ door. Some door.coming };

    ghost ended = { λ door. Some door.ended };

    ghost handed = { handed_out };

    ghost closed = { λ door. length door.ended };

    ghost faults = { λ door. door.plan.faults };

    /// Gives the next link. It fails exactly at the listed calls, and where no link is left.
    fn accept(&mut self) -> Result<MemoryLink, Failed>
        ensures next { HandsOut (Some self.old.coming) (Some self.new.coming) (handed_out self.old) (handed_out self.new) result }
        ensures counted { CountsFaults self.old.plan.faults self.new.plan.faults result }
        ensures ended_stays { Some self.new.ended ≡ Some self.old.ended }
        ensures closed_stays { length self.new.ended ≡ length self.old.ended }

        // Beyond the trait's clauses: when the call fails, and how many links there are in all.
        ensures refused { is_err result ≡ refuses_next self.old }
        ensures all { self.new.all ≡ self.old.all }
    {
        self.plan.begin_call()?;
        match self.coming.pop() {
            Some(link) => Ok(link),
            None => Err(self.plan.fault()),
        }
    }

    /// Takes back a link.
    fn close(&mut self, link: MemoryLink, how: Ended)
        requires { length self.old.ended < handed_out self.old }
        ensures end { EndsOne (Some self.old.ended) (Some self.new.ended) link how }
        ensures counted { length self.new.ended ≡ length self.old.ended + 1 }
        ensures coming_stays { Some self.new.coming ≡ Some self.old.coming }
        ensures handed_stays { handed_out self.new ≡ handed_out self.old }
        ensures faults_stay { self.new.plan.faults ≡ self.old.plan.faults }

        // Beyond the trait's clauses: how many links there are in all, and which calls fail.
        ensures all { self.new.all ≡ self.old.all }
        ensures plan { self.new.plan ≡ self.old.plan }
    {
        // The list has room for every link that is handed out.
        if let Err(_refused) = self.closed.push((link, how)) {
            unreachable!()
        }
    }
}
