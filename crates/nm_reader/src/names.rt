// The names of properties, each of which is made once in a document.
ghost use Rattle.nm_ident.specs.Name.{is_predicate};
ghost use Rattle.nm_ident.specs.QualifiedName.{QualifiedName};
ghost use Rattle.nm_reader.specs.Namespaces.{same_name};
ghost use Rattle.std.specs.Prelude.{◌≡◌, IfOk, IfSome, true};

use nm_ident::{Name, NameError, NoMemory};
use std::alloc::Global;

/// How many first places there are while few names have been made, so that a short document pays for
/// few, and how many afterwards.
const FEW: usize = 32;

const MANY: usize = 1024;

/// How many names may be made while there are few places.
const FEW_NAMES: usize = 16;

/// At how many places, one behind another, a name may stand.
const PLACES: usize = 8;

/// Names that have been made. One that is asked for again is a copy of the first, which takes no
/// memory. A name's place follows from its text, so that looking for it takes the same time however
/// many there are. Once there are many places, the first names are made once more.
#[derive(Drop)]
pub struct Names {
    kept: Vec<Option<Name>>,
    made: usize,
}

impl Names {
    /// No names yet.
    pub fn new(alloc: Global) -> Names {
        Names {
            kept: Vec::new(alloc),
            made: 0,
        }
    }

    /// The name of a property.
    pub fn predicate(&mut self, alloc: Global, ns: &[u8], local: &[u8]) -> Result<Name, NoMemory>
        requires { is_predicate (record { ns = ns.now; local = local.now }) ≡ true }
        ensures { IfOk result (λ name. name ≡ record { ns = ns.now; local = local.now }) }
    {
        let first = self.first_place(local);
        if let Some(name) = self.find(first, ns, local) {
            return name.copy(alloc);
        }
        let name = predicate(alloc, ns, local)?;
        self.keep(first, name.copy(alloc)?)?;
        Ok(name)
    }

    #[tactic(auto, using(crate::proofs::Spellings::names_equal))]
    /// The name, if it stands at one of the places from the first on.
    fn find(&self, first: usize, ns: &[u8], local: &[u8]) -> Option<&Name>
        ensures { IfSome result (λ name. name.now ≡ record { ns = ns.now; local = local.now }) }
    {
        for place in first..first.saturating_add(PLACES) {
            if let Some(Some(name)) = self.kept.get(place) {
                if is_named(name, ns, local) {
                    return Some(name);
                }
            }
        }
        None
    }

    /// Keeps the name at one of the places from the first on: one that is free, or else the first.
    /// What is kept is only a saving, so no contract speaks of it.
    fn keep(&mut self, first: usize, name: Name) -> Result<(), NoMemory> {
        for _ in self.kept.len()..first.saturating_add(PLACES) {
            self.kept.push(None)?;
        }
        self.made = self.made.saturating_add(1);
        let place = self.free_place(first);
        if let Some(kept) = self.kept.get_mut(place) {
            *kept = Some(name);
        }
        Ok(())
    }

    fn free_place(&self, first: usize) -> usize {
        for place in first..first.saturating_add(PLACES) {
            if matches!(self.kept.get(place), Some(None)) {
                return place;
            }
        }
        first
    }

    /// The first place at which a name may stand.
    fn first_place(&self, local: &[u8]) -> usize {
        let mixed = mixed(local) as usize;
        if self.made < FEW_NAMES {
            mixed % FEW
        } else {
            mixed % MANY
        }
    }
}

/// A number that follows from the text.
fn mixed(local: &[u8]) -> u32 {
    let mut mixed = 0_u32;
    for byte in local {
        mixed = (mixed ^ u32::from(*byte)).wrapping_mul(0x0100_0193);
    }
    mixed >> 16
}

fn is_named(name: &Name, ns: &[u8], local: &[u8]) -> bool
    ensures { result ≡ same_name name.now (record { ns = ns.now; local = local.now }) }
{
    name.ns().as_slice() == ns && name.local().as_slice() == local
}

fn predicate(alloc: Global, ns: &[u8], local: &[u8]) -> Result<Name, NoMemory>
    requires { is_predicate (record { ns = ns.now; local = local.now }) ≡ true }
    ensures { IfOk result (λ name. name ≡ record { ns = ns.now; local = local.now }) }
{
    match Name::new(alloc, ns, local) {
        Ok(name) => Ok(name),
        Err(NameError::NoMemory) => Err(NoMemory),
        Err(NameError::Bad) => unreachable!(),
    }
}
