// The elements that are open, and what their tags declare.
ghost use Rattle.nm_reader.specs.Leading as spec;
ghost use Rattle.nm_reader.specs.Lent.{prefix_of};
ghost use Rattle.std.specs.Option.{option_map};
ghost use Rattle.std.specs.Prelude.{◌≡◌, IfOk};

use crate::namespaces::declared;
use crate::place::Place;
use nm_ident::{NoMemory, Text};
use nm_piece::RawName;
use std::alloc::Global;
use std::collections::BTreeMap;
use std::marker::Model;

/// A prefix with its namespace; without a prefix, the default namespace (Namespaces in XML, section 3).
#[derive(Drop)]
pub struct Declaration<'a> {
    pub prefix: Option<&'a [u8]>,
    pub namespace: Text,
}

impl<'a> Model for Declaration<'a> {
    ghost use Rattle.nm_reader.specs.Lent.{prefix_of};
    ghost use Rattle.nm_reader.specs.Opened.{Declaration as Declared};

    ghost Value = { Declared };

    ghost view = { λ declaration. record { prefix = prefix_of declaration.prefix; namespace = declaration.namespace } };
}

/// From how many on the declarations of a tag are put in order, so that one is found by a search.
const MANY: usize = 16;

/// What one tag declares, in the order in which it stands there.
#[derive(Drop)]
pub struct Declarations<'a> {
    list: Vec<Declaration<'a>>,
    // Where there are many: the place of the first declaration of each prefix.
    places: Option<BTreeMap<Option<&'a [u8]>, usize>>,
}

impl<'a> Model for Declarations<'a> {
    ghost use Rattle.std.specs.Prelude.{IfSome, List};
    ghost use Rattle.nm_reader.specs.Leading.{Leads};
    ghost use Rattle.nm_reader.specs.Opened.{Declaration as Declared};

    ghost Value = { List Declared };

    ghost view = { λ declarations. declarations.list.items };

    ghost invariant = { λ declarations. IfSome declarations.places (Leads declarations.list.items) };
}

impl<'a> Declarations<'a> {
    ghost use Rattle.nm_reader.specs.Namespaces.{declared as declared_of};

    /// These declarations.
    pub fn of_list(alloc: Global, list: Vec<Declaration<'a>>) -> Result<Declarations<'a>, NoMemory>
        ensures { IfOk result (λ declarations. declarations ≡ list.entry.items) }
    {
        let places = if list.len() < MANY {
            None
        } else {
            Some(places_of(alloc, &list)?)
        };
        Ok(Declarations { list, places })
    }

    /// The namespace that the first of the declarations of a prefix gives it.
    pub fn find(&self, prefix: Option<&'a [u8]>) -> Option<&[u8]>
        ensures { option_map (λ namespace. namespace.now) result ≡ declared_of self.now (prefix_of prefix.entry) }
    {
        match &self.places {
            Some(places) => match places.get(&prefix) {
                Some(place) => namespace_at(&self.list, *place),
                None => None,
            },
            None => declared(&self.list, prefix),
        }
    }
}

/// The namespace that the declaration at a place gives.
fn namespace_at<'a>(declarations: &'a [Declaration<'_>], place: usize) -> Option<&'a [u8]>
    ensures { option_map (λ namespace. namespace.now) result ≡ spec.namespace_at declarations.now place }
{
    match declarations.get(place) {
        Some(declaration) => Some(declaration.namespace.as_slice()),
        None => None,
    }
}

/// The place of the first declaration of each prefix.
fn places_of<'a>(
    alloc: Global,
    declarations: &[Declaration<'a>],
) -> Result<BTreeMap<Option<&'a [u8]>, usize>, NoMemory>
    ensures { IfOk result (λ places. spec.Leads declarations.now places) }
{
    let mut places = BTreeMap::new(alloc);
    let mut place = declarations.len();
    while place > 0 {
        place -= 1;
        let declaration = &declarations[place];
        places.insert(declaration.prefix, place)?;
    }
    Ok(places)
}

/// An element that is open, the place behind it, and what its tag declares.
#[derive(Drop)]
pub struct Opened<'a> {
    pub name: RawName<'a>,
    pub behind: Place,
    pub declared: Declarations<'a>,
}

impl<'a> Model for Opened<'a> {
    ghost use Rattle.nm_piece.specs.Raw.{name_of};
    ghost use Rattle.nm_reader.specs.Opened.{Opened as OpenElement};

    ghost Value = { OpenElement };

    ghost view = { λ opened. record { name = name_of opened.name; behind = opened.behind; declared = opened.declared } };
}

impl Opened<'_> {
    /// The place behind the element.
    pub fn into_behind(self) -> Place
        ensures { result ≡ self.entry.behind }
    {
        self.behind
    }
}
