// A store that was opened, before its site has a name.
ghost use Rattle.nm_publish.specs.History.{BeginsIn};
ghost use Rattle.nm_publish.specs.Opening.{IsNamed};
ghost use Rattle.nm_publish.specs.Reader.{starting};
ghost use Rattle.nm_publish.specs.Sight.{sight};
ghost use Rattle.nm_publish.specs.declared.piece.Piece.TheVariants as piece;
ghost use Rattle.std.specs.Prelude.{◌≡◌, ◌≤◌, [], ◌∷◌, All, IfOk, length};

use crate::desk::Desk;
use crate::gate::Gate;
use crate::history::{Front, Word};
use crate::keeper::Keeper;
use crate::reader::Reader;
use crate::shown::Exhibit;
use crate::site::Site;
use nm_base::NoMemory;
use nm_version::Version;
use std::alloc::Global;
use std::marker::Model;
use std::sync::ledger::{Blank, Share};
use std::sync::{Arc, Wait};

/// A store that was opened: what its keeper and its readers are made of. A contract sees the names
/// that a site has to pick, and how many readers there are.
#[derive(Drop)]
pub struct Opening<R: Wait + Drop> {
    desk: Desk<R>,
    word: Word,
    exhibit: Exhibit,
    gates: Vec<Gate>,
    blank: Blank,
}

impl<R: Wait + Drop> Model for Opening<R> {
    ghost use Rattle.nm_publish.specs.History.{BeginsIn};
    ghost use Rattle.nm_publish.specs.declared.piece.Piece.TheVariants as piece;
    ghost use Rattle.nm_publish.specs.Opening.{IsOpened, Opened, opened};

    ghost Value = { Opened };

    ghost view = { λ opening. opened opening.exhibit opening.gates.items opening.blank.name };

    ghost invariant = { λ opening. IsOpened opening.desk opening.word opening.exhibit opening.gates.items opening.blank.parts };
}

/// Opens a store of the version, with exactly `want` readers, 1 to 32, which all hold it.
///
/// The handle is kept by the keeper, which waits for the readers that are inside when it is dropped.
pub fn open<R: Wait + Drop>(
    rt: R,
    alloc: Global,
    version: Version,
    want: u32,
) -> Result<Opening<R>, NoMemory>
    requires { (1 ≤ want) × (want ≤ 32) }
    ensures { IfOk result (λ opening. (opening.kept ≡ version) × (opening.readers ≡ want)) }
{
    let (front, word) = Front::open(&version);
    let exhibit = Exhibit::new(front, Arc::new(alloc, version)?);
    let mut desk = Desk::open(rt, alloc, exhibit.again()?, want as usize)?;
    let gates = gates(alloc, &mut desk, want)?;
    Ok(Opening {
        desk,
        word,
        exhibit,
        gates,
        blank: Blank::new(want as u64),
    })
}

/// So many places for readers, which have seen what is published.
fn gates<R: Wait + Drop>(
    alloc: Global,
    desk: &mut Desk<R>,
    want: u32,
) -> Result<Vec<Gate>, NoMemory>
    ensures many { IfOk result (λ gates. length gates.items ≡ want) }
    ensures seen { IfOk result (λ gates. All (λ gate. gate ≡ sight desk.old 0) gates.items) }
    ensures same { desk.new ≡ desk.old }
{
    let mut gates = Vec::with_capacity(alloc, want as usize)?;
    for _place in 0..want {
        gates.push(desk.gate()?)?;
    }
    Ok(gates)
}

impl<R: Wait + Drop> Opening<R> {
    /// The keeper and the readers of the store, where the site `H` has the store's names.
    pub fn parts<H: Site>(self, alloc: Global) -> Result<(Keeper<H, R>, Vec<Reader<H>>), NoMemory>
        requires { IsNamed H.book H.opening H.name H.parts self }
        ensures keeper { IfOk result (λ parts. parts.0 ≡ H.opening) }
        ensures many { IfOk result (λ parts. length parts.1.items ≡ self.readers) }
        ensures readers { IfOk result (λ parts. All (λ reader. reader ≡ starting H.opening) parts.1.items) }
    {
        let Opening {
            desk,
            word,
            exhibit,
            gates,
            blank,
        } = self;
        let (commits, mut shares) = blank.open::<H>();
        let readers = readers(alloc, &exhibit, gates, &mut shares)?;
        Ok((Keeper::new(desk, word, exhibit, commits), readers))
    }
}

/// A reader at each place, with one part of the ledger each.
fn readers<H: Site>(
    alloc: Global,
    exhibit: &Exhibit,
    gates: Vec<Gate>,
    shares: &mut Share<H>,
) -> Result<Vec<Reader<H>>, NoMemory>
    requires begins { BeginsIn H.book H.opening exhibit.now.front }
    requires pieces { exhibit.now.front.pieces ≡ piece.Opened H.opening ∷ [] }
    requires kept { exhibit.now.kept ≡ H.opening }
    requires seen { All (λ gate. gate ≡ sight exhibit.now.front 0) gates.items }
    requires parts { shares.old.parts ≡ length gates.items }
    requires none { shares.old.amount ≡ 0 }
    ensures many { IfOk result (λ readers. length readers.items ≡ length gates.items) }
    ensures readers { IfOk result (λ readers. All (λ reader. reader ≡ starting H.opening) readers.items) }
{
    let mut readers = Vec::with_capacity(alloc, gates.len())?;
    for gate in gates {
        let share = shares.split_off(1, 0);
        let reader = reader_at(gate, exhibit, share)?;
        readers.push(reader)?;
    }
    Ok(readers)
}

/// A reader at the place, which keeps the opening.
fn reader_at<H: Site>(gate: Gate, exhibit: &Exhibit, share: Share<H>) -> Result<Reader<H>, NoMemory>
    requires begins { BeginsIn H.book H.opening exhibit.now.front }
    requires pieces { exhibit.now.front.pieces ≡ piece.Opened H.opening ∷ [] }
    requires kept { exhibit.now.kept ≡ H.opening }
    requires seen { gate ≡ sight exhibit.now.front 0 }
    requires one { share.parts ≡ 1 }
    requires none { share.amount ≡ 0 }
    ensures { IfOk result (λ reader. reader ≡ starting H.opening) }
{
    Ok(Reader::new(gate, exhibit.again()?, share))
}
