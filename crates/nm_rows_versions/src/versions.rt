//! What readers hold while the keeper commits, and what they find then.
ghost use Rattle.nm_publish.specs.Opening.{IsNamed};
ghost use Rattle.nm_publish.specs.Reader.{shares_of};
ghost use Rattle.nm_version.specs.Command.{IsSpelt};
ghost use Rattle.nm_version.specs.Kept.{number_of};
ghost use Rattle.std.specs.Prelude.{◌≡◌, ◌+◌, IfOk, length};

use nm_base::NoMemory;
use nm_day::Day;
use nm_ident::Text;
use nm_model::Document;
use nm_publish::{Held, Keeper, Look, Opening, Reader, Receipt, Site, open, shares_add_up};
use nm_reader::read;
use nm_samples::{NORTH, NORTH_REPLIES, RENAMED};
use nm_version::{Command, Refusal, Version};
use nm_writer::write_full;
use std::alloc::Global;
use std::marker::Brand;
use std::sync::Wait;
use std::test::Fail;
use std::thread;
use std::thread::{Threads, join};

/// The project that is filed first, and put on another day by each later command.
const PROJECT: u128 = 0x30000000_0000_4000_8000_000000000001;

/// As often a reader looks at most.
const MOST_LOOKS: u64 = 100_000_000;

// A function that names a long constant is kept small, since each step of its proof carries the bytes.

fn part(session: &[u8], start: usize, end: usize) -> &[u8] {
    match session.get(start..end) {
        Some(part) => part,
        None => b"",
    }
}

/// A full model of one substation.
fn north() -> &'static [u8] {
    part(NORTH, 9, 471)
}

/// What it is written as once it is assembled for the first of January 2027.
fn north_assembled() -> &'static [u8] {
    part(NORTH_REPLIES, 18, 632)
}

/// A difference model that gives the substation another name.
fn renamed() -> &'static [u8] {
    part(RENAMED, 492, 1570)
}

fn day(text: &[u8]) -> Result<Day, NoMemory> {
    match Day::parse(text) {
        Ok(day) => Ok(day),
        Err(_not_a_day) => Err(NoMemory),
    }
}

/// The store of one substation, to which nothing was filed.
fn north_opened(alloc: Global) -> Result<Version, NoMemory> {
    let bytes = north();
    match read(alloc, bytes) {
        Ok(Document::Full(base)) => Version::open(alloc, base, bytes.to_vec(alloc)?),
        Ok(Document::Difference(_difference)) => Err(NoMemory),
        Err(_error) => Err(NoMemory),
    }
}

/// The first command.
fn filed(alloc: Global) -> Result<Command, NoMemory>
    ensures { IfOk result (λ command. IsSpelt command) }
{
    let day = day(b"2027-04-01")?;
    let text = Text::of_slice(alloc, renamed())?;
    match read(alloc, text.as_slice()) {
        Ok(document) => Ok(Command::File {
            day,
            document,
            bytes: text,
        }),
        Err(_error) => Err(NoMemory),
    }
}

/// A later command.
fn redated(number: u32) -> Result<Command, NoMemory>
    ensures { IfOk result (λ command. IsSpelt command) }
{
    let text: &[u8; 10] = if number % 2 == 0 {
        b"2027-04-01"
    } else {
        b"2027-05-01"
    };
    Ok(Command::Redate {
        project: PROJECT,
        day: day(text)?,
    })
}

/// Commits the command of that number.
fn commit<H: Site, R: Wait + Drop, W: Wait>(
    rt: &W,
    alloc: Global,
    keeper: &mut Keeper<H, R>,
    reader: &mut Reader<H>,
    number: u32,
) -> Result<Receipt<H>, Refusal> {
    let command = if number == 0 {
        filed(alloc)?
    } else {
        redated(number)?
    };
    keeper.commit(rt, alloc, reader, command)
}

fn version_of(look: Look) -> Held {
    match look {
        Look::Fresh(held) => held,
        Look::Last(held) => held,
    }
}

/// Whether the version is assembled as the base alone is.
fn is_north(alloc: Global, held: &Held) -> Result<bool, NoMemory> {
    let full = held.assemble(alloc, day(b"2027-01-01")?)?;
    let bytes = write_full(alloc, &full)?;
    Ok(bytes.as_slice() == north_assembled())
}

/// What a reader held before a hundred commits and after them.
#[derive(Drop)]
struct Found {
    before: u32,
    still: bool,
    after: u32,
}

fn a_hundred<H: Site, R: Wait + Drop, W: Wait>(
    rt: &W,
    alloc: Global,
    opening: Opening<R>,
) -> Result<Found, Refusal>
    requires { IsNamed H.book H.opening H.name H.parts opening }
{
    let (mut keeper, mut readers) = opening.parts::<H>(alloc)?;
    let Some(mut second) = readers.pop() else {
        return Err(Refusal::NoMemory);
    };
    let Some(mut first) = readers.pop() else {
        return Err(Refusal::NoMemory);
    };
    let held = version_of(first.look()?);
    let before = held.number();
    for number in 0..100u32 {
        commit(rt, alloc, &mut keeper, &mut second, number)?;
    }
    let still = is_north(alloc, &held)?;
    first.learn(rt, keeper.current()?);
    let after = version_of(first.look()?).number();
    Ok(Found {
        before,
        still,
        after,
    })
}

#[test]
fn a_version_that_is_held_stays_as_it_is(rt: HostRuntime) -> Result<(), Fail> {
    let alloc = rt.alloc();
    let opening = open(&rt, alloc, north_opened(alloc)?, 2)?;
    match a_hundred::<Brand, _, _>(&rt, alloc, opening) {
        Ok(seen) => {
            assert_eq!(rt; seen.before, 0);
            assert!(rt; seen.still);
            assert_eq!(rt; seen.after, 100);
        }
        Err(_refusal) => assert!(rt; false),
    }
    Ok(())
}

/// A reader that looks all the while.
#[derive(Drop)]
struct Looker<H: Site> {
    reader: Reader<H>,
    last: u32,
    fell: bool,
}

impl<H: Site> Looker<H> {
    /// Looks until a thousand commits were made.
    fn look_on(&mut self) {
        for _ in 0..MOST_LOOKS {
            if let Ok(look) = self.reader.look() {
                let number = version_of(look).number();
                self.fell = self.fell || number < self.last;
                self.last = number;
                if number >= 1000 {
                    return;
                }
            }
            thread::yield_now();
        }
    }
}

/// What a writer hands back: the keeper, the reader that it lent to each commit, and whether the
/// version that was held stayed as it was.
#[derive(Drop)]
struct Written<H: Site, R: Wait + Drop> {
    keeper: Keeper<H, R>,
    reader: Reader<H>,
    still: bool,
}

/// Makes a thousand commits.
fn write_on<H: Site, R: Wait + Drop, W: Wait>(
    rt: &W,
    alloc: Global,
    mut keeper: Keeper<H, R>,
    mut reader: Reader<H>,
    held: &Held,
) -> Result<Written<H, R>, Refusal> {
    let mut still = true;
    for number in 0..1000u32 {
        commit(rt, alloc, &mut keeper, &mut reader, number)?;
        if number % 100 == 99 {
            still = is_north(alloc, held)? && still;
        }
    }
    Ok(Written {
        keeper,
        reader,
        still,
    })
}

/// The number of the keeper, which is the sum of the shares of all readers behind the number of the
/// opening.
fn sum_of_shares<H: Site, R: Wait + Drop>(
    mut keeper: Keeper<H, R>,
    first: Reader<H>,
    others: Vec<Reader<H>>,
) -> Result<u32, NoMemory>
    requires { length others.items + 1 ≡ H.parts }
    ensures { IfOk result (λ number. number ≡ number_of H.opening + (first.share + shares_of others.items)) }
{
    let number = keeper.current()?.number();
    shares_add_up(&mut keeper, first, others);
    Ok(number)
}

/// What a writer and four readers found: the sum of the shares, whether the version that was held
/// stayed as it was, and how many readers found a number that fell, or did not find the last one.
#[derive(Drop)]
struct Raced {
    sum: u32,
    still: bool,
    wrong: u32,
}

fn race<H: Site + Send + Sync, R: Threads + Wait + Sync>(
    rt: &R,
    alloc: Global,
    opening: Opening<&R>,
) -> Result<Raced, Refusal>
    requires named { IsNamed H.book H.opening H.name H.parts opening }
    requires five { opening.readers ≡ 5 }
{
    let (keeper, mut readers) = opening.parts::<H>(alloc)?;
    let Some(mut reader) = readers.pop() else {
        return Err(Refusal::NoMemory);
    };
    let held = version_of(reader.look()?);
    let mut lookers = Vec::with_capacity(alloc, 4)?;
    for reader in readers {
        lookers.push(Looker {
            reader,
            last: 0,
            fell: false,
        })?;
    }
    let found = lookers.as_mut_slice();
    let ((), written) = join(
        rt,
        move || thread::for_each_mut(rt, found, 4, &|_, looker| looker.look_on()),
        move || write_on(rt, alloc, keeper, reader, &held),
    );
    let written = written?;
    added_up(alloc, written, lookers)
}

fn added_up<H: Site, R: Wait + Drop>(
    alloc: Global,
    written: Written<H, R>,
    lookers: Vec<Looker<H>>,
) -> Result<Raced, Refusal>
    requires { H.parts ≡ 5 }
{
    let Written {
        keeper,
        reader,
        still,
    } = written;
    let mut others = Vec::with_capacity(alloc, 4)?;
    let mut wrong = 0u32;
    for looker in lookers {
        if looker.fell || looker.last != 1000 {
            wrong = wrong.saturating_add(1);
        }
        others.push(looker.reader)?;
    }
    if others.len() != 4 {
        return Err(Refusal::NoMemory);
    }
    let sum = sum_of_shares(keeper, reader, others)?;
    Ok(Raced { sum, still, wrong })
}

#[test]
fn numbers_never_fall_while_a_thousand_commits_are_made(rt: HostRuntime) -> Result<(), Fail> {
    let alloc = rt.alloc();
    let opening = open(&rt, alloc, north_opened(alloc)?, 5)?;
    match race::<Brand, _>(&rt, alloc, opening) {
        Ok(raced) => {
            assert_eq!(rt; raced.sum, 1000);
            assert!(rt; raced.still);
            assert_eq!(rt; raced.wrong, 0);
        }
        Err(_refusal) => assert!(rt; false),
    }
    Ok(())
}
