// The generated stream.
ghost use Rattle.nm_gen.specs.Days as days;
ghost use Rattle.nm_gen.specs.Draws.{next_state, state_after};
ghost use Rattle.nm_gen.specs.Limits.{most_projects};
ghost use Rattle.nm_gen.specs.Stream as spec;
ghost use Rattle.std.specs.Prelude.{◌≡◌, ◌≤◌, ◌++◌, IfOk, OnOk};

use crate::days::drawn_day;
use crate::draws::Draws;
use crate::models::{base_model, project_model};
use crate::terms::project_id;
use nm_ident::{NoMemory, id_text};
use nm_writer::{write_difference, write_full};
use std::alloc::Global;

const ENDING: &[u8] = b"summary 2031-12-31\nsummary 2036-12-31\nend\n";

/// A stream of a session: a base of 2,000 substations, 1 to 2,000 projects that are filed to it, then
/// another day for every third of them, the withdrawal of every fifth, two summaries and the end.
///
/// Each project gives one substation another name, and adds a voltage level. Their days, within ten
/// years from 2027-01-01, are drawn by a generator that the seed starts. Equal arguments give equal
/// streams. The time is linear in the projects.
///
/// ```text
/// let stream = generate(alloc, 200, 7)?;
/// ```
#[tactic(auto, unfolding(crate::specs::Stream::stream_of))]
pub fn generate(alloc: Global, projects: u32, seed: u32) -> Result<Vec<u8>, NoMemory>
    requires some { 1 ≤ projects }
    requires few { projects ≤ most_projects }
    ensures { IfOk result (λ stream. stream.items ≡ spec.stream_of projects seed) }
{
    let mut draws = Draws::new(seed);
    let mut stream = base_command(alloc)?;
    append_filings(alloc, &mut stream, &mut draws, projects)?;
    append_redatings(alloc, &mut stream, &mut draws, projects)?;
    append_withdrawals(alloc, &mut stream, projects)?;
    stream.extend_from_slice(ENDING)?;
    Ok(stream)
}

/// The `base` command with its document.
fn base_command(alloc: Global) -> Result<Vec<u8>, NoMemory>
    ensures { IfOk result (λ text. text.items ≡ spec.base_command) }
{
    let document = write_full(alloc, &base_model(alloc)?)?;
    with_document(alloc, b"base", &document)
}

/// Appends the filings of the projects.
fn append_filings(
    alloc: Global,
    out: &mut Vec<u8>,
    draws: &mut Draws,
    projects: u32,
) -> Result<(), NoMemory>
    requires { 1 ≤ projects }
    ensures filed { OnOk result (out.new.items ≡ out.old.items ++ spec.filings draws.old.state projects) }
    ensures drawn { OnOk result (draws.new.state ≡ state_after draws.old.state projects) }
{
    for number in 1..=projects {
        append_filing(alloc, out, draws, number)?;
    }
    Ok(())
}

/// Appends the filing of a project, to the day of one more draw.
fn append_filing(
    alloc: Global,
    out: &mut Vec<u8>,
    draws: &mut Draws,
    number: u32,
) -> Result<(), NoMemory>
    requires { 1 ≤ number }
    ensures drawn { draws.new.state ≡ next_state draws.old.state }
    ensures filed { OnOk result (out.new.items ≡ out.old.items ++ spec.filing_to (days.drawn_day (next_state draws.old.state)) number) }
{
    let day = drawn_day(draws);
    out.extend_from_slice(&filing(alloc, &day.text(), number)?)
}

/// The filing of a project to a day.
fn filing(alloc: Global, day: &[u8], number: u32) -> Result<Vec<u8>, NoMemory>
    requires { 1 ≤ number }
    ensures { IfOk result (λ text. text.items ≡ spec.filing_to day.now number) }
{
    let document = write_difference(alloc, &project_model(alloc, number)?)?;
    let mut words = b"file ".to_vec(alloc)?;
    words.extend_from_slice(day)?;
    with_document(alloc, &words, &document)
}

/// Appends another day for every third project.
fn append_redatings(
    alloc: Global,
    out: &mut Vec<u8>,
    draws: &mut Draws,
    projects: u32,
) -> Result<(), NoMemory>
    requires { 1 ≤ projects }
    ensures { OnOk result (out.new.items ≡ out.old.items ++ spec.redatings draws.old.state projects) }
{
    for number in 1..=projects {
        append_redating(alloc, out, draws, number)?;
    }
    Ok(())
}

/// Appends another day, of one more draw, where the project is a third one.
fn append_redating(
    alloc: Global,
    out: &mut Vec<u8>,
    draws: &mut Draws,
    number: u32,
) -> Result<(), NoMemory>
    ensures drawn { OnOk result (draws.new.state ≡ spec.state_behind_redating draws.old.state number) }
    ensures dated { OnOk result (out.new.items ≡ out.old.items ++ spec.redating_from draws.old.state number) }
{
    if number % 3 != 0 {
        return Ok(());
    }
    let day = drawn_day(draws);
    out.extend_from_slice(&redating(alloc, &day.text(), number)?)
}

/// The line that moves a project to another day.
fn redating(alloc: Global, day: &[u8], number: u32) -> Result<Vec<u8>, NoMemory>
    ensures { IfOk result (λ text. text.items ≡ spec.redating_to day.now number) }
{
    let mut text = b"redate ".to_vec(alloc)?;
    text.extend_from_slice(&id_text(project_id(number)))?;
    text.push(b' ')?;
    text.extend_from_slice(day)?;
    text.push(b'\n')?;
    Ok(text)
}

/// Appends the withdrawal of every fifth project.
fn append_withdrawals(alloc: Global, out: &mut Vec<u8>, projects: u32) -> Result<(), NoMemory>
    requires { 1 ≤ projects }
    ensures { OnOk result (out.new.items ≡ out.old.items ++ spec.withdrawals projects) }
{
    for number in 1..=projects {
        append_withdrawal(alloc, out, number)?;
    }
    Ok(())
}

/// Appends the line that withdraws the project, where it is a fifth one.
fn append_withdrawal(alloc: Global, out: &mut Vec<u8>, number: u32) -> Result<(), NoMemory>
    ensures { OnOk result (out.new.items ≡ out.old.items ++ spec.withdrawal number) }
{
    if number % 5 != 0 {
        return Ok(());
    }
    let mut text = b"withdraw ".to_vec(alloc)?;
    text.extend_from_slice(&id_text(project_id(number)))?;
    text.push(b'\n')?;
    out.extend_from_slice(&text)
}

/// A line that ends with the length of the document behind it, and the document.
fn with_document(alloc: Global, words: &[u8], document: &[u8]) -> Result<Vec<u8>, NoMemory>
    ensures { IfOk result (λ text. text.items ≡ spec.with_document words.now document.now) }
{
    let length = (document.len() as u64).to_string(alloc)?;
    let mut text = words.to_vec(alloc)?;
    text.push(b' ')?;
    text.extend_from_slice(length.as_bytes())?;
    text.push(b'\n')?;
    text.extend_from_slice(document)?;
    Ok(text)
}
