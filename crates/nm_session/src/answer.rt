// Replies of a session.
ghost use Rattle.nm_session.specs.Reply as spec;
ghost use Rattle.nm_version.specs.declared.refusal.Refusal.TheVariants as refusals;
ghost use Rattle.nm_statement.specs.Line as lines;
ghost use Rattle.std.specs.Fmt.{decimal};
ghost use Rattle.std.specs.List.{flat_map};
ghost use Rattle.std.specs.Prelude.{◌≡◌, ◌≢◌, ◌++◌, IfOk, OnOk, codes};

use crate::reply::Reply;
use nm_base::{Limit, NoMemory};
use nm_day::Day;
use nm_ident::id_text;
use nm_reader::Fault;
use nm_statement::{Set, Statement, line};
use nm_timeline::Part;
use nm_version::{Cause, Line, Refusal, Row};
use std::alloc::Global;

/// A line of these pieces.
pub fn line_of(alloc: Global, pieces: &[&[u8]]) -> Result<Vec<u8>, NoMemory>
    ensures { IfOk result (λ line. line.items ≡ spec.reply_line (flat_map (λ piece. piece.now) pieces.now)) }
{
    let mut out = pieces.concat(alloc)?;
    out.push(b'\n')?;
    Ok(out)
}

/// `word NUMBER`.
pub fn numbered(alloc: Global, word: &[u8], number: u64) -> Result<Vec<u8>, NoMemory>
    ensures { IfOk result (λ line. line.items ≡ spec.numbered word.now number) }
{
    let digits = number.to_string(alloc)?;
    line_of(alloc, &[word, b" ", digits.as_bytes()])
}

/// Bytes behind a word and their length.
pub fn with_length(alloc: Global, word: &[u8], bytes: &[u8]) -> Result<Vec<u8>, NoMemory>
    ensures { IfOk result (λ out. out.items ≡ spec.with_length word.now bytes.now) }
{
    let mut out = numbered(alloc, word, bytes.len() as u64)?;
    out.extend_from_slice(bytes)?;
    Ok(out)
}

/// The rows of the live projects behind their number.
pub fn projects(alloc: Global, rows: &[Row]) -> Result<Vec<u8>, NoMemory>
    ensures { IfOk result (λ out. out.items ≡ spec.projects_reply rows.now) }
{
    let mut out = numbered(alloc, b"projects", rows.len() as u64)?;
    for row in rows {
        append_row(&mut out, row)?;
    }
    Ok(out)
}

/// The statements of an object behind their number.
pub fn statements_told(alloc: Global, statements: &Set) -> Result<Vec<u8>, NoMemory>
    ensures { IfOk result (λ out. out.items ≡ spec.statements_reply statements.now) }
{
    let mut out = numbered(alloc, b"statements", statements.len() as u64)?;
    for statement in statements.as_slice() {
        append_line(&mut out, b"", &line(alloc, statement)?)?;
    }
    Ok(out)
}

/// The lines of a timeline behind their number.
pub fn lines_told(alloc: Global, lines: &[Line]) -> Result<Vec<u8>, NoMemory>
    ensures { IfOk result (λ out. out.items ≡ spec.lines_reply lines.now) }
{
    let mut out = numbered(alloc, b"lines", lines.len() as u64)?;
    for said in lines {
        append_timeline_line(alloc, &mut out, said)?;
    }
    Ok(out)
}

fn append_timeline_line(alloc: Global, out: &mut Vec<u8>, said: &Line) -> Result<(), NoMemory>
    ensures { OnOk result (out.new.items ≡ out.old.items ++ spec.timeline_line said.now) }
{
    let mut place = place_text(alloc, said)?;
    place.push(b' ')?;
    append_line(out, &place, &line(alloc, said.statement())?)
}

/// Where a statement stands.
fn place_text(alloc: Global, said: &Line) -> Result<Vec<u8>, NoMemory>
    ensures { IfOk result (λ text. text.items ≡ spec.place_text said.now) }
{
    match said {
        Line::Base { .. } => b"base".to_vec(alloc),
        Line::Named {
            day,
            model,
            part,
            ..
        } => {
            let mut text = day.text().to_vec(alloc)?;
            text.push(b' ')?;
            text.extend_from_slice(&id_text(*model))?;
            text.push(b' ')?;
            text.extend_from_slice(part_name(*part))?;
            Ok(text)
        }
    }
}

fn part_name(part: Part) -> &'static [u8]
    ensures { result.now ≡ spec.part_name part }
{
    match part {
        Part::Precondition => b"precondition",
        Part::Reverse => b"reverse",
        Part::Forward => b"forward",
    }
}

/// Appends a line of two texts.
fn append_line(out: &mut Vec<u8>, first: &[u8], second: &[u8]) -> Result<(), NoMemory>
    ensures { OnOk result (out.new.items ≡ out.old.items ++ spec.reply_line (first.now ++ second.now)) }
{
    out.extend_from_slice(first)?;
    out.extend_from_slice(second)?;
    out.push(b'\n')?;
    Ok(())
}

/// `ID DAY CURRENT` of a live project.
fn append_row(out: &mut Vec<u8>, row: &Row) -> Result<(), NoMemory>
    ensures { OnOk result (out.new.items ≡ out.old.items ++ spec.row_line row.now) }
{
    out.extend_from_slice(&id_text(row.project))?;
    out.push(b' ')?;
    out.extend_from_slice(&row.day.text())?;
    out.push(b' ')?;
    out.extend_from_slice(&id_text(row.current))?;
    out.push(b'\n')?;
    Ok(())
}

/// `WORD AT CODE`, the place and the name of the code of a fault, as a line.
pub fn fault_line(alloc: Global, word: &[u8], fault: Fault) -> Result<Vec<u8>, NoMemory>
    ensures { IfOk result (λ line. line.items ≡ spec.fault_line word.now fault) }
{
    let at = fault.at.to_string(alloc)?;
    let mut out = word.to_vec(alloc)?;
    out.push(b' ')?;
    out.extend_from_slice(at.as_bytes())?;
    out.push(b' ')?;
    out.extend_from_slice(fault.code.text())?;
    out.push(b'\n')?;
    Ok(out)
}

/// The reply to a document with a fault.
pub fn refused_document(alloc: Global, fault: Fault) -> Result<Vec<u8>, NoMemory>
    ensures { IfOk result (λ line. line.items ≡ spec.refused_document_reply fault) }
{
    fault_line(alloc, b"refused document", fault)
}

/// The counts of a day.
pub fn summary(
    alloc: Global,
    commits: u32,
    projects: usize,
    statements: usize,
) -> Result<Vec<u8>, NoMemory>
    ensures { IfOk result (λ out. out.items ≡ spec.summary_reply commits projects statements) }
{
    let mut out = Vec::new(alloc);
    append_count(alloc, &mut out, b"summary commits ", commits as usize)?;
    append_count(alloc, &mut out, b" projects ", projects)?;
    append_count(alloc, &mut out, b" statements ", statements)?;
    out.push(b'\n')?;
    Ok(out)
}

/// Appends a name and a count in decimal digits.
pub fn append_count(
    alloc: Global,
    out: &mut Vec<u8>,
    name: &[u8],
    count: usize,
) -> Result<(), NoMemory>
    ensures { OnOk result (out.new.items ≡ out.old.items ++ name.now ++ decimal count) }
{
    let digits = (count as u64).to_string(alloc)?;
    out.extend_from_slice(name)?;
    out.extend_from_slice(digits.as_bytes())
}

/// The reply to a command that is refused. To want of memory there is none: it is answered by
/// itself.
pub fn refused(alloc: Global, refusal: &Refusal) -> Result<Reply, NoMemory>
    ensures text { IfOk result (λ reply. reply ≡ spec.refused_reply refusal.now) }
    ensures said { OnOk result (refusal.now ≢ refusals.NoMemory) }
{
    Ok(Reply::of_list(refused_line(alloc, refusal)?))
}

fn refused_line(alloc: Global, refusal: &Refusal) -> Result<Vec<u8>, NoMemory>
    ensures text { IfOk result (λ out. out.items ≡ spec.refused_reply refusal.now) }
    ensures said { OnOk result (refusal.now ≢ refusals.NoMemory) }
{
    match refusal {
        Refusal::Kind => line_of(alloc, &[b"refused kind"]),
        Refusal::Unknown(id) => line_of(alloc, &[b"refused unknown ", &id_text(*id)]),
        Refusal::NotSuperseding(id) => line_of(alloc, &[b"refused superseding ", &id_text(*id)]),
        Refusal::InUse(id) => line_of(alloc, &[b"refused inuse ", &id_text(*id)]),
        Refusal::Limit(limit) => line_of(alloc, &[b"refused limit ", limit_name(*limit)]),
        Refusal::Step { day, model, cause } => refused_step(alloc, *day, *model, cause),
        Refusal::NoMemory => Err(NoMemory),
    }
}

fn limit_name(limit: Limit) -> &'static [u8]
    ensures { result.now ≡ spec.limit_name limit }
{
    match limit {
        Limit::L1 => b"L1",
        Limit::L2 => b"L2",
        Limit::L3 => b"L3",
        Limit::L4 => b"L4",
        Limit::L5 => b"L5",
        Limit::L6 => b"L6",
        Limit::L7 => b"L7",
        Limit::L8 => b"L8",
        Limit::L9 => b"L9",
        Limit::L10 => b"L10",
        Limit::L11 => b"L11",
        Limit::L12 => b"L12",
    }
}

/// The day and the model of a step, and what does not fit.
fn refused_step(alloc: Global, day: Day, model: u128, cause: &Cause) -> Result<Vec<u8>, NoMemory>
    ensures { IfOk result (λ out. out.items ≡ spec.reply_line (codes "refused step " ++ spec.step_text day model cause.now)) }
{
    let cause = cause_text(alloc, cause)?;
    line_of(
        alloc,
        &[
            b"refused step ",
            &day.text(),
            b" ",
            &id_text(model),
            b" ",
            &cause,
        ],
    )
}

/// What does not fit.
fn cause_text(alloc: Global, cause: &Cause) -> Result<Vec<u8>, NoMemory>
    ensures { IfOk result (λ text. text.items ≡ spec.cause_text cause.now) }
{
    match cause {
        Cause::Dependency(id) => texts(alloc, b"dependency ", &id_text(*id)),
        Cause::Precondition(statement) => statement_text(alloc, b"precondition ", statement),
        Cause::Reverse(statement) => statement_text(alloc, b"reverse ", statement),
        Cause::Forward(statement) => statement_text(alloc, b"forward ", statement),
    }
}

/// A word, and the line that reports a statement.
fn statement_text(alloc: Global, word: &[u8], statement: &Statement) -> Result<Vec<u8>, NoMemory>
    ensures { IfOk result (λ text. text.items ≡ word.now ++ lines.line_of statement.now) }
{
    texts(alloc, word, &line(alloc, statement)?)
}

/// Two texts, one behind the other.
fn texts(alloc: Global, first: &[u8], second: &[u8]) -> Result<Vec<u8>, NoMemory>
    ensures { IfOk result (λ text. text.items ≡ first.now ++ second.now) }
{
    let mut text = first.to_vec(alloc)?;
    text.extend_from_slice(second)?;
    Ok(text)
}
