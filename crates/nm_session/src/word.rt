// The command lines of a session.
ghost use Rattle.nm_session.specs.PlainWord.{plain};
ghost use Rattle.nm_session.specs.Word as spec;
ghost use Rattle.nm_model.specs.Limits.{longest_document};
ghost use Rattle.std.specs.Option.{is_some, option_map};
ghost use Rattle.std.specs.Prelude.{◌≡◌, ◌≤◌, IfOk, IfSome, true};
ghost use Rattle.std.specs.Result.{result_ok};

use crate::digits::numeral_within;
use nm_day::Day;
use nm_ident::{Ident, model_id};
use nm_model::LONGEST_DOCUMENT;

/// The bytes of a day.
const DAY_LENGTH: usize = 10;

/// The bytes of a project's id.
const ID_LENGTH: usize = 36;

/// A command line.
#[derive(Debug, Drop)]
pub enum Word<'a> {
    /// The base, a full model of `len` bytes.
    Base { len: u64 },
    /// A project in service from a day on, a difference model of `len` bytes.
    File { day: Day, len: u64 },
    /// Another difference model for a project, of `len` bytes.
    Revise { project: u128, len: u64 },
    /// Another day for a project.
    Redate { project: u128, day: Day },
    /// The end of a project.
    Withdraw { project: u128 },
    /// The model as it is on a day.
    Assemble { day: Day },
    /// What is said of an object on a day. The text names it as an `rdf:about` does: `#` and an
    /// identifier, or `urn:uuid:` and a UUID.
    Object { day: Day, id: &'a [u8] },
    /// What the base and the projects say of an object, named so.
    Timeline { id: &'a [u8] },
    /// The live projects.
    Projects,
    /// The commands so far.
    Log,
    /// The numbers of commits, projects, and statements on a day.
    Summary { day: Day },
    /// The end of the session.
    End,
}

impl Word<'_> {
    /// The length of the document that follows the line, where the line has one.
    pub(crate) fn length(&self) -> Option<u64>
        ensures { result ≡ spec.length_asked (plain self.now) }
    {
        match self {
            Word::Base { len } | Word::File { len, .. } | Word::Revise { len, .. } => Some(*len),
            Word::Redate { .. }
            | Word::Withdraw { .. }
            | Word::Assemble { .. }
            | Word::Object { .. }
            | Word::Timeline { .. }
            | Word::Projects
            | Word::Log
            | Word::Summary { .. }
            | Word::End => None,
        }
    }

    /// Whether the command is the last of its session.
    pub(crate) fn is_end(&self) -> bool
        ensures { result ≡ spec.is_end (plain self.now) }
    {
        matches!(self, Word::End)
    }
}

/// A line that is no command.
#[derive(Clone, Copy, Debug, PartialEq, Eq)]
pub struct BadLine;

/// Reads one line without its line feed: `base LEN`, `file DAY LEN`, `revise ID LEN`,
/// `redate ID DAY`, `withdraw ID`, `assemble DAY`, `object DAY ABOUT`, `timeline ABOUT`,
/// `projects`, `log`, `summary DAY` or `end`, with single spaces. `ID` is a UUID of 36 characters in
/// either letter case, and `ABOUT` a text that [`Ident::of_about`] reads. [`BadLine`] for any other
/// line.
pub fn line(bytes: &[u8]) -> Result<Word<'_>, BadLine>
    ensures word { option_map plain (result_ok result) ≡ spec.word_of bytes.now }
    ensures bound { IfOk result (λ word. spec.body_length (plain word) ≤ longest_document) }
    ensures named { IfOk result (λ word. spec.is_named (plain word) ≡ true) }
{
    match command(bytes) {
        Some(word) => Ok(word),
        None => Err(BadLine),
    }
}

#[tactic(auto, unfolding(crate::specs::Word::word_of))]
fn command(line: &[u8]) -> Option<Word<'_>>
    ensures word { option_map plain result ≡ spec.word_of line.now }
    ensures bound { IfSome result (λ word. spec.body_length (plain word) ≤ longest_document) }
    ensures named { IfSome result (λ word. spec.is_named (plain word) ≡ true) }
{
    if line == b"projects".as_slice() {
        return Some(Word::Projects);
    }
    if line == b"log".as_slice() {
        return Some(Word::Log);
    }
    if line == b"end".as_slice() {
        return Some(Word::End);
    }
    if let Some(len) = line.strip_prefix(b"base ") {
        return Some(Word::Base {
            len: length_of(len)?,
        });
    }
    dated_line(line)
}

/// Reads a line that names a day, or a project.
#[tactic(auto, unfolding(crate::specs::Word::dated_line))]
fn dated_line(line: &[u8]) -> Option<Word<'_>>
    ensures word { option_map plain result ≡ spec.dated_line line.now }
    ensures bound { IfSome result (λ word. spec.body_length (plain word) ≤ longest_document) }
    ensures named { IfSome result (λ word. spec.is_named (plain word) ≡ true) }
{
    if let Some(day) = line.strip_prefix(b"assemble ") {
        return Some(Word::Assemble {
            day: Day::parse(day).ok()?,
        });
    }
    if let Some(day) = line.strip_prefix(b"summary ") {
        return Some(Word::Summary {
            day: Day::parse(day).ok()?,
        });
    }
    file_line(line)
}

fn file_line(line: &[u8]) -> Option<Word<'_>>
    ensures word { option_map plain result ≡ spec.file_line line.now }
    ensures bound { IfSome result (λ word. spec.body_length (plain word) ≤ longest_document) }
    ensures named { IfSome result (λ word. spec.is_named (plain word) ≡ true) }
{
    match line.strip_prefix(b"file ") {
        Some(words) => file_of(words),
        None => project_line(line),
    }
}

/// Reads a line that names a project.
#[tactic(auto, unfolding(crate::specs::Word::project_line))]
fn project_line(line: &[u8]) -> Option<Word<'_>>
    ensures word { option_map plain result ≡ spec.project_line line.now }
    ensures bound { IfSome result (λ word. spec.body_length (plain word) ≤ longest_document) }
    ensures named { IfSome result (λ word. spec.is_named (plain word) ≡ true) }
{
    if let Some(words) = line.strip_prefix(b"revise ") {
        return revise_of(words);
    }
    if let Some(words) = line.strip_prefix(b"redate ") {
        return redate_of(words);
    }
    withdraw_line(line)
}

fn withdraw_line(line: &[u8]) -> Option<Word<'_>>
    ensures word { option_map plain result ≡ spec.withdraw_line line.now }
    ensures bound { IfSome result (λ word. spec.body_length (plain word) ≤ longest_document) }
    ensures named { IfSome result (λ word. spec.is_named (plain word) ≡ true) }
{
    match line.strip_prefix(b"withdraw ") {
        Some(id) => Some(Word::Withdraw {
            project: model_id(id)?,
        }),
        None => object_line(line),
    }
}

/// Reads a line that names an object.
#[tactic(auto, unfolding(crate::specs::Word::object_line))]
fn object_line(line: &[u8]) -> Option<Word<'_>>
    ensures word { option_map plain result ≡ spec.object_line line.now }
    ensures bound { IfSome result (λ word. spec.body_length (plain word) ≤ longest_document) }
    ensures named { IfSome result (λ word. spec.is_named (plain word) ≡ true) }
{
    if let Some(words) = line.strip_prefix(b"object ") {
        return object_of(words);
    }
    let id = about_of(line.strip_prefix(b"timeline ")?)?;
    Some(Word::Timeline { id })
}

/// Reads the day and the object of an `object` line.
fn object_of(words: &[u8]) -> Option<Word<'_>>
    ensures word { option_map plain result ≡ spec.object_of words.now }
    ensures bound { IfSome result (λ word. spec.body_length (plain word) ≤ longest_document) }
    ensures named { IfSome result (λ word. spec.is_named (plain word) ≡ true) }
{
    let Some((day, rest)) = day_and_rest(words) else {
        return None;
    };
    let id = about_of(rest)?;
    Some(Word::Object { day, id })
}

/// The text, where it names an object.
#[tactic(auto, unfolding(crate::specs::Word::object_named))]
fn about_of(text: &[u8]) -> Option<&[u8]>
    ensures same { option_map (λ id. id.now) result ≡ spec.about_of text.now }
    ensures named { IfSome result (λ id. is_some (spec.object_named id.now) ≡ true) }
{
    if Ident::is_about(text) {
        Some(text)
    } else {
        None
    }
}

/// Reads the day and the length of a `file` line.
fn file_of(words: &[u8]) -> Option<Word<'_>>
    ensures word { option_map plain result ≡ spec.file_of words.now }
    ensures bound { IfSome result (λ word. spec.body_length (plain word) ≤ longest_document) }
    ensures named { IfSome result (λ word. spec.is_named (plain word) ≡ true) }
{
    let Some((day, len)) = day_and_rest(words) else {
        return None;
    };
    let len = length_of(len)?;
    Some(Word::File { day, len })
}

/// Reads the project and the length of a `revise` line.
fn revise_of(words: &[u8]) -> Option<Word<'_>>
    ensures word { option_map plain result ≡ spec.revise_of words.now }
    ensures bound { IfSome result (λ word. spec.body_length (plain word) ≤ longest_document) }
    ensures named { IfSome result (λ word. spec.is_named (plain word) ≡ true) }
{
    let (project, len) = id_and_rest(words)?;
    let len = length_of(len)?;
    Some(Word::Revise { project, len })
}

/// Reads the project and the day of a `redate` line.
fn redate_of(words: &[u8]) -> Option<Word<'_>>
    ensures word { option_map plain result ≡ spec.redate_of words.now }
    ensures bound { IfSome result (λ word. spec.body_length (plain word) ≤ longest_document) }
    ensures named { IfSome result (λ word. spec.is_named (plain word) ≡ true) }
{
    let (project, day) = id_and_rest(words)?;
    let day = Day::parse(day).ok()?;
    Some(Word::Redate { project, day })
}

/// The day that a space stands behind, and what stands behind the space.
#[tactic(auto, unfolding(crate::specs::Word::day_before_space))]
fn day_and_rest(words: &[u8]) -> Option<(Day, &[u8])>
    ensures day { option_map (λ parts. parts.0) result ≡ spec.day_before_space words.now }
    ensures rest { IfSome result (λ parts. parts.1.now ≡ spec.behind_space 10 words.now) }
{
    let (day, rest) = words.split_at_checked(DAY_LENGTH)?;
    let rest = rest.strip_prefix(b" ")?;
    let day = Day::parse(day).ok()?;
    Some((day, rest))
}

/// The project whose id a space stands behind, and what stands behind the space.
#[tactic(auto, unfolding(crate::specs::Word::id_before_space))]
fn id_and_rest(words: &[u8]) -> Option<(u128, &[u8])>
    ensures id { option_map (λ parts. parts.0) result ≡ spec.id_before_space words.now }
    ensures rest { IfSome result (λ parts. parts.1.now ≡ spec.behind_space 36 words.now) }
{
    let (id, rest) = words.split_at_checked(ID_LENGTH)?;
    let rest = rest.strip_prefix(b" ")?;
    let project = model_id(id)?;
    Some((project, rest))
}

/// The length that decimal digits without a leading zero spell, at most a document's.
#[tactic(auto, unfolding(crate::specs::Word::length_of))]
fn length_of(digits: &[u8]) -> Option<u64>
    ensures length { result ≡ spec.length_of digits.now }
    ensures bound { IfSome result (λ len. len ≤ longest_document) }
{
    numeral_within(LONGEST_DOCUMENT as u64, digits)
}
