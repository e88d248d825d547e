// One command of a session: its reply, and the state after it.
ghost use Rattle.nm_session.specs.Reply.{document_reply, lines_reply, log_reply, numbered as numbered_reply, projects_reply, statements_reply, summary_reply};
ghost use Rattle.nm_session.specs.PlainWord.{plain};
ghost use Rattle.nm_session.specs.Turn as spec;
ghost use Rattle.nm_version.specs.Objects.{object_at};
ghost use Rattle.nm_version.specs.Timeline.{timeline_of};
ghost use Rattle.std.specs.Option.{is_some};
ghost use Rattle.nm_session.specs.Body.{IsBodyOf};
ghost use Rattle.nm_session.specs.Word.{is_named, is_query, length_asked, object_named};
ghost use Rattle.nm_session.specs.declared.body.Body.TheVariants as absent;
ghost use Rattle.nm_session.specs.declared.state.State.TheVariants as state_of;
ghost use Rattle.nm_version.specs.Assembly.{assembly};
ghost use Rattle.nm_version.specs.Kept.{number_of};
ghost use Rattle.nm_version.specs.Listing.{log_of};
ghost use Rattle.nm_version.specs.Projects.{rows_of};
ghost use Rattle.nm_version.specs.Replay.{statements_at};
ghost use Rattle.nm_writer.specs.Canonical.{canonical_full};
ghost use Rattle.std.specs.Prelude.{◌≡◌, IfOk, IsTrue, None, OnErr, Some, codes, length};

use crate::answer::{lines_told, numbered, projects, statements_told, summary, with_length};
use crate::body::Body;
use crate::changes::{commit, file, revise, take_base};
use crate::reply::Reply;
use crate::state::State;
use crate::word::Word;
use nm_base::NoMemory;
use nm_day::Day;
use nm_ident::{Ident, IdentError};
use nm_version::{Command, Version};
use nm_writer::write_full;
use std::alloc::Global;

/// The reply to a command with its body. After want of memory the state is the old one.
///
/// The command is one that is allowed there, and its body is that of its line: a document or a fault
/// where the line has a length, and absent where it has none. A text in it names an object.
pub fn step(alloc: Global, state: &mut State, word: &Word, body: Body) -> Result<Reply, NoMemory>
    requires allowed { IsTrue (spec.allows state.old (plain word.now)) }
    requires body { IsBodyOf (length_asked (plain word.now)) body }
    requires named { IsTrue (is_named (plain word.now)) }
    ensures ok { IfOk result (λ reply. (reply ≡ (spec.turn_with state.old (plain word.now) body).reply)
        × (state.new ≡ (spec.turn_with state.old (plain word.now) body).state)) }
    ensures err { OnErr result (state.new ≡ state.old) }
{
    match state {
        State::Empty => begin(alloc, state, word, body),
        State::Store(version) => answer(alloc, version, word, body),
    }
}

/// The reply to a command where there is no base.
fn begin(alloc: Global, state: &mut State, word: &Word, body: Body) -> Result<Reply, NoMemory>
    requires first { state.old ≡ state_of.Empty }
    requires allowed { IsTrue (spec.allows state_of.Empty (plain word.now)) }
    requires body { IsBodyOf (length_asked (plain word.now)) body }
    ensures ok { IfOk result (λ reply. (reply ≡ (spec.turn_with state_of.Empty (plain word.now) body).reply)
        × (state.new ≡ (spec.turn_with state_of.Empty (plain word.now) body).state)) }
    ensures err { OnErr result (state.new ≡ state.old) }
{
    match word {
        Word::Base { .. } => take_base(alloc, state, body),
        Word::End => ended(alloc, 0),
        Word::File { .. }
        | Word::Revise { .. }
        | Word::Redate { .. }
        | Word::Withdraw { .. }
        | Word::Assemble { .. }
        | Word::Object { .. }
        | Word::Timeline { .. }
        | Word::Projects
        | Word::Log
        | Word::Summary { .. } => unreachable!(),
    }
}

/// The reply to a command where there is a base.
fn answer(alloc: Global, version: &mut Version, word: &Word, body: Body) -> Result<Reply, NoMemory>
    requires allowed { IsTrue (spec.allows (state_of.Store version.old) (plain word.now)) }
    requires body { IsBodyOf (length_asked (plain word.now)) body }
    requires named { IsTrue (is_named (plain word.now)) }
    ensures ok { IfOk result (λ reply. (reply ≡ (spec.turn_with (state_of.Store version.old) (plain word.now) body).reply)
        × (state_of.Store version.new ≡ (spec.turn_with (state_of.Store version.old) (plain word.now) body).state)) }
    ensures err { OnErr result (version.new ≡ version.old) }
{
    match word {
        Word::File { day, .. } => file(alloc, version, *day, body),
        Word::Revise { project, .. } => revise(alloc, version, *project, body),
        Word::Redate { .. }
        | Word::Withdraw { .. }
        | Word::Assemble { .. }
        | Word::Object { .. }
        | Word::Timeline { .. }
        | Word::Projects
        | Word::Log
        | Word::Summary { .. }
        | Word::End => answer_line(alloc, version, word),
        Word::Base { .. } => unreachable!(),
    }
}

/// The reply to a command without a document where there is a base.
// Apart from the commands with one, so that a document that may be there is dropped at one place.
fn answer_line(alloc: Global, version: &mut Version, word: &Word) -> Result<Reply, NoMemory>
    requires allowed { IsTrue (spec.allows (state_of.Store version.old) (plain word.now)) }
    requires alone { length_asked (plain word.now) ≡ None }
    requires named { IsTrue (is_named (plain word.now)) }
    ensures ok { IfOk result (λ reply. (reply ≡ (spec.turn_with (state_of.Store version.old) (plain word.now) absent.Absent).reply)
        × (state_of.Store version.new ≡ (spec.turn_with (state_of.Store version.old) (plain word.now) absent.Absent).state)) }
    ensures err { OnErr result (version.new ≡ version.old) }
{
    match word {
        Word::Redate { project, day } => {
            let (project, day) = (*project, *day);
            commit(alloc, version, Command::Redate { project, day })
        }
        Word::Withdraw { project } => {
            let project = *project;
            commit(alloc, version, Command::Withdraw { project })
        }
        Word::Assemble { .. }
        | Word::Object { .. }
        | Word::Timeline { .. }
        | Word::Projects
        | Word::Log
        | Word::Summary { .. } => query(alloc, version, word),
        Word::End => ended(alloc, u64::from(version.number())),
        Word::Base { .. } | Word::File { .. } | Word::Revise { .. } => unreachable!(),
    }
}

/// The reply to `end` after so many commands.
fn ended(alloc: Global, number: u64) -> Result<Reply, NoMemory>
    ensures { IfOk result (λ reply. reply ≡ numbered_reply (codes "end") number) }
{
    Ok(Reply::of_list(numbered(alloc, b"end", number)?))
}

/// The reply to a command that changes nothing, which is that of [`step`] over this version. The
/// command is `Assemble`, `Object`, `Timeline`, `Projects`, `Log` or `Summary`, and a text in it names
/// an object.
pub fn query(alloc: Global, version: &Version, word: &Word) -> Result<Reply, NoMemory>
    requires query { IsTrue (is_query (plain word.now)) }
    requires named { IsTrue (is_named (plain word.now)) }
    ensures { IfOk result (λ reply. reply ≡ (spec.turn_with (state_of.Store version.now) (plain word.now) absent.Absent).reply) }
{
    Ok(Reply::of_list(answer_text(alloc, version, word)?))
}

fn answer_text(alloc: Global, version: &Version, word: &Word) -> Result<Vec<u8>, NoMemory>
    requires query { IsTrue (is_query (plain word.now)) }
    requires named { IsTrue (is_named (plain word.now)) }
    ensures { IfOk result (λ text. text.items ≡ (spec.turn_with (state_of.Store version.now) (plain word.now) absent.Absent).reply) }
{
    match word {
        Word::Assemble { day } => assembled(alloc, version, *day),
        Word::Object { day, id } => told_of_day(alloc, version, *day, id),
        Word::Timeline { id } => told_of_all(alloc, version, id),
        Word::Projects => listed(alloc, version),
        Word::Log => logged(alloc, version),
        Word::Summary { day } => summarized(alloc, version, *day),
        Word::Base { .. }
        | Word::File { .. }
        | Word::Revise { .. }
        | Word::Redate { .. }
        | Word::Withdraw { .. }
        | Word::End => unreachable!(),
    }
}

/// The model of a day, with its length before it.
fn assembled(alloc: Global, version: &Version, day: Day) -> Result<Vec<u8>, NoMemory>
    ensures { IfOk result (λ reply. reply.items ≡ document_reply (canonical_full (assembly version.now.base version.now.live day))) }
{
    let document = document_of_day(alloc, version, day)?;
    with_length(alloc, b"document", &document)
}

/// The canonical document of a day's model, which is dropped once it is written.
fn document_of_day(alloc: Global, version: &Version, day: Day) -> Result<Vec<u8>, NoMemory>
    ensures { IfOk result (λ document. document.items ≡ canonical_full (assembly version.now.base version.now.live day)) }
{
    let full = version.assemble(alloc, day)?;
    write_full(alloc, &full)
}

/// The counts of a day.
fn summarized(alloc: Global, version: &Version, day: Day) -> Result<Vec<u8>, NoMemory>
    ensures { IfOk result (λ reply. reply.items ≡ summary_reply (number_of version.now) (length version.now.live)
        (length (statements_at version.now.base version.now.live day))) }
{
    let statements = version.count(alloc, day)?;
    summary(alloc, version.number(), version.live(), statements)
}

/// The live projects.
fn listed(alloc: Global, version: &Version) -> Result<Vec<u8>, NoMemory>
    ensures { IfOk result (λ reply. reply.items ≡ projects_reply (rows_of version.now.live)) }
{
    let rows = version.projects(alloc)?;
    projects(alloc, &rows)
}

/// The commands so far.
fn logged(alloc: Global, version: &Version) -> Result<Vec<u8>, NoMemory>
    ensures { IfOk result (λ reply. reply.items ≡ log_reply (log_of version.now)) }
{
    let stream = version.log(alloc)?;
    with_length(alloc, b"log", &stream)
}

/// The statements of an object on a day.
fn told_of_day(alloc: Global, version: &Version, day: Day, id: &[u8]) -> Result<Vec<u8>, NoMemory>
    requires { IsTrue (is_some (object_named id.now)) }
    ensures { IfOk result (λ reply. reply.items ≡ spec.told_of (λ ident. statements_reply (object_at version.now.base version.now.live day ident)) (object_named id.now)) }
{
    let ident = object_named(alloc, id)?;
    let statements = version.object(alloc, day, &ident)?;
    statements_told(alloc, &statements)
}

/// Where the statements of an object stand.
fn told_of_all(alloc: Global, version: &Version, id: &[u8]) -> Result<Vec<u8>, NoMemory>
    requires { IsTrue (is_some (object_named id.now)) }
    ensures { IfOk result (λ reply. reply.items ≡ spec.told_of (λ ident. lines_reply (timeline_of version.now.base version.now.live ident)) (object_named id.now)) }
{
    let ident = object_named(alloc, id)?;
    let lines = version.timeline(alloc, &ident)?;
    lines_told(alloc, &lines)
}

/// The object that a text names.
#[tactic(auto, unfolding(crate::specs::Word::object_named))]
fn object_named(alloc: Global, id: &[u8]) -> Result<Ident, NoMemory>
    requires { IsTrue (is_some (object_named id.now)) }
    ensures { IfOk result (λ ident. object_named id.now ≡ Some ident) }
{
    match Ident::of_about(alloc, id) {
        Ok(ident) => Ok(ident),
        Err(IdentError::NoMemory) => Err(NoMemory),
        Err(IdentError::Bad) => unreachable!(),
    }
}
