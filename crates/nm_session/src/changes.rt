// The commands that change what a session stands in.
ghost use Rattle.nm_session.specs.Body.{IsReadBody};
ghost use Rattle.nm_model.specs.declared.document.Document.TheVariants as document_of;
ghost use Rattle.nm_reader.specs.Input.{IsDocumentOf};
ghost use Rattle.nm_session.specs.Turn as spec;
ghost use Rattle.nm_session.specs.declared.body.Body.TheVariants as body_of;
ghost use Rattle.nm_session.specs.declared.state.State.TheVariants as state_of;
ghost use Rattle.nm_terms.specs.Due.{IsDue};
ghost use Rattle.nm_version.specs.After.{commit_of};
ghost use Rattle.nm_version.specs.Command.{IsSpelt};
ghost use Rattle.nm_version.specs.Refusal.{wants_memory};
ghost use Rattle.nm_version.specs.declared.command.Command.TheVariants as command_of;
ghost use Rattle.std.specs.Prelude.{◌≡◌, ◌<◌, IfOk, OnErr};

use crate::answer::{numbered, refused, refused_document};
use crate::body::Body;
use crate::reply::Reply;
use crate::state::State;
use nm_base::{NoMemory, Steps};
use nm_day::Day;
use nm_ident::Text;
use nm_model::{Document, Full};
use nm_version::{Command, Refusal, Version};
use std::alloc::Global;
use std::marker::Brand;
use std::sync::ledger::{Blank, Ledger};

/// Takes the base, where the document is a full model.
pub fn take_base(alloc: Global, state: &mut State, body: Body) -> Result<Reply, NoMemory>
    requires first { state.old ≡ state_of.Empty }
    requires body { IsReadBody body }
    ensures ok { IfOk result (λ reply. (reply ≡ (spec.with_base body).reply) × (state.new ≡ (spec.with_base body).state)) }
    ensures err { OnErr result (state.new ≡ state.old) }
{
    match body {
        Body::Document { document, bytes } => take_document(alloc, state, document, bytes),
        Body::Fault(fault) => Ok(Reply::of_list(refused_document(alloc, fault)?)),
        Body::Absent => unreachable!(),
    }
}

fn take_document(
    alloc: Global,
    state: &mut State,
    document: Document,
    bytes: Text,
) -> Result<Reply, NoMemory>
    requires first { state.old ≡ state_of.Empty }
    requires spelt { IsDocumentOf bytes document }
    ensures ok { IfOk result (λ reply. (reply ≡ (spec.with_base (body_of.Document document bytes)).reply)
        × (state.new ≡ (spec.with_base (body_of.Document document bytes)).state)) }
    ensures err { OnErr result (state.new ≡ state.old) }
{
    match document {
        Document::Full(base) => open_store(alloc, state, base, bytes),
        Document::Difference(_) => refused(alloc, &Refusal::Kind),
    }
}

/// Opens the store of a base.
// Apart, so that a document that may be there is dropped at one place.
fn open_store(alloc: Global, state: &mut State, base: Full, bytes: Text) -> Result<Reply, NoMemory>
    requires { IsDocumentOf bytes (document_of.Full base) }
    ensures ok { IfOk result (λ reply. (reply ≡ (spec.with_base (body_of.Document (document_of.Full base) bytes)).reply)
        × (state.new ≡ (spec.with_base (body_of.Document (document_of.Full base) bytes)).state)) }
    ensures err { OnErr result (state.new ≡ state.old) }
{
    let version = Version::open(alloc, base, bytes.into_list())?;
    let reply = numbered(alloc, b"ok", 0)?;
    *state = State::Store(version);
    Ok(Reply::of_list(reply))
}

/// Files a project that is in service from the day on.
pub fn file(alloc: Global, version: &mut Version, day: Day, body: Body) -> Result<Reply, NoMemory>
    requires { IsReadBody body }
    ensures ok { IfOk result (λ reply. (reply ≡ (spec.with_body version.old (command_of.File day) body).reply)
        × (state_of.Store version.new ≡ (spec.with_body version.old (command_of.File day) body).state)) }
    ensures err { OnErr result (version.new ≡ version.old) }
{
    match body {
        Body::Document { document, bytes } => commit(
            alloc,
            version,
            Command::File {
                day,
                document,
                bytes,
            },
        ),
        Body::Fault(fault) => Ok(Reply::of_list(refused_document(alloc, fault)?)),
        Body::Absent => unreachable!(),
    }
}

/// Puts another difference model in the place of a project's current one.
pub fn revise(
    alloc: Global,
    version: &mut Version,
    project: u128,
    body: Body,
) -> Result<Reply, NoMemory>
    requires { IsReadBody body }
    ensures ok { IfOk result (λ reply. (reply ≡ (spec.with_body version.old (command_of.Revise project) body).reply)
        × (state_of.Store version.new ≡ (spec.with_body version.old (command_of.Revise project) body).state)) }
    ensures err { OnErr result (version.new ≡ version.old) }
{
    match body {
        Body::Document { document, bytes } => commit(
            alloc,
            version,
            Command::Revise {
                project,
                document,
                bytes,
            },
        ),
        Body::Fault(fault) => Ok(Reply::of_list(refused_document(alloc, fault)?)),
        Body::Absent => unreachable!(),
    }
}

/// Changes the store by a command, unless it is refused.
pub fn commit(alloc: Global, version: &mut Version, command: Command) -> Result<Reply, NoMemory>
    requires { IsSpelt command }
    ensures ok { IfOk result (λ reply. (reply ≡ (spec.with_command version.old command).reply)
        × (state_of.Store version.new ≡ (spec.with_command version.old command).state)) }
    ensures err { OnErr result (version.new ≡ version.old) }
{
    match version_after(alloc, version, command) {
        Ok(after) => {
            let reply = numbered(alloc, b"ok", u64::from(after.number()))?;
            *version = after;
            Ok(Reply::of_list(reply))
        }
        Err(refusal) => refused(alloc, &refusal),
    }
}

/// The version after a command.
fn version_after(alloc: Global, version: &Version, command: Command) -> Result<Version, Refusal>
    requires { IsSpelt command }
    ensures { IsDue wants_memory result (commit_of version.now command) }
{
    version_counted::<Brand>(alloc, version, command, Blank::new(1))
}

/// The same, with its steps counted in a ledger.
fn version_counted<L: Ledger>(
    alloc: Global,
    version: &Version,
    command: Command,
    blank: Blank,
) -> Result<Version, Refusal>
    requires spelt { IsSpelt command }
    requires name { blank.name ≡ L.name }
    requires parts { blank.parts ≡ L.parts }
    requires some { 0 < blank.parts }
    ensures { IsDue wants_memory result (commit_of version.now command) }
{
    let mut steps = Steps::<L>::start(blank);
    version.commit(alloc, command, &mut steps)
}
