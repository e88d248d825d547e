// The model that facts make.
ghost use Rattle.nm_ident.specs.Order.{text_cmp};
ghost use Rattle.nm_ident.specs.Rising.{rising_by};
ghost use Rattle.nm_model.specs.Header.{rising_ids as rising_ids_of};
ghost use Rattle.nm_model.specs.declared.document.Document.TheVariants as document;
ghost use Rattle.nm_reader.specs.Model as spec;
ghost use Rattle.nm_statement.specs.Set.{set_of};
ghost use Rattle.std.specs.Option.{option_map};
ghost use Rattle.std.specs.Prelude.{◌≡◌, IfOk};

use crate::draft::{Draft, draft_of};
use crate::fact::{Fact, Kind};
use nm_ident::{Ids, NoMemory, Text, Texts};
use nm_model::{Difference, Document, Full, Header};
use nm_statement::{Change, Set, Statement};
use std::alloc::Global;

/// The identifiers in order, each once.
fn rising_ids(list: Vec<u128>) -> Ids
    ensures { result ≡ rising_ids_of list.items }
{
    let mut ids = list;
    ids.sort_unstable();
    ids.dedup();
    Ids::of_list(ids)
}

/// The texts in order, each once.
fn rising_texts(list: Vec<Text>) -> Texts
    ensures { result ≡ rising_by text_cmp list.items }
{
    let mut texts = list;
    texts.sort_unstable();
    texts.dedup();
    Texts::of_list(texts)
}

/// The model of this kind and with this identifier that the facts make.
fn model_of(alloc: Global, kind: Kind, id: u128, facts: Vec<Fact>) -> Result<Document, NoMemory>
    ensures { IfOk result (λ model. model ≡ spec.model_of kind id facts.items) }
{
    let draft = draft_of(alloc, facts)?;
    let header = Header {
        id,
        created: draft.created,
        scenario_time: draft.scenario_time,
        version: draft.version,
        description: draft.description,
        authority: draft.authority,
        profiles: rising_texts(draft.profiles),
        depends: rising_ids(draft.depends),
        supersedes: rising_ids(draft.supersedes),
    };
    match kind {
        Kind::Full => full(alloc, header, draft.whole),
        Kind::Difference => difference(
            alloc,
            header,
            draft.preconditions,
            draft.reverse,
            draft.forward,
        ),
    }
}

/// The full model of these statements.
fn full(alloc: Global, header: Header, statements: Vec<Statement>) -> Result<Document, NoMemory>
    ensures { IfOk result (λ model. model ≡ document.Full (record { header = header; statements = set_of statements.items })) }
{
    Ok(Document::Full(Full {
        header,
        statements: Set::of_list(alloc, statements)?,
    }))
}

/// The difference model of these statements.
fn difference(
    alloc: Global,
    header: Header,
    preconditions: Vec<Statement>,
    reverse: Vec<Statement>,
    forward: Vec<Statement>,
) -> Result<Document, NoMemory>
    ensures { IfOk result (λ model. model ≡ document.Difference (record {
      header = header;
      change = record { pre = set_of preconditions.items; rev = set_of reverse.items; fwd = set_of forward.items };
    })) }
{
    let change = change_of(alloc, preconditions, reverse, forward)?;
    Ok(Document::Difference(Difference { header, change }))
}

/// The change that takes one list of statements away and adds another.
fn change_of(
    alloc: Global,
    preconditions: Vec<Statement>,
    reverse: Vec<Statement>,
    forward: Vec<Statement>,
) -> Result<Change, NoMemory>
    ensures { IfOk result (λ change. change ≡ record { pre = set_of preconditions.items; rev = set_of reverse.items; fwd = set_of forward.items }) }
{
    Ok(Change {
        pre: Set::of_list(alloc, preconditions)?,
        rev: Set::of_list(alloc, reverse)?,
        fwd: Set::of_list(alloc, forward)?,
    })
}

/// The kind and the identifier of the model that the facts begin with.
fn heading(facts: &[Fact]) -> Option<(Kind, u128)>
    ensures { spec.document_of facts.now ≡ option_map (λ head. spec.model_of head.0 head.1 facts.now) result }
{
    match facts.first() {
        Some(Fact::Heads { kind, id }) => Some((*kind, *id)),
        _ => None,
    }
}

/// The model that the facts make, where they begin with its header.
pub fn document_of(alloc: Global, facts: Vec<Fact>) -> Result<Option<Document>, NoMemory>
    ensures { IfOk result (λ model. model ≡ spec.document_of facts.items) }
{
    match heading(&facts) {
        Some((kind, id)) => Ok(Some(model_of(alloc, kind, id, facts)?)),
        None => Ok(None),
    }
}
