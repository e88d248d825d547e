// Whole canonical documents.
ghost use Rattle.nm_base.specs.Written.{AppendsFront};
ghost use Rattle.nm_writer.specs.Canonical.{canonical_difference, canonical_full, canonical_of, front, namespaces_of};
ghost use Rattle.nm_writer.specs.Passing.{CountsWriteFaults};
ghost use Rattle.std.specs.Io.KnownBytes.{Appends};
ghost use Rattle.std.specs.Prelude.{◌≡◌, [], ◌∷◌, ◌++◌, IfOk, OnErr, OnOk};

use crate::blocks::write_last;
use crate::error::WriteError;
use crate::header::{append_header_lines, append_header_start};
use crate::lines::{append_all, append_closing};
use crate::prefixes::{Namespaces, Prefixes};
use crate::sections::{write_elements, write_sections};
use crate::used::add_namespaces;
use nm_base::Sink;
use nm_ident::NoMemory;
use nm_model::{Difference, Document, Full};
use nm_statement::{Change, Set};
use std::alloc::Global;

const XML_LINE: &[u8] = b"<?xml version=\"1.0\" encoding=\"UTF-8\"?>\n";

const ROOT_START: &[u8] =
    b"<rdf:RDF xmlns:rdf=\"http://www.w3.org/1999/02/22-rdf-syntax-ns#\" xmlns:md=\"http://iec.ch/TC57/61970-552/ModelDescription/1#\"";

const DIFFERENCE_DECLARATION: &[u8] =
    b" xmlns:dm=\"http://iec.ch/TC57/61970-552/DifferenceModel/1#\"";

/// The canonical document of a full model: its one spelling in the RDF/XML of IEC 61970-552.
///
/// The namespaces in use are declared in the order of their bytes: the first that begins with
/// `http://iec.ch/TC57/` as `cim`, the others as `n1`, `n2` and so on. The objects stand in the
/// order of their subjects. The least class of a subject that is a namespace and a name is its
/// element, named by `rdf:ID`; a subject without one is an `rdf:Description` with `rdf:about`.
/// Equal models have equal bytes. The time is linear in the statements, but for a search among the
/// namespaces at each.
///
/// ```
/// let document = write_full(alloc, &Full { header, statements })?;
/// ```
pub fn write_full(alloc: Global, full: &Full) -> Result<Vec<u8>, NoMemory>
    ensures { IfOk result (λ out. out.items ≡ canonical_full full.now) }
{
    let mut out = Vec::new(alloc);
    match write_full_to(alloc, full, &mut out) {
        Ok(()) => Ok(out),
        Err(_) => Err(NoMemory),
    }
}

/// The canonical document of a difference model: as [`write_full`] spells a full one, with the
/// sections of preconditions, of what is added and of what is taken away, also where they state
/// nothing, and with `rdf:about` for every subject.
pub fn write_difference(alloc: Global, difference: &Difference) -> Result<Vec<u8>, NoMemory>
    ensures { IfOk result (λ out. out.items ≡ canonical_difference difference.now) }
{
    let mut out = Vec::new(alloc);
    match write_difference_to(alloc, difference, &mut out) {
        Ok(()) => Ok(out),
        Err(_) => Err(NoMemory),
    }
}

/// The canonical document of a model of either kind.
pub fn write_document(alloc: Global, document: &Document) -> Result<Vec<u8>, NoMemory>
    ensures { IfOk result (λ out. out.items ≡ canonical_of document.now) }
{
    match document {
        Document::Full(full) => write_full(alloc, full),
        Document::Difference(difference) => write_difference(alloc, difference),
    }
}

/// Appends the canonical document of a model to what the sink was given, in blocks of about 64 KiB.
///
/// The document is not held as a whole: a block goes to the sink behind the object that fills it.
/// [`WriteError::Fault`] comes only where the sink's count of faults rose in this call. After an
/// error some of the first bytes of the document were appended, but not all.
///
/// ```text
/// write_to(alloc, &document, &mut sink)?;
/// ```
pub fn write_to<K: Sink>(alloc: Global, document: &Document, sink: &mut K) -> Result<(), WriteError>
    ensures whole { OnOk result (Appends (K.written sink.old) (K.written sink.new) (canonical_of document.now)) }
    ensures front { OnErr result (AppendsFront (K.written sink.old) (K.written sink.new) (canonical_of document.now)) }
    ensures counted { CountsWriteFaults (K.faults sink.old) (K.faults sink.new) result }
    ensures beside_stays { K.beside sink.new ≡ K.beside sink.old }
{
    match document {
        Document::Full(full) => write_full_to(alloc, full, sink),
        Document::Difference(difference) => write_difference_to(alloc, difference, sink),
    }
}

/// Appends the canonical document of a full model.
fn write_full_to<K: Sink>(alloc: Global, full: &Full, sink: &mut K) -> Result<(), WriteError>
    ensures whole { OnOk result (Appends (K.written sink.old) (K.written sink.new) (canonical_full full.now)) }
    ensures front { OnErr result (AppendsFront (K.written sink.old) (K.written sink.new) (canonical_full full.now)) }
    ensures counted { CountsWriteFaults (K.faults sink.old) (K.faults sink.new) result }
    ensures beside_stays { K.beside sink.new ≡ K.beside sink.old }
{
    let prefixes = full_prefixes(alloc, &full.statements)?;
    let mut block = Vec::new(alloc);
    append_front(&mut block, b"", &prefixes)?;
    append_header_start(&mut block, b"md:FullModel", full.header.id)?;
    append_header_lines(&mut block, &full.header)?;
    append_closing(&mut block, b"md:FullModel")?;
    write_elements(alloc, sink, &mut block, true, &prefixes, &full.statements)?;
    append_closing(&mut block, b"rdf:RDF")?;
    write_last(sink, &block)
}

/// Appends the canonical document of a difference model.
fn write_difference_to<K: Sink>(
    alloc: Global,
    difference: &Difference,
    sink: &mut K,
) -> Result<(), WriteError>
    ensures whole { OnOk result (Appends (K.written sink.old) (K.written sink.new) (canonical_difference difference.now)) }
    ensures front { OnErr result (AppendsFront (K.written sink.old) (K.written sink.new) (canonical_difference difference.now)) }
    ensures counted { CountsWriteFaults (K.faults sink.old) (K.faults sink.new) result }
    ensures beside_stays { K.beside sink.new ≡ K.beside sink.old }
{
    let change = &difference.change;
    let prefixes = change_prefixes(alloc, change)?;
    let mut block = Vec::new(alloc);
    append_front(&mut block, DIFFERENCE_DECLARATION, &prefixes)?;
    append_header_start(&mut block, b"dm:DifferenceModel", difference.header.id)?;
    append_header_lines(&mut block, &difference.header)?;
    write_sections(alloc, sink, &mut block, &prefixes, change)?;
    append_closing(&mut block, b"dm:DifferenceModel")?;
    append_closing(&mut block, b"rdf:RDF")?;
    write_last(sink, &block)
}

/// The namespaces that a full model uses.
fn full_prefixes(alloc: Global, statements: &Set) -> Result<Prefixes, NoMemory>
    ensures { IfOk result (λ prefixes. prefixes ≡ namespaces_of (statements.now ∷ [])) }
{
    let mut namespaces = Namespaces::new(alloc);
    add_namespaces(alloc, &mut namespaces, statements)?;
    Prefixes::new(alloc, namespaces)
}

/// The namespaces that a difference model uses.
fn change_prefixes(alloc: Global, change: &Change) -> Result<Prefixes, NoMemory>
    ensures { IfOk result (λ prefixes. prefixes ≡ namespaces_of (change.now.pre ∷ change.now.fwd ∷ change.now.rev ∷ [])) }
{
    let mut namespaces = Namespaces::new(alloc);
    add_namespaces(alloc, &mut namespaces, &change.pre)?;
    add_namespaces(alloc, &mut namespaces, &change.fwd)?;
    add_namespaces(alloc, &mut namespaces, &change.rev)?;
    Prefixes::new(alloc, namespaces)
}

/// Appends what stands in front of the header.
fn append_front(out: &mut Vec<u8>, declared: &[u8], prefixes: &Prefixes) -> Result<(), NoMemory>
    ensures { OnOk result (out.new.items ≡ out.old.items ++ front declared.now prefixes.now) }
{
    append_all(out, &[XML_LINE, ROOT_START, declared])?;
    prefixes.append_declarations(out)?;
    append_all(out, &[b">\n"])
}
