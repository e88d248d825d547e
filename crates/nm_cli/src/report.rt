// What is written of a document.
ghost use Rattle.std.specs.Prelude.{◌≡◌, ◌≤◌, IfOk, IfSome, OnErr, OnOk};
ghost use Rattle.std.specs.Io.KnownBytes.{Appends};
ghost use Rattle.nm_session.specs.Answered.{Answers, AppendsPrefix, EndsAs, EndsUnlessFaults};
ghost use Rattle.nm_reader.specs.Read.{read_due};
ghost use Rattle.nm_cli.specs.Report.{counts_line, fault_report, report_of, reported};
ghost use Rattle.nm_cli.specs.Reported.{CountsWrites, ReportHasCause, ReadsThrough};
ghost use Rattle.nm_writer.specs.Canonical.{canonical_of};

use crate::counts::counts_line;
use crate::failure::Failure;
use crate::whole_input::read_through;
use nm_base::{Sink, Source, Status, write_whole};
use nm_model::Document;
use nm_reader::{Fault, ReadError, read};
use nm_session::fault_line;
use nm_writer::write_to;
use std::alloc::Global;

/// What is to be written of a document.
#[derive(Clone, Copy, Debug, PartialEq, Eq)]
pub enum Report {
    /// Its canonical document.
    Canonical,
    /// The identifier of its model, and how many statements it has.
    Counts,
}

/// Reads a document to its end, and writes the report on it, or its fault.
pub fn report_on<S: Source, K: Sink>(
    alloc: Global,
    report: Report,
    source: &mut S,
    sink: &mut K,
) -> Status
    ensures answers { IfSome (S.left source.old) (λ input. Answers (reported report (read_due input)) result (K.written sink.old) (K.written sink.new)) }
    ensures cause { ReportHasCause result (S.faults source.old) (S.faults source.new) (K.faults sink.old) (K.faults sink.new) }
    ensures complete { IfSome (S.left source.old) (λ input.
        EndsUnlessFaults (reported report (read_due input)) result (K.written sink.old) (K.written sink.new) (S.faults source.old) (S.faults source.new) (K.faults sink.old) (K.faults sink.new)) }
    ensures read { ReadsThrough result (S.left source.old) (S.left source.new) }
    ensures reads_kept { S.faults source.old ≤ S.faults source.new }
    ensures writes_kept { K.faults sink.old ≤ K.faults sink.new }
    ensures source_beside { S.beside source.new ≡ S.beside source.old }
    ensures sink_beside { K.beside sink.new ≡ K.beside sink.old }
{
    match read_through(alloc, source) {
        Ok(bytes) => match write_report(alloc, report, &bytes, sink) {
            Ok(status) => status,
            Err(failure) => failure.status(),
        },
        Err(failure) => failure.status(),
    }
}

/// Writes the report on a document, or its fault.
fn write_report<K: Sink>(
    alloc: Global,
    report: Report,
    bytes: &[u8],
    sink: &mut K,
) -> Result<Status, Failure>
    ensures whole { IfOk result (λ status. EndsAs (reported report (read_due bytes.now)) status (K.written sink.old) (K.written sink.new)) }
    ensures front { OnErr result (AppendsPrefix (K.written sink.old) (K.written sink.new) (reported report (read_due bytes.now)).replies) }
    ensures counted { CountsWrites (K.faults sink.old) (K.faults sink.new) result }
    ensures beside_stays { K.beside sink.new ≡ K.beside sink.old }
{
    match read(alloc, bytes) {
        Ok(document) => {
            write_model(alloc, report, &document, sink)?;
            Ok(Status::Done)
        }
        Err(ReadError::Fault(fault)) => {
            write_fault(alloc, fault, sink)?;
            Ok(Status::Refused)
        }
        Err(ReadError::NoMemory) => Err(Failure::NoMemory),
    }
}

/// Writes the report on a model.
fn write_model<K: Sink>(
    alloc: Global,
    report: Report,
    document: &Document,
    sink: &mut K,
) -> Result<(), Failure>
    ensures whole { OnOk result (Appends (K.written sink.old) (K.written sink.new) (report_of report document.now)) }
    ensures front { OnErr result (AppendsPrefix (K.written sink.old) (K.written sink.new) (report_of report document.now)) }
    ensures counted { CountsWrites (K.faults sink.old) (K.faults sink.new) result }
    ensures beside_stays { K.beside sink.new ≡ K.beside sink.old }
{
    match report {
        Report::Canonical => write_canonical(alloc, document, sink),
        Report::Counts => write_counts(alloc, document, sink),
    }
}

/// Writes the canonical document of a model.
fn write_canonical<K: Sink>(alloc: Global, document: &Document, sink: &mut K) -> Result<(), Failure>
    ensures whole { OnOk result (Appends (K.written sink.old) (K.written sink.new) (canonical_of document.now)) }
    ensures front { OnErr result (AppendsPrefix (K.written sink.old) (K.written sink.new) (canonical_of document.now)) }
    ensures counted { CountsWrites (K.faults sink.old) (K.faults sink.new) result }
    ensures beside_stays { K.beside sink.new ≡ K.beside sink.old }
{
    Ok(write_to(alloc, document, sink)?)
}

/// Writes the identifier of a model and how many statements it has.
fn write_counts<K: Sink>(alloc: Global, document: &Document, sink: &mut K) -> Result<(), Failure>
    ensures whole { OnOk result (Appends (K.written sink.old) (K.written sink.new) (counts_line document.now)) }
    ensures front { OnErr result (AppendsPrefix (K.written sink.old) (K.written sink.new) (counts_line document.now)) }
    ensures counted { CountsWrites (K.faults sink.old) (K.faults sink.new) result }
    ensures beside_stays { K.beside sink.new ≡ K.beside sink.old }
{
    let line = counts_line(alloc, document)?;
    write_text(sink, &line)
}

/// Writes the place and the code of a fault.
fn write_fault<K: Sink>(alloc: Global, fault: Fault, sink: &mut K) -> Result<(), Failure>
    ensures whole { OnOk result (Appends (K.written sink.old) (K.written sink.new) (fault_report fault)) }
    ensures front { OnErr result (AppendsPrefix (K.written sink.old) (K.written sink.new) (fault_report fault)) }
    ensures counted { CountsWrites (K.faults sink.old) (K.faults sink.new) result }
    ensures beside_stays { K.beside sink.new ≡ K.beside sink.old }
{
    let line = fault_line(alloc, b"fault", fault)?;
    write_text(sink, &line)
}

/// Writes a text whole.
pub fn write_text<K: Sink>(sink: &mut K, text: &[u8]) -> Result<(), Failure>
    ensures whole { OnOk result (Appends (K.written sink.old) (K.written sink.new) text.now) }
    ensures front { OnErr result (AppendsPrefix (K.written sink.old) (K.written sink.new) text.now) }
    ensures counted { CountsWrites (K.faults sink.old) (K.faults sink.new) result }
    ensures beside_stays { K.beside sink.new ≡ K.beside sink.old }
{
    write_whole(sink, text).map_err(|_| Failure::WriteFault)
}
