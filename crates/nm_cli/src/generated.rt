// A session that is generated, and written.
ghost use Rattle.nm_cli.specs.Forms.{EndsUnlessWriteFault, WriteHasCause, generated};
ghost use Rattle.nm_cli.specs.Reported.{CountsWrites};
ghost use Rattle.nm_gen.specs.Limits.{most_projects};
ghost use Rattle.nm_gen.specs.Stream.{stream_of};
ghost use Rattle.nm_session.specs.Answered.{Answers, AppendsPrefix};
ghost use Rattle.std.specs.Io.KnownBytes.{Appends};
ghost use Rattle.std.specs.Prelude.{◌≡◌, ◌≤◌, OnErr, OnOk};

use crate::failure::Failure;
use crate::report::write_text;
use nm_base::{Sink, Status};
use nm_gen::generate;
use std::alloc::Global;

/// Writes the session of so many projects that the seed determines.
pub fn write_generated<K: Sink>(alloc: Global, projects: u32, seed: u32, sink: &mut K) -> Status
    requires some { 1 ≤ projects }
    requires few { projects ≤ most_projects }
    ensures answers { Answers (generated projects seed) result (K.written sink.old) (K.written sink.new) }
    ensures cause { WriteHasCause result (K.faults sink.old) (K.faults sink.new) }
    ensures complete { EndsUnlessWriteFault (generated projects seed) result (K.written sink.old) (K.written sink.new) (K.faults sink.old) (K.faults sink.new) }
    ensures writes_kept { K.faults sink.old ≤ K.faults sink.new }
    ensures beside_stays { K.beside sink.new ≡ K.beside sink.old }
{
    match write_stream(alloc, projects, seed, sink) {
        Ok(()) => Status::Done,
        Err(failure) => failure.status(),
    }
}

fn write_stream<K: Sink>(
    alloc: Global,
    projects: u32,
    seed: u32,
    sink: &mut K,
) -> Result<(), Failure>
    requires some { 1 ≤ projects }
    requires few { projects ≤ most_projects }
    ensures whole { OnOk result (Appends (K.written sink.old) (K.written sink.new) (stream_of projects seed)) }
    ensures front { OnErr result (AppendsPrefix (K.written sink.old) (K.written sink.new) (stream_of projects seed)) }
    ensures counted { CountsWrites (K.faults sink.old) (K.faults sink.new) result }
    ensures beside_stays { K.beside sink.new ≡ K.beside sink.old }
{
    let stream = generate(alloc, projects, seed)?;
    write_text(sink, &stream)
}
