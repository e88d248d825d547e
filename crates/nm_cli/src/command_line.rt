// A run of the program, over its input and its output.
ghost use Rattle.std.specs.Prelude.{◌≡◌, ◌≤◌, ◌↔◌, map, None, IfSome, string_bytes};
ghost use Rattle.nm_base.specs.declared.outcome.Status.TheVariants.{Usage};
ghost use Rattle.nm_session.specs.Answered.{Untouched};
ghost use Rattle.nm_cli.specs.CommandLine.{HasProjects, form_of};
ghost use Rattle.nm_cli.specs.Forms.{FormAnswers, FormCompletes, FormHasCause, FormReads};

use crate::form::Form;
use crate::generated::write_generated;
use crate::report::{Report, report_on};
use nm_base::{Sink, Source, Status};
use nm_session::session;
use std::alloc::Global;

/// Runs the form that the words after the program's name are:
///
/// - `session` answers the commands of a session stream, as [`session`] says.
/// - `canon` reads a document and writes its canonical document. The status is `Done`.
/// - `check` reads a document and writes `full ID N`, the identifier of the full model and the
///   number of its statements, or `difference ID P R F`, the identifier of the difference model and
///   the numbers of its preconditions, its reverse and its forward differences. The status is
///   `Done`.
/// - `gen N SEED` reads nothing and writes a session of `N` projects, 1 to 2,000, which `SEED`
///   determines, as [`generate`](nm_gen::generate) says. The status is `Done`. The numbers are decimal digits without
///   a leading zero.
///
/// Where a document has a fault, `canon` and `check` write `fault AT CODE`, its place in bytes and
/// the name of its code, and the status is `Refused`. Both read the input to its end before they
/// answer, or to more than the 67,108,864 bytes that a document may have.
///
/// With any other words the status is `Usage`, and nothing is read or written. `ReadFault` and
/// `WriteFault` come where a call of the input or of the output failed, and only there, and
/// `NoMemory` where memory ran out: some of the first bytes of what was due were written then.
///
/// ```text
/// let words = vec![in alloc; "canon".to_string(alloc)?]?;
/// let status = run(alloc, &words, &mut source, &mut sink);
/// ```
pub fn run<S: Source, K: Sink>(
    alloc: Global,
    words: &Vec<String>,
    input: &mut S,
    output: &mut K,
) -> Status
    // Words that are no form, and nothing else, are `Usage`.
    ensures usage { result ≡ Usage ↔ form_of (map string_bytes words.now.items) ≡ None }
    ensures unread { form_of (map string_bytes words.now.items) ≡ None → Untouched (S.left input.old) (S.left input.new) (S.faults input.old) (S.faults input.new) }
    ensures unwritten { form_of (map string_bytes words.now.items) ≡ None → Untouched (K.written output.old) (K.written output.new) (K.faults output.old) (K.faults output.new) }

    // A form is answered as it is due on the bytes that the input had left.
    ensures answers { IfSome (form_of (map string_bytes words.now.items)) (λ form.
        FormAnswers form (S.left input.old) result (K.written output.old) (K.written output.new)) }
    ensures cause { IfSome (form_of (map string_bytes words.now.items)) (λ form.
        FormHasCause form result (S.faults input.old) (S.faults input.new) (K.faults output.old) (K.faults output.new) (S.left input.new)) }
    ensures complete { IfSome (form_of (map string_bytes words.now.items)) (λ form.
        FormCompletes form (S.left input.old) result (K.written output.old) (K.written output.new) (S.faults input.old) (S.faults input.new) (K.faults output.old) (K.faults output.new)) }
    ensures read { IfSome (form_of (map string_bytes words.now.items)) (λ form. FormReads form result (S.left input.old) (S.left input.new) (S.faults input.old) (S.faults input.new)) }

    ensures reads_kept { S.faults input.old ≤ S.faults input.new }
    ensures writes_kept { K.faults output.old ≤ K.faults output.new }
    ensures source_beside { S.beside input.new ≡ S.beside input.old }
    ensures sink_beside { K.beside output.new ≡ K.beside output.old }
{
    match Form::parse(words) {
        Some(form) => perform(alloc, form, input, output),
        None => Status::Usage,
    }
}

/// Runs one form.
fn perform<S: Source, K: Sink>(alloc: Global, form: Form, input: &mut S, output: &mut K) -> Status
    requires { HasProjects form }
    ensures answers { FormAnswers form (S.left input.old) result (K.written output.old) (K.written output.new) }
    ensures cause { FormHasCause form result (S.faults input.old) (S.faults input.new) (K.faults output.old) (K.faults output.new) (S.left input.new) }
    ensures complete { FormCompletes form (S.left input.old) result (K.written output.old) (K.written output.new) (S.faults input.old) (S.faults input.new) (K.faults output.old) (K.faults output.new) }
    ensures read { FormReads form result (S.left input.old) (S.left input.new) (S.faults input.old) (S.faults input.new) }
    ensures reads_kept { S.faults input.old ≤ S.faults input.new }
    ensures writes_kept { K.faults output.old ≤ K.faults output.new }
    ensures source_beside { S.beside input.new ≡ S.beside input.old }
    ensures sink_beside { K.beside output.new ≡ K.beside output.old }
{
    match form {
        Form::Session => session(alloc, input, output),
        Form::Canon => report_on(alloc, Report::Canonical, input, output),
        Form::Check => report_on(alloc, Report::Counts, input, output),
        Form::Gen { projects, seed } => write_generated(alloc, projects, seed, output),
    }
}
