// Sessions: a stream of commands, and their replies.
ghost use Rattle.std.specs.Prelude.{◌≡◌, ◌≤◌, codes, IfOk, IfErr, OnOk, IfSome};
ghost use Rattle.std.specs.Io.KnownBytes.{Appends};
ghost use Rattle.nm_session.specs.Answered.{AnswersStream, AnswersUnlessFaults, HasCause, NoneFailed};
ghost use Rattle.nm_session.specs.Input.{coming};
ghost use Rattle.nm_session.specs.Reply as replies;
ghost use Rattle.nm_session.specs.Turns.{AnswersTurn, EndsWith, GoesOn, InterruptionTells, LeavesBadLine, NoAnswerBy};

use crate::ahead::Ahead;
use crate::answer::numbered;
use crate::halt::Halt;
use crate::interruption::Interruption;
use crate::state::State;
use crate::taking::take_turn;
use nm_base::{Sink, Source, Status, write_whole};
use nm_writer::WriteError;
use std::alloc::Global;

/// Answers the commands of a session stream, each before the next one is taken.
///
/// Of the stream, at most 4,294,967,296 bytes are taken as lines and documents. The status says how
/// it ended:
///
/// - `Done`: the last command was `end`;
/// - `BadSession`: a line was no command that is allowed there, or was longer than 256 bytes.
///   The line `badline OFFSET` was written last, with the place in the stream where it begins;
/// - `Cut`: the stream ended before its last command, and the source has nothing left;
/// - `TooMuch`: the session took as many bytes as it may, and no `end` was among them;
/// - `ReadFault` and `WriteFault`: the source or the sink failed, and some of the first replies were
///   written;
/// - `NoMemory`: the same for want of memory.
pub fn session<S: Source, K: Sink>(alloc: Global, source: &mut S, sink: &mut K) -> Status
    ensures answers { IfSome (S.left source.old) (λ stream. AnswersStream stream result (K.written sink.old) (K.written sink.new)) }
    ensures cause { HasCause result (S.faults source.old) (S.faults source.new) (K.faults sink.old) (K.faults sink.new) (S.left source.new) }
    ensures complete { IfSome (S.left source.old) (λ stream.
        AnswersUnlessFaults stream result (K.written sink.old) (K.written sink.new) (S.faults source.old) (S.faults source.new) (K.faults sink.old) (K.faults sink.new)) }
    ensures reads_kept { S.faults source.old ≤ S.faults source.new }
    ensures writes_kept { K.faults sink.old ≤ K.faults sink.new }
    ensures source_beside { S.beside source.new ≡ S.beside source.old }
    ensures sink_beside { K.beside sink.new ≡ K.beside sink.old }
{
    let mut ahead = Ahead::new(alloc);
    let mut state = State::Empty;
    'turns: loop {
        match turn(alloc, &mut ahead, &mut state, source, sink) {
            Ok(false) => {}
            Ok(true) => return Status::Done,
            Err(interruption) => return ended(alloc, interruption, sink),
        }
    }
}

/// Takes one command and answers it. `true` says that it was the last.
fn turn<S: Source, K: Sink>(
    alloc: Global,
    ahead: &mut Ahead,
    state: &mut State,
    source: &mut S,
    sink: &mut K,
) -> Result<bool, Interruption>
    ensures turn { IfOk result (λ last. IfSome (coming ahead.old (S.left source.old)) (λ bytes.
        AnswersTurn state.old state.new ahead.old ahead.new bytes (S.left source.new) (K.written sink.old) (K.written sink.new) last)) }
    ensures why { IfErr result (λ interruption. IfSome (coming ahead.old (S.left source.old)) (λ bytes.
        NoAnswerBy interruption state.old ahead.old bytes (K.written sink.old) (K.written sink.new))) }
    ensures cause { IfErr result (λ interruption. InterruptionTells interruption (S.faults source.old) (S.faults source.new) (K.faults sink.old) (K.faults sink.new) (S.left source.new)) }
    ensures unfailed { OnOk result (NoneFailed (S.faults source.old) (S.faults source.new) (K.faults sink.old) (K.faults sink.new)) }
    ensures goes_on { OnOk result (GoesOn ahead.old ahead.new) }
    ensures reads_kept { S.faults source.old ≤ S.faults source.new }
    ensures writes_kept { K.faults sink.old ≤ K.faults sink.new }
    ensures source_beside { S.beside source.new ≡ S.beside source.old }
    ensures sink_beside { K.beside sink.new ≡ K.beside sink.old }
{
    let (reply, is_last) = take_turn(alloc, ahead, state, source)?;
    write_whole(sink, reply.as_slice())?;
    Ok(is_last)
}

/// The status of a session that was interrupted, after the line that names a bad one's offset.
fn ended<K: Sink>(alloc: Global, interruption: Interruption, sink: &mut K) -> Status
    ensures ends { EndsWith interruption result (K.written sink.old) (K.written sink.new) (K.faults sink.old) (K.faults sink.new) }
    ensures writes_kept { K.faults sink.old ≤ K.faults sink.new }
    ensures beside_stays { K.beside sink.new ≡ K.beside sink.old }
{
    match interruption {
        Interruption::Halted(Halt::BadLine(at)) => match name_bad_line(alloc, at, sink) {
            Ok(()) => Status::BadSession,
            Err(WriteError::Fault) => Status::WriteFault,
            Err(WriteError::NoMemory) => Status::NoMemory,
        },
        Interruption::Halted(halt) => halt.status(),
        Interruption::WriteFault => Status::WriteFault,
    }
}

/// Writes the line that names the offset of a bad one.
fn name_bad_line<K: Sink>(alloc: Global, at: u64, sink: &mut K) -> Result<(), WriteError>
    ensures named { OnOk result (Appends (K.written sink.old) (K.written sink.new) (replies.numbered (codes "badline") at)) }
    ensures unfailed { OnOk result (K.faults sink.new ≡ K.faults sink.old) }
    ensures why { IfErr result (λ error. LeavesBadLine error at (K.written sink.old) (K.written sink.new) (K.faults sink.old) (K.faults sink.new)) }
    ensures writes_kept { K.faults sink.old ≤ K.faults sink.new }
    ensures beside_stays { K.beside sink.new ≡ K.beside sink.old }
{
    let line = numbered(alloc, b"badline", at)?;
    Ok(write_whole(sink, &line)?)
}
