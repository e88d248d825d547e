// A store from the stream of its commands.
ghost use Rattle.nm_base.specs.Faults.{IsRisen};
ghost use Rattle.nm_session.specs.Input.{CountsReads};
ghost use Rattle.nm_session.specs.Opening as spec;
ghost use Rattle.nm_session.specs.Stream.{outcome};
ghost use Rattle.nm_session.specs.declared.state.State.TheVariants as state_of;
ghost use Rattle.nm_terms.specs.Due.{IsDue};
ghost use Rattle.std.specs.Prelude.{◌≡◌, ◌≤◌, [], IfErr, IfSome, OnOk};

use crate::ahead::Ahead;
use crate::halt::Halt;
use crate::state::State;
use crate::taking::take_turn;
use nm_base::{Source, Status};
use nm_version::Version;
use std::alloc::Global;

/// Why a stream opens no store.
#[derive(Clone, Copy, Debug, PartialEq, Eq)]
pub struct OpeningError {
    pub status: Status,
    /// Where the line begins that is no command, with `BadSession`; 0 with any other status.
    pub at: u64,
}

impl From<Halt> for OpeningError {
    ghost from_gives = { λ halt error. error ≡ spec.error_of halt };

    fn from(halt: Halt) -> OpeningError {
        OpeningError {
            status: halt.status(),
            at: halt.place(),
        }
    }
}

/// The store that a session stream ends with. Its replies are dropped.
///
/// The error's status is `Refused` where the stream was read to its `end` line and no base was
/// accepted, and else the one that [`session`](crate::session) ends with: `BadSession`, `Cut`,
/// `TooMuch`, `ReadFault` or `NoMemory`.
pub fn opening<S: Source>(alloc: Global, source: &mut S) -> Result<Version, OpeningError>
    ensures due { IfSome (S.left source.old) (λ stream. IsDue spec.tells_no_ending result (spec.opening_of stream)) }
    ensures complete { IfSome (S.left source.old) (λ stream. (IsRisen (S.faults source.old) (S.faults source.new) → ⊥)
        → IsDue spec.wants_memory result (spec.opening_of stream)) }
    ensures cause { IfErr result (λ error. spec.HasCause error (S.faults source.old) (S.faults source.new) (S.left source.new)) }
    ensures unfailed { OnOk result (S.faults source.new ≡ S.faults source.old) }
    ensures reads_kept { S.faults source.old ≤ S.faults source.new }
    ensures beside_stays { S.beside source.new ≡ S.beside source.old }
{
    let mut ahead = Ahead::new(alloc);
    let mut state = State::Empty;
    run_to_end(alloc, &mut ahead, &mut state, source)?;
    match state {
        State::Store(version) => Ok(version),
        State::Empty => Err(OpeningError {
            status: Status::Refused,
            at: 0,
        }),
    }
}

/// Runs a whole stream from its beginning, and drops the replies.
fn run_to_end<S: Source>(
    alloc: Global,
    ahead: &mut Ahead,
    state: &mut State,
    source: &mut S,
) -> Result<(), Halt>
    requires new { ahead.old ≡ record { ahead = []; given = 0 } }
    requires empty { state.old ≡ state_of.Empty }
    ensures done { OnOk result (IfSome (S.left source.old) (λ stream. spec.IsDoneIn (outcome stream) state.new)) }
    ensures why { IfErr result (λ halt. IfSome (S.left source.old) (λ stream. spec.TellsEnding halt (outcome stream).ending)) }
    ensures counted { CountsReads (S.faults source.old) (S.faults source.new) (S.left source.new) result }
    ensures beside_stays { S.beside source.new ≡ S.beside source.old }
{
    'turns: loop {
        let (_, is_last) = take_turn(alloc, ahead, state, source)?;
        if is_last {
            return Ok(());
        }
    }
}
