// Taking the next command of a stream, and its reply.
ghost use Rattle.nm_model.specs.Limits.{longest_document};
ghost use Rattle.nm_session.specs.Body.{IsBodyOf};
ghost use Rattle.nm_session.specs.Input.{coming, CountsReads, NoBodyBy};
ghost use Rattle.nm_session.specs.Limits.{longest_session};
ghost use Rattle.nm_session.specs.PlainWord.{plain};
ghost use Rattle.nm_session.specs.Stream.{NotACommand, by_word, command_with_body};
ghost use Rattle.nm_session.specs.Turn.{allows};
ghost use Rattle.nm_session.specs.Turns.{GoesOn, NoTurnBy, TakesBody, TakesTurn};
ghost use Rattle.nm_session.specs.Word.{body_length, is_named, length_asked, word_of};
ghost use Rattle.nm_session.specs.declared.halt.Halt.TheVariants.{BadLine};
ghost use Rattle.std.specs.Prelude.{◌≡◌, ℕ, ◌≤◌, List, IfOk, IfErr, OnOk, IfSome, IsTrue};

use crate::ahead::Ahead;
use crate::body::Body;
use crate::halt::Halt;
use crate::reply::Reply;
use crate::state::State;
use crate::turn::step;
use crate::word::{Word, line};
use nm_base::Source;
use std::alloc::Global;

/// Takes one command and gives the reply to it. `true` says that it was the last.
pub fn take_turn<S: Source>(
    alloc: Global,
    ahead: &mut Ahead,
    state: &mut State,
    source: &mut S,
) -> Result<(Reply, bool), Halt>
    ensures turn { IfOk result (λ taken. IfSome (coming ahead.old (S.left source.old)) (λ bytes.
        TakesTurn state.old state.new ahead.old ahead.new bytes (S.left source.new) taken.0 taken.1)) }
    ensures why { IfErr result (λ halt. IfSome (coming ahead.old (S.left source.old)) (λ bytes. NoTurnBy halt state.old ahead.old bytes)) }
    ensures goes_on { OnOk result (GoesOn ahead.old ahead.new) }
    ensures counted { CountsReads (S.faults source.old) (S.faults source.new) (S.left source.new) result }
    ensures beside_stays { S.beside source.new ≡ S.beside source.old }
{
    let at = ahead.offset();
    let bytes = ahead.next_line(alloc, source)?;
    let word = match command(state, &bytes, at) {
        Ok(word) => word,
        Err(halt) => return Err(halt),
    };
    let body = take_body(alloc, ahead, source, &word)?;
    let is_last = word.is_end();
    let reply = step(alloc, state, &word, body)?;
    Ok((reply, is_last))
}

/// The command of a line, where it is one in this state.
fn command<'a>(state: &State, bytes: &'a [u8], at: u64) -> Result<Word<'a>, Halt>
    ensures word { IfOk result (λ word. IsTrue (allows state.now (plain word)) × (body_length (plain word) ≤ longest_document) × IsTrue (is_named (plain word))
        × ((rest : List ℕ) → by_word state.now (word_of bytes.now) rest ≡ command_with_body (plain word) rest)) }
    ensures bad { IfErr result (λ halt. (halt ≡ BadLine at)
        × ((rest : List ℕ) → by_word state.now (word_of bytes.now) rest ≡ NotACommand)) }
{
    match line(bytes) {
        Ok(word) if state.allows(&word) => Ok(word),
        _ => Err(Halt::BadLine(at)),
    }
}

/// Takes the document of a command, where its line has a length.
fn take_body<S: Source>(
    alloc: Global,
    ahead: &mut Ahead,
    source: &mut S,
    word: &Word,
) -> Result<Body, Halt>
    requires short { body_length (plain word.now) ≤ longest_document }
    requires limit { ahead.old.given ≤ longest_session }
    ensures body { IfOk result (λ body. TakesBody (plain word.now) ahead.old ahead.new (S.left source.old) (S.left source.new) body) }
    ensures own { IfOk result (λ body. IsBodyOf (length_asked (plain word.now)) body) }
    ensures why { IfErr result (λ halt. NoBodyBy halt (body_length (plain word.now)) ahead.old (S.left source.old)) }
    ensures counted { CountsReads (S.faults source.old) (S.faults source.new) (S.left source.new) result }
    ensures beside_stays { S.beside source.new ≡ S.beside source.old }
{
    match word.length() {
        Some(len) => {
            let spelling = ahead.next_spelling(alloc, source, len)?;
            Ok(Body::from(spelling))
        }
        None => Ok(Body::Absent),
    }
}
