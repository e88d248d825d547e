// The model of a document, from its bytes.
ghost use Rattle.nm_model.specs.Sound.{is_sound_within_limits};
ghost use Rattle.nm_piece.specs.Cutting.{mark_length};
ghost use Rattle.nm_piece.specs.Token.{piece_of};
ghost use Rattle.nm_reader.specs.Context.{beginning};
ghost use Rattle.nm_reader.specs.Cutting.{Spelt};
ghost use Rattle.nm_reader.specs.Input.{IsDocumentOf, cut, end_at};
ghost use Rattle.nm_reader.specs.Read as spec;
ghost use Rattle.nm_reader.specs.Read.{due_from, read_due, refusal_at, wants_memory};
ghost use Rattle.nm_reader.specs.Rules.{code_at};
ghost use Rattle.nm_reader.specs.Taken.{IsBehind, is_sound_piece};
ghost use Rattle.nm_terms.specs.Due.{IsDue, RefusalIsDue};
ghost use Rattle.std.specs.Prelude.{◌≡◌, drop, IfOk, MatchResult, true};

use crate::context::Reader;
use crate::error::ReadError;
use crate::fault::{Code, Fault};
use crate::refusal::Refusal;
use nm_model::{Document, LONGEST_DOCUMENT};
use nm_piece::{Token, Unread, token};
use std::alloc::Global;

/// The UTF-8 of U+FEFF (XML 1.0, section 4.3.3).
const BYTE_ORDER_MARK: &[u8] = b"\xEF\xBB\xBF";

/// The model that a CIMXML document states (IEC 61970-552).
///
/// `bytes` is the whole document, in any spelling of it that XML allows. [`ReadError::Fault`] where
/// they are no document: the fault is that of the first piece that breaks a rule, its place is the
/// offset at which that piece begins, and its code that of the first rule that the piece breaks. Of
/// more than 67,108,864 bytes the first so many are judged; where they break no rule, the fault is
/// [`Code::Limit`] at that place. [`ReadError::NoMemory`] where memory runs out.
///
/// One pass over the bytes, and one sort of the statements.
pub fn read(alloc: Global, bytes: &[u8]) -> Result<Document, ReadError>
    ensures due { IsDue wants_memory result (read_due bytes.now) }
    ensures stated { IfOk result (λ model. IsDocumentOf bytes.now model) }
    ensures kept { IfOk result (λ model. is_sound_within_limits model ≡ true) }
{
    if bytes.len() <= LONGEST_DOCUMENT {
        read_pieces(alloc, bytes, true)
    } else {
        read_pieces(alloc, &bytes[..LONGEST_DOCUMENT], false)
    }
}

/// What stands behind the byte order mark, where the input begins with one.
fn behind_mark(input: &[u8]) -> &[u8]
    ensures { result.now ≡ drop (mark_length input.now) input.now }
{
    match input.strip_prefix(BYTE_ORDER_MARK) {
        Some(rest) => rest,
        None => input,
    }
}

/// The model that the input states; `last` says that it ends with these bytes.
fn read_pieces(alloc: Global, input: &[u8], last: bool) -> Result<Document, ReadError>
    ensures { IsDue wants_memory result (due_from beginning (cut last input.now)) }
{
    let mut reader = Reader::new(alloc);
    let mut rest = behind_mark(input);
    'pieces: loop {
        let at = input.len() - rest.len();
        match token(rest, last) {
            Ok((token, behind)) => {
                take_at(alloc, &mut reader, token, at)?;
                rest = behind;
            }
            Err(unread) => return finish(alloc, reader, rest, unread, at, last),
        }
    }
}

/// Takes the piece that begins at the offset. After a refusal the context is not used again.
fn take_at<'a>(
    alloc: Global,
    reader: &mut Reader<'a>,
    token: Token<'a>,
    at: usize,
) -> Result<(), ReadError>
    requires { is_sound_piece (piece_of token) ≡ true }
    ensures { MatchResult result
        (λ _. IsBehind reader.old (piece_of token.entry) reader.new)
        (λ error. RefusalIsDue wants_memory error (refusal_at at (code_at reader.old (Spelt (piece_of token.entry))))) }
{
    match reader.take_token(alloc, token) {
        Ok(()) => Ok(()),
        Err(Refusal::Rule(code)) => Err(ReadError::Fault(Fault {
            at: at as u64,
            code,
        })),
        Err(Refusal::NoMemory) => Err(ReadError::NoMemory),
    }
}

/// Whether a piece begins there that the end of the bytes cuts off.
fn is_unfinished(unread: &Unread) -> bool
    ensures { result ≡ spec.is_unfinished unread.now }
{
    matches!(unread, Unread::Unfinished)
}

/// The fault at the end of the pieces, at the offset: whether the bytes end there, or a piece is
/// unfinished, whether they are all of the input, and whether the document may end.
fn end_fault(ended: bool, unfinished: bool, last: bool, whole: bool, at: usize) -> Option<Fault>
    ensures { result ≡ spec.end_fault ended unfinished last whole at }
{
    if !ended && !unfinished {
        Some(Fault {
            at: at as u64,
            code: Code::Piece,
        })
    } else if !last {
        Some(Fault {
            at: LONGEST_DOCUMENT as u64,
            code: Code::Limit,
        })
    } else if ended && whole {
        None
    } else {
        Some(Fault {
            at: at as u64,
            code: Code::Cut,
        })
    }
}

#[tactic(auto, using(crate::proofs::Ends::due_at_end))]
/// The model of the pieces that were taken, unless their end is at fault: `rest` stands behind them,
/// from the offset on.
fn finish(
    alloc: Global,
    reader: Reader<'_>,
    rest: &[u8],
    unread: Unread,
    at: usize,
    last: bool,
) -> Result<Document, ReadError>
    ensures { IsDue wants_memory result (due_from reader.entry (end_at last at rest.now unread)) }
{
    let unfinished = is_unfinished(&unread);
    let fault = end_fault(rest.is_empty(), unfinished, last, reader.is_whole(), at);
    if let Some(fault) = fault {
        return Err(ReadError::Fault(fault));
    }
    match reader.into_document(alloc)? {
        Some(document) => Ok(document),
        // Without a fault there is a header, and so a model.
        None => Err(ReadError::NoMemory),
    }
}
