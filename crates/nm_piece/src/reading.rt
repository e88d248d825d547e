// Reading from the front of bytes.
ghost use Rattle.nm_piece.specs.Raw.{read_as};
ghost use Rattle.nm_piece.specs.Reading as spec;
ghost use Rattle.std.specs.Prelude.{◌≡◌, [], ◌∷◌, MatchResult, if◌then◌else◌};

use crate::unread::Unread;

/// A value, and what stands behind it.
pub type Read<'a, T> = Result<(T, &'a [u8]), Unread>;

/// The first byte, and what stands behind it.
pub fn first(bytes: &[u8]) -> Result<(u8, &[u8]), Unread>
    ensures { MatchResult result (λ read. bytes.now ≡ read.0 ∷ read.1.now) (λ error. (bytes.now ≡ []) × (error ≡ Unread.Unfinished)) }
{
    match bytes.split_first() {
        Some((byte, behind)) => Ok((*byte, behind)),
        None => Err(Unread::Unfinished),
    }
}

/// What stands behind these bytes.
pub fn literal<'a>(text: &[u8], bytes: &'a [u8]) -> Result<&'a [u8], Unread>
    ensures { read_as (λ rest. (tt, rest.now)) result ≡ spec.literal_at text.now bytes.now }
{
    let mut rest = bytes;
    for wanted in text {
        let (byte, behind) = first(rest)?;
        if byte != *wanted {
            return Err(Unread::NoPiece);
        }
        rest = behind;
    }
    Ok(rest)
}

/// `Unfinished` where more behind the bytes can make something of them.
pub fn unfinished_if(begins: bool) -> Unread
    ensures { result ≡ (if begins then Unread.Unfinished else Unread.NoPiece) }
{
    if begins {
        Unread::Unfinished
    } else {
        Unread::NoPiece
    }
}
