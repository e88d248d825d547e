// Pieces in memory of their own.
ghost use Rattle.nm_piece.specs.Next.{next_due, wants_memory};
ghost use Rattle.nm_piece.specs.Raw.{attribute_of, name_of};
ghost use Rattle.nm_piece.specs.Token.{piece_of};
ghost use Rattle.nm_terms.specs.Due.{IsDue};
ghost use Rattle.nm_text.specs.White.{is_white_text as is_white_meant};
ghost use Rattle.std.specs.Option.{option_map};
ghost use Rattle.std.specs.Prelude.{◌≡◌, ◌++◌, IfOk, IfSome, OnOk};

use crate::piece::{Attribute, Attributes, Piece, QName};
use crate::plain::is_value_as_spelt;
use crate::raw::{RawAttribute, RawAttributes, RawName, RawText, RawValue, Token};
use crate::tokens::token;
use crate::unread::{PieceError, Unread};
use nm_ident::{NoMemory, Text};
use nm_text::{RefError, append_attribute, append_lines, append_run, is_white_text};
use std::alloc::Global;

/// The piece at the front of the bytes, and its length in bytes.
///
/// `last` says that the input ends with these bytes. `None` where the bytes are none, or end before
/// the piece does. [`PieceError::NoPiece`] where no piece is spelt there, whatever follows.
/// [`PieceError::NoMemory`] where memory runs out.
pub fn next(alloc: Global, bytes: &[u8], last: bool) -> Result<Option<(Piece, usize)>, PieceError>
    ensures { IsDue wants_memory result (next_due bytes.now last) }
{
    match token(bytes, last) {
        Ok((token, rest)) => {
            let piece = token.to_piece(alloc)?;
            Ok(Some((piece, bytes.len() - rest.len())))
        }
        Err(Unread::Unfinished) => Ok(None),
        Err(Unread::NoPiece) => Err(PieceError::NoPiece),
        Err(Unread::NoMemory) => Err(PieceError::NoMemory),
    }
}

impl Token<'_> {
    /// The same piece in memory of its own.
    pub fn to_piece(self, alloc: Global) -> Result<Piece, NoMemory>
        ensures { IfOk result (λ piece. piece ≡ piece_of self.entry) }
    {
        Ok(match self {
            Token::Start { encoding } => Piece::Start {
                encoding: copy_of(alloc, encoding)?,
            },
            Token::Doctype => Piece::Doctype,
            Token::Open {
                name,
                attributes,
                empty,
            } => Piece::Open {
                name: name.to_qname(alloc)?,
                attributes: attributes.to_list(alloc)?,
                empty,
            },
            Token::Close { name } => Piece::Close {
                name: name.to_qname(alloc)?,
            },
            Token::Text(text) => Piece::Text(text.to_text(alloc)?),
            Token::Skip => Piece::Skip,
        })
    }
}

impl RawName<'_> {
    /// The same name in memory of its own.
    pub fn to_qname(self, alloc: Global) -> Result<QName, NoMemory>
        ensures { IfOk result (λ name. name ≡ name_of self.entry) }
    {
        Ok(QName {
            prefix: copy_of(alloc, self.prefix)?,
            local: Text::of_slice(alloc, self.local)?,
        })
    }
}

/// The text, where there is one, in memory of its own.
fn copy_of(alloc: Global, text: Option<&[u8]>) -> Result<Option<Text>, NoMemory>
    ensures { IfOk result (λ copy. copy ≡ option_map (λ text. text.now) text.entry) }
{
    match text {
        Some(bytes) => Ok(Some(Text::of_slice(alloc, bytes)?)),
        None => Ok(None),
    }
}

impl RawAttributes<'_> {
    /// The attributes that are left, in memory of their own.
    pub fn to_list(mut self, alloc: Global) -> Result<Attributes, NoMemory>
        ensures { IfOk result (λ list. list ≡ self.entry) }
    {
        let mut list = Vec::new(alloc);
        while let Some(attribute) = self.next_attribute() {
            list.push(attribute.to_attribute(alloc)?)?;
        }
        Ok(Attributes::of_list(list))
    }
}

impl RawAttribute<'_> {
    /// The same attribute in memory of its own.
    pub fn to_attribute(&self, alloc: Global) -> Result<Attribute, NoMemory>
        ensures { IfOk result (λ attribute. attribute ≡ attribute_of self.now) }
    {
        let name = self.name.to_qname(alloc)?;
        let mut value = Vec::new(alloc);
        self.value.append_to(&mut value)?;
        Ok(Attribute {
            name,
            value: Text::of_list(value),
        })
    }
}

impl RawValue<'_> {
    /// Appends what the value stands for: references replaced, each line end and tab a space. After
    /// an error `out` has a part of it.
    pub fn append_to(&self, out: &mut Vec<u8>) -> Result<(), NoMemory>
        ensures { OnOk result (out.new.items ≡ out.old.items ++ self.now) }
    {
        match append_attribute(out, self.spelling) {
            Ok(()) => Ok(()),
            Err(RefError::NoMemory) => Err(NoMemory),
            Err(RefError::At(_)) => unreachable!(),
        }
    }
}

impl<'a> RawValue<'a> {
    #[tactic(auto, using(crate::proofs::AsSpelt::value_as_spelt))]
    /// The value where it stands in the input, if it is spelt as it is: without references, and without
    /// white space other than spaces.
    pub fn as_spelt(&self) -> Option<&'a [u8]>
        ensures { IfSome result (λ value. value.now ≡ self.now) }
    {
        if is_value_as_spelt(self.spelling) {
            Some(self.spelling)
        } else {
            None
        }
    }
}

impl RawText<'_> {
    #[tactic(auto, using(crate::proofs::AsSpelt::white_meant))]
    /// Whether the text is white space alone. Memory is asked for where its spelling is something else,
    /// since references stand for white space too.
    pub fn is_white(&self, alloc: Global) -> Result<bool, NoMemory>
        ensures { IfOk result (λ white. white ≡ is_white_meant self.now) }
    {
        if is_white_text(self.spelling) {
            return Ok(true);
        }
        let mut text = Vec::with_capacity(alloc, self.spelling.len())?;
        self.append_to(&mut text)?;
        Ok(is_white_text(&text))
    }

    /// Appends what the text stands for: references replaced in a run, each line end LF. After an
    /// error `out` has a part of it.
    pub fn append_to(&self, out: &mut Vec<u8>) -> Result<(), NoMemory>
        ensures { OnOk result (out.new.items ≡ out.old.items ++ self.now) }
    {
        if self.is_cdata {
            return append_lines(out, self.spelling);
        }
        match append_run(out, self.spelling) {
            Ok(()) => Ok(()),
            Err(RefError::NoMemory) => Err(NoMemory),
            Err(RefError::At(_)) => unreachable!(),
        }
    }

    /// What the text stands for, in memory of its own.
    fn to_text(self, alloc: Global) -> Result<Text, NoMemory>
        ensures { IfOk result (λ text. text ≡ self.entry) }
    {
        let mut text = Vec::with_capacity(alloc, self.spelling.len())?;
        self.append_to(&mut text)?;
        Ok(Text::of_list(text))
    }
}
