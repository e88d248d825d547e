// Literals.
ghost use Rattle.nm_statement.specs.Literal.{is_literal};
ghost use Rattle.nm_statement.specs.Text.{literal_of};
ghost use Rattle.nm_statement.specs.TextError.{wants_memory};
ghost use Rattle.nm_terms.specs.Due.{IsDue};
ghost use Rattle.std.specs.Prelude.{◌≡◌, IfOk, IsTrue, true};

use crate::error::TextError;
use nm_ident::{NoMemory, Text};
use nm_text::is_text;
use std::alloc::Global;
use std::marker::Model;

/// The longest literal, in bytes.
pub const LONGEST_LITERAL: usize = 65_536;

/// A text that a statement gives as a value: UTF-8 of XML characters, at most 65,536 bytes.
#[derive(Debug, Drop, PartialEq, Eq, PartialOrd, Ord)]
pub struct Literal {
    text: Text,
}

impl Model for Literal {
    ghost use Rattle.std.specs.Prelude.{ℕ, List, IsTrue};
    ghost use Rattle.nm_statement.specs.Literal.{is_literal};

    ghost Value = { List ℕ };

    ghost view = { λ literal. literal.text };

    ghost invariant = { λ literal. IsTrue (is_literal literal.text) };

    ghost inverse = { λ text. record { text = text } };
}

impl Literal {
    /// The literal with these bytes.
    ///
    /// `Bad` where they are not UTF-8 of XML characters (XML 1.0, section 2.2), and `Long` where
    /// they are such and more than 65,536.
    pub fn new(alloc: Global, bytes: &[u8]) -> Result<Literal, TextError>
        ensures { IsDue wants_memory result (literal_of bytes.now) }
    {
        if !is_text(bytes) {
            return Err(TextError::Bad);
        }
        if bytes.len() > LONGEST_LITERAL {
            return Err(TextError::Long);
        }
        Ok(Literal {
            text: Text::of_slice(alloc, bytes)?,
        })
    }

    /// The literal of a text that is known to be one. Nothing is copied.
    pub fn of_text(text: Text) -> Literal
        requires { is_literal text ≡ true }
        ensures { result ≡ text }
    {
        Literal { text }
    }

    /// Whether [`Literal::new`] takes the bytes.
    pub fn accepts(bytes: &[u8]) -> bool
        ensures { result ≡ is_literal bytes.now }
    {
        is_text(bytes) && bytes.len() <= LONGEST_LITERAL
    }

    /// The bytes.
    pub fn as_slice(&self) -> &[u8]
        ensures bytes { result.now ≡ self.now }
        ensures sound { IsTrue (is_literal self.now) }
    {
        self.text.as_slice()
    }

    /// The same literal in memory of its own.
    pub fn copy(&self, alloc: Global) -> Result<Literal, NoMemory>
        ensures { IfOk result (λ literal. literal ≡ self.now) }
    {
        Ok(Literal {
            text: self.text.copy(alloc)?,
        })
    }
}
