// Tokens: pieces where they stand in the input. Nothing of them is copied.

use std::marker::Model;

/// A name with its prefix, as it stands in a tag (Namespaces in XML, section 4).
#[derive(Clone, Copy, Debug, Drop, PartialEq, Eq)]
pub struct RawName<'a> {
    /// The prefix, where there is one.
    pub prefix: Option<&'a [u8]>,
    /// The name behind the prefix and its `:`.
    pub local: &'a [u8],
}

/// The value of an attribute, as it is spelt between its quotes.
///
/// Clauses see the value that it stands for.
#[derive(Debug, Drop)]
pub struct RawValue<'a> {
    pub(crate) spelling: &'a [u8],
}

impl<'a> Model for RawValue<'a> {
    ghost use Rattle.std.specs.Prelude.{◌≡◌, ℕ, List, true, is_some};
    ghost use Rattle.nm_text.specs.Meaning.{attribute_value};
    ghost use Rattle.nm_piece.specs.Meant.{or_empty};

    ghost Value = { List ℕ };

    ghost view = { λ value. or_empty (attribute_value value.spelling.now) };

    ghost invariant = { λ value. is_some (attribute_value value.spelling.now) ≡ true };
}

/// An attribute, as it stands in a tag.
#[derive(Debug, Drop)]
pub struct RawAttribute<'a> {
    /// The name.
    pub name: RawName<'a>,
    /// The value.
    pub value: RawValue<'a>,
}

/// The attributes of a start tag that have not been taken yet, by
/// [`next_attribute`](RawAttributes::next_attribute).
///
/// Clauses see the list of them.
#[derive(Debug, Drop)]
pub struct RawAttributes<'a> {
    // From the first of them on, or from the end of the tag; what stands behind the tag too.
    pub(crate) bytes: &'a [u8],
}

impl<'a> Model for RawAttributes<'a> {
    ghost use Rattle.std.specs.Prelude.{◌≡◌, List, true};
    ghost use Rattle.nm_piece.specs.declared.piece.Attribute.{Attribute};
    ghost use Rattle.nm_piece.specs.Meant.{attributes_in, is_read};
    ghost use Rattle.nm_piece.specs.Tag.{inside_at};

    ghost Value = { List Attribute };

    ghost view = { λ attributes. attributes_in attributes.bytes.now };

    ghost invariant = { λ attributes. is_read (inside_at attributes.bytes.now) ≡ true };
}

/// A run of text or a CDATA section, as it is spelt.
///
/// Clauses see the text that it stands for.
#[derive(Debug, Drop)]
pub struct RawText<'a> {
    pub(crate) spelling: &'a [u8],
    pub(crate) is_cdata: bool,
}

impl<'a> Model for RawText<'a> {
    ghost use Rattle.std.specs.Prelude.{◌≡◌, ℕ, List, true, is_some};
    ghost use Rattle.nm_piece.specs.Meant.{or_empty, text_meant};

    ghost Value = { List ℕ };

    ghost view = { λ text. or_empty (text_meant text.is_cdata text.spelling.now) };

    ghost invariant = { λ text. is_some (text_meant text.is_cdata text.spelling.now) ≡ true };
}

/// A piece of a document, as it stands in the input.
#[derive(Debug, Drop)]
pub enum Token<'a> {
    /// The XML declaration (XML 1.0, section 2.8).
    Start {
        /// The encoding that it names, as it is written.
        encoding: Option<&'a [u8]>,
    },
    /// The beginning of a document type declaration, `<!DOCTYPE`.
    Doctype,
    /// A start tag, or the tag of an empty element (XML 1.0, section 3.1).
    Open {
        /// The element's name.
        name: RawName<'a>,
        /// The attributes.
        attributes: RawAttributes<'a>,
        /// Whether the tag ends in `/>`.
        empty: bool,
    },
    /// An end tag.
    Close {
        /// The element's name.
        name: RawName<'a>,
    },
    /// A run of text or a CDATA section.
    Text(RawText<'a>),
    /// A comment or a processing instruction.
    Skip,
}
