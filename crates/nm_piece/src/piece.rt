// The pieces of a document, and what their tags hold.
ghost use Rattle.std.specs.Prelude.{◌≡◌};

use nm_ident::Text;
use std::marker::Model;

/// A name with its prefix, as it is written (Namespaces in XML, section 4).
#[derive(Debug, Drop, PartialEq, Eq)]
pub struct QName {
    /// The prefix, where there is one.
    pub prefix: Option<Text>,
    /// The name behind the prefix and its `:`.
    pub local: Text,
}

/// An attribute of a tag (XML 1.0, section 3.1).
#[derive(Debug, Drop, PartialEq, Eq)]
pub struct Attribute {
    /// The name.
    pub name: QName,
    /// What the value stands for: references replaced, each line end and tab a space (XML 1.0,
    /// section 3.3.3).
    pub value: Text,
}

/// The attributes of a tag, in the order in which they stand.
#[derive(Debug, Drop)]
pub struct Attributes {
    list: Vec<Attribute>,
}

impl Model for Attributes {
    ghost use Rattle.std.specs.Prelude.{List};
    ghost use Rattle.nm_piece.specs.declared.piece.Attribute.{Attribute};

    ghost Value = { List Attribute };

    ghost view = { λ attributes. attributes.list.items };
}

impl Attributes {
    /// The list of these attributes, kept as it is.
    pub fn of_list(list: Vec<Attribute>) -> Attributes
        ensures { result ≡ list.items }
    {
        Attributes { list }
    }

    /// The attributes.
    pub fn as_slice(&self) -> &[Attribute]
        ensures { result.now ≡ self.now }
    {
        &self.list
    }
}

/// A piece of a document.
#[derive(Debug, Drop)]
pub enum Piece {
    /// The XML declaration (XML 1.0, section 2.8).
    Start {
        /// The encoding that it names, as it is written.
        encoding: Option<Text>,
    },
    /// The beginning of a document type declaration, `<!DOCTYPE`.
    Doctype,
    /// A start tag, or the tag of an empty element (XML 1.0, section 3.1).
    Open {
        /// The element's name.
        name: QName,
        /// The attributes.
        attributes: Attributes,
        /// Whether the tag ends in `/>`.
        empty: bool,
    },
    /// An end tag.
    Close {
        /// The element's name.
        name: QName,
    },
    /// What a run of text or a CDATA section stands for, with each line end as LF (XML 1.0, section
    /// 2.11).
    Text(Text),
    /// A comment or a processing instruction.
    Skip,
}
