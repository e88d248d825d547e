// Why a document is refused.
ghost use Rattle.nm_reader.specs.Code.{code_number, code_text};
ghost use Rattle.std.specs.Prelude.{◌≡◌};

/// Where a document is at fault, and why.
#[derive(Debug, Clone, Copy, Drop, PartialEq, Eq)]
pub struct Fault {
    /// The offset of the piece at fault from the first byte of the document.
    pub at: u64,
    /// The rule that the piece breaks.
    pub code: Code,
}

/// The kinds of fault. Their numbers stay the same from version to version.
#[derive(Debug, Clone, Copy, Drop, PartialEq, Eq)]
pub enum Code {
    /// Bytes with which no piece of a document begins.
    Piece = 1,
    /// A document type declaration.
    Doctype = 2,
    /// An encoding other than UTF-8.
    Encoding = 3,
    /// A closing tag of another element, or an element inside a property.
    Nesting = 4,
    /// A prefix that is not declared, or a declaration that is not allowed.
    Prefix = 5,
    /// An element without a namespace, or with one that is not kept.
    Namespace = 6,
    /// An attribute that stands twice, or that its element may not have.
    Attribute = 7,
    /// An identifier or a reference that is none.
    Identifier = 8,
    /// Text where none may stand.
    Text = 9,
    /// No header where it has to stand, or one that cannot be read.
    Header = 10,
    /// An element that may not stand in its place, or a late XML declaration.
    Stray = 11,
    /// More than is kept.
    Limit = 12,
    /// The input ends inside the document.
    Cut = 13,
}

impl Code {
    /// The name of the code in lower case, as `piece` or `doctype`.
    pub fn text(self) -> &'static [u8]
        ensures { result.now ≡ code_text self }
    {
        match self {
            Code::Piece => b"piece",
            Code::Doctype => b"doctype",
            Code::Encoding => b"encoding",
            Code::Nesting => b"nesting",
            Code::Prefix => b"prefix",
            Code::Namespace => b"namespace",
            Code::Attribute => b"attribute",
            Code::Identifier => b"identifier",
            Code::Text => b"text",
            Code::Header => b"header",
            Code::Stray => b"stray",
            Code::Limit => b"limit",
            Code::Cut => b"cut",
        }
    }

    /// The number of the code, from 1 for [`Code::Piece`] to 13 for [`Code::Cut`].
    pub fn number(self) -> u8
        ensures { result ≡ code_number self }
    {
        self as u8
    }
}
