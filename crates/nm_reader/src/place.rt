// The places of a document, and what an element is in its place (RDF/XML, section 7; IEC 61970-552).
use crate::fact::{Kind, LinkProperty, Part, TextProperty};
use nm_ident::{Ident, Name, Text};

/// What a literal is said of: the model, or a subject.
#[derive(Drop)]
pub enum Owner {
    OfModel {
        property: TextProperty,
    },
    OfSubject {
        part: Part,
        subject: Ident,
        predicate: Name,
    },
}

/// What may stand next, with what the element around it has told so far.
#[derive(Drop)]
pub enum Place {
    BeforeRoot,
    InRoot,
    InHeader { kind: Kind },
    /// Inside the root, behind the header of a full model.
    InBody,
    /// Inside the root, behind the header of a difference model.
    InRest,
    InSection { part: Part },
    InObject { part: Part, subject: Ident },
    /// Inside a property with a literal, of which the text has been read so far.
    InLiteral { owner: Owner, text: Text },
    /// Inside a property with `rdf:resource`.
    InLink,
    /// Inside a header property that is not kept.
    InSkipped,
    AfterRoot,
}

/// What an element is in its place.
#[derive(Clone, Copy, Drop)]
pub enum Role {
    RootElement,
    /// An empty `rdf:RDF`.
    EmptyRoot,
    ModelHeader { kind: Kind },
    HeaderText { property: TextProperty },
    HeaderLink { property: LinkProperty },
    OtherProperty,
    SectionElement { part: Part },
    ObjectElement { part: Part },
    PropertyElement,
    /// Another element where the header has to stand.
    NoHeader,
    /// An element that may not stand in its place.
    Stray,
    /// An element inside a property.
    Nested,
}
