// What the elements of a document tell.
use nm_statement::{Literal, Statement};

/// The two kinds of model.
#[derive(Clone, Copy, Drop, PartialEq, Eq)]
pub enum Kind {
    Full,
    Difference,
}

/// What statements are part of: a full model, or a section of a difference model.
#[derive(Clone, Copy, Drop, PartialEq, Eq)]
pub enum Part {
    Whole,
    Preconditions,
    Forward,
    Reverse,
}

/// The header properties with a literal that are kept.
#[derive(Clone, Copy, Drop, PartialEq, Eq)]
pub enum TextProperty {
    Created,
    ScenarioTime,
    Version,
    Description,
    Authority,
    Profile,
}

/// The header properties that name another model.
#[derive(Clone, Copy, Drop, PartialEq, Eq)]
pub enum LinkProperty {
    DependentOn,
    Supersedes,
}

/// What one element tells.
#[derive(Drop)]
pub enum Fact {
    /// The header names its model.
    Heads {
        kind: Kind,
        id: u128,
    },
    /// A header property gives a text.
    Tells {
        property: TextProperty,
        text: Literal,
    },
    /// A header property names another model.
    Links {
        property: LinkProperty,
        id: u128,
    },
    /// An object's element or a property states something.
    States {
        part: Part,
        statement: Statement,
    },
}
