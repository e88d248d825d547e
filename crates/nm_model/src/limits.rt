// The limits of documents.

/// The longest document, in bytes.
pub const LONGEST_DOCUMENT: usize = 67_108_864;

/// The most statements of a full model.
pub const MOST_STATEMENTS: usize = 1_048_576;

/// The most statements of a difference model's sections together.
pub const MOST_CHANGES: usize = 65_536;

/// The most profiles that a header states.
pub const MOST_PROFILES: usize = 64;

/// The most models that a header depends on.
pub const MOST_DEPENDENCIES: usize = 64;

/// The most models that a header supersedes.
pub const MOST_SUPERSEDED: usize = 4_160;
