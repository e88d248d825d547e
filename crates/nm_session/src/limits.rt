// The limits of a session.

/// The most bytes of a command line before its line feed.
pub const LONGEST_LINE: u64 = 256;

/// The most bytes that a session takes as lines and documents.
pub const LONGEST_SESSION: u64 = 4_294_967_296;
