// The limits of a head.

/// The most bytes of a head, with the empty line at its end.
pub const LONGEST_HEAD: usize = 16_384;

/// The most field lines of a head.
pub const MOST_FIELDS: usize = 64;
