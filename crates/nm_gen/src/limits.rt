// The limits of generated streams.

/// The most projects of a stream.
pub const MOST_PROJECTS: u32 = 2_000;
