// The limits of a store.

/// The most live steps.
pub const MOST_STEPS: usize = 4_096;

/// The most accepted commands.
pub const MOST_COMMITS: u32 = 65_536;

/// The most bytes of documents over the base and the accepted commands.
pub const LARGEST_STORE: u64 = 268_435_456;
