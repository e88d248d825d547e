// The limits of the service.

/// The largest number of a port of TCP.
pub const LARGEST_PORT: u64 = 65_535;

/// The most workers, each of which serves one connection after another.
pub const MOST_WORKERS: u64 = 32;

/// The most connections that a worker serves.
pub const MOST_CONNECTIONS: u64 = 1_000_000;
