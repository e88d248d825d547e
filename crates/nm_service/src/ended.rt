// How a connection ends.

/// How a connection ends.
#[derive(Clone, Copy, Debug, PartialEq, Eq)]
pub enum Ended {
    /// The client sent no more, or a reply told that the connection closes.
    Closed,
    /// A request was refused with this status, 400, 411, 413, 431 or 501: what stands behind it can't
    /// be told apart.
    Refused(u16),
    /// Reading the link failed.
    ReadFault,
    /// Writing the link failed.
    WriteFault,
    /// There was no memory for a head, or for a reply.
    NoMemory,
}
