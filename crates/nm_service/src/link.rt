// Connections.
use nm_base::{Sink, Source};

/// A connection: what the client sends is a source, and what is sent to the client is a sink.
///
/// It has no call of its own. Beside it as a source lies what was written to it, and beside it as a
/// sink what it has left to read, each with the other side's count of faults. So whoever reads a link
/// knows that nothing was written by that, and whoever writes that nothing was read.
pub trait Link: Source + Sink {
    ghost use Rattle.nm_service.specs.Link.{LiesBeside};

    ghost beside_reads: { (link : Self) → LiesBeside (Self.Source.beside link) (Self.Sink.written link) (Self.Sink.faults link) };

    ghost beside_writes: { (link : Self) → LiesBeside (Self.Sink.beside link) (Self.Source.left link) (Self.Source.faults link) };
}
