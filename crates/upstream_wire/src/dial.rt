//! The trait that stands for what connects to other servers.

ghost use Rattle.upstream_wire.specs.Dial.{Connects, ShownDial, TakesDialledBack, dialled};

use http_wire::{Sink, Source};
use std::alloc::Global;
use std::sync::Wait;

/// What a dial answers.
#[derive(Drop)]
pub enum DialAnswer<C: Drop> {
    /// A connection.
    Connected(C),
    /// None came, and the dial's count of faults rose.
    Failed,
    /// There was not enough memory, and nothing changed.
    OutOfMemory,
}

/// What connects to other servers: the system's sockets, or a list in memory. Each object counts its
/// own faults, and those of the connections that it takes back.
pub trait Dial: Drop {
    /// A connection.
    type Conn: Source + Sink + Drop;

    /// What it shows at a moment. Its count of faults never falls, and stands still at 2^64 - 1.
    ghost shows: { Self → ShownDial };

    /// Connects to a port of a host, which is written as in a URL.
    fn connect<Rt: Wait>(
        &mut self,
        rt: &Rt,
        alloc: Global,
        host: &str,
        port: u16,
    ) -> DialAnswer<Self::Conn>
        ensures connects { Connects (shows self.old) host.now port (dialled Self.Conn.shows result) (shows self.new) };

    /// Takes back a connection that was asked, and counts its failed reads and writes.
    fn ended(&mut self, conn: Self::Conn)
        ensures takes_back { TakesDialledBack (shows self.old) (Self.Conn.shows conn) (shows self.new) };
}
