//! The trait that stands for where connections come from.

ghost use Rattle.std.specs.Prelude.{◌≡◌};
ghost use Rattle.http_wire.specs.Door.{Accepts, ShownDoor, TakesConnectionBack, said_of};

use crate::sink::Sink;
use crate::source::Source;
use std::sync::Wait;

/// What an accept answers.
#[derive(Drop)]
pub enum DoorAnswer<C: Drop> {
    /// A connection came.
    Came(C),
    /// No connection comes any more.
    Closed,
    /// None came, and the door's count of faults rose.
    Failed,
}

/// What an accept answered, without the connection.
#[derive(Clone, Copy, PartialEq, Eq)]
pub enum DoorSaid {
    /// A connection came.
    Came,
    /// No connection comes any more.
    Closed,
    /// None came, and the door's count of faults rose.
    Failed,
}

impl<C: Drop> DoorAnswer<C> {
    /// The answer without its connection.
    pub fn said(&self) -> DoorSaid
        ensures { result ≡ said_of self.now }
    {
        match self {
            DoorAnswer::Came(_) => DoorSaid::Came,
            DoorAnswer::Closed => DoorSaid::Closed,
            DoorAnswer::Failed => DoorSaid::Failed,
        }
    }
}

/// Where connections come from: a listening socket, or a list in memory. Each object counts its own
/// faults.
pub trait Door: Send + Drop {
    /// A connection.
    type Conn: Source + Sink + Send + Drop;

    /// What it shows at a moment. Each door tells its last answer. Its count of faults never falls,
    /// and stands still at 2^64 - 1.
    ghost shows: { Self → ShownDoor };

    /// Waits for the next connection.
    fn accept<Rt: Wait + Sync>(&mut self, rt: &Rt) -> DoorAnswer<Self::Conn>
        ensures accepts { Accepts Self.Conn.shows (shows self.old) result (shows self.new) };

    /// Takes back a connection that came and was served.
    fn ended(&mut self, conn: Self::Conn)
        ensures takes_back { TakesConnectionBack (Self.Conn.shows conn) (shows self.old) (shows self.new) };
}
