//! Where bytes come from.

ghost use Rattle.std.specs.Prelude.{◌<◌, length};
ghost use Rattle.http_wire.specs.Source.{ReadsStream};

use crate::stream::Stream;

/// What a read answers.
#[derive(Clone, Copy, PartialEq, Eq)]
pub enum ReadAnswer {
    /// So many bytes came into the front of the room, at least one.
    Bytes(usize),
    /// None is left.
    End,
    /// None came.
    Failed,
}

/// Where bytes come from: a connection, or a list in memory.
pub trait Source: Stream {
    /// Reads some of the next bytes into the front of the room. What is behind them in the room
    /// is left open.
    fn read(&mut self, room: &mut [u8]) -> ReadAnswer
        requires { 0 < length room.old }
        ensures reads { ReadsStream room.new (Self.shows self.old) (Self.shows self.new) result };
}
