//! A connection that waits in the lobby while it is idle.

ghost use Rattle.std.specs.Prelude.{◌≡◌};

use crate::wire::Wire;
use http_wire::{ReadAnswer, Sink, Source, Stream, WriteAnswer};
use row_types::Faults;
use std::time::Clock;

/// A connection of the lobby. It doesn't tell its bytes, and counts its faults.
#[derive(Drop)]
pub struct LobbyConn<R: Drop> {
    wire: Wire<R>,
    read_faults: Faults,
    write_faults: Faults,
}

impl<R: Drop> LobbyConn<R> {
    /// A connection that hasn't failed.
    pub fn new(wire: Wire<R>) -> LobbyConn<R>
        ensures reads { result.read_faults ≡ 0 }
        ensures writes { result.write_faults ≡ 0 }
    {
        LobbyConn {
            wire,
            read_faults: Faults::new(),
            write_faults: Faults::new(),
        }
    }
}

impl<R: Clock + Drop> LobbyConn<R> {
    /// Ends the connection, or has it wait in the lobby.
    pub fn finish(self) {
        self.wire.finish();
    }
}

impl<R: Drop> Stream for LobbyConn<R> {
    ghost use Rattle.dbgd_edges.specs.Streams.{shown_untold};

    ghost shows = { λ c. shown_untold c.read_faults c.write_faults };
}

impl<R: Clock + Drop> Source for LobbyConn<R> {
    fn read(&mut self, room: &mut [u8]) -> ReadAnswer {
        let answer = self.wire.read(room);
        if answer == ReadAnswer::Failed {
            self.read_faults.raise();
        }
        answer
    }
}

impl<R: Clock + Drop> Sink for LobbyConn<R> {
    fn write(&mut self, bytes: &[u8]) -> WriteAnswer {
        let answer = self.wire.write(bytes);
        if answer == WriteAnswer::Failed {
            self.write_faults.raise();
        }
        answer
    }
}
