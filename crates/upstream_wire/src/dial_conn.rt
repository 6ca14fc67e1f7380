//! A connection of a dial in memory.

ghost use Rattle.std.specs.Prelude.{◌≡◌, ◌<◌, length};
ghost use Rattle.std.specs.Option.{option_copied};
ghost use Rattle.http_wire.specs.Sink.{WritesStream};
ghost use Rattle.http_wire.specs.Source.{ReadsStream};
ghost use Rattle.upstream_wire.specs.MemDial.{fresh_conn, shown_dialled};

use http_wire::{MemCall, MemConn, ReadAnswer, Sink, Source, Stream, WriteAnswer};
use row_types::Faults;
use std::marker::Model;

/// A connection in memory that counts its failed reads and writes from where it was given, so that its
/// dial can add them. Contracts see it as the connection in it, and the two counts.
#[derive(Drop)]
pub struct DialConn {
    conn: MemConn,
    reads: Faults,
    writes: Faults,
}

impl Model for DialConn {
    ghost use Rattle.upstream_wire.specs.MemDial.{DialConnFacts};

    ghost Value = { DialConnFacts };

    ghost view = { λ c. record { conn = c.conn; reads = c.reads; writes = c.writes } };
}

impl DialConn {
    /// A connection of which no read or write has failed yet.
    pub(crate) fn new(conn: MemConn) -> DialConn
        ensures { result ≡ fresh_conn conn }
    {
        DialConn {
            conn,
            reads: Faults::new(),
            writes: Faults::new(),
        }
    }

    /// The bytes that were written, where they are told.
    pub fn written(&self) -> Option<&[u8]>
        ensures { option_copied result ≡ self.now.conn.sink.written }
    {
        self.conn.written()
    }

    /// The calls that gave or took bytes, in order, where they are told.
    pub fn calls(&self) -> Option<&[MemCall]>
        ensures { option_copied result ≡ self.now.conn.calls }
    {
        self.conn.calls()
    }

    /// How many reads have failed.
    pub(crate) fn failed_reads(&self) -> Faults
        ensures { result ≡ self.now.reads }
    {
        self.reads
    }

    /// How many writes have failed.
    pub(crate) fn failed_writes(&self) -> Faults
        ensures { result ≡ self.now.writes }
    {
        self.writes
    }
}

impl Stream for DialConn {
    ghost use Rattle.upstream_wire.specs.MemDial.{shown_dialled};

    ghost shows = { shown_dialled };
}

impl Source for DialConn {
    fn read(&mut self, room: &mut [u8]) -> ReadAnswer
        requires { 0 < length room.old }
        ensures reads { ReadsStream room.new (shown_dialled self.old) (shown_dialled self.new) result }
    {
        match self.conn.read(room) {
            ReadAnswer::Bytes(n) => ReadAnswer::Bytes(n),
            ReadAnswer::End => ReadAnswer::End,
            ReadAnswer::Failed => {
                self.reads.raise();
                ReadAnswer::Failed
            }
        }
    }
}

impl Sink for DialConn {
    fn write(&mut self, bytes: &[u8]) -> WriteAnswer
        requires { 0 < length bytes.now }
        ensures writes { WritesStream bytes.now (shown_dialled self.old) (shown_dialled self.new) result }
    {
        match self.conn.write(bytes) {
            WriteAnswer::Took(n) => WriteAnswer::Took(n),
            WriteAnswer::Failed => {
                self.writes.raise();
                WriteAnswer::Failed
            }
        }
    }
}
