//! A connection in memory.

ghost use Rattle.std.specs.Prelude.{◌≡◌, ◌<◌, ◌≤◌, [], Some, All, length, take};
ghost use Rattle.std.specs.Option.{option_copied};
ghost use Rattle.row_types.specs.Faults.{raised};
ghost use Rattle.http_wire.specs.Calls.{gave, one_call};
ghost use Rattle.http_wire.specs.MemConn.{after_read, next_count, next_read, shown_conn, taken};
ghost use Rattle.http_wire.specs.MemSink.{next_answer, next_faults};
ghost use Rattle.http_wire.specs.Sink.{WritesStream};
ghost use Rattle.http_wire.specs.Source.{ReadsStream, bytes_given};
ghost use Rattle.http_wire.specs.Told.{Gains};

use crate::mem_calls::{MemCall, MemCalls};
use crate::mem_sink::MemSink;
use crate::sink::{Sink, WriteAnswer};
use crate::source::{ReadAnswer, Source};
use crate::stream::Stream;
use row_types::Faults;
use std::alloc::Global;
use std::marker::Model;

/// A connection in memory: bytes to read, and a sink in memory. Reads and writes are numbered from
/// 0, each for itself. A read whose number is listed fails; another gives as many bytes as fit, but
/// no more than the cut of its number where there is one. Where memory for a call is refused, its calls
/// aren't told from then on.
#[derive(Drop)]
pub struct MemConn {
    input: Vec<u8>,
    at: usize,
    cuts: Vec<usize>,
    bad_reads: Vec<u64>,
    reads: u64,
    faults: Faults,
    sink: MemSink,
    calls: MemCalls,
}

impl Model for MemConn {
    ghost use Rattle.std.specs.Prelude.{◌<◌, ◌≤◌, All, drop, length};
    ghost use Rattle.http_wire.specs.MemConn.{ConnFacts};

    ghost Value = { ConnFacts };

    ghost view = { λ c. record {
      left = drop c.at c.input.items;
      cuts = c.cuts.items;
      bad_reads = c.bad_reads.items;
      reads = c.reads;
      read_faults = c.faults;
      sink = c.sink;
      calls = c.calls;
    } };

    ghost invariant = { λ c. (c.at ≤ length c.input.items) × All (λ n. 0 < n) c.cuts.items };
}

impl MemConn {
    /// A connection that gives the input in these cuts, and fails at these reads and writes.
    pub fn new(
        alloc: Global,
        input: Vec<u8>,
        cuts: Vec<usize>,
        bad_reads: Vec<u64>,
        bad_writes: Vec<u64>,
    ) -> MemConn
        requires { All (λ n. 0 < n) cuts.items }
        ensures { result ≡ record {
          left = input.items;
          cuts = cuts.items;
          bad_reads = bad_reads.items;
          reads = 0;
          read_faults = 0;
          sink = record {
            written = Some [];
            bad_writes = bad_writes.items;
            writes = 0;
            faults = 0;
            calls = Some [];
          };
          calls = Some [];
        } }
    {
        MemConn {
            input,
            at: 0,
            cuts,
            bad_reads,
            reads: 0,
            faults: Faults::new(),
            sink: MemSink::new(alloc, bad_writes),
            calls: MemCalls::new(alloc),
        }
    }

    /// The bytes that were written, where they are told.
    pub fn written(&self) -> Option<&[u8]>
        ensures { option_copied result ≡ self.now.sink.written }
    {
        self.sink.written()
    }

    /// The calls that gave or took bytes, in order, where they are told.
    pub fn calls(&self) -> Option<&[MemCall]>
        ensures { option_copied result ≡ self.now.calls }
    {
        self.calls.told()
    }

    // How many bytes the next read gives, where it doesn't fail.
    fn next_count(&self, room: usize) -> usize
        ensures { result ≡ next_count self.now room }
    {
        let left = self.input.len() - self.at;
        let fits = room.min(left);
        match self.cuts.get(self.reads as usize) {
            Some(cut) => fits.min(*cut),
            None => fits,
        }
    }

    // The next read.
    fn give(&mut self, room: &mut [u8]) -> ReadAnswer
        ensures exact { result ≡ next_read self.old (length room.old) }
        ensures state { self.new ≡ record (after_read self.old (length room.old)) { calls = self.new.calls } }
        ensures told { Gains self.old.calls (one_call gave (bytes_given room.new result)) self.new.calls }
        ensures came { let n = taken self.old (length room.old) in
            take n room.new ≡ take n self.old.left }
        ensures cuts { All (λ n. 0 < n) self.old.cuts }
        ensures later { self.old.read_faults ≤ self.new.read_faults }
    {
        let fails = self.bad_reads.contains(&self.reads);
        let count = self.next_count(room.len());
        self.reads = self.reads.saturating_add(1);
        if fails {
            self.faults.raise();
            return ReadAnswer::Failed;
        }
        if count == 0 {
            return ReadAnswer::End;
        }
        room[..count].copy_from_slice(&self.input[self.at..self.at + count]);
        self.at += count;
        self.calls.gave(&room[..count]);
        ReadAnswer::Bytes(count)
    }
}

impl Stream for MemConn {
    ghost use Rattle.http_wire.specs.MemConn.{shown_conn};

    ghost shows = { shown_conn };
}

impl Source for MemConn {
    fn read(&mut self, room: &mut [u8]) -> ReadAnswer
        requires { 0 < length room.old }
        ensures reads { ReadsStream room.new (shown_conn self.old) (shown_conn self.new) result }
        ensures exact { result ≡ next_read self.old (length room.old) }
        ensures state { self.new ≡ record (after_read self.old (length room.old)) { calls = self.new.calls } }
    {
        self.give(room)
    }
}

impl Sink for MemConn {
    fn write(&mut self, bytes: &[u8]) -> WriteAnswer
        requires { 0 < length bytes.now }
        ensures writes { WritesStream bytes.now (shown_conn self.old) (shown_conn self.new) result }
        ensures exact { result ≡ next_answer self.old.sink bytes.now }
        ensures count { self.new.sink.faults ≡ next_faults self.old.sink }
        ensures number { self.new.sink.writes ≡ raised self.old.sink.writes }
        ensures bad { self.new.sink.bad_writes ≡ self.old.sink.bad_writes }
        ensures kept { result ≡ WriteAnswer.Failed
            → self.new.sink.written ≡ self.old.sink.written }
        ensures same { self.new ≡ record self.old { sink = self.new.sink; calls = self.new.calls } }
    {
        match self.sink.write(bytes) {
            WriteAnswer::Took(n) => {
                self.calls.took(&bytes[..n]);
                WriteAnswer::Took(n)
            }
            WriteAnswer::Failed => WriteAnswer::Failed,
        }
    }
}
