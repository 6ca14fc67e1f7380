//! A sink that keeps what is written.

ghost use Rattle.std.specs.Prelude.{◌≡◌, ◌<◌, [], Some, length};
ghost use Rattle.std.specs.Option.{option_copied};
ghost use Rattle.row_types.specs.Faults.{raised};
ghost use Rattle.http_wire.specs.MemSink.{next_answer, next_faults, shown_sink};
ghost use Rattle.http_wire.specs.Sink.{WritesStream};

use crate::mem_calls::{MemCall, MemCalls};
use crate::sink::{Sink, WriteAnswer};
use crate::stream::Stream;
use row_types::Faults;
use std::alloc::Global;
use std::marker::Model;

/// A sink in memory that fails at listed writes and takes each other piece whole. Writes are
/// numbered from 0. Where memory for a piece is refused, what was written isn't told from then on, and
/// where memory for a call is, the calls aren't.
#[derive(Drop)]
pub struct MemSink {
    written: Option<Vec<u8>>,
    bad_writes: Vec<u64>,
    writes: u64,
    faults: Faults,
    calls: MemCalls,
}

impl Model for MemSink {
    ghost use Rattle.std.specs.Option.{option_map};
    ghost use Rattle.http_wire.specs.MemSink.{SinkFacts};

    ghost Value = { SinkFacts };

    ghost view = { λ s. record {
      written = option_map (λ v. v.items) s.written;
      bad_writes = s.bad_writes.items;
      writes = s.writes;
      faults = s.faults;
      calls = s.calls;
    } };
}

impl MemSink {
    /// An empty sink that fails at these writes.
    pub fn new(alloc: Global, bad_writes: Vec<u64>) -> MemSink
        ensures { result ≡ record {
          written = Some [];
          bad_writes = bad_writes.items;
          writes = 0;
          faults = 0;
          calls = Some [];
        } }
    {
        MemSink {
            written: Some(Vec::new(alloc)),
            bad_writes,
            writes: 0,
            faults: Faults::new(),
            calls: MemCalls::new(alloc),
        }
    }

    /// The bytes that were written, where they are told.
    pub fn written(&self) -> Option<&[u8]>
        ensures { option_copied result ≡ self.now.written }
    {
        self.written.as_ref().map(|bytes| bytes.as_slice())
    }

    /// The calls that took bytes, in order, where they are told.
    pub fn calls(&self) -> Option<&[MemCall]>
        ensures { option_copied result ≡ self.now.calls }
    {
        self.calls.told()
    }
}

impl Stream for MemSink {
    ghost use Rattle.http_wire.specs.MemSink.{shown_sink};

    ghost shows = { shown_sink };
}

impl Sink for MemSink {
    fn write(&mut self, bytes: &[u8]) -> WriteAnswer
        requires { 0 < length bytes.now }
        ensures writes { WritesStream bytes.now (shown_sink self.old) (shown_sink self.new) result }
        ensures exact { result ≡ next_answer self.old bytes.now }
        ensures count { self.new.faults ≡ next_faults self.old }
        ensures number { self.new.writes ≡ raised self.old.writes }
        ensures bad { self.new.bad_writes ≡ self.old.bad_writes }
        ensures kept { result ≡ WriteAnswer.Failed → self.new.written ≡ self.old.written }
    {
        let fails = self.bad_writes.contains(&self.writes);
        self.writes = self.writes.saturating_add(1);
        if fails {
            self.faults.raise();
            return WriteAnswer::Failed;
        }
        if let Some(written) = &mut self.written
            && written.extend_from_slice(bytes).is_err()
        {
            self.written = None;
        }
        self.calls.took(bytes);
        WriteAnswer::Took(bytes.len())
    }
}
