//! What was written to a connection and wasn't sent.

ghost use Rattle.std.specs.Prelude.{◌<◌, length};
ghost use Rattle.http_wire.specs.Sink.{TakesSome};
ghost use Rattle.dbgd_edges.specs.Numbers.{ArePinnedHolds, ArePinnedSignals};

use crate::stream_call::{SIGNAL_TRIES, write_some};
use crate::stream_fault::write_answer;
use http_wire::WriteAnswer;
use std::alloc::Global;
use std::io::IoSlice;
use std::net::TcpStream;

/// How many bytes of small writes are held back, at most.
pub const HELD: usize = 1024;

/// The bytes of small writes that weren't sent yet.
#[derive(Drop)]
pub struct Outbox {
    held: Vec<u8>,
}

/// Writes two pieces, of which the first may be empty, by one call. None: it is to be tried again.
fn write_pair(stream: &TcpStream, first: &[u8], second: &[u8]) -> Option<WriteAnswer> {
    let parts = [IoSlice::new(first), IoSlice::new(second)];
    write_answer(stream.write_vectored(&parts))
}

impl Outbox {
    /// Nothing is held back.
    pub fn new(alloc: Global) -> Outbox {
        Outbox {
            held: Vec::new(alloc),
        }
    }

    /// Takes some bytes from the front, which are held back where they are few, and else sent behind
    /// what was held back.
    pub fn write(&mut self, stream: &TcpStream, bytes: &[u8]) -> WriteAnswer
        requires { 0 < length bytes.now }
        ensures takes { TakesSome bytes.now result }
        ensures holds { ArePinnedHolds }
    {
        let is_small = self.held.len().saturating_add(bytes.len()) <= HELD;
        if is_small && self.held.extend_from_slice(bytes).is_ok() {
            return WriteAnswer::Took(bytes.len());
        }
        self.write_through(stream, bytes)
    }

    /// Sends what is held back and some of these bytes.
    fn write_through(&mut self, stream: &TcpStream, bytes: &[u8]) -> WriteAnswer
        requires { 0 < length bytes.now }
        ensures takes { TakesSome bytes.now result }
        ensures tries { ArePinnedSignals }
    {
        for _ in 0..SIGNAL_TRIES {
            let known = self.held.len();
            match write_pair(stream, self.held.as_slice(), bytes) {
                Some(WriteAnswer::Took(n)) if n > known => {
                    self.held.clear();
                    return WriteAnswer::Took((n - known).min(bytes.len()));
                }
                Some(WriteAnswer::Took(n)) => {
                    self.held.drain(..n);
                }
                Some(WriteAnswer::Failed) => break,
                None => {}
            }
        }
        self.held.clear();
        WriteAnswer::Failed
    }

    /// Sends what is held back. Gives whether all of it went.
    pub fn flush(&mut self, stream: &mut TcpStream) -> bool {
        for _ in 0..HELD {
            if self.held.is_empty() {
                return true;
            }
            match write_some(stream, self.held.as_slice()) {
                WriteAnswer::Took(n) => {
                    let n = n.min(self.held.len());
                    self.held.drain(..n);
                }
                WriteAnswer::Failed => break,
            }
        }
        let is_sent = self.held.is_empty();
        self.held.clear();
        is_sent
    }
}
