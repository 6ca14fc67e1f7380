//! Reads and writes of a stream of the system. One that a signal interrupted is tried again.

ghost use Rattle.std.specs.Prelude.{◌<◌, None, length};
ghost use Rattle.http_wire.specs.Sink.{TakesSome};
ghost use Rattle.http_wire.specs.Source.{GivesBytes};
ghost use Rattle.dbgd_edges.specs.Numbers.{ArePinnedConnLimits, ArePinnedSignals};

use crate::stream_fault::{Lateness, read_answer, write_answer};
use http_wire::{ReadAnswer, WriteAnswer};
use std::io::{self, Read, Write};
use std::net::OpenStream;
use std::time::Duration;

/// How often a read or a write is tried that signals interrupt.
pub const SIGNAL_TRIES: u32 = 1000;

/// Milliseconds that a read waits for a byte of a connection that may wait in the lobby.
pub const MOMENT_MILLIS: u64 = 2;

/// Seconds that a write waits until a byte is taken. Then it fails.
pub const WRITE_SECS: u64 = 30;

/// Gives a stream its time limits, in seconds, and has small writes sent at once.
pub fn make_ready<S: OpenStream>(stream: &S, read_secs: u64, write_secs: u64) -> io::Result<()> {
    stream.set_nodelay(true)?;
    stream.set_read_timeout(Some(Duration::from_secs(read_secs)))?;
    stream.set_write_timeout(Some(Duration::from_secs(write_secs)))
}

/// Gives a stream that was accepted its time limits, by which a read waits for a moment, and has small
/// writes sent at once.
pub fn make_waiting<S: OpenStream>(stream: &S) -> io::Result<()>
    ensures { ArePinnedConnLimits }
{
    stream.set_nodelay(true)?;
    stream.set_read_timeout(Some(Duration::from_millis(MOMENT_MILLIS)))?;
    stream.set_write_timeout(Some(Duration::from_secs(WRITE_SECS)))
}

/// Reads some bytes.
pub fn read_some<S: Read>(stream: &mut S, room: &mut [u8], late: Lateness) -> ReadAnswer
    requires { 0 < length room.old }
    ensures gives { GivesBytes room.new None None result }
    ensures tries { ArePinnedSignals }
{
    for _ in 0..SIGNAL_TRIES {
        if let Some(answer) = read_answer(stream.read(room), late) {
            return answer;
        }
    }
    ReadAnswer::Failed
}

/// Writes some bytes.
pub fn write_some<S: Write>(stream: &mut S, bytes: &[u8]) -> WriteAnswer
    ensures takes { TakesSome bytes.now result }
    ensures tries { ArePinnedSignals }
{
    for _ in 0..SIGNAL_TRIES {
        if let Some(answer) = write_answer(stream.write(bytes)) {
            return answer;
        }
    }
    WriteAnswer::Failed
}
