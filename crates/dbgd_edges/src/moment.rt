//! Reads that wait for a moment.

ghost use Rattle.std.specs.Prelude.{◌≡◌, ◌<◌, ◌≤◌, length};
ghost use Rattle.dbgd_edges.specs.Wires.{GivesMoment};
ghost use Rattle.dbgd_edges.specs.Numbers.{ArePinnedSignals};

use crate::stream_call::SIGNAL_TRIES;
use crate::stream_fault::StreamFault;
use std::io::Read;

/// What a read of a moment gave.
#[derive(Clone, Copy, PartialEq, Eq)]
pub enum Moment {
    /// So many bytes, at least one.
    Bytes(usize),
    /// The end.
    End,
    /// Nothing came.
    Nothing,
    /// The stream is broken.
    Broken,
}

/// Reads once, and again where a signal came.
pub fn read_moment<S: Read>(stream: &mut S, room: &mut [u8]) -> Moment
    ensures gives { GivesMoment room.new 0 result }
    ensures length { length room.new ≡ length room.old }
    ensures tries { ArePinnedSignals }
{
    for _ in 0..SIGNAL_TRIES {
        match stream.read(room) {
            Ok(n) if n > 0 => return Moment::Bytes(n),
            Ok(_) => return Moment::End,
            Err(error) => match StreamFault::from(error) {
                StreamFault::Interrupted => {}
                StreamFault::Late => return Moment::Nothing,
                StreamFault::Broken => return Moment::Broken,
            },
        }
    }
    Moment::Broken
}

/// Reads behind what is known.
pub fn read_behind<S: Read>(stream: &mut S, room: &mut [u8], known: usize) -> Moment
    requires { known < length room.old }
    ensures gives { GivesMoment room.new known result }
    ensures length { length room.new ≡ length room.old }
{
    let (_, free) = room.split_at_mut(known);
    read_moment(stream, free)
}

/// Puts bytes in front of a room, as many as there is room for. Gives how many.
pub fn put_in_front(room: &mut [u8], bytes: &[u8]) -> usize
    ensures most { result ≤ length room.new }
    ensures known { result ≤ length bytes.now }
    ensures length { length room.new ≡ length room.old }
{
    let n = bytes.len().min(room.len());
    let (front, _) = room.split_at_mut(n);
    front.copy_from_slice(&bytes[..n]);
    n
}
