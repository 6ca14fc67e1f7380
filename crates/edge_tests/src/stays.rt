//! One stay of a connection with a worker.

use http_wire::{Door, DoorAnswer, ReadAnswer, Sink, Source, write_all};
use std::io::{Read, Write};
use std::net::TcpStream;
use std::process::Abort;
use std::sync::Wait;

/// A head of 18 bytes.
pub static HEAD: &[u8] = b"GET / HTTP/1.1\r\n\r\n";

/// What the answer of a door, or of a read that failed, counts as.
pub const CLOSED: u64 = 1_000_000_001;

pub const FAILED: u64 = 1_000_000_002;

/// The lengths of what the reads of one connection give, one behind the other in three digits each. Each
/// is answered by "pong".
fn reads_of<C: Source + Sink>(conn: &mut C) -> u64 {
    let mut room = [0; 16_384];
    let mut lengths: u64 = 0;
    for _ in 0..4u32 {
        match conn.read(&mut room) {
            ReadAnswer::Bytes(n) => {
                lengths = lengths.saturating_mul(1000).saturating_add(n as u64);
                let _ = write_all(conn, b"pong");
            }
            ReadAnswer::End => return lengths,
            ReadAnswer::Failed => return FAILED,
        }
    }
    lengths
}

/// The next stay at a door: the lengths of what its reads give.
pub fn stay<D: Door, Rt: Wait + Sync>(rt: &Rt, door: &mut D) -> u64 {
    match door.accept(rt) {
        DoorAnswer::Came(conn) => {
            let mut conn = conn;
            let lengths = reads_of(&mut conn);
            door.ended(conn);
            lengths
        }
        DoorAnswer::Closed => CLOSED,
        DoorAnswer::Failed => FAILED,
    }
}

/// Sends bytes.
pub fn send(rt: &impl Abort, client: &mut TcpStream, bytes: &[u8]) {
    client.write_all(bytes).expect(rt, "a write");
}

/// Whether the next bytes that come to a client are these.
pub fn gets(client: &mut TcpStream, bytes: &[u8]) -> bool {
    let mut room = [0; 64];
    let Some(front) = room.get_mut(..bytes.len()) else {
        return false;
    };
    client.read_exact(&mut *front).is_ok() && *front == *bytes
}

/// Whether a client has its end.
pub fn has_end(client: &mut TcpStream) -> bool {
    matches!(client.read(&mut [0; 8]), Ok(0))
}
