//! Small writes that are held back.

use crate::sockets::{bound_open, client_of, door_over, usual};
use crate::stays::{HEAD, gets, has_end, send};
use http_wire::{Door, DoorAnswer, ReadAnswer, Sink, Source, write_all};
use std::alloc::Global;
use std::io::Read;
use std::net::TcpStream;
use std::process::Abort;
use std::sync::Wait;
use std::thread;
use std::time::{Clock, Duration};

/// Lengths of writes, which are made in each order.
static LENGTHS: [usize; 5] = [1, 1023, 1024, 1025, 65_536];

/// So many bytes as all of the writes have.
const ALL: usize = 68_609;

/// Bytes of which none is as the one before it.
fn pattern(rt: &impl Abort, alloc: Global) -> Vec<u8> {
    let mut bytes = vec![in alloc; 0u8; ALL].expect(rt, "memory");
    let mut next: u8 = 0;
    for byte in bytes.iter_mut() {
        *byte = next;
        next = if next == 250 {
            0
        } else {
            next.saturating_add(1)
        };
    }
    bytes
}

/// The order of this number, of 120: the place of each length.
fn order_of(number: usize) -> [usize; 5] {
    let mut order = [0, 1, 2, 3, 4];
    let mut rest = number;
    for (at, left) in [(0usize, 5usize), (1, 4), (2, 3), (3, 2)] {
        let with = at + rest % left;
        rest /= left;
        order.swap(at, with);
    }
    order
}

/// Writes the bytes in pieces, in this order of lengths.
fn write_in_order<C: Sink>(conn: &mut C, bytes: &[u8], number: usize) -> bool {
    let mut rest = bytes;
    for place in order_of(number) {
        let len = LENGTHS.get(place).copied().unwrap_or(0);
        let Some((piece, behind)) = rest.split_at_checked(len) else {
            return false;
        };
        if write_all(conn, piece).is_err() {
            return false;
        }
        rest = behind;
    }
    rest.is_empty()
}

/// The next connection of a door that asks. Those of clients that have gone come between.
fn next_asking<D: Door, R: Wait + Sync>(rt: &R, door: &mut D) -> Option<D::Conn> {
    for _ in 0..4u32 {
        match door.accept(rt) {
            DoorAnswer::Came(conn) => {
                let mut conn = conn;
                if matches!(conn.read(&mut [0; 64]), ReadAnswer::Bytes(18)) {
                    return Some(conn);
                }
                door.ended(conn);
            }
            _ => return None,
        }
    }
    None
}

/// Serves one connection of a door: the pieces in this order, which go by a read or by its end.
fn serve_pieces<D: Door, R: Wait + Sync>(
    rt: &R,
    door: &mut D,
    bytes: &[u8],
    number: usize,
) -> bool {
    let Some(conn) = next_asking(rt, door) else {
        return false;
    };
    let mut conn = conn;
    let is_written = write_in_order(&mut conn, bytes, number);
    if number % 2 == 0 {
        let _ = conn.read(&mut [0; 64]);
    }
    door.ended(conn);
    is_written
}

/// Whether so many bytes come to a client as are there, and they are these.
fn gets_all(client: &mut TcpStream, bytes: &[u8], room: &mut [u8]) -> bool {
    client.read_exact(&mut *room).is_ok() && *room == *bytes
}

#[test]
fn pieces_in_each_order_give_the_same_bytes(rt: HostRuntime) {
    let (listener, port) = bound_open(&rt);
    let mut door = door_over(&rt, &rt, listener, usual());
    let bytes = pattern(&rt, rt.alloc());
    let mut room = vec![in rt.alloc(); 0u8; ALL].expect(&rt, "memory");
    for number in 0..120usize {
        let mut client = client_of(&rt, port);
        send(&rt, &mut client, HEAD);
        assert!(rt;
            serve_pieces(&rt, &mut door, bytes.as_slice(), number),
            "order {number}"
        );
        let is_same = gets_all(&mut client, bytes.as_slice(), room.as_mut_slice());
        assert!(rt; is_same, "bytes of order {number}");
    }
}

/// Answers a head by a few bytes, which are held back, and ends the connection.
fn answer_and_end<D: Door, R: Wait + Sync>(rt: &R, door: &mut D) -> bool {
    let Some(conn) = next_asking(rt, door) else {
        return false;
    };
    let mut conn = conn;
    let is_written = write_all(&mut conn, b"held").is_ok();
    door.ended(conn);
    is_written
}

#[test]
fn what_was_held_back_goes_by_the_end(rt: HostRuntime) {
    let (listener, port) = bound_open(&rt);
    let mut door = door_over(&rt, &rt, listener, usual());
    let mut client = client_of(&rt, port);
    send(&rt, &mut client, HEAD);
    assert!(rt; answer_and_end(&rt, &mut door), "its answer");
    assert!(rt; gets(&mut client, b"held"), "what was held back");
    assert!(rt; has_end(&mut client), "its end");
}

/// Serves a client that goes away: what is written at once is taken by the system, which has a reset
/// then; what is held back fails in the read behind it.
fn serve_gone<D: Door, R: Clock + Wait + Sync>(
    rt: &R,
    door: &mut D,
    client: TcpStream,
) -> &'static str {
    let Some(conn) = next_asking(rt, door) else {
        return "no connection";
    };
    let mut conn = conn;
    drop(client);
    let is_written = write_all(&mut conn, &[b'x'; 2000]).is_ok();
    thread::sleep(rt, Duration::from_millis(50));
    let is_held = write_all(&mut conn, b"held").is_ok();
    let last = conn.read(&mut [0; 64]);
    door.ended(conn);
    match last {
        ReadAnswer::Failed if is_written && is_held => "failed",
        ReadAnswer::Failed => "no write",
        ReadAnswer::End => "an end",
        ReadAnswer::Bytes(_) => "bytes",
    }
}

#[test]
fn a_send_that_fails_is_a_failed_read(rt: HostRuntime) {
    let (listener, port) = bound_open(&rt);
    let mut door = door_over(&rt, &rt, listener, usual());
    let mut client = client_of(&rt, port);
    send(&rt, &mut client, HEAD);
    let word = serve_gone(&rt, &mut door, client);
    assert!(rt; word == "failed", "{word}");
}
