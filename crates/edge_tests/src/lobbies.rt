//! Connections that no worker holds: what a door gives of them, piece by piece.

use crate::sockets::{bound_open, client_of, door_over, usual};
use crate::stays::{HEAD, gets, has_end, send, stay};
use http_wire::{Door, DoorAnswer, ReadAnswer, Source};
use std::net::{Net, Shutdown, TcpListener, TcpStream};
use std::process::Abort;
use std::sync::Wait;

/// What a client sends, piece by piece, and what the stay behind each piece gives.
type Case = (&'static [(&'static [u8], u64)], bool);

/// Each case, and whether the connection has ended behind it. No head begins as TLS does.
static CASES: [Case; 8] = [
    (&[(b"GET / HTTP", 0), (b"/1.1\r\n\r\n", 18)], false),
    (
        &[(
            b"GET / HTTP/1.1\r\n\r\nGET / HTTP/1.1\r\n\r\nGET / HTTP/1.1\r\n\r\n",
            18_018_018,
        )],
        false,
    ),
    (
        &[
            (b"GET / HTTP/1.1\r\n\r\nGET /", 18),
            (b" HTTP/1.1\r\n\r\n", 18),
        ],
        false,
    ),
    (&[(b"GET / HTTP/1.1\r\n\r\nno\r\n", 18_004)], true),
    (&[(b"no\r\n", 4)], true),
    (&[(b"\x16\x03\x01\x02\x00", 5)], true),
    (&[(b"G", 0), (b"ET \x00", 5)], true),
    (&[(b"\r\n", 0), (b"GET / HTTP/1.1\n\n", 18)], false),
];

/// Sends the pieces of a case to a door, and compares what the stays give.
fn compare<D, R>(rt: &R, door: &mut D, client: &mut TcpStream, case: &Case)
where
    D: Door,
    R: Wait + Sync + Abort,
{
    let (pieces, is_over) = case;
    for (at, (piece, wanted)) in pieces.iter().enumerate() {
        send(rt, client, piece);
        let lengths = stay(rt, door);
        assert!(rt; lengths == *wanted, "{lengths} for {wanted} at piece {at}");
        let replies = if lengths == 0 {
            0
        } else if lengths < 1000 {
            1
        } else if lengths < 1_000_000 {
            2
        } else {
            3
        };
        for reply in 0..replies {
            assert!(rt; gets(client, b"pong"), "reply {reply} to piece {at}");
        }
    }
    if *is_over {
        assert!(rt; has_end(client), "the end");
    }
}

/// Lets a client of a new door send the pieces of a case, and, where it is idle behind them, a head in two.
fn try_case(
    rt: &HostRuntime,
    abort: &(impl Wait + Sync + Abort),
    listener: TcpListener,
    mut client: TcpStream,
    case: &Case,
) {
    let mut door = door_over(rt, abort, listener, usual());
    compare(abort, &mut door, &mut client, case);
    if !case.1 {
        compare(abort, &mut door, &mut client, &CASES[0]);
    }
    assert!(abort; door.count() == 0, "faults");
}

#[test]
fn a_read_gives_one_head_and_keeps_what_is_behind_it(rt: HostRuntime) {
    for case in &CASES {
        let (listener, port) = bound_open(&rt);
        try_case(&rt, &rt, listener, client_of(&rt, port), case);
    }
}

#[test]
fn a_head_may_come_byte_by_byte(rt: HostRuntime) {
    let (listener, port) = bound_open(&rt);
    let mut door = door_over(&rt, &rt, listener, usual());
    let mut client = client_of(&rt, port);
    for at in 0..HEAD.len() {
        send(&rt, &mut client, HEAD.get(at..at + 1).unwrap_or(b""));
        let wanted = if at + 1 == HEAD.len() { 18 } else { 0 };
        assert!(rt; stay(&rt, &mut door) == wanted, "byte {at}");
    }
    assert!(rt; gets(&mut client, b"pong"), "its reply");
}

/// How many heads a client sends, of which a read of 64 bytes takes three and a part.
const MANY: u64 = 1000;

/// How many heads the next stay at a door gives.
fn heads_of<D: Door, Rt: Wait + Sync>(rt: &Rt, door: &mut D) -> u64 {
    let DoorAnswer::Came(conn) = door.accept(rt) else {
        return 0;
    };
    let mut conn = conn;
    let mut count: u64 = 0;
    for _ in 0..MANY {
        if !matches!(conn.read(&mut [0; 64]), ReadAnswer::Bytes(18)) {
            break;
        }
        count = count.saturating_add(1);
    }
    door.ended(conn);
    count
}

#[test]
fn heads_that_one_read_does_not_take_are_all_given(rt: HostRuntime) {
    let (listener, port) = bound_open(&rt);
    let mut door = door_over(&rt, &rt, listener, usual());
    let mut client = client_of(&rt, port);
    for _ in 0..MANY {
        send(&rt, &mut client, HEAD);
    }
    let mut count: u64 = 0;
    for _ in 0..MANY {
        if count < MANY {
            count = count.saturating_add(heads_of(&rt, &mut door));
        }
    }
    assert!(rt; count == MANY, "{count} heads");
}

#[test]
fn a_half_closed_client_gets_its_reply(rt: HostRuntime) {
    let (listener, port) = bound_open(&rt);
    let mut door = door_over(&rt, &rt, listener, usual());
    let mut client = client_of(&rt, port);
    send(&rt, &mut client, HEAD);
    client.shutdown(Shutdown::Write).expect(&rt, "its end");
    assert!(rt; stay(&rt, &mut door) == 18, "the head");
    assert!(rt; gets(&mut client, b"pong"), "its reply");
    assert!(rt; stay(&rt, &mut door) == 0, "the end");
    assert!(rt; has_end(&mut client), "its end");
}

/// What a client sends that closes then, and how many stays it has.
static GONE: [(&[u8], u32); 3] = [(b"", 1), (b"GET /", 2), (b"GET / HTTP/1.1\r\n\r\n", 2)];

#[test]
fn a_client_that_closes_is_let_go(rt: HostRuntime) {
    let (listener, port) = bound_open(&rt);
    let mut door = door_over(&rt, &rt, listener, usual());
    for (bytes, stays) in &GONE {
        let mut client = client_of(&rt, port);
        send(&rt, &mut client, bytes);
        drop(client);
        for _ in 0..*stays {
            let _ = stay(&rt, &mut door);
        }
        let mut other = client_of(&rt, port);
        send(&rt, &mut other, HEAD);
        assert!(rt;
            stay(&rt, &mut door) == 18 && gets(&mut other, b"pong"),
            "another one"
        );
        drop(other);
        assert!(rt; stay(&rt, &mut door) == 0, "its end");
    }
    assert!(rt; door.count() == 0, "faults");
}
