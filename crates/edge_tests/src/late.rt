//! Connections that stand in a lobby too long.

use crate::sockets::{bound_open, client_of, door_over, usual};
use crate::stays::{HEAD, gets, has_end, send, stay};
use dbgd_edges::LobbyLimits;
use http_wire::Door;
use std::net::TcpStream;
use std::process::Abort;
use std::sync::Wait;
use std::thread;
use std::time::{Clock, Duration};

/// Limits in milliseconds.
fn short(idle_millis: u64, head_millis: u64) -> LobbyLimits {
    LobbyLimits {
        idle_millis,
        head_millis,
        ..usual()
    }
}

#[test]
fn half_a_head_is_given_to_its_reader_when_its_time_is_over(rt: HostRuntime) {
    let (listener, port) = bound_open(&rt);
    let mut door = door_over(&rt, &rt, listener, short(60_000, 100));
    let mut client = client_of(&rt, port);
    send(&rt, &mut client, b"GET /");
    assert!(rt; stay(&rt, &mut door) == 0, "no whole head");
    assert!(rt; stay(&rt, &mut door) == 5, "what came");
    assert!(rt; gets(&mut client, b"pong"), "its reply");
    assert!(rt; has_end(&mut client), "its end");
}

#[test]
fn one_that_says_nothing_is_closed(rt: HostRuntime) {
    let (listener, port) = bound_open(&rt);
    let mut door = door_over(&rt, &rt, listener, short(100, 1000));
    let mut silent = client_of(&rt, port);
    let mut client = client_of(&rt, port);
    send(&rt, &mut client, b"GET /");
    assert!(rt; stay(&rt, &mut door) == 0, "no whole head");
    assert!(rt;
        stay(&rt, &mut door) == 5,
        "the half head, when its time is over"
    );
    assert!(rt; has_end(&mut silent), "the end of the silent one");
}

/// Sends bytes of a head, one each tenth of a second, until a stay gives them. Gives how many came.
fn bytes_until_late<D, R>(rt: &R, door: &mut D, client: &mut TcpStream) -> usize
where
    D: Door,
    R: Clock + Wait + Sync + Abort,
{
    for at in 1..100usize {
        send(rt, client, b"G");
        if stay(rt, door) != 0 {
            return at;
        }
        thread::sleep(rt, Duration::from_millis(100));
    }
    100
}

#[test]
fn the_time_of_a_head_runs_from_its_first_byte(rt: HostRuntime) {
    let (listener, port) = bound_open(&rt);
    let mut door = door_over(&rt, &rt, listener, short(60_000, 500));
    let mut client = client_of(&rt, port);
    let count = bytes_until_late(&rt, &mut door, &mut client);
    assert!(rt; count > 2 && count < 20, "late behind {count} bytes");
    assert!(rt; gets(&mut client, b"pong"), "its reply");
    assert!(rt; has_end(&mut client), "its end");
}

#[test]
fn one_that_was_shut_is_closed_soon(rt: HostRuntime) {
    let (listener, port) = bound_open(&rt);
    let mut door = door_over(&rt, &rt, listener, short(60_000, 1500));
    let mut client = client_of(&rt, port);
    send(&rt, &mut client, b"no\r\n");
    assert!(rt; stay(&rt, &mut door) == 4, "bytes that are no head");
    assert!(rt;
        gets(&mut client, b"pong") && has_end(&mut client),
        "its reply"
    );
    let mut other = client_of(&rt, port);
    send(&rt, &mut other, b"GET /");
    assert!(rt; stay(&rt, &mut door) == 0, "no whole head");
    assert!(rt;
        stay(&rt, &mut door) == 5,
        "it is late behind 1,500 milliseconds"
    );
    // By then the server has closed the other one: what is sent to it comes back as a reset.
    let _ = std::io::Write::write(&mut client, b"x");
    thread::sleep(&rt, Duration::from_millis(50));
    assert!(rt;
        std::io::Write::write(&mut client, b"x").is_err(),
        "it is closed"
    );
}

/// Limits of a lobby with so many places.
fn small(conns: u64, bytes: u64) -> LobbyLimits {
    LobbyLimits {
        conns,
        bytes,
        ..usual()
    }
}

/// Whether a client that sends a head has its reply from a door.
fn is_served<D: Door, R: Wait + Sync + Abort>(
    rt: &R,
    door: &mut D,
    client: &mut TcpStream,
) -> bool {
    send(rt, client, HEAD);
    stay(rt, door) == 18 && gets(client, b"pong")
}

#[test]
fn the_one_that_stands_longest_is_closed_for_another(rt: HostRuntime) {
    let (listener, port) = bound_open(&rt);
    let mut door = door_over(&rt, &rt, listener, small(2, 1000));
    let mut first = client_of(&rt, port);
    assert!(rt; is_served(&rt, &mut door, &mut first), "the first");
    let mut second = client_of(&rt, port);
    send(&rt, &mut second, b"GET /");
    assert!(rt; stay(&rt, &mut door) == 0, "half a head");
    let mut third = client_of(&rt, port);
    assert!(rt; is_served(&rt, &mut door, &mut third), "the third");
    assert!(rt; has_end(&mut first), "the first one's end");
    let mut fourth = client_of(&rt, port);
    assert!(rt; is_served(&rt, &mut door, &mut fourth), "the fourth");
    assert!(rt; has_end(&mut second), "the end of half a head");
    assert!(rt; is_served(&rt, &mut door, &mut third), "the third again");
    assert!(rt; door.count() == 0, "faults");
}

#[test]
fn none_is_closed_whose_request_has_come(rt: HostRuntime) {
    let (listener, port) = bound_open(&rt);
    let mut door = door_over(&rt, &rt, listener, small(2, 1000));
    let mut first = client_of(&rt, port);
    assert!(rt; is_served(&rt, &mut door, &mut first), "the first");
    let mut second = client_of(&rt, port);
    assert!(rt; is_served(&rt, &mut door, &mut second), "the second");
    send(&rt, &mut first, HEAD);
    let mut third = client_of(&rt, port);
    send(&rt, &mut third, HEAD);
    assert!(rt;
        stay(&rt, &mut door) == 18 && stay(&rt, &mut door) == 18,
        "both"
    );
    assert!(rt; gets(&mut first, b"pong"), "the first one's reply");
    assert!(rt; gets(&mut third, b"pong"), "the third one's reply");
    assert!(rt; has_end(&mut second), "the second one's end");
}

#[test]
fn the_half_head_that_stands_longest_is_closed_for_bytes(rt: HostRuntime) {
    let (listener, port) = bound_open(&rt);
    let mut door = door_over(&rt, &rt, listener, small(100, 150));
    let mut first = client_of(&rt, port);
    send(&rt, &mut first, &[b'G'; 100]);
    assert!(rt; stay(&rt, &mut door) == 0, "half a head");
    let mut second = client_of(&rt, port);
    send(&rt, &mut second, &[b'G'; 100]);
    assert!(rt; stay(&rt, &mut door) == 0, "another");
    assert!(rt; has_end(&mut first), "the first one's end");
    assert!(rt; door.count() == 0, "faults");
}
