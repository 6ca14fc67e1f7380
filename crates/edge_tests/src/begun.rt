//! Heads that aren't whole when their time is over, by a clock whose time goes on in its sleeps alone.

use crate::sockets::{bound_open, client_of, usual};
use crate::standing::Napping;
use crate::stays::{HEAD, gets, has_end, send, stay};
use dbgd_edges::{LobbyDoor, lobby_doors};
use http_wire::{Door, DoorAnswer, ReadAnswer, Source};
use std::alloc::Global;
use std::net::{Net, TcpListener, TcpStream};
use std::process::Abort;
use std::sync::Wait;
use std::time::{Clock, Duration};

/// A door by a clock, with the limits of a server.
fn napping_door<'a, R>(
    rt: &R,
    alloc: Global,
    napping: &'a Napping,
    listener: TcpListener,
) -> LobbyDoor<&'a Napping>
where
    R: Net<Listener = TcpListener, Stream = TcpStream> + Abort,
{
    let mut doors = lobby_doors(rt, alloc, napping, listener, usual(), 1).expect(rt, "doors");
    doors.pop().expect(rt, "a door")
}

/// Whether the next stay gives a head of 18 bytes, and three seconds later is idle.
fn is_slow_stay<D: Door, R: Wait + Sync>(rt: &R, door: &mut D, napping: &Napping) -> bool {
    let DoorAnswer::Came(conn) = door.accept(rt) else {
        return false;
    };
    let mut conn = conn;
    let mut room = [0; 64];
    let is_head = conn.read(&mut room) == ReadAnswer::Bytes(18);
    napping.sleep(Duration::from_secs(3));
    let is_idle = conn.read(&mut room) == ReadAnswer::End;
    door.ended(conn);
    is_head && is_idle
}

#[test]
fn the_time_of_a_head_behind_another_runs_from_its_first_byte(rt: HostRuntime) {
    let (listener, port) = bound_open(&rt);
    let napping = Napping::new(60_000);
    let mut door = napping_door(&rt, rt.alloc(), &napping, listener);
    let mut client = client_of(&rt, port);
    send(&rt, &mut client, b"GET / HTTP/1.1\r\n\r\nGET /");
    assert!(rt;
        is_slow_stay(&rt, &mut door, &napping),
        "a head, and half of one"
    );
    napping.sleep(Duration::from_millis(2500));
    let mut other = client_of(&rt, port);
    send(&rt, &mut other, HEAD);
    assert!(rt;
        stay(&rt, &mut door) == 5,
        "5.5 seconds behind its first byte, and 2.5 behind its stay, it is late"
    );
    assert!(rt;
        gets(&mut client, b"pong") && has_end(&mut client),
        "its reply"
    );
    assert!(rt; stay(&rt, &mut door) == 18, "the other one's head");
}

/// What comes of a head six seconds behind its first five bytes, and what is given then.
static LAST: [(&[u8], u64); 2] = [(b" HTTP/1.1\r\n\r\n", 18), (b" ", 6)];

#[test]
fn what_comes_behind_its_time_is_read_once(rt: HostRuntime) {
    for (last, wanted) in &LAST {
        let (listener, port) = bound_open(&rt);
        let napping = Napping::new(60_000);
        let mut door = napping_door(&rt, rt.alloc(), &napping, listener);
        let mut client = client_of(&rt, port);
        send(&rt, &mut client, b"GET /");
        assert!(rt; stay(&rt, &mut door) == 0, "no whole head");
        napping.sleep(Duration::from_secs(6));
        send(&rt, &mut client, last);
        let given = stay(&rt, &mut door);
        assert!(rt; given == *wanted, "{given} for {wanted}");
        assert!(rt; gets(&mut client, b"pong"), "its reply");
    }
}
