//! What the real door answers where accepts fail, and how it waits.

use crate::sockets::{bound_open, client_of, usual};
use crate::standing::{Napping, Stumbling};
use dbgd_edges::{LobbyDoor, lobby_doors};
use http_wire::{Door, DoorSaid};
use std::alloc::Global;
use std::io::Write;
use std::net::{Net, TcpListener, TcpStream};
use std::process::Abort;
use std::sync::Wait;
use std::sync::atomic::AtomicU64;

// Numbers of Linux (asm-generic/errno-base.h and errno.h).
const EPERM: i32 = 1;

const EINTR: i32 = 4;

const EBADF: i32 = 9;

const EAGAIN: i32 = 11;

const ENOMEM: i32 = 12;

const EINVAL: i32 = 22;

const ENFILE: i32 = 23;

const EMFILE: i32 = 24;

const EPROTO: i32 = 71;

const ENOTSOCK: i32 = 88;

const ENETDOWN: i32 = 100;

const ENETUNREACH: i32 = 101;

const ECONNABORTED: i32 = 103;

const ECONNRESET: i32 = 104;

const ENOBUFS: i32 = 105;

const EHOSTUNREACH: i32 = 113;

/// The errors of the first accepts, the door's answer, how often it has failed then, and how many
/// milliseconds it waited.
type Case = (&'static [i32], DoorSaid, u64, u64);

static CASES: [Case; 14] = [
    (&[], DoorSaid::Came, 0, 0),
    (&[EINTR, EINTR], DoorSaid::Came, 0, 0),
    (&[ECONNABORTED], DoorSaid::Came, 1, 0),
    (&[EPERM, EPROTO, ECONNRESET], DoorSaid::Came, 3, 0),
    (&[ENETDOWN, ENETUNREACH, EHOSTUNREACH], DoorSaid::Came, 3, 0),
    (&[EMFILE], DoorSaid::Came, 1, 100),
    (&[ENFILE, ENOBUFS, ENOMEM], DoorSaid::Came, 3, 300),
    (&[EINVAL], DoorSaid::Closed, 0, 0),
    (&[EMFILE, EINVAL], DoorSaid::Closed, 1, 100),
    (&[EBADF], DoorSaid::Failed, 1, 0),
    (&[ECONNABORTED, ENOTSOCK], DoorSaid::Failed, 2, 0),
    (&[EAGAIN], DoorSaid::Came, 0, 0),
    (&[EMFILE; 700], DoorSaid::Came, 700, 70_000),
    (&[ECONNABORTED; 700], DoorSaid::Came, 700, 0),
];

/// A door whose first accepts fail with these errors.
fn stumbling<'a, R>(
    rt: &R,
    alloc: Global,
    napping: &'a Napping,
    listener: TcpListener,
    numbers: &'static [i32],
) -> LobbyDoor<&'a Napping, Stumbling>
where
    R: Net<Listener = TcpListener, Stream = TcpStream> + Abort,
{
    let stumbling = Stumbling {
        listener,
        numbers,
        accepts: AtomicU64::new(0),
    };
    let mut doors = lobby_doors(rt, alloc, napping, stumbling, usual(), 1).expect(rt, "doors");
    doors.pop().expect(rt, "a door")
}

/// What a door answers.
fn said_by<D: Door, Rt: Wait + Sync>(rt: &Rt, door: &mut D) -> DoorSaid {
    door.accept(rt).said()
}

/// Asks a door whose first accepts fail, and compares. A client is there for the others.
fn compare<R>(rt: &R, alloc: Global, case: &Case)
where
    R: Net<Listener = TcpListener, Stream = TcpStream> + Wait + Sync + Abort,
{
    let (numbers, wanted, count, millis) = case;
    let (listener, port) = bound_open(rt);
    let mut client = client_of(rt, port);
    client.write_all(b"GET").expect(rt, "a write");
    let napping = Napping::new(1000);
    let mut door = stumbling(rt, alloc, &napping, listener, *numbers);
    let said = said_by(rt, &mut door);
    let faults = door.count();
    let (first, len) = (numbers.first().copied().unwrap_or(0), numbers.len());
    assert!(rt; said == *wanted, "answer after {len} errors, {first} first");
    assert!(rt;
        faults == *count,
        "faults after {len} errors, {first} first"
    );
    assert!(rt;
        napping.slept() == *millis,
        "time for {len} errors, {first} first"
    );
}

#[test]
fn each_error_of_an_accept_has_its_answer(rt: HostRuntime) {
    for case in &CASES {
        compare(&rt, rt.alloc(), case);
    }
}
