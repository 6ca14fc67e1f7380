//! Doors over sockets of this machine, and one in memory: what comes and goes through them.

use crate::sockets::{bound_open, client_of, door_over, doors_over, port_of, usual};
use crate::stays::{CLOSED, HEAD, gets, has_end, send, stay};
use dbgd_edges::{LobbyDoor, listen};
use http_wire::{Door, DoorSaid, MemConn, MemDoor};
use std::alloc::Global;
use std::net::{Ipv6Addr, Net, Shutdown, SocketAddr, TcpListener, TcpStream};
use std::os::fd::OwnedFd;
use std::process::Abort;
use std::sync::Wait;
use std::sync::atomic::{AtomicU64, Ordering};
use std::thread::{self, Threads};
use std::time::{Clock, Duration};

/// A client at a door: it sends a head, is served, and gets the reply.
fn ping<D: Door, R: Wait + Sync + Abort>(rt: &R, door: &mut D, client: &mut TcpStream) {
    send(rt, client, HEAD);
    assert!(rt; stay(rt, door) == 18, "a head");
    assert!(rt; gets(client, b"pong"), "a pong");
}

#[test]
fn a_client_gets_its_reply_whole(rt: HostRuntime) {
    let (listener, port) = bound_open(&rt);
    let mut door = door_over(&rt, &rt, listener, usual());
    for thousands in [0, 1, 200u32] {
        let mut client = client_of(&rt, port);
        send(&rt, &mut client, b"no\r\n");
        for _ in 0..thousands {
            send(&rt, &mut client, &[b'x'; 1000]);
        }
        assert!(rt; stay(&rt, &mut door) >= 4, "bytes that are no head");
        assert!(rt;
            gets(&mut client, b"pong"),
            "{thousands} thousands: its reply"
        );
        assert!(rt; has_end(&mut client), "{thousands} thousands: its end");
    }
    assert!(rt; door.count() == 0, "faults");
}

/// A client's stream to a port of this machine by IPv6, where it has that.
fn ipv6_client_of<R>(rt: &R, port: u16) -> Option<TcpStream>
where
    R: Net<Listener = TcpListener, Stream = TcpStream> + Abort,
{
    let has_ipv6 = TcpListener::bind(rt, SocketAddr::from((Ipv6Addr::LOCALHOST, 0))).is_ok();
    if !has_ipv6 {
        return None;
    }
    let address = SocketAddr::from((Ipv6Addr::LOCALHOST, port));
    Some(TcpStream::connect(rt, address).expect(rt, "a client"))
}

#[test]
fn a_door_listens_on_ipv6_too(rt: HostRuntime) {
    let (listener, port) = bound_open(&rt);
    let mut door = door_over(&rt, &rt, listener, usual());
    if let Some(mut client) = ipv6_client_of(&rt, port) {
        ping(&rt, &mut door, &mut client);
    }
}

/// Shuts a listening socket.
fn shut(rt: &impl Abort, listener: TcpListener) {
    TcpStream::from(OwnedFd::from(listener))
        .shutdown(Shutdown::Both)
        .expect(rt, "its end");
}

/// Another hold of a listening socket.
fn another(rt: &impl Abort, listener: &TcpListener) -> TcpListener {
    listener.try_clone().expect(rt, "another hold")
}

#[test]
fn doors_share_a_socket_until_it_is_shut(rt: HostRuntime) {
    let (listener, port) = bound_open(&rt);
    let mut doors = doors_over(&rt, &rt, another(&rt, &listener), usual(), 2);
    let mut client = client_of(&rt, port);
    for door in doors.iter_mut() {
        ping(&rt, door, &mut client);
    }
    shut(&rt, listener);
    for door in doors.iter_mut() {
        assert!(rt; stay(&rt, door) == CLOSED && door.count() == 0, "a door");
    }
}

/// Waits a moment, and shuts a listening socket.
fn shut_soon<R: Clock + Abort>(rt: &R, listener: TcpListener) {
    thread::sleep(rt, Duration::from_millis(200));
    shut(rt, listener);
}

/// How many of the doors answer that they are closed, each by a thread of its own that waits for it.
fn closed_doors<R>(rt: &R, doors: &mut [LobbyDoor<HostRuntime>]) -> u64
where
    R: Threads + Wait + Sync,
{
    let closed = AtomicU64::new(0);
    let count = doors.len().max(1);
    thread::for_each_mut(
        rt,
        doors,
        count,
        &|_, door: &mut LobbyDoor<HostRuntime>| {
            if stay(rt, door) == CLOSED {
                closed.fetch_add(1, Ordering::SeqCst);
            }
        },
    );
    closed.load(Ordering::SeqCst)
}

#[test]
fn doors_that_wait_are_closed_with_their_socket(rt: HostRuntime) {
    let (listener, _) = bound_open(&rt);
    let mut doors = doors_over(&rt, &rt, another(&rt, &listener), usual(), 4);
    let (closed, _) = thread::join(
        &rt,
        || closed_doors(&rt, doors.as_mut_slice()),
        move || shut_soon(&rt, listener),
    );
    assert!(rt; closed == 4, "{closed} doors of four are closed");
}

/// Serves one client on a port, which the server leaves first.
fn serve_on<R>(host: &HostRuntime, rt: &R, port: u16) -> u16
where
    R: Net<Listener = TcpListener, Stream = TcpStream> + Wait + Sync + Abort,
{
    let listener = listen(rt, port).expect(rt, "the port");
    listener.set_nonblocking(true).expect(rt, "an option");
    let port = port_of(rt, &listener);
    let mut door = door_over(host, rt, listener, usual());
    let mut client = client_of(rt, port);
    ping(rt, &mut door, &mut client);
    port
}

#[test]
fn a_port_is_taken_again_at_once(rt: HostRuntime) {
    let port = serve_on(&rt, &rt, 0);
    assert!(rt; serve_on(&rt, &rt, port) == port, "the same port");
}

/// A connection in memory of which a head is read.
fn mem_conn(rt: &impl Abort, alloc: Global) -> MemConn {
    let input = Vec::from_slice(alloc, HEAD).expect(rt, "memory");
    let (cuts, reads, writes) = (Vec::new(alloc), Vec::new(alloc), Vec::new(alloc));
    MemConn::new(alloc, input, cuts, reads, writes)
}

/// To how many connections that a door took back "pong" was written.
fn pongs(door: &MemDoor) -> u64 {
    let mut count: u64 = 0;
    for conn in door.ended_conns().unwrap_or(&[]) {
        if conn.written() == Some(b"pong".as_slice()) {
            count = count.saturating_add(1);
        }
    }
    count
}

#[test]
fn a_door_in_memory_gives_its_connections_and_is_closed(rt: HostRuntime) {
    let alloc = rt.alloc();
    let conns = vec![in alloc; mem_conn(&rt, alloc), mem_conn(&rt, alloc)].expect(&rt, "memory");
    let mut door = MemDoor::new(alloc, conns);
    for wanted in [18, 18, CLOSED, CLOSED] {
        assert!(rt; stay(&rt, &mut door) == wanted, "{wanted}");
    }
    assert!(rt; door.last() == Some(DoorSaid::Closed), "its last answer");
    assert!(rt; pongs(&door) == 2, "what ended");
}
