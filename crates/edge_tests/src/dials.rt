//! The real dial: over sockets of this machine, and where names lead to several ports of it.

use crate::sockets::{bound, port_of};
use crate::standing::Named;
use dbgd_edges::{RealDial, listen};
use http_wire::{ReadAnswer, Sink, Source, WriteAnswer};
use std::alloc::Global;
use std::io::{Read, Write};
use std::net::{Ipv6Addr, Net, SocketAddr, TcpListener, TcpStream};
use std::process::Abort;
use std::sync::Wait;
use upstream_wire::{Dial, DialAnswer};

// Numbers of Linux (asm-generic/errno-base.h).
const EIO: i32 = 5;

const ENOMEM: i32 = 12;

/// A port of this machine on which nobody listens.
fn closed_port<R>(rt: &R) -> u16
where
    R: Net<Listener = TcpListener, Stream = TcpStream> + Abort,
{
    let listener = listen(rt, 0).expect(rt, "a listening socket");
    port_of(rt, &listener)
}

/// What a dial answers for a host and a port. The connection is given back.
fn dial_to<D: Dial, Rt: Wait>(
    rt: &Rt,
    alloc: Global,
    dial: &mut D,
    host: &str,
    port: u16,
) -> &'static str {
    match dial.connect(rt, alloc, host, port) {
        DialAnswer::Connected(conn) => {
            dial.ended(conn);
            "connected"
        }
        DialAnswer::Failed => "failed",
        DialAnswer::OutOfMemory => "out of memory",
    }
}

/// Whether someone listens on each port of a name, the error of its look-up, what a dial to it
/// answers, and how often the dial has failed then.
type Case = (&'static [bool], Option<i32>, &'static str, u64);

static CASES: [Case; 8] = [
    (&[true], None, "connected", 0),
    (&[true, false], None, "connected", 0),
    (&[false, true], None, "connected", 1),
    (&[false, false, true], None, "connected", 2),
    (&[false, false], None, "failed", 3),
    (&[], None, "failed", 1),
    (&[true], Some(EIO), "failed", 1),
    (&[true], Some(ENOMEM), "out of memory", 0),
];

/// The ports of a name.
fn ports_of(rt: &impl Abort, alloc: Global, open: &[bool], ports: (u16, u16)) -> Vec<u16> {
    let mut list = Vec::new(alloc);
    for is_open in open {
        let port = if *is_open { ports.0 } else { ports.1 };
        list.push(port).expect(rt, "memory");
    }
    list
}

/// Dials a name of this machine, and compares.
fn compare<Rt: Wait + Abort>(rt: &Rt, named: Named<'_>, alloc: Global, case: &Case) {
    let (open, refusal, wanted, count) = case;
    let mut dial = RealDial::new(named);
    let answer = dial_to(rt, alloc, &mut dial, "a.name", 80);
    let (ports, number) = (open.len(), refusal.unwrap_or(0));
    assert!(rt;
        answer == *wanted,
        "{ports} ports, error {number}: {answer}"
    );
    assert!(rt;
        dial.count() == *count,
        "faults, {ports} ports, error {number}"
    );
}

#[test]
fn the_addresses_of_a_name_are_tried_in_order(rt: HostRuntime) {
    let (_listener, open) = bound(&rt);
    let closed = closed_port(&rt);
    for case in &CASES {
        let ports = ports_of(&rt, rt.alloc(), case.0, (open, closed));
        let named = Named {
            rt,
            ports: ports.as_slice(),
            refusal: case.1,
        };
        compare(&rt, named, rt.alloc(), case);
    }
}

/// A host, whether someone listens on the port, what a dial answers, and how often it has failed then.
type HostCase = (&'static str, bool, &'static str, u64);

// A label has at most 63 octets (RFC 1035, section 2.3.4), and no name holds a zero byte.
static HOSTS: [HostCase; 4] = [
    ("127.0.0.1", true, "connected", 0),
    ("127.0.0.1", false, "failed", 2),
    (
        "a234567890123456789012345678901234567890123456789012345678901234",
        true,
        "failed",
        1,
    ),
    ("a\0b", true, "failed", 1),
];

/// Dials a host of this machine, and compares.
fn compare_host<R>(rt: &R, alloc: Global, case: &HostCase, ports: (u16, u16))
where
    R: Net<Listener = TcpListener, Stream = TcpStream> + std::time::Clock + Wait + Abort,
{
    let (host, open, wanted, count) = case;
    let mut dial = RealDial::new(rt);
    let port = if *open { ports.0 } else { ports.1 };
    let answer = dial_to(rt, alloc, &mut dial, host, port);
    assert!(rt; answer == *wanted, "{host}: {answer}");
    assert!(rt; dial.count() == *count, "faults of {host}");
}

#[test]
fn a_host_is_reached_or_counted(rt: HostRuntime) {
    let (_listener, open) = bound(&rt);
    let closed = closed_port(&rt);
    for case in &HOSTS {
        compare_host(&rt, rt.alloc(), case, (open, closed));
    }
}

#[test]
fn an_address_of_ipv6_has_brackets(rt: HostRuntime) {
    let (_listener, port) = bound(&rt);
    let has_ipv6 = TcpListener::bind(&rt, SocketAddr::from((Ipv6Addr::LOCALHOST, 0))).is_ok();
    if has_ipv6 {
        let case = ("[::1]", true, "connected", 0);
        compare_host(&rt, rt.alloc(), &case, (port, port));
    }
}

/// What a server does with a connection before it closes it.
#[derive(Clone, Copy)]
enum Serves {
    /// Reads what came, and answers.
    Answers,
    /// Reads what came.
    Reads,
    /// Nothing.
    Nothing,
}

/// Serves the next connection.
fn serve(rt: &impl Abort, listener: &TcpListener, serves: Serves) {
    let (mut stream, _) = listener.accept().expect(rt, "a connection");
    let mut room = [0; 4];
    match serves {
        Serves::Answers => {
            stream.read_exact(&mut room).expect(rt, "a read");
            stream.write_all(b"pong").expect(rt, "a write");
        }
        Serves::Reads => stream.read_exact(&mut room).expect(rt, "a read"),
        Serves::Nothing => {}
    }
}

/// What a read of at most 8 bytes gives: so many, no more (0), or a fault (-1).
fn read_of<S: Source>(conn: &mut S, room: &mut [u8; 8]) -> i64 {
    match conn.read(room) {
        ReadAnswer::Bytes(n) => i64::try_from(n).unwrap_or(-2),
        ReadAnswer::End => 0,
        ReadAnswer::Failed => -1,
    }
}

/// Writes "ping" to a server, and gives what two reads give then. The dial is one that a worker takes
/// along.
fn ask<D: Dial + Send, Rt: Wait + Abort>(
    rt: &Rt,
    alloc: Global,
    dial: &mut D,
    listener: &TcpListener,
    serves: Serves,
) -> (i64, i64) {
    let port = port_of(rt, listener);
    let DialAnswer::Connected(mut conn) = dial.connect(rt, alloc, "127.0.0.1", port) else {
        return (-3, -3);
    };
    let wrote = conn.write(b"ping") == WriteAnswer::Took(4);
    assert!(rt; wrote, "a write");
    serve(rt, listener, serves);
    let mut room = [0; 8];
    let reads = (read_of(&mut conn, &mut room), read_of(&mut conn, &mut room));
    dial.ended(conn);
    reads
}

#[test]
fn what_a_connection_failed_at_is_counted_as_it_ends(rt: HostRuntime) {
    let (listener, _) = bound(&rt);
    let mut dial = RealDial::new(rt);
    for (serves, wanted, count) in [
        (Serves::Answers, (4, 0), 0),
        (Serves::Reads, (0, 0), 0),
        // What a connection is closed with unread resets it (RFC 9293, section 3.6.1).
        (Serves::Nothing, (-1, 0), 1),
    ] {
        let reads = ask(&rt, rt.alloc(), &mut dial, &listener, serves);
        assert!(rt; reads == wanted, "reads with {count} faults");
        assert!(rt; dial.count() == count, "{count} faults");
    }
}

#[test]
fn a_connection_that_was_dialled_is_shut_as_it_ends(rt: HostRuntime) {
    let (listener, port) = bound(&rt);
    let mut dial = RealDial::new(rt);
    let answer = dial_to(&rt, rt.alloc(), &mut dial, "127.0.0.1", port);
    assert!(rt; answer == "connected", "{answer}");
    let (mut stream, _) = listener.accept().expect(&rt, "a connection");
    assert!(rt; matches!(stream.read(&mut [0; 8]), Ok(0)), "an end");
}
