//! What no clause says of a door's connections: that memory suffices, the whole bytes of the replies, and
//! under which numbers the gate is passed.

use crate::connections::helpers::{conn, serve_at, whole};
use crate::connections::texts::{no_routes, text_head};
use crate::counters::shares::one_drawn;
use conn_server::DoorEnd;
use http_wire::{Door, DoorSaid, MemConn, MemDoor};
use std::alloc::Global;
use std::process::Abort;
use std::sync::Wait;
use std::sync::atomic::{AtomicBool, AtomicUsize, Ordering};
use tree_trait::{Gate, NoGate, Point};

/// A door that gives connections on which these bytes come.
fn door(rt: &impl Abort, alloc: Global, inputs: &[&str]) -> MemDoor {
    let mut conns = Vec::new(alloc);
    for input in inputs {
        let conn = conn(rt, alloc, &whole(input));
        conns.push(conn).expect(rt, "memory");
    }
    MemDoor::new(alloc, conns)
}

/// Serves a door by the reference tree and counters of its own. Its connections are numbered from this
/// number on, by this step.
fn serve<D: Door, G: Gate, R: Abort + Wait + Sync>(
    rt: &R,
    alloc: Global,
    door: &mut D,
    first: u64,
    step: u64,
    gate: &G,
) -> DoorEnd {
    let (book, mut share) = one_drawn(rt, alloc, 1);
    serve_at(rt, alloc, &book, &mut share, door, (first, step), gate)
}

/// The connection at a place of those that were handed back has these bytes written.
fn is_written(rt: &impl Abort, ended: &[MemConn], place: usize, wanted: &[u8]) {
    let conn = ended.get(place).expect(rt, "a connection");
    assert!(rt; conn.written() == Some(wanted), "{place}");
}

/// Two requests of no route, a head that is cut off, and the counters.
static INPUTS: [&str; 3] = [
    "GET /a HTTP/1.1\r\n\r\nGET /b HTTP/1.1\r\n\r\n",
    "GET / HT",
    "GET /metrics HTTP/1.0\r\n\r\n",
];

/// The page behind the first two connections.
static PAGE: &str = "dbgd_requests_total{route=\"other\",status=\"404\"} 2
dbgd_body_bytes_total 18
dbgd_rows_added_total 0
dbgd_rows_replaced_total 0
dbgd_rows_dropped_total 0
dbgd_passes_total 0
";

/// The connections were handed back in order, with their replies.
fn are_served(rt: &impl Abort, alloc: Global, door: &MemDoor) {
    let ended = door.ended_conns().expect(rt, "a door in memory tells them");
    assert!(rt; ended.len() == 3, "{}", ended.len());
    let first = no_routes(rt, alloc, 1, "keep-alive");
    is_written(rt, ended, 0, first.as_slice());
    is_written(rt, ended, 1, b"");
    let mut last = text_head(alloc, "200 OK", PAGE.len(), "close").expect(rt, "memory");
    last.push_str(PAGE).expect(rt, "memory");
    is_written(rt, ended, 2, last.as_bytes());
}

/// The calls of the door are told: each connection was handed back before the next one came.
fn are_one_by_one(rt: &impl Abort, door: &MemDoor) {
    let calls = door.calls().expect(rt, "memory suffices for each call");
    assert!(rt; calls.len() == 6, "{}", calls.len());
    for (place, call) in calls.iter().enumerate() {
        assert!(rt; call.is_arrival() == (place % 2 == 0), "{place}");
    }
}

#[test]
fn connections_are_served_and_handed_back_in_order(rt: HostRuntime) {
    let alloc = rt.alloc();
    let mut door = door(&rt, alloc, &INPUTS);
    let end = serve(&rt, alloc, &mut door, 0, 1, &NoGate);
    assert!(rt; end == DoorEnd::Closed);
    assert!(rt; door.last() == Some(DoorSaid::Closed));
    are_served(&rt, alloc, &door);
    are_one_by_one(&rt, &door);
}

/// Holds nobody, and notes whether each reply has the number that is wanted next.
#[derive(Drop)]
struct Numbered {
    wanted: [u64; 3],
    passed: AtomicUsize,
    is_wrong: AtomicBool,
}

impl Gate for Numbered {
    fn at<Rt: Wait + Sync>(&self, _rt: &Rt, point: &Point<'_>) {
        let Point::Answered(number) = point else {
            return;
        };
        let place = self.passed.fetch_add(1, Ordering::SeqCst);
        if self.wanted.get(place) != Some(number) {
            self.is_wrong.store(true, Ordering::SeqCst);
        }
    }
}

/// The first number, the step, and the numbers of three replies: two on the first connection, and one on
/// the third.
static NUMBERS: [(u64, u64, [u64; 3]); 3] = [
    (0, 1, [0, 0, 2]),
    (5, 7, [5, 5, 19]),
    (u64::MAX - 1, 2, [u64::MAX - 1, u64::MAX - 1, u64::MAX]),
];

#[test]
fn connections_are_numbered_by_the_step(rt: HostRuntime) {
    let alloc = rt.alloc();
    for (first, step, wanted) in &NUMBERS {
        let gate = Numbered {
            wanted: *wanted,
            passed: AtomicUsize::new(0),
            is_wrong: AtomicBool::new(false),
        };
        let mut door = door(&rt, alloc, &INPUTS);
        serve(&rt, alloc, &mut door, *first, *step, &gate);
        assert!(rt; gate.passed.load(Ordering::SeqCst) == 3, "{first}");
        assert!(rt; !gate.is_wrong.load(Ordering::SeqCst), "{first}");
    }
}
