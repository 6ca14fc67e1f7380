//! The points that a connection passes, in order, and connections beside one that is held at a point.

ghost use Rattle.std.specs.Prelude.{◌≡◌};
ghost use Rattle.std.specs.Thread.{IsSync};

use crate::connections::helpers::{conn, report_of, serve_through, whole};
use crate::connections::texts::request;
use conn_server::ConnEnd;
use http_wire::MemConn;
use sample_index::{Lock, Shared, Token, cut, put_behind, reference_index};
use sample_world::SampleWorld;
use std::alloc::Global;
use std::process::Abort;
use std::sync::Wait;
use std::sync::atomic::{AtomicBool, AtomicUsize, Ordering};
use std::thread::{Threads, join};
use tree_trait::{Gate, Hold, Point, TurnGate};

/// The points that are wanted: the first request asks the index and opens its one candidate, the
/// second asks for no route, the third is no request.
static WANTED: [Point<'static>; 5] = [
    Point::Asking(7),
    Point::Loading("/srv/bin/tool"),
    Point::Answered(7),
    Point::Answered(7),
    Point::Answered(7),
];

/// Whether two points are the same, of those that a connection passes.
fn is_same(first: &Point<'_>, second: &Point<'_>) -> bool {
    match (first, second) {
        (Point::Asking(a), Point::Asking(b)) => *a == *b,
        (Point::Loading(a), Point::Loading(b)) => *a == *b,
        (Point::Answered(a), Point::Answered(b)) => *a == *b,
        _ => false,
    }
}

/// Holds nobody, and notes whether each point is the next one that is wanted.
#[derive(Drop)]
struct InOrder {
    passed: AtomicUsize,
    is_wrong: AtomicBool,
}

impl Gate for InOrder {
    fn at<Rt: Wait + Sync>(&self, _rt: &Rt, point: &Point<'_>) {
        let place = self.passed.fetch_add(1, Ordering::SeqCst);
        let is_next = WANTED
            .get(place)
            .is_some_and(|wanted| is_same(wanted, point));
        if !is_next {
            self.is_wrong.store(true, Ordering::SeqCst);
        }
    }
}

/// The connection of the three requests.
fn three_requests(rt: &impl Abort, alloc: Global) -> MemConn {
    let id = "404142434445464748494a4b4c4d4e4f50515253";
    let mut asked = request(alloc, "GET", id, "executable").expect(rt, "memory");
    asked
        .push_str("GET /nothing HTTP/1.1\r\n\r\nG(T / HTTP/1.1\r\n\r\n")
        .expect(rt, "memory");
    conn(rt, alloc, &whole(asked.as_str()))
}

/// How many of the three requests are answered past a gate, and the end.
fn serve_past<G: Gate, R: Abort + Wait + Sync>(
    rt: &R,
    alloc: Global,
    gate: &G,
) -> (usize, ConnEnd) {
    let mut conn = three_requests(rt, alloc);
    let report = report_of(rt, alloc, &mut conn, &[], gate);
    (report.served.len(), report.end)
}

#[test]
fn the_gate_is_passed_before_the_index_and_behind_replies(rt: HostRuntime) {
    let gate = InOrder {
        passed: AtomicUsize::new(0),
        is_wrong: AtomicBool::new(false),
    };
    let (served, end) = serve_past(&rt, rt.alloc(), &gate);
    assert!(rt; served == 3, "{served}");
    assert!(rt; end == ConnEnd::Refused);
    assert!(rt; gate.passed.load(Ordering::SeqCst) == WANTED.len());
    assert!(rt; !gate.is_wrong.load(Ordering::SeqCst));
}

/// How many requests for the executable of an id are answered with it by a connection of this
/// number.
fn ask_for<G: Gate, R: Abort + Wait + Sync>(
    rt: &R,
    alloc: Global,
    lock: &Lock<SampleWorld>,
    seat: Token<SampleWorld>,
    id: &str,
    number: u64,
    gate: &G,
) -> usize
    requires { seat.lock ≡ lock.now }
{
    let asked = request(alloc, "GET", id, "executable").expect(rt, "memory");
    let mut conn = conn(rt, alloc, &whole(asked.as_str()));
    let report = serve_through(rt, alloc, lock, seat, &mut conn, number, gate);
    report
        .served
        .iter()
        .filter(|served| served.status == 200)
        .count()
}

/// A gate behind another.
#[derive(Drop)]
struct Both {
    first: TurnGate,
    second: TurnGate,
}

impl Gate for Both {
    fn at<Rt: Wait + Sync>(&self, rt: &Rt, point: &Point<'_>) {
        self.first.at(rt, point);
        self.second.at(rt, point);
    }
}

/// Holds the second connection until the first is about to load the tool, and the first there until
/// the second was answered.
fn crossing(rt: &impl Abort, alloc: Global) -> Both {
    let tool = String::from_str(alloc, "/srv/bin/tool").expect(rt, "memory");
    let again = String::from_str(alloc, "/srv/bin/tool").expect(rt, "memory");
    Both {
        first: TurnGate::new(Hold::Asking(2), Hold::Loading(tool), 1_000_000),
        second: TurnGate::new(Hold::Loading(again), Hold::Answered(2), 1_000_000),
    }
}

/// Two connections beside each other: the first asks for the tool, the second for the program.
fn ask_beside<G: Gate, R: Abort + Threads + Wait + Sync>(
    rt: &R,
    alloc: Global,
    lock: &Lock<SampleWorld>,
    first: Token<SampleWorld>,
    second: Token<SampleWorld>,
    gate: &G,
) -> (usize, usize)
    requires first { first.lock ≡ lock.now }
    requires second { second.lock ≡ lock.now }
{
    let tool = "404142434445464748494a4b4c4d4e4f50515253";
    let prog = "202122232425262728292a2b2c2d2e2f30313233";
    join(
        rt,
        || -> usize
            requires { IsSync R.row × (first.lock ≡ lock.now) }
        { ask_for(rt, alloc, lock, first, tool, 1, gate) },
        || -> usize
            requires { IsSync R.row × (second.lock ≡ lock.now) }
        { ask_for(rt, alloc, lock, second, prog, 2, gate) },
    )
}

#[test]
fn a_load_is_made_while_the_lock_is_free(rt: HostRuntime) {
    let alloc = rt.alloc();
    let gate = crossing(&rt, alloc);
    let index = reference_index(alloc).expect(&rt, "an index");
    let Shared { lock, seat } = put_behind(alloc, index).expect(&rt, "memory");
    let (first, second) = cut(&lock, seat).expect(&rt, "memory");
    let (first, second) = ask_beside(&rt, alloc, &lock, first, second, &gate);
    assert!(rt; first == 1, "the tool");
    assert!(rt; second == 1, "the program");
    assert!(rt; gate.first.met(), "the second asked behind the first");
    assert!(rt;
        gate.second.met(),
        "the second was answered while the first was held"
    );
}
