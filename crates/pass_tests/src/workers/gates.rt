//! The points that a worker passes, in order.

use crate::rig::{file, still_tree};
use crate::workers::helpers::{outcome_of_one, report};
use index_desk::WorkEnd;
use row_types::OpenWorld;
use sample_index::passing;
use sample_rows::names;
use scan_worker::WorkReport;
use std::alloc::Global;
use std::process::Abort;
use std::sync::Wait;
use std::sync::atomic::{AtomicBool, AtomicUsize, Ordering};
use tree_trait::{Gate, MemTree, Point};

/// The points that are wanted: `/a` is read, `/b` is another file by then, `/c` can't be read, and
/// `/d` is read.
static WANTED: [Point<'static>; 6] = [
    Point::Loading("/a"),
    Point::Published("/a"),
    Point::Loading("/b"),
    Point::Loading("/c"),
    Point::Loading("/d"),
    Point::Published("/d"),
];

/// Whether two points are the same, of those that a worker passes.
fn is_same(first: &Point<'_>, second: &Point<'_>) -> bool {
    match (first, second) {
        (Point::Loading(a), Point::Loading(b)) => *a == *b,
        (Point::Published(a), Point::Published(b)) => *a == *b,
        _ => false,
    }
}

/// Whether the point of this number is the one that is wanted.
fn is_wanted(place: usize, point: &Point<'_>) -> bool {
    match WANTED.get(place) {
        Some(wanted) => is_same(wanted, point),
        None => false,
    }
}

/// Holds nobody, and notes whether each point is the next one that is wanted.
#[derive(Drop)]
struct InOrder {
    passed: AtomicUsize,
    is_wrong: AtomicBool,
}

impl Gate for InOrder {
    fn at<Rt: Wait + Sync>(&self, _rt: &Rt, point: &Point<'_>) {
        let place = self.passed.fetch_add(1, Ordering::SeqCst);
        if !is_wanted(place, point) {
            self.is_wrong.store(true, Ordering::SeqCst);
        }
    }
}

/// The tree of four files, of which the third can't be opened. The first is opened and read, and of
/// the second, which has another stamp, nothing is read.
fn four_files(rt: &impl Abort, alloc: Global) -> MemTree<OpenWorld> {
    let first = file(rt, alloc, "/a", 1);
    let second = file(rt, alloc, "/b", 2);
    let third = file(rt, alloc, "/c", 1);
    let fourth = file(rt, alloc, "/d", 1);
    let files = vec![in alloc; first, second, third, fourth].expect(rt, "memory");
    still_tree(rt, alloc, files, &[3])
}

/// The report of a worker on the four files, listed with one byte each.
fn report_of<G: Gate, Rt: Abort + Wait + Sync>(rt: &Rt, alloc: Global, gate: &G) -> WorkReport {
    let listed = names(alloc, &[("/a", 1), ("/b", 1), ("/c", 1), ("/d", 1)]).expect(rt, "names");
    let index = passing(alloc, None, listed, "/").expect(rt, "a pass begins");
    outcome_of_one(rt, alloc, index, four_files(rt, alloc), gate).report
}

#[test]
fn a_worker_passes_the_gate_before_loads_and_after_rows(rt: HostRuntime) {
    let gate = InOrder {
        passed: AtomicUsize::new(0),
        is_wrong: AtomicBool::new(false),
    };
    let said = report_of(&rt, rt.alloc(), &gate);
    assert!(rt; said == report(4, 2, 2, WorkEnd::Empty));
    assert!(rt; gate.passed.load(Ordering::SeqCst) == WANTED.len());
    assert!(rt; !gate.is_wrong.load(Ordering::SeqCst));
}
