//! Passes come between the waits. No clause says so, since a wait has no word of the hands: here a clock
//! and a gate share a count of the rows that were published.

ghost use Rattle.std.specs.Prelude.{◌≡◌, None, IsSome};

use crate::runs::hands::Files::Two;
use crate::runs::rounds::one_share;
use crate::runs::serves_rig::hands;
use dbgd_metrics::{Book, Share};
use dbgd_run::{PassesEnd, keep_passing};
use elf_reading::ElfReader;
use http_wire::MemSink;
use path_scope::AllPaths;
use row_types::OpenWorld;
use sample_index::{Unspared, empty_shared};
use sample_rows::paths;
use std::alloc::Global;
use std::process::Abort;
use std::sync::Wait;
use std::sync::atomic::{AtomicU64, Ordering};
use std::thread::Threads;
use tree_trait::{Clock, Gate, MemTree, Point, Wake};

/// Lets all pass, and counts the rows that are published.
#[derive(Drop)]
struct Counting<'a> {
    rows: &'a AtomicU64,
}

impl Gate for Counting<'_> {
    fn at<Rt: Wait + Sync>(&self, _rt: &Rt, point: &Point<'_>) {
        if let Point::Published(_) = point {
            self.rows.fetch_add(1, Ordering::SeqCst);
        }
    }
}

/// Waits for nothing: it says Again so often, and then Stop, and notes how many rows had been published
/// by each wait. It tells no wait.
#[derive(Drop)]
struct Noting<'a> {
    rows: &'a AtomicU64,
    rounds: u64,
    seen: Vec<u64>,
}

impl Clock for Noting<'_> {
    ghost woke = { λ _. None };

    fn wait<Rt: Wait + Sync>(&mut self, _rt: &Rt, _secs: u64) -> Wake {
        let _ = self.seen.push(self.rows.load(Ordering::SeqCst));
        if self.rounds == 0 {
            return Wake::Stop;
        }
        self.rounds -= 1;
        Wake::Again
    }
}

/// Keeps passing over a new index with these hands, and tells whether the clock stopped that.
fn pass_on<Rt: Abort + Threads + Wait + Sync>(
    rt: &Rt,
    alloc: Global,
    start: (Unspared<OpenWorld>, Vec<MemTree<OpenWorld>>),
    clock: &mut Noting<'_>,
    gate: &Counting<'_>,
    book: &Book,
    share: &mut Share,
) -> bool
    requires book { share.old.book ≡ book.now.id }
    requires row { IsSome share.old.row }
{
    let (Unspared { lock, seat }, hands) = start;
    assert!(rt; !hands.is_empty(), "a hand");
    let roots = paths(alloc, &["/srv"]).expect(rt, "paths");
    let mut out = MemSink::new(alloc, Vec::new(alloc));
    let mut err = MemSink::new(alloc, Vec::new(alloc));
    let (_, _, end) = keep_passing(
        rt,
        alloc,
        &lock,
        seat,
        hands,
        roots.as_slice(),
        &mut AllPaths,
        &ElfReader,
        clock,
        300,
        book,
        share,
        &mut out,
        &mut err,
        gate,
    );
    end == PassesEnd::Stopped
}

/// Makes two passes over two files with a hand that walks, one that looks and one that reads: the first
/// pass publishes both.
fn pass_twice<Rt: Abort + Threads + Wait + Sync>(
    rt: &Rt,
    alloc: Global,
    clock: &mut Noting<'_>,
    gate: &Counting<'_>,
) {
    let (book, mut share) = one_share(rt, alloc);
    let index = empty_shared(alloc, None).expect(rt, "an index");
    let start = (index, hands(rt, alloc, &Two, 3));
    let stopped = pass_on(rt, alloc, start, clock, gate, &book, &mut share);
    assert!(rt; stopped, "the clock said Stop");
}

#[test]
fn a_pass_publishes_its_rows_before_the_next_wait(rt: HostRuntime) {
    let rows = AtomicU64::new(0);
    let mut clock = Noting {
        rows: &rows,
        rounds: 2,
        seen: Vec::new(rt.alloc()),
    };
    pass_twice(&rt, rt.alloc(), &mut clock, &Counting { rows: &rows });
    assert!(rt;
        clock.seen.as_slice() == [0, 2, 2].as_slice(),
        "{:?}",
        clock.seen
    );
}
