//! Passes between the waits of a clock in memory: what they say, how they end, and what is counted.

ghost use Rattle.std.specs.Prelude.{◌≡◌, None, IfSome, IsSome};

use crate::runs::hands::Files::Two;
use crate::runs::hands::hand_of;
use crate::runs::rig::one_hand;
use dbgd_metrics::{Book, Drawn, Share};
use dbgd_run::{PassesEnd, keep_passing};
use elf_reading::ElfReader;
use http_wire::MemSink;
use path_scope::AllPaths;
use row_types::OpenWorld;
use sample_index::{Unspared, empty_shared};
use sample_rows::paths;
use std::alloc::Global;
use std::process::Abort;
use std::sync::Wait;
use std::thread::Threads;
use tree_trait::{MemClock, NoGate, Tree};

/// Passes between waits, and what comes of them.
struct Case {
    /// What it shows.
    shows: &'static str,
    /// How often the clock says Again.
    rounds: u64,
    /// The call of the store at which it stops. Its opening, its rows, and its puts are numbered.
    stop_at: Option<u64>,
    /// The writes to out that fail.
    bad_out: &'static [u64],
    /// What out got.
    out: &'static [u8],
    /// What err got.
    err: &'static str,
    /// How the passing ended.
    end: PassesEnd,
    /// The counters by then.
    page: &'static str,
}

/// The counters where nothing was counted.
const ZEROS: &str = "dbgd_body_bytes_total 0\ndbgd_rows_added_total 0\n\
    dbgd_rows_replaced_total 0\ndbgd_rows_dropped_total 0\ndbgd_passes_total 0\n";

/// Passes over two files that never change.
static STILL: [Case; 5] = [
    Case {
        shows: "a clock that stops at once lets no pass be made",
        rounds: 0,
        stop_at: None,
        bad_out: &[],
        out: b"",
        err: "",
        end: PassesEnd::Stopped,
        page: ZEROS,
    },
    Case {
        shows: "one pass",
        rounds: 1,
        stop_at: None,
        bad_out: &[],
        out: b"scan: 2 files, 2 added, 0 replaced, 0 dropped, 0 kept, 1 executables, 1 debuginfo\n",
        err: "",
        end: PassesEnd::Stopped,
        page: "dbgd_body_bytes_total 0\ndbgd_rows_added_total 2\n\
            dbgd_rows_replaced_total 0\ndbgd_rows_dropped_total 0\ndbgd_passes_total 1\n",
    },
    Case {
        shows: "three passes, of which the last two find nothing new",
        rounds: 3,
        stop_at: None,
        bad_out: &[],
        out: b"scan: 2 files, 2 added, 0 replaced, 0 dropped, 0 kept, 1 executables, 1 debuginfo\n\
            scan: 2 files, 0 added, 0 replaced, 0 dropped, 2 kept, 1 executables, 1 debuginfo\n\
            scan: 2 files, 0 added, 0 replaced, 0 dropped, 2 kept, 1 executables, 1 debuginfo\n",
        err: "",
        end: PassesEnd::Stopped,
        page: "dbgd_body_bytes_total 0\ndbgd_rows_added_total 2\n\
            dbgd_rows_replaced_total 0\ndbgd_rows_dropped_total 0\ndbgd_passes_total 3\n",
    },
    Case {
        shows: "a line that out refuses is told, and the next one is written",
        rounds: 3,
        stop_at: None,
        bad_out: &[1],
        out: b"scan: 2 files, 2 added, 0 replaced, 0 dropped, 0 kept, 1 executables, 1 debuginfo\n\
            scan: 2 files, 0 added, 0 replaced, 0 dropped, 2 kept, 1 executables, 1 debuginfo\n",
        err: "dbgd: fault output\n",
        end: PassesEnd::OutFailed,
        page: "dbgd_body_bytes_total 0\ndbgd_rows_added_total 2\n\
            dbgd_rows_replaced_total 0\ndbgd_rows_dropped_total 0\ndbgd_passes_total 3\n",
    },
    Case {
        shows: "a store that fails at the first put leaves a broken index",
        rounds: 2,
        stop_at: Some(2),
        bad_out: &[],
        out: b"",
        err: "dbgd: fault store\ndbgd: fault store\n",
        end: PassesEnd::Stopped,
        page: ZEROS,
    },
];

/// The share with a row, if there was one left.
fn drawn<R: Wait>(rt: &R, book: &Book, share: Share) -> Option<Share>
    requires book { share.book ≡ book.now.id }
    requires no_row { share.row ≡ None }
    ensures { IfSome result (λ s. (s.book ≡ book.now.id) × IsSome s.row) }
{
    match book.draw(rt, share) {
        Drawn::Drawn(share) => Some(share),
        Drawn::Full(_) => None,
    }
}

/// A table of one row, and the share that has it.
pub fn one_share<R: Abort + Wait>(rt: &R, alloc: Global) -> (Book, Share)
    ensures { (result.1.book ≡ result.0.id) × IsSome result.1.row }
{
    let (book, share) = Book::make(alloc, 1).expect(rt, "memory");
    let share = drawn(rt, &book, share).expect(rt, "a row");
    (book, share)
}

/// What the passes write to.
#[derive(Drop)]
struct Written {
    /// The standard output.
    out: MemSink,
    /// The standard error.
    err: MemSink,
}

/// Keeps passing over a new index with a hand, and says how that ended.
fn pass_on<T: Tree<OpenWorld>, Rt: Abort + Threads + Wait + Sync>(
    rt: &Rt,
    alloc: Global,
    start: (Unspared<OpenWorld>, T),
    clock: &mut MemClock,
    book: &Book,
    share: &mut Share,
    written: &mut Written,
) -> PassesEnd
    requires book { share.old.book ≡ book.now.id }
    requires row { IsSome share.old.row }
    ensures { (share.new.book ≡ book.now.id) × IsSome share.new.row }
{
    let (Unspared { lock, seat }, hand) = start;
    let hands = one_hand(rt, alloc, hand);
    assert!(rt; !hands.is_empty(), "a hand");
    let roots = paths(alloc, &["/srv"]).expect(rt, "paths");
    let (_, _, end) = keep_passing(
        rt,
        alloc,
        &lock,
        seat,
        hands,
        roots.as_slice(),
        &mut AllPaths,
        &ElfReader,
        clock,
        300,
        book,
        share,
        &mut written.out,
        &mut written.err,
        &NoGate,
    );
    end
}

/// Compares what a sink got.
fn compare(rt: &impl Abort, sink: &MemSink, want: &[u8], shows: &str) {
    let got = sink.written().expect(rt, "told");
    assert!(rt; got == want, "{shows}: {got:?}");
}

/// Keeps passing with a hand, and compares what is said and how it ends.
fn pass_and_compare<T: Tree<OpenWorld>, Rt: Abort + Threads + Wait + Sync>(
    rt: &Rt,
    alloc: Global,
    hand: T,
    case: &Case,
    clock: &mut MemClock,
    book: &Book,
    share: &mut Share,
) -> PassesEnd
    requires book { share.old.book ≡ book.now.id }
    requires row { IsSome share.old.row }
    ensures { (share.new.book ≡ book.now.id) × IsSome share.new.row }
{
    let bad_writes = Vec::from_slice(alloc, case.bad_out).expect(rt, "memory");
    let mut written = Written {
        out: MemSink::new(alloc, bad_writes),
        err: MemSink::new(alloc, Vec::new(alloc)),
    };
    let index = empty_shared(alloc, case.stop_at).expect(rt, "an index");
    let end = pass_on(rt, alloc, (index, hand), clock, book, share, &mut written);
    compare(rt, &written.out, case.out, case.shows);
    compare(rt, &written.err, case.err.as_bytes(), case.shows);
    end
}

/// Keeps passing with a hand, and compares what is counted, too.
fn count_and_compare<T: Tree<OpenWorld>, Rt: Abort + Threads + Wait + Sync>(
    rt: &Rt,
    alloc: Global,
    hand: T,
    case: &Case,
    clock: &mut MemClock,
) {
    let (book, mut share) = one_share(rt, alloc);
    let end = pass_and_compare(rt, alloc, hand, case, clock, &book, &mut share);
    assert!(rt; end == case.end, "{}", case.shows);
    let page = book.text(alloc, &mut share).expect(rt, "memory");
    assert!(rt; page.as_str() == case.page, "{}: {page}", case.shows);
}

/// Keeps passing with a hand: one wait is told for each pass, and one behind them.
fn keep<T: Tree<OpenWorld>, Rt: Abort + Threads + Wait + Sync>(
    rt: &Rt,
    alloc: Global,
    hand: T,
    case: &Case,
) {
    let mut clock = MemClock::new(alloc, case.rounds);
    count_and_compare(rt, alloc, hand, case, &mut clock);
    let told = clock.woke().expect(rt, "told");
    assert!(rt;
        told.len() as u64 == case.rounds.saturating_add(1),
        "{}",
        case.shows
    );
    assert!(rt;
        told.iter().all(|waited| waited.secs == 300),
        "{}",
        case.shows
    );
}

#[test]
fn one_pass_is_made_after_each_wait(rt: HostRuntime) {
    for case in &STILL {
        keep(&rt, rt.alloc(), hand_of(&rt, rt.alloc(), &Two, &[]), case);
    }
}
