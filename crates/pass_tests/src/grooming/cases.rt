//! What becomes of one row, case by case.

use crate::grooming::helpers::{index_of, outcome_of_one};
use crate::rig::{file, still_tree};
use index_desk::WorkEnd;
use index_state::Published;
use row_types::OpenWorld;
use sample_index::{Index, begin};
use sample_rows::{names, plain};
use std::alloc::Global;
use std::process::Abort;
use std::sync::Wait;
use tree_trait::MemTree;

/// A row at `/srv/x` that isn't listed any more, and what becomes of it.
struct Case {
    /// What the case shows.
    shows: &'static str,
    /// The root of the pass.
    root: &'static str,
    /// The size of the file that the hand's tree has at the row's path. That of the row is 1.
    there: Option<usize>,
    /// Whether the hand's first call fails.
    fails: bool,
    /// The store's call at which it stops. The first after the row was put is that of number 3.
    stop_at: Option<u64>,
    /// Whether another row is published before, which is the store's call 3.
    publishes: bool,
    /// The rows that are dropped.
    dropped: u64,
    /// The names that are missed.
    missed: u64,
    /// How the groomer ends.
    end: WorkEnd,
    /// The rows at the end.
    rows: &'static str,
    /// The name, where it was missed, and why.
    missed_name: &'static str,
}

/// The cases. A look that must not be made is one that fails.
static CASES: [Case; 8] = [
    Case {
        shows: "the row of a file that moved away is dropped",
        root: "/srv",
        there: None,
        fails: false,
        stop_at: None,
        publishes: false,
        dropped: 1,
        missed: 0,
        end: WorkEnd::Empty,
        rows: "",
        missed_name: "",
    },
    Case {
        shows: "the row of a file that stands there stays, and is missed",
        root: "/srv",
        there: Some(1),
        fails: false,
        stop_at: None,
        publishes: false,
        dropped: 0,
        missed: 1,
        end: WorkEnd::Empty,
        rows: "/srv/x 1, ",
        missed_name: "/srv/x 1, stands there",
    },
    Case {
        shows: "the row goes where another file stands",
        root: "/srv",
        there: Some(2),
        fails: false,
        stop_at: None,
        publishes: false,
        dropped: 1,
        missed: 0,
        end: WorkEnd::Empty,
        rows: "",
        missed_name: "",
    },
    Case {
        shows: "a look that failed drops nothing",
        root: "/srv",
        there: None,
        fails: true,
        stop_at: None,
        publishes: false,
        dropped: 0,
        missed: 1,
        end: WorkEnd::Empty,
        rows: "/srv/x 1, ",
        missed_name: "/srv/x 1, can't be read",
    },
    Case {
        shows: "the row of a file under no root is dropped without a look",
        root: "/w",
        there: Some(1),
        fails: true,
        stop_at: None,
        publishes: false,
        dropped: 1,
        missed: 0,
        end: WorkEnd::Empty,
        rows: "",
        missed_name: "",
    },
    Case {
        shows: "a store that fails ends it",
        root: "/srv",
        there: None,
        fails: false,
        stop_at: Some(3),
        publishes: false,
        dropped: 0,
        missed: 0,
        end: WorkEnd::KeeperFault,
        rows: "/srv/x 1, ",
        missed_name: "",
    },
    Case {
        shows: "an index that is broken ends it",
        root: "/srv",
        there: None,
        fails: false,
        stop_at: Some(3),
        publishes: true,
        dropped: 0,
        missed: 0,
        end: WorkEnd::Broken,
        rows: "/srv/x 1, ",
        missed_name: "",
    },
    Case {
        shows: "a row that another put between stays out of it",
        root: "/srv",
        there: None,
        fails: false,
        stop_at: None,
        publishes: true,
        dropped: 1,
        missed: 0,
        end: WorkEnd::Empty,
        rows: "/srv/run.sh 10, ",
        missed_name: "",
    },
];

/// The tree of a file of this size at `/srv/x`, or of nothing, whose first call fails or not.
fn tree_of(
    rt: &impl Abort,
    alloc: Global,
    there: Option<usize>,
    fails: bool,
) -> MemTree<OpenWorld> {
    let bad_calls: &[u64] = if fails { &[0] } else { &[] };
    match there {
        Some(size) => {
            let found = file(rt, alloc, "/srv/x", size);
            let files = vec![in alloc; found].expect(rt, "memory");
            still_tree(rt, alloc, files, bad_calls)
        }
        None => still_tree(rt, alloc, Vec::new(alloc), bad_calls),
    }
}

/// Hands in another row. The store may fail.
fn publish_other(rt: &impl Abort, alloc: Global, index: &mut Index<OpenWorld>) {
    let row = plain(alloc, "/srv/run.sh", 10).expect(rt, "a row");
    let _said: Published = index.publish(alloc, row);
}

/// The index in the state in which a case begins.
fn begun(rt: &impl Abort, alloc: Global, case: &Case) -> Index<OpenWorld> {
    let mut index = index_of(rt, alloc, case.stop_at, &[("/srv/x", 1)]);
    let listed = names(alloc, &[("/srv/run.sh", 10)]).expect(rt, "names");
    begin(alloc, &mut index, listed, case.root).expect(rt, "a pass begins");
    if case.publishes {
        publish_other(rt, alloc, &mut index);
    }
    index
}

/// Runs a case, and compares.
fn run_case<R: Abort + Wait + Sync>(rt: &R, alloc: Global, case: &Case) {
    let index = begun(rt, alloc, case);
    let hand = tree_of(rt, alloc, case.there, case.fails);
    let outcome = outcome_of_one(rt, alloc, index, hand);
    let report = outcome.report;
    let numbers = (report.dropped, report.missed);
    assert!(rt; numbers == (case.dropped, case.missed), "{}", case.shows);
    assert!(rt; report.end == case.end, "{}", case.shows);
    assert!(rt; outcome.rows.as_str() == case.rows, "{}", case.shows);
    assert!(rt;
        outcome.missed.as_str() == case.missed_name,
        "{}",
        case.shows
    );
}

#[test]
fn a_row_is_groomed(rt: HostRuntime) {
    for case in &CASES {
        run_case(&rt, rt.alloc(), case);
    }
}
