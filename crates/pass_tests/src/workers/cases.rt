//! What the work on one listed file comes to, case by case.

use crate::rig::{Version, listed, version_tree};
use crate::workers::helpers::outcome_of_one;
use index_desk::WorkEnd;
use sample_index::passing;
use std::alloc::Global;
use std::process::Abort;
use std::sync::Wait;
use tree_trait::NoGate;

/// The work on one listed file, and what it comes to.
struct Case {
    /// What the case shows.
    shows: &'static str,
    /// The version that is listed.
    listed: Option<Version>,
    /// The version that the hand's tree has.
    there: Option<Version>,
    /// Whether the hand's first call fails.
    fails: bool,
    /// The store's call at which it stops.
    stop_at: Option<u64>,
    /// The loads, the rows that were published, and the names that were missed.
    numbers: (u64, u64, u64),
    /// How the work ends.
    end: WorkEnd,
    /// The rows at the end.
    rows: &'static str,
    /// The name, where it was missed, and why.
    missed: &'static str,
}

/// The cases.
static CASES: [Case; 7] = [
    Case {
        shows: "a new file is read",
        listed: Some(Version::First),
        there: Some(Version::First),
        fails: false,
        stop_at: None,
        numbers: (1, 1, 0),
        end: WorkEnd::Empty,
        rows: "/w/a 1, ",
        missed: "",
    },
    Case {
        shows: "where nothing is listed, nothing is loaded",
        listed: None,
        there: Some(Version::First),
        fails: true,
        stop_at: None,
        numbers: (0, 0, 0),
        end: WorkEnd::Empty,
        rows: "",
        missed: "",
    },
    Case {
        shows: "a file that was altered after it was listed is missed",
        listed: Some(Version::First),
        there: Some(Version::Second),
        fails: false,
        stop_at: None,
        numbers: (1, 0, 1),
        end: WorkEnd::Empty,
        rows: "",
        missed: "/w/a 1, another file",
    },
    Case {
        shows: "so is one that was altered back",
        listed: Some(Version::Second),
        there: Some(Version::First),
        fails: false,
        stop_at: None,
        numbers: (1, 0, 1),
        end: WorkEnd::Empty,
        rows: "",
        missed: "/w/a 2, another file",
    },
    Case {
        shows: "a file that is gone as it is read is missed",
        listed: Some(Version::First),
        there: None,
        fails: false,
        stop_at: None,
        numbers: (1, 0, 1),
        end: WorkEnd::Empty,
        rows: "",
        missed: "/w/a 1, gone",
    },
    Case {
        shows: "a file that can't be read is missed",
        listed: Some(Version::First),
        there: Some(Version::First),
        fails: true,
        stop_at: None,
        numbers: (1, 0, 1),
        end: WorkEnd::Empty,
        rows: "",
        missed: "/w/a 1, can't be read",
    },
    Case {
        shows: "a store that fails ends it",
        listed: Some(Version::First),
        there: Some(Version::First),
        fails: false,
        stop_at: Some(2),
        numbers: (1, 0, 0),
        end: WorkEnd::KeeperFault,
        rows: "",
        missed: "",
    },
];

/// Runs a case, and compares.
fn run_case<Rt: Abort + Wait + Sync>(rt: &Rt, alloc: Global, case: &Case) {
    let names = listed(rt, alloc, case.listed);
    let index = passing(alloc, case.stop_at, names, "/w").expect(rt, "a pass begins");
    let hand = version_tree(rt, alloc, case.there, case.fails);
    let outcome = outcome_of_one(rt, alloc, index, hand, &NoGate);
    let report = outcome.report;
    let numbers = (report.asked, report.published, report.missed);
    assert!(rt; numbers == case.numbers, "{}", case.shows);
    assert!(rt; report.end == case.end, "{}", case.shows);
    assert!(rt; outcome.rows.as_str() == case.rows, "{}", case.shows);
    assert!(rt; outcome.missed.as_str() == case.missed, "{}", case.shows);
}

#[test]
fn a_listed_file_is_worked_on(rt: HostRuntime) {
    for case in &CASES {
        run_case(&rt, rt.alloc(), case);
    }
}
