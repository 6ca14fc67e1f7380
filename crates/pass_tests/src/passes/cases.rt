//! What the settling of a pass comes to, case by case.

use crate::rig::{Version, listed, version_tree};
use elf_reading::ElfReader;
use index_desk::WorkEnd;
use pass_runner::settle;
use sample_index::{Index, begin, empty_index};
use sample_rows::rows_text;
use scan_queue::{Cause, Miss, Seen};
use std::alloc::Global;
use std::process::Abort;
use tree_trait::{MemTree, TwoWorld};

/// A pass that is settled, and what it comes to.
struct Case {
    /// What the case shows.
    shows: &'static str,
    /// The version whose row stands before the pass.
    stood: Option<Version>,
    /// The version that is listed.
    listed: Option<Version>,
    /// The root of the pass.
    root: &'static str,
    /// The version that the hand's tree has.
    there: Option<Version>,
    /// Whether the hand's first call fails.
    fails: bool,
    /// The store's call at which it stops.
    stop_at: Option<u64>,
    /// How the settling ends.
    end: WorkEnd,
    /// The rows at the end.
    rows: &'static str,
    /// Why the first name that was missed was missed.
    missed: &'static str,
}

/// Why a name was missed, in words.
fn words_of(miss: Option<&Miss>) -> &'static str {
    let Some(miss) = miss else {
        return "";
    };
    match miss.cause {
        Cause::ReadFault => "it could not be read",
        Cause::Altered { seen: Seen::Gone } => "it is gone",
        Cause::Altered {
            seen: Seen::File(_),
        } => "another file stands there",
        Cause::Altered { seen: Seen::Other } => "it is no file",
        Cause::Appeared => "it stands there",
    }
}

/// The cases. A call of the hand that must not be made is one that fails.
static CASES: [Case; 12] = [
    Case {
        shows: "a new file is read",
        stood: None,
        listed: Some(Version::First),
        root: "/w",
        there: Some(Version::First),
        fails: false,
        stop_at: None,
        end: WorkEnd::Empty,
        rows: "/w/a 1, ",
        missed: "",
    },
    Case {
        shows: "a kept file isn't loaded",
        stood: Some(Version::First),
        listed: Some(Version::First),
        root: "/w",
        there: Some(Version::First),
        fails: true,
        stop_at: None,
        end: WorkEnd::Empty,
        rows: "/w/a 1, ",
        missed: "",
    },
    Case {
        shows: "a changed file is read",
        stood: Some(Version::First),
        listed: Some(Version::Second),
        root: "/w",
        there: Some(Version::Second),
        fails: false,
        stop_at: None,
        end: WorkEnd::Empty,
        rows: "/w/a 2, ",
        missed: "",
    },
    Case {
        shows: "a file that was altered after it was listed is missed",
        stood: None,
        listed: Some(Version::First),
        root: "/w",
        there: Some(Version::Second),
        fails: false,
        stop_at: None,
        end: WorkEnd::Empty,
        rows: "",
        missed: "another file stands there",
    },
    Case {
        shows: "a file that is gone as it is read is missed",
        stood: None,
        listed: Some(Version::First),
        root: "/w",
        there: None,
        fails: false,
        stop_at: None,
        end: WorkEnd::Empty,
        rows: "",
        missed: "it is gone",
    },
    Case {
        shows: "a file that can't be read is missed",
        stood: None,
        listed: Some(Version::First),
        root: "/w",
        there: Some(Version::First),
        fails: true,
        stop_at: None,
        end: WorkEnd::Empty,
        rows: "",
        missed: "it could not be read",
    },
    Case {
        shows: "a store that fails ends it",
        stood: None,
        listed: Some(Version::First),
        root: "/w",
        there: Some(Version::First),
        fails: false,
        stop_at: Some(2),
        end: WorkEnd::KeeperFault,
        rows: "",
        missed: "",
    },
    Case {
        shows: "the row of a file that is gone is dropped",
        stood: Some(Version::First),
        listed: None,
        root: "/w",
        there: None,
        fails: false,
        stop_at: None,
        end: WorkEnd::Empty,
        rows: "",
        missed: "",
    },
    Case {
        shows: "so is that of one in whose place another stands",
        stood: Some(Version::First),
        listed: None,
        root: "/w",
        there: Some(Version::Second),
        fails: false,
        stop_at: None,
        end: WorkEnd::Empty,
        rows: "",
        missed: "",
    },
    Case {
        shows: "the row of a file that stands there stays, and is missed",
        stood: Some(Version::First),
        listed: None,
        root: "/w",
        there: Some(Version::First),
        fails: false,
        stop_at: None,
        end: WorkEnd::Empty,
        rows: "/w/a 1, ",
        missed: "it stands there",
    },
    Case {
        shows: "a look that failed drops nothing",
        stood: Some(Version::First),
        listed: None,
        root: "/w",
        there: None,
        fails: true,
        stop_at: None,
        end: WorkEnd::Empty,
        rows: "/w/a 1, ",
        missed: "it could not be read",
    },
    Case {
        shows: "the row of a file under no root is dropped without a look",
        stood: Some(Version::First),
        listed: None,
        root: "/v",
        there: Some(Version::First),
        fails: true,
        stop_at: None,
        end: WorkEnd::Empty,
        rows: "",
        missed: "",
    },
];

/// The index after a pass over the version, or over nothing, under this root, and how the pass was
/// settled.
fn settled(
    rt: &impl Abort,
    alloc: Global,
    mut index: Index<TwoWorld>,
    root: &str,
    version: Option<Version>,
    hand: MemTree<TwoWorld>,
) -> (Index<TwoWorld>, WorkEnd) {
    begin(alloc, &mut index, listed(rt, alloc, version), root).expect(rt, "a pass begins");
    let (index, _, end) = settle(alloc, index, hand, &ElfReader);
    (index, end)
}

/// The index in the state in which a case begins: with the row of a version, or without rows.
fn begun(
    rt: &impl Abort,
    alloc: Global,
    stop_at: Option<u64>,
    stood: Option<Version>,
) -> Index<TwoWorld> {
    let index = empty_index(alloc, stop_at).expect(rt, "an index");
    if stood.is_none() {
        return index;
    }
    let hand = version_tree(rt, alloc, stood, false);
    settled(rt, alloc, index, "/w", stood, hand).0
}

/// Runs a case, and compares.
fn run_case(rt: &impl Abort, alloc: Global, case: &Case) {
    let index = begun(rt, alloc, case.stop_at, case.stood);
    let hand = version_tree(rt, alloc, case.there, case.fails);
    let (index, end) = settled(rt, alloc, index, case.root, case.listed, hand);
    let rows = rows_text(alloc, index.rows()).expect(rt, "memory");
    assert!(rt; end == case.end, "{}", case.shows);
    assert!(rt; rows.as_str() == case.rows, "{}", case.shows);
    assert!(rt;
        words_of(index.first_miss()) == case.missed,
        "{}",
        case.shows
    );
}

#[test]
fn a_pass_is_settled(rt: HostRuntime) {
    for case in &CASES {
        run_case(&rt, rt.alloc(), case);
    }
}
