//! Passes over what is selected.

use crate::passes::beside::many;
use crate::passes::passes::{Holds, Pass, run_hands, run_one};
use crate::passes::shared::share_one;
use crate::passes::whole::{BIN, DEBUG, SOURCES, TOOLS};
use crate::rig::{FOLDERS, Files, ROWS};
use path_scope::AllPaths;
use sample_index::{Index, empty_index, empty_shared};
use sample_rows::{Chosen, rows_text};
use sample_world::SampleWorld;
use std::alloc::Global;
use std::process::Abort;
use std::sync::Wait;
use std::thread::Threads;
use tree_trait::NoGate;

/// What is selected.
#[derive(Clone, Copy)]
enum Takes {
    /// All files.
    All,
    /// Eight of them.
    Eight,
    /// None.
    Nothing,
}

/// A pass, and what is selected in it.
struct Step {
    /// What is selected.
    takes: Takes,
    /// The pass, and what it comes to.
    pass: Pass,
}

/// All files of the reference tree.
static ALL: [&str; 12] = [
    "/srv/bin/empty",
    "/srv/bin/libx.so",
    "/srv/bin/liby.so",
    "/srv/bin/prog",
    "/srv/bin/run.sh",
    "/srv/bin/tool",
    "/srv/debug/notes.txt",
    "/srv/debug/ppc.debug",
    "/srv/debug/tool.debug",
    "/w/README",
    "/w/src/inc/util.h",
    "/w/src/main.c",
];

/// Eight of them.
static EIGHT: [&str; 8] = [
    "/srv/bin/empty",
    "/srv/bin/libx.so",
    "/srv/bin/liby.so",
    "/srv/bin/prog",
    "/srv/bin/run.sh",
    "/srv/bin/tool",
    "/srv/debug/tool.debug",
    "/w/src/main.c",
];

/// A walk of the three folders makes 8 calls, a look at each root and a reading of each of them and
/// of two below them, and one more for each file that is selected. Reading all files makes 44 more,
/// and reading `notes.txt`, `ppc.debug`, `README` and `util.h` 8. A call that must not be made is one
/// that fails; the second hand looks for files.
static STEPS: [Step; 5] = [
    Step {
        takes: Takes::All,
        pass: Pass {
            shows: "all files are selected, and read",
            hands: &[Holds {
                files: Files::Reference,
                later: None,
                bad_calls: &[64],
            }],
            roots: &["/srv/bin", "/srv/debug", "/w"],
            end: "12 12 0 0 0 4 4",
            rows: &[BIN, TOOLS, DEBUG, "/w/README 0, ", SOURCES],
        },
    },
    Step {
        takes: Takes::Eight,
        pass: Pass {
            shows: "the rows of those that aren't selected any more go without a look",
            hands: &[
                Holds {
                    files: Files::Reference,
                    later: None,
                    bad_calls: &[16],
                },
                Holds {
                    files: Files::Reference,
                    later: None,
                    bad_calls: &[0],
                },
            ],
            roots: &["/srv/bin", "/srv/debug", "/w"],
            end: "8 0 0 4 8 4 3",
            rows: &[BIN, TOOLS, "/srv/debug/tool.debug 584, /w/src/main.c 26, "],
        },
    },
    Step {
        takes: Takes::Eight,
        pass: Pass {
            shows: "and don't come back",
            hands: &[Holds {
                files: Files::Reference,
                later: None,
                bad_calls: &[16],
            }],
            roots: &["/srv/bin", "/srv/debug", "/w"],
            end: "8 0 0 0 8 4 3",
            rows: &[BIN, TOOLS, "/srv/debug/tool.debug 584, /w/src/main.c 26, "],
        },
    },
    Step {
        takes: Takes::All,
        pass: Pass {
            shows: "until they are selected again",
            hands: &[Holds {
                files: Files::Reference,
                later: None,
                bad_calls: &[28],
            }],
            roots: &["/srv/bin", "/srv/debug", "/w"],
            end: "12 4 0 0 8 4 4",
            rows: &[BIN, TOOLS, DEBUG, "/w/README 0, ", SOURCES],
        },
    },
    Step {
        takes: Takes::Nothing,
        pass: Pass {
            shows: "where none is selected no row stays",
            hands: &[Holds {
                files: Files::NoReadme,
                later: None,
                bad_calls: &[8],
            }],
            roots: &["/srv/bin", "/srv/debug", "/w"],
            end: "0 0 0 12 0 0 0",
            rows: &[],
        },
    },
];

/// The selection, whose question of a number wants memory.
fn choosing(takes: Takes, wants: u64) -> Chosen {
    match takes {
        Takes::All => Chosen::new(&ALL, wants),
        Takes::Eight => Chosen::new(&EIGHT, wants),
        Takes::Nothing => Chosen::new(&[], wants),
    }
}

/// Makes the passes over one index, with so many hands beside those of each.
fn run_steps<Rt: Abort + Threads + Wait + Sync>(rt: &Rt, alloc: Global, others: u64) {
    let mut index = empty_index(alloc, None).expect(rt, "an index");
    for step in &STEPS {
        let mut select = choosing(step.takes, 99);
        index = run_one(rt, alloc, index, &step.pass, others, &mut select);
    }
}

/// Makes the passes over one index that is shared, with so many hands beside those of each.
fn share_steps<Rt: Abort + Threads + Wait + Sync>(rt: &Rt, alloc: Global, others: u64) {
    let mut index = empty_shared(alloc, None).expect(rt, "an index");
    for step in &STEPS {
        let mut select = choosing(step.takes, 99);
        index = share_one(rt, alloc, index, &step.pass, others, &mut select);
    }
}

#[test]
fn rows_of_files_that_are_not_selected_go(rt: HostRuntime) {
    for others in [0, 1, 2, 3, 8] {
        run_steps(&rt, rt.alloc(), others);
        share_steps(&rt, rt.alloc(), others);
    }
}

/// The index with the rows of all files.
fn with_all<Rt: Abort + Threads + Wait + Sync>(rt: &Rt, alloc: Global) -> Index<SampleWorld> {
    let index = empty_index(alloc, None).expect(rt, "an index");
    let hands = many(rt, alloc, 1);
    run_hands(rt, alloc, index, hands, &FOLDERS, &mut AllPaths, &NoGate).0
}

/// Makes a pass over eight of the files that wants memory at a question of the selection. How it ends, and
/// how many questions there were.
fn pass_over_eight<Rt: Abort + Threads + Wait + Sync>(
    rt: &Rt,
    alloc: Global,
    index: Index<SampleWorld>,
    wants: u64,
) -> (Index<SampleWorld>, String, u64) {
    let mut select = choosing(Takes::Eight, wants);
    let hands = many(rt, alloc, 1);
    let (index, end) = run_hands(rt, alloc, index, hands, &FOLDERS, &mut select, &NoGate);
    (index, end, select.asked)
}

/// How a pass ends that wants memory at a question. A walk asks for each of the twelve files, and the
/// beginning for the four rows that aren't listed.
fn end_at(wants: u64) -> &'static str {
    if wants < 12 {
        "no memory for the walk"
    } else {
        "no memory"
    }
}

/// Makes the pass, and compares how it ends and that all rows stand as they stood.
fn wants_memory_at<Rt: Abort + Threads + Wait + Sync>(
    rt: &Rt,
    alloc: Global,
    index: Index<SampleWorld>,
    wants: u64,
) -> Index<SampleWorld> {
    let (index, end, asked) = pass_over_eight(rt, alloc, index, wants);
    let wanted = (end_at(wants), wants.saturating_add(1));
    assert!(rt; (end.as_str(), asked) == wanted, "{wants}: {end}");
    let rows = rows_text(alloc, index.rows()).expect(rt, "memory");
    assert!(rt; rows.as_str() == ROWS, "{wants}");
    index
}

#[test]
fn a_selection_that_wants_memory_leaves_all_rows(rt: HostRuntime) {
    let mut index = with_all(&rt, rt.alloc());
    for wants in 0..16 {
        index = wants_memory_at(&rt, rt.alloc(), index, wants);
    }
    let (_, end, asked) = pass_over_eight(&rt, rt.alloc(), index, 16);
    assert!(rt; (end.as_str(), asked) == ("8 0 0 4 8 4 3", 16), "{end}");
}
