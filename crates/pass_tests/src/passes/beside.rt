//! Passes with which other hands help, in threads of their own.

use crate::passes::passes::{Holds, Pass, run_hands};
use crate::rig::{FOLDERS, Files, sample_tree};
use path_scope::AllPaths;
use sample_index::empty_index;
use sample_world::SampleWorld;
use std::alloc::Global;
use std::process::Abort;
use tree_trait::{Gate, Hold, MemTree, TurnGate};

/// Passes over one index, one after the other.
pub static MOVED: [Pass; 5] = [
    Pass {
        shows: "a file that changed for those that read is missed as the first hand finds it",
        hands: &[
            Holds {
                files: Files::Before,
                later: Some((3, Files::After)),
                bad_calls: &[],
            },
            Holds {
                files: Files::After,
                later: None,
                bad_calls: &[],
            },
            Holds {
                files: Files::After,
                later: None,
                bad_calls: &[],
            },
            Holds {
                files: Files::After,
                later: None,
                bad_calls: &[],
            },
        ],
        roots: &["/srv"],
        end: "missed /srv/a 6, another file",
        rows: &[],
    },
    Pass {
        shows: "the next pass reads it",
        hands: &[
            Holds {
                files: Files::After,
                later: None,
                bad_calls: &[],
            },
            Holds {
                files: Files::After,
                later: None,
                bad_calls: &[],
            },
            Holds {
                files: Files::After,
                later: None,
                bad_calls: &[],
            },
            Holds {
                files: Files::After,
                later: None,
                bad_calls: &[],
            },
        ],
        roots: &["/srv"],
        end: "1 1 0 0 0 0 0",
        rows: &["/srv/a 7, "],
    },
    Pass {
        shows: "the second hand looks before the row goes, and the first one looks again",
        hands: &[
            Holds {
                files: Files::Script,
                later: None,
                bad_calls: &[4],
            },
            Holds {
                files: Files::ScriptAndAfter,
                later: None,
                bad_calls: &[],
            },
            Holds {
                files: Files::Script,
                later: None,
                bad_calls: &[],
            },
        ],
        roots: &["/srv"],
        end: "missed /srv/a 7, can't be read",
        rows: &["/srv/a 7, /srv/bin/run.sh 10, "],
    },
    Pass {
        shows: "where the second hand's look fails the first one looks",
        hands: &[
            Holds {
                files: Files::Script,
                later: None,
                bad_calls: &[],
            },
            Holds {
                files: Files::Script,
                later: None,
                bad_calls: &[0],
            },
        ],
        roots: &["/srv"],
        end: "1 0 0 1 1 0 0",
        rows: &["/srv/bin/run.sh 10, "],
    },
    Pass {
        shows: "with two hands the first one reads",
        hands: &[
            Holds {
                files: Files::ScriptAndAfter,
                later: None,
                bad_calls: &[7],
            },
            Holds {
                files: Files::Nothing,
                later: None,
                bad_calls: &[0],
            },
        ],
        roots: &["/srv"],
        end: "2 1 0 0 1 0 0",
        rows: &["/srv/a 7, /srv/bin/run.sh 10, "],
    },
];

/// So many hands with the reference tree.
pub fn many(rt: &impl Abort, alloc: Global, count: u64) -> Vec<MemTree<SampleWorld>> {
    let mut trees = Vec::new(alloc);
    for _ in 0..count {
        let tree = sample_tree(rt, alloc, Files::Reference, None, &[]);
        trees.push(tree).expect(rt, "memory");
    }
    trees
}

/// Five hands with the reference tree, of which one fails at a call.
pub fn one_fails(
    rt: &impl Abort,
    alloc: Global,
    failing: u64,
    call: u64,
) -> Vec<MemTree<SampleWorld>> {
    let calls = [call];
    let mut trees = Vec::new(alloc);
    for hand in 0..5 {
        let bad_calls: &[u64] = if hand == failing { &calls } else { &[] };
        let tree = sample_tree(rt, alloc, Files::Reference, None, bad_calls);
        trees.push(tree).expect(rt, "memory");
    }
    trees
}

/// A gate that holds the load of one file until the row of another was added.
pub fn holding_gate(rt: &impl Abort, alloc: Global) -> TurnGate {
    let held = String::from_str(alloc, "/srv/bin/empty").expect(rt, "memory");
    let until = String::from_str(alloc, "/srv/bin/libx.so").expect(rt, "memory");
    TurnGate::new(Hold::Loading(held), Hold::Published(until), 1_000_000)
}

#[test]
fn a_file_is_read_while_another_is_held(rt: HostRuntime) {
    let alloc = rt.alloc();
    let gate = holding_gate(&rt, alloc);
    let index = empty_index(alloc, None).expect(&rt, "an index");
    let hands = many(&rt, alloc, 4);
    let (_, end) = run_hands(&rt, alloc, index, hands, &FOLDERS, &mut AllPaths, &gate);
    assert!(rt; end.as_str() == "12 12 0 0 0 4 4", "{end}");
    assert!(rt; gate.met());
}
