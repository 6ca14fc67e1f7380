//! Words that need no hand are done without one.

use crate::runs::rig::{Run, SOUND, answer_alone, empty_store, run_over};
use row_types::OpenWorld;
use std::alloc::Global;
use std::process::Abort;
use std::sync::Wait;
use std::thread::Threads;
use tree_trait::MemTree;

/// One after the other: words that can't be read, a trial, whose sum is that of an independent program,
/// and a query in a store that keeps nothing.
static RUNS: [Run; 3] = [
    Run(
        &["trial", "7", "40", "65"],
        b"",
        "usage: dbgd ident FILE, sources FILE, section FILE NAME, query -d DB ID, \
            scan -d DB DIR, serve -d DB DIR, trial SEED FILES WORKERS\n",
        2,
    ),
    Run(
        &["trial", "7", "40", "3"],
        b"trial: 40 files, 20 executables, 20 debuginfo, 20 sources, \
            index 1d67394e737c8736f98a34978d6ca95b8ac131a37c52c0bbe7579f5a4188394b\n",
        "usage: dbgd ident FILE, sources FILE, section FILE NAME, query -d DB ID, \
            scan -d DB DIR, serve -d DB DIR, trial SEED FILES WORKERS\n",
        0,
    ),
    Run(
        &["query", "-d", "m", "ffff"],
        b"trial: 40 files, 20 executables, 20 debuginfo, 20 sources, \
            index 1d67394e737c8736f98a34978d6ca95b8ac131a37c52c0bbe7579f5a4188394b\n",
        "usage: dbgd ident FILE, sources FILE, section FILE NAME, query -d DB ID, \
            scan -d DB DIR, serve -d DB DIR, trial SEED FILES WORKERS\ndbgd: nothing found\n",
        3,
    ),
];

/// No hand.
fn none(alloc: Global) -> Vec<MemTree<OpenWorld>> {
    Vec::new(alloc)
}

/// Runs without a hand.
fn run_bare<Rt: Threads + Wait + Sync + Abort>(rt: &Rt, alloc: Global) {
    let store = empty_store(rt, alloc, &SOUND);
    run_over(rt, alloc, none(alloc), store, &SOUND, &RUNS);
}

#[test]
fn words_that_need_no_hand_are_done_without_one(rt: HostRuntime) {
    run_bare(&rt, rt.alloc());
}

/// What the local part answers without a hand.
static LOCAL: [(&[&str], Option<u8>); 4] = [
    (&["trial", "7", "40", "65"], Some(2)),
    (&["query", "-d", "m", "ffff"], Some(3)),
    (&["trial", "7", "40", "3"], None),
    (&["--help"], Some(0)),
];

#[test]
fn the_local_part_answers_them_too(rt: HostRuntime) {
    answer_alone(&rt, rt.alloc(), none(rt.alloc()), &LOCAL);
}
