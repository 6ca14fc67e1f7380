//! The requests of the reference tree, asked of servers by each of their workers.

use crate::runs::rig::{Run, SOUND};
use crate::runs::serves_replies::{Ask, NOT_FOUND, TABLE, replies, requests};
use crate::runs::serves_rig::{around, door, has_ended, is_answered, serve};
use crate::runs::told::told_reference;
use crate::runs::workers::references;
use elf_reading::ElfTruth;
use http_wire::MemDoor;
use sample_world::SampleWorld;
use std::alloc::Global;
use std::process::Abort;
use std::sync::Wait;
use std::thread::Threads;
use tree_trait::{MemTree, NoGate, Tree};

/// A server by so many workers, each of which is asked all of the table.
struct Case {
    workers: u64,
    words: &'static [&'static str],
    out: &'static [u8],
}

static CASES: [Case; 4] = [
    Case {
        workers: 1,
        words: &[
            "serve",
            "-d",
            "m",
            "-c",
            "1",
            "-t",
            "0",
            "/srv/bin",
            "/srv/debug",
            "/w",
        ],
        out: b"serving on 8002 with 1 workers\n\
            scan: 12 files, 12 added, 0 replaced, 0 dropped, 0 kept, 4 executables, 4 debuginfo\n",
    },
    Case {
        workers: 2,
        words: &[
            "serve",
            "-d",
            "m",
            "-c",
            "2",
            "-t",
            "0",
            "/srv/bin",
            "/srv/debug",
            "/w",
        ],
        out: b"serving on 8002 with 2 workers\n\
            scan: 12 files, 12 added, 0 replaced, 0 dropped, 0 kept, 4 executables, 4 debuginfo\n",
    },
    Case {
        workers: 7,
        words: &[
            "serve",
            "-d",
            "m",
            "-c",
            "7",
            "-t",
            "0",
            "/srv/bin",
            "/srv/debug",
            "/w",
        ],
        out: b"serving on 8002 with 7 workers\n\
            scan: 12 files, 12 added, 0 replaced, 0 dropped, 0 kept, 4 executables, 4 debuginfo\n",
    },
    Case {
        workers: 64,
        words: &[
            "serve",
            "-d",
            "m",
            "-c",
            "64",
            "-t",
            "0",
            "/srv/bin",
            "/srv/debug",
            "/w",
        ],
        out: b"serving on 8002 with 64 workers\n\
            scan: 12 files, 12 added, 0 replaced, 0 dropped, 0 kept, 4 executables, 4 debuginfo\n",
    },
];

/// A door with a connection that asks these, one behind the other.
fn asking(rt: &impl Abort, alloc: Global, asks: &[Ask]) -> MemDoor {
    let text = requests(rt, alloc, asks);
    door(rt, alloc, &[text.as_str()])
}

/// So many of these doors.
fn all_asking(rt: &impl Abort, alloc: Global, asks: &[Ask], count: u64) -> Vec<MemDoor> {
    let mut doors = Vec::new(alloc);
    for _ in 0..count {
        doors.push(asking(rt, alloc, asks)).expect(rt, "memory");
    }
    doors
}

/// At each door there was one connection, which has these replies.
fn all_answered(rt: &impl Abort, doors: &[MemDoor], wanted: &[u8]) {
    for door in doors {
        has_ended(rt, door, 1);
        is_answered(rt, door, 0, wanted);
    }
}

/// Asks these at each door of a server with these hands, by so many workers, and compares what comes of
/// it.
fn ask_by<W: ElfTruth + Send + Sync, T: Tree<W>, Rt: Threads + Wait + Sync + Abort>(
    rt: &Rt,
    alloc: Global,
    hands: Vec<T>,
    asks: &[Ask],
    workers: u64,
    case: &Run<'_>,
    wanted: &[u8],
) {
    let doors = all_asking(rt, alloc, asks, workers);
    let mut server = around(rt, alloc, hands, doors, NoGate, &SOUND, 0);
    serve(rt, alloc, &mut server, case, &[]);
    all_answered(rt, server.doors.as_slice(), wanted);
}

/// Asks these at each door of a server by so many workers, and compares what comes of it.
fn ask<Rt: Threads + Wait + Sync + Abort>(
    rt: &Rt,
    alloc: Global,
    asks: &[Ask],
    workers: u64,
    case: &Run<'_>,
    wanted: &[u8],
) {
    let hands = references(rt, alloc, workers.saturating_mul(2).saturating_add(2));
    ask_by(rt, alloc, hands, asks, workers, case, wanted);
}

#[test]
fn each_of_any_number_of_workers_answers_all(rt: HostRuntime) {
    let alloc = rt.alloc();
    let wanted = replies(&rt, alloc, &TABLE);
    for case in &CASES {
        let run = Run(case.words, case.out, "", 0);
        ask(&rt, alloc, &TABLE, case.workers, &run, wanted.as_slice());
    }
}

/// Six hands of the told world, each of which has the reference tree.
fn told_references(rt: &impl Abort, alloc: Global) -> Vec<MemTree<SampleWorld>> {
    let mut hands = Vec::new(alloc);
    for _ in 0..6 {
        hands
            .push(told_reference(rt, alloc, &[]))
            .expect(rt, "memory");
    }
    hands
}

#[test]
fn a_told_world_is_served(rt: HostRuntime) {
    let alloc = rt.alloc();
    let wanted = replies(&rt, alloc, &TABLE);
    for case in CASES.iter().skip(1).take(1) {
        let run = Run(case.words, case.out, "", 0);
        let hands = told_references(&rt, alloc);
        ask_by(&rt, alloc, hands, &TABLE, 2, &run, wanted.as_slice());
    }
}

/// The first and the last request of the table, and the counters.
static COUNTED: [Ask; 3] = [Ask::Program, Ask::OtherProgram, Ask::Counters];

#[test]
fn the_counters_have_two_requests_and_a_pass(rt: HostRuntime) {
    let alloc = rt.alloc();
    let wanted = replies(&rt, alloc, &COUNTED);
    for case in CASES.iter().take(1) {
        let run = Run(case.words, case.out, "", 0);
        ask(&rt, alloc, &COUNTED, 1, &run, wanted.as_slice());
    }
}

/// Folders that are scanned, and others for sources alone.
static ELSEWHERE: Run = Run(
    &[
        "serve",
        "-d",
        "m",
        "-c",
        "1",
        "-t",
        "0",
        "--sources",
        "/v:/w",
        "/srv/bin",
    ],
    b"serving on 8002 with 1 workers\n\
        scan: 6 files, 6 added, 0 replaced, 0 dropped, 0 kept, 4 executables, 2 debuginfo\n",
    "",
    0,
);

/// The same without the others.
static NOWHERE: Run = Run(
    &["serve", "-d", "m", "-c", "1", "-t", "0", "/srv/bin"],
    b"serving on 8002 with 1 workers\n\
        scan: 6 files, 6 added, 0 replaced, 0 dropped, 0 kept, 4 executables, 2 debuginfo\n",
    "",
    0,
);

#[test]
fn sources_are_sent_from_the_folders_that_are_named(rt: HostRuntime) {
    let alloc = rt.alloc();
    let asks = [Ask::Source];
    let wanted = replies(&rt, alloc, &asks);
    ask(&rt, alloc, &asks, 1, &ELSEWHERE, wanted.as_slice());
    ask(&rt, alloc, &asks, 1, &NOWHERE, NOT_FOUND);
}
