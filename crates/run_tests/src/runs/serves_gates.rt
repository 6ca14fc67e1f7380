//! Servers whose threads are held at one point until another has come.

use crate::runs::hands::Files::{Alone, WithTool};
use crate::runs::hands::{hand_of, turning};
use crate::runs::rig::{Run, SOUND};
use crate::runs::serves_replies::{Ask, reply_with};
use crate::runs::serves_rig::{are_answered, around, door_for, has_ended, is_answered, serve};
use crate::runs::workers::references;
use dbgd_run::Outside;
use http_wire::MemDoor;
use index_keeper::MemStore;
use row_types::OpenWorld;
use sample_world::Sample;
use std::alloc::Global;
use std::process::Abort;
use std::sync::Wait;
use std::thread::Threads;
use tree_trait::{Hold, MemTree, NoGate, TurnGate};

/// A scan of the reference tree.
static SCAN: Run = Run(
    &["scan", "-d", "m", "-c", "2", "/srv/bin", "/srv/debug", "/w"],
    b"scan: 12 files, 12 added, 0 replaced, 0 dropped, 0 kept, 4 executables, 4 debuginfo\n",
    "",
    0,
);

/// The store after that scan.
fn scanned<Rt: Threads + Wait + Sync + Abort>(rt: &Rt, alloc: Global) -> MemStore<OpenWorld> {
    let doors: Vec<MemDoor> = Vec::new(alloc);
    let hands = references(rt, alloc, 4);
    let mut around = around(rt, alloc, hands, doors, NoGate, &SOUND, 0);
    serve(rt, alloc, &mut around, &SCAN, &[]);
    let Outside { store, .. } = around;
    store
}

/// A server on that store, whose first pass opens nothing.
static SERVE: Run = Run(
    &[
        "serve",
        "-d",
        "m",
        "-c",
        "2",
        "-t",
        "0",
        "/srv/bin",
        "/srv/debug",
        "/w",
    ],
    b"serving on 8002 with 2 workers\n\
        scan: 12 files, 0 added, 0 replaced, 0 dropped, 12 kept, 4 executables, 4 debuginfo\n",
    "",
    0,
);

/// Two doors: the load of this file is held until the connection of this number is answered, and each
/// connection asks for one thing.
struct Crossing {
    held: &'static str,
    until: u64,
    asks: [&'static [Ask]; 2],
}

/// The connections of the first door have the numbers 0 and 2, that of the second has 1.
static CROSSINGS: [Crossing; 3] = [
    Crossing {
        held: "/srv/bin/tool",
        until: 1,
        asks: [&[Ask::Tool], &[Ask::Program]],
    },
    Crossing {
        held: "/srv/bin/prog",
        until: 0,
        asks: [&[Ask::Tool], &[Ask::Program]],
    },
    Crossing {
        held: "/srv/bin/tool",
        until: 2,
        asks: [&[Ask::Program, Ask::OtherProgram], &[Ask::Tool]],
    },
];

/// The gate that holds the load of a file until the connection of a number is answered.
fn gate_of(rt: &impl Abort, alloc: Global, held: &str, until: u64) -> TurnGate {
    let held = String::from_str(alloc, held).expect(rt, "memory");
    TurnGate::new(Hold::Loading(held), Hold::Answered(until), 1_000_000)
}

/// The doors of a crossing.
fn doors_of(rt: &impl Abort, alloc: Global, crossing: &Crossing) -> Vec<MemDoor> {
    let mut doors = Vec::new(alloc);
    for asks in &crossing.asks {
        doors.push(door_for(rt, alloc, asks)).expect(rt, "memory");
    }
    doors
}

/// Each connection was answered.
fn all_answered(rt: &impl Abort, alloc: Global, doors: &[MemDoor], crossing: &Crossing) {
    for (door, asks) in doors.iter().zip(&crossing.asks) {
        are_answered(rt, alloc, door, asks);
    }
}

/// Runs the server of a crossing, and compares what comes of it.
fn cross<Rt: Threads + Wait + Sync + Abort>(rt: &Rt, alloc: Global, crossing: &Crossing) {
    let gate = gate_of(rt, alloc, crossing.held, crossing.until);
    let doors = doors_of(rt, alloc, crossing);
    let mut server = around(rt, alloc, references(rt, alloc, 6), doors, gate, &SOUND, 0);
    server.store = scanned(rt, alloc);
    serve(rt, alloc, &mut server, &SERVE, &[]);
    assert!(rt;
        server.gate.met(),
        "{} until {}",
        crossing.held,
        crossing.until
    );
    all_answered(rt, alloc, server.doors.as_slice(), crossing);
}

#[test]
fn a_connection_is_answered_while_another_one_s_load_is_held(rt: HostRuntime) {
    for crossing in &CROSSINGS {
        cross(&rt, rt.alloc(), crossing);
    }
}

/// A server over a folder in which the tool is found by the second pass.
static GROWING: Run = Run(
    &["serve", "-d", "m", "-c", "1", "-t", "1", "/srv"],
    b"serving on 8002 with 1 workers\n\
        scan: 1 files, 1 added, 0 replaced, 0 dropped, 0 kept, 0 executables, 0 debuginfo\n\
        scan: 2 files, 1 added, 0 replaced, 0 dropped, 1 kept, 1 executables, 0 debuginfo\n",
    "",
    0,
);

/// The reply that sends the tool, up to the file.
static TOOL: &[u8] = b"HTTP/1.1 200 OK\r\nContent-Type: application/octet-stream\r\n\
    Content-Length: 408\r\nX-DEBUGINFOD-SIZE: 408\r\nX-DEBUGINFOD-FILE: /srv/tool\r\n\
    Connection: keep-alive\r\n\r\n";

/// Four hands. The first finds the script alone in its first three calls, which are its first pass: a
/// look at the folder, its reading, and a look at the script. From then on it finds what the others do.
fn finding_later(rt: &impl Abort, alloc: Global) -> Vec<MemTree<OpenWorld>> {
    let mut hands = Vec::new(alloc);
    let first = turning(rt, alloc, &[Alone, WithTool, WithTool], &[3, 4]);
    hands.push(first).expect(rt, "memory");
    for _ in 1..4 {
        hands
            .push(hand_of(rt, alloc, &WithTool, &[]))
            .expect(rt, "memory");
    }
    hands
}

/// Holds the connection until the row of the tool was added.
fn until_published(rt: &impl Abort, alloc: Global) -> TurnGate {
    let tool = String::from_str(alloc, "/srv/tool").expect(rt, "memory");
    TurnGate::new(Hold::Asking(0), Hold::Published(tool), 1_000_000)
}

#[test]
fn a_file_that_the_second_pass_finds_is_sent(rt: HostRuntime) {
    let alloc = rt.alloc();
    let doors = vec![in alloc; door_for(&rt, alloc, &[Ask::Tool])].expect(&rt, "memory");
    let hands = finding_later(&rt, alloc);
    let gate = until_published(&rt, alloc);
    let mut server = around(&rt, alloc, hands, doors, gate, &SOUND, 1);
    serve(&rt, alloc, &mut server, &GROWING, &[1, 1]);
    assert!(rt; server.gate.met());
    let wanted = reply_with(&rt, alloc, TOOL, Sample::Tool);
    for door in &server.doors {
        has_ended(&rt, door, 1);
        is_answered(&rt, door, 0, wanted.as_slice());
    }
}
