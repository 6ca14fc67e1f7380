//! Servers whose store fails while they serve.

use crate::runs::hands::Files::{Early, Late};
use crate::runs::hands::{hand_of, turning};
use crate::runs::rig::{Plan, Run, SOUND};
use crate::runs::serves_replies::{Ask, NOT_FOUND, reply_with};
use crate::runs::serves_rig::{Server, around, door, doors, has_ended, is_answered, serve};
use http_wire::MemDoor;
use row_types::OpenWorld;
use sample_world::Sample;
use std::alloc::Global;
use std::process::Abort;
use std::sync::Wait;
use std::thread::Threads;
use tree_trait::{Gate, Hold, MemTree, Point, TurnGate};

/// A gate behind another.
#[derive(Drop)]
struct Both {
    first: TurnGate,
    second: TurnGate,
}

impl Gate for Both {
    fn at<Rt: Wait + Sync>(&self, rt: &Rt, point: &Point<'_>) {
        self.first.at(rt, point);
        self.second.at(rt, point);
    }
}

/// Holds the first connection until the second pass opens the file that came, and the pass there
/// until the connection was answered.
fn within_a_pass(rt: &impl Abort, alloc: Global) -> Both {
    let came = String::from_str(alloc, "/srv/a").expect(rt, "memory");
    let again = String::from_str(alloc, "/srv/a").expect(rt, "memory");
    Both {
        first: TurnGate::new(Hold::Asking(0), Hold::Loading(came), 1_000_000),
        second: TurnGate::new(Hold::Loading(again), Hold::Answered(0), 1_000_000),
    }
}

/// Four hands: the first one's first pass is a look at the folder, its reading, and three looks; the
/// third one's is three openings, of which the first is followed by one read, the last by four. The
/// others find what is there later from the start.
fn changing(rt: &impl Abort, alloc: Global) -> Vec<MemTree<OpenWorld>> {
    vec![in alloc;
        turning(rt, alloc, &[Early, Late, Late], &[5, 6]),
        hand_of(rt, alloc, &Late, &[]),
        turning(rt, alloc, &[Early, Late, Late], &[8, 9]),
        hand_of(rt, alloc, &Late, &[]),
    ]
    .expect(rt, "memory")
}

/// A request for the debug information of the file that stays.
static STAYS: &str =
    "GET /buildid/000102030405060708090a0b0c0d0e0f10111213/debuginfo HTTP/1.1\r\n\r\n";

/// The reply that sends it, up to the file.
static STAYED: &[u8] = b"HTTP/1.1 200 OK\r\nContent-Type: application/octet-stream\r\n\
    Content-Length: 488\r\nX-DEBUGINFOD-SIZE: 488\r\nX-DEBUGINFOD-FILE: /srv/lib\r\n\
    Connection: keep-alive\r\n\r\n";

/// The server: its first connection asks for the file that came, the others for the one that stays.
fn server(
    rt: &impl Abort,
    alloc: Global,
    plan: &Plan<'_>,
) -> Server<OpenWorld, MemTree<OpenWorld>, MemDoor, Both> {
    let inputs = [Ask::Tool.request(), STAYS, STAYS];
    let doors = vec![in alloc; door(rt, alloc, &inputs)].expect(rt, "memory");
    let gate = within_a_pass(rt, alloc);
    around(rt, alloc, changing(rt, alloc), doors, gate, plan, 2)
}

/// The file that came isn't found while its load is held, and the one that stays is sent.
fn all_answered(rt: &impl Abort, alloc: Global, door: &MemDoor) {
    let stayed = reply_with(rt, alloc, STAYED, Sample::FirstLibrary);
    has_ended(rt, door, 3);
    is_answered(rt, door, 0, NOT_FOUND);
    is_answered(rt, door, 1, stayed.as_slice());
    is_answered(rt, door, 2, stayed.as_slice());
}

/// Runs the server over a store of a plan, and compares what comes of it.
fn serve_over<Rt: Threads + Wait + Sync + Abort>(
    rt: &Rt,
    alloc: Global,
    plan: &Plan<'_>,
    case: &Run<'_>,
) {
    let mut server = server(rt, alloc, plan);
    serve(rt, alloc, &mut server, case, &[1, 1, 1]);
    assert!(rt; server.gate.first.met(), "the pass came before the request");
    assert!(rt;
        server.gate.second.met(),
        "the request came before the pass went on"
    );
    for door in &server.doors {
        all_answered(rt, alloc, door);
    }
}

const SERVE: &[&str] = &["serve", "-d", "m", "-c", "1", "-t", "1", "/srv"];

/// What is said where nothing fails.
static SOUND_RUN: Run = Run(
    SERVE,
    b"serving on 8002 with 1 workers\n\
        scan: 3 files, 3 added, 0 replaced, 0 dropped, 0 kept, 1 executables, 1 debuginfo\n\
        scan: 3 files, 1 added, 1 replaced, 1 dropped, 1 kept, 2 executables, 1 debuginfo\n\
        scan: 3 files, 0 added, 0 replaced, 0 dropped, 3 kept, 2 executables, 1 debuginfo\n",
    "",
    0,
);

/// What is said where the store fails in the second pass: the third one finds a broken index.
static BROKEN_RUN: Run = Run(
    SERVE,
    b"serving on 8002 with 1 workers\n\
        scan: 3 files, 3 added, 0 replaced, 0 dropped, 0 kept, 1 executables, 1 debuginfo\n",
    "dbgd: fault store\ndbgd: fault store\n",
    1,
);

/// The store's calls in the second pass, or the first three of them: its opening, its rows and three
/// puts come before, and of the changes that follow one adds, one replaces and one drops a row.
static CALLS: [u64; 3] = [5, 6, 7];

#[test]
fn requests_are_answered_while_the_store_fails(rt: HostRuntime) {
    let alloc = rt.alloc();
    serve_over(&rt, alloc, &SOUND, &SOUND_RUN);
    for call in &CALLS {
        let once = Plan {
            bad_calls: &[*call],
            ..SOUND
        };
        serve_over(&rt, alloc, &once, &BROKEN_RUN);
        let from_there = Plan {
            stop_at: Some(*call),
            ..SOUND
        };
        serve_over(&rt, alloc, &from_there, &BROKEN_RUN);
    }
}
