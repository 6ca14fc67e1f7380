//! What servers say over doors and a clock in memory, and how they end.

use crate::runs::hands::Files::Two;
use crate::runs::rig::{Run, SOUND, words_of};
use crate::runs::serves_replies::NO_ROUTE;
use crate::runs::serves_rig::{Server, around, doors, hands, has_ended, is_answered, serve};
use dbgd_run::needs;
use http_wire::MemDoor;
use row_types::OpenWorld;
use std::alloc::Global;
use std::process::Abort;
use std::sync::Wait;
use std::thread::Threads;
use tree_trait::{MemTree, NoGate};

/// A server over two files that never change: its doors, at each of which a connection asks for no
/// route, how many hands its words need, how often the clock says Again, what is said, and the waits.
struct Case {
    doors: usize,
    hands: u64,
    rounds: u64,
    run: Run<'static>,
    waits: &'static [u64],
}

/// A server needs two hands, and two for each door.
static CASES: [Case; 5] = [
    // With no time between passes there is one, and the clock isn't asked.
    Case {
        doors: 1,
        hands: 4,
        rounds: 5,
        run: Run(
            &[
                "serve", "-d", "m", "-c", "1", "-p", "8003", "-t", "0", "/srv",
            ],
            b"serving on 8003 with 1 workers\n\
                scan: 2 files, 2 added, 0 replaced, 0 dropped, 0 kept, 1 executables, 1 debuginfo\n",
            "",
            0,
        ),
        waits: &[],
    },
    // Four workers, port 8002 and five minutes where nothing else is said.
    Case {
        doors: 4,
        hands: 10,
        rounds: 0,
        run: Run(
            &["serve", "-d", "m", "/srv"],
            b"serving on 8002 with 4 workers\n\
                scan: 2 files, 2 added, 0 replaced, 0 dropped, 0 kept, 1 executables, 1 debuginfo\n",
            "",
            0,
        ),
        waits: &[300],
    },
    Case {
        doors: 2,
        hands: 6,
        rounds: 2,
        run: Run(
            &[
                "serve", "-d", "m", "-c", "2", "-p", "8003", "-t", "86400", "-F", "/srv",
            ],
            b"serving on 8003 with 2 workers\n\
                scan: 2 files, 2 added, 0 replaced, 0 dropped, 0 kept, 1 executables, 1 debuginfo\n\
                scan: 2 files, 0 added, 0 replaced, 0 dropped, 2 kept, 1 executables, 1 debuginfo\n\
                scan: 2 files, 0 added, 0 replaced, 0 dropped, 2 kept, 1 executables, 1 debuginfo\n",
            "",
            0,
        ),
        waits: &[86400, 86400, 86400],
    },
    // A folder that isn't there ends no server.
    Case {
        doors: 1,
        hands: 4,
        rounds: 1,
        run: Run(
            &[
                "serve", "-d", "m", "-c", "1", "-p", "8003", "-t", "60", "/none",
            ],
            b"serving on 8003 with 1 workers\n",
            "dbgd: gone /none\ndbgd: gone /none\n",
            0,
        ),
        waits: &[60, 60],
    },
    // Of the two files it selects one.
    Case {
        doors: 1,
        hands: 4,
        rounds: 1,
        run: Run(
            &[
                "serve", "-d", "m", "-c", "1", "-p", "8003", "-t", "60", "-I", "/a$", "/srv",
            ],
            b"serving on 8003 with 1 workers\n\
                scan: 1 files, 1 added, 0 replaced, 0 dropped, 0 kept, 1 executables, 1 debuginfo\n\
                scan: 1 files, 0 added, 0 replaced, 0 dropped, 1 kept, 1 executables, 1 debuginfo\n",
            "",
            0,
        ),
        waits: &[60, 60],
    },
];

/// A server with a pattern that is refused.
static REFUSED: Run = Run(
    &["serve", "-d", "m", "-c", "1", "-X", "(", "/srv"],
    b"",
    "usage: dbgd ident FILE, sources FILE, section FILE NAME, query -d DB ID, \
        scan -d DB DIR, serve -d DB DIR, trial SEED FILES WORKERS\n",
    2,
);

/// A server with so many doors, at each of which a connection asks for no route.
fn server(
    rt: &impl Abort,
    alloc: Global,
    count: usize,
    rounds: u64,
) -> Server<OpenWorld, MemTree<OpenWorld>, MemDoor, NoGate> {
    let inputs: [&[&str]; 4] = [&["GET /a HTTP/1.1\r\n\r\n"]; 4];
    let doors = doors(rt, alloc, inputs.get(..count).expect(rt, "at most four"));
    around(
        rt,
        alloc,
        hands(rt, alloc, &Two, 10),
        doors,
        NoGate,
        &SOUND,
        rounds,
    )
}

/// How many hands these words need.
fn hands_for(rt: &impl Abort, alloc: Global, words: &[&str]) -> u64 {
    let words = words_of(rt, alloc, words);
    needs(alloc, words.as_slice()).expect(rt, "memory").hands
}

/// Runs a server, and compares what comes of it.
fn serve_case<Rt: Threads + Wait + Sync + Abort>(rt: &Rt, alloc: Global, case: &Case) {
    assert!(rt; hands_for(rt, alloc, case.run.0) == case.hands, "hands");
    let mut server = server(rt, alloc, case.doors, case.rounds);
    serve(rt, alloc, &mut server, &case.run, case.waits);
    for door in &server.doors {
        has_ended(rt, door, 1);
        is_answered(rt, door, 0, NO_ROUTE);
    }
}

#[test]
fn a_server_with_a_refused_pattern_serves_nothing(rt: HostRuntime) {
    let alloc = rt.alloc();
    let mut server = server(&rt, alloc, 1, 5);
    serve(&rt, alloc, &mut server, &REFUSED, &[]);
    for door in &server.doors {
        has_ended(&rt, door, 0);
    }
}

#[test]
fn a_server_says_what_it_does_and_how_it_ends(rt: HostRuntime) {
    for case in &CASES {
        serve_case(&rt, rt.alloc(), case);
    }
}
