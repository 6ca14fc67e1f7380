//! The counters of a server: its workers and its passes count in one table.

use crate::runs::hands::Files::Two;
use crate::runs::rig::{Run, SOUND};
use crate::runs::serves_replies::NOT_FOUND;
use crate::runs::serves_rig::{around, doors, hands, has_ended, is_answered, serve};
use tree_trait::{Hold, TurnGate};

/// A server by two workers over two files, and what it says.
static SERVE: Run = Run(
    &["serve", "-d", "m", "-c", "2", "-t", "0", "/srv"],
    b"serving on 8002 with 2 workers\n\
        scan: 2 files, 2 added, 0 replaced, 0 dropped, 0 kept, 1 executables, 1 debuginfo\n",
    "",
    0,
);

/// A connection of each door: the first asks for an id that nobody has; the second does, too, and then for
/// the counters.
static INPUTS: [&[&str]; 2] = [
    &["GET /buildid/00ff/debuginfo HTTP/1.1\r\n\r\n"],
    &["GET /buildid/00ff/debuginfo HTTP/1.1\r\n\r\nGET /metrics HTTP/1.0\r\n\r\n"],
];

/// The replies on each.
static REPLIES: [&[u8]; 2] = [
    NOT_FOUND,
    b"HTTP/1.1 404 Not Found\r\nContent-Type: text/plain\r\n\
    Content-Length: 10\r\nConnection: keep-alive\r\n\r\nnot found\n\
    HTTP/1.1 200 OK\r\nContent-Type: text/plain\r\nContent-Length: 176\r\n\
    Connection: close\r\n\r\n\
    dbgd_requests_total{route=\"debuginfo\",status=\"404\"} 2\n\
    dbgd_body_bytes_total 20\n\
    dbgd_rows_added_total 2\n\
    dbgd_rows_replaced_total 0\n\
    dbgd_rows_dropped_total 0\n\
    dbgd_passes_total 1\n",
];

#[test]
fn a_worker_s_page_has_what_the_others_and_the_passes_counted(rt: HostRuntime) {
    let alloc = rt.alloc();
    // The second connection is held until the first was answered.
    let gate = TurnGate::new(Hold::Asking(1), Hold::Answered(0), 1_000_000);
    let doors = doors(&rt, alloc, &INPUTS);
    let mut server = around(
        &rt,
        alloc,
        hands(&rt, alloc, &Two, 6),
        doors,
        gate,
        &SOUND,
        0,
    );
    serve(&rt, alloc, &mut server, &SERVE, &[]);
    assert!(rt; server.gate.met());
    for (door, wanted) in server.doors.as_slice().iter().zip(REPLIES.iter()) {
        has_ended(&rt, door, 1);
        is_answered(&rt, door, 0, *wanted);
    }
}
