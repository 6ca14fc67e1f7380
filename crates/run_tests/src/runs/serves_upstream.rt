//! Servers that ask other ones for what their index doesn't have.

use crate::runs::hands::Files::Alone;
use crate::runs::rig::{Run, SOUND};
use crate::runs::serves_replies::{NOT_FOUND, reply_with};
use crate::runs::serves_rig::{Server, around, doors, hands, has_ended, is_answered, serve};
use federation::{LinkAnswer, MemLink};
use http_wire::MemDoor;
use row_types::OpenWorld;
use sample_world::Sample;
use std::alloc::Global;
use std::process::Abort;
use std::sync::Wait;
use std::thread::Threads;
use tree_trait::{MemTree, NoGate};

/// What a link answers.
#[derive(Clone, Copy)]
enum Said {
    /// The file of a sample, with status 200.
    File(Sample),
    /// The letters of a word, with status 200.
    Word,
    /// Nothing, with status 404.
    Missing,
    /// That it failed.
    Failed,
    /// That memory was refused.
    NoMemory,
}

/// The requests for the tool, for its code, and for a source.
const TOOL: &str =
    "GET /buildid/404142434445464748494a4b4c4d4e4f50515253/executable HTTP/1.1\r\n\r\n";

const CODE: &str =
    "GET /buildid/404142434445464748494a4b4c4d4e4f50515253/section/.text HTTP/1.1\r\n\r\n";

const SOURCE: &str = "GET /buildid/202122232425262728292a2b2c2d2e2f30313233/source/w/src/main.c \
    HTTP/1.1\r\n\r\n";

/// The request for the tool behind eight forwarders.
const FAR: &str = "GET /buildid/404142434445464748494a4b4c4d4e4f50515253/executable HTTP/1.1\r\n\
    X-Forwarded-For: a, b, c, d, e, f, g, h\r\n\r\n";

/// The front of the reply that sends the tool, without a path.
const FOUND: &[u8] = b"HTTP/1.1 200 OK\r\nContent-Type: application/octet-stream\r\n\
    Content-Length: 408\r\nX-DEBUGINFOD-SIZE: 408\r\nConnection: keep-alive\r\n\r\n";

/// The reply that sends the tool's code.
const FOUND_CODE: &[u8] = b"HTTP/1.1 200 OK\r\nContent-Type: application/octet-stream\r\n\
    Content-Length: 1\r\nX-DEBUGINFOD-SIZE: 1\r\nConnection: keep-alive\r\n\r\n\xc3";

/// The reply that sends the word.
const FOUND_WORD: &[u8] = b"HTTP/1.1 200 OK\r\nContent-Type: application/octet-stream\r\n\
    Content-Length: 3\r\nX-DEBUGINFOD-SIZE: 3\r\nConnection: keep-alive\r\n\r\nint";

const HOP_LIMIT: &[u8] = b"HTTP/1.1 404 Not Found\r\nContent-Type: text/plain\r\n\
    Content-Length: 10\r\nConnection: keep-alive\r\n\r\nhop limit\n";

const UPSTREAM_FAULT: &[u8] = b"HTTP/1.1 502 Bad Gateway\r\nContent-Type: text/plain\r\n\
    Content-Length: 15\r\nConnection: keep-alive\r\n\r\nupstream fault\n";

const OUT_OF_MEMORY: &[u8] = b"HTTP/1.1 507 Insufficient Storage\r\nContent-Type: text/plain\r\n\
    Content-Length: 14\r\nConnection: keep-alive\r\n\r\nout of memory\n";

/// A request, what each link answers in order, how often each is asked, and the reply: its front, and the
/// file behind it.
struct Case(
    &'static str,
    &'static [&'static [Said]],
    &'static [usize],
    &'static [u8],
    Option<Sample>,
);

static CASES: [Case; 11] = [
    Case(
        TOOL,
        &[
            &[Said::File(Sample::FirstLibrary)],
            &[Said::File(Sample::Tool)],
        ],
        &[1, 1],
        FOUND,
        Some(Sample::Tool),
    ),
    Case(
        TOOL,
        &[&[Said::File(Sample::Tool)], &[Said::File(Sample::Tool)]],
        &[1, 0],
        FOUND,
        Some(Sample::Tool),
    ),
    Case(
        FAR,
        &[&[Said::File(Sample::Tool)], &[]],
        &[0, 0],
        HOP_LIMIT,
        None,
    ),
    Case(
        TOOL,
        &[&[Said::Missing], &[Said::Missing]],
        &[1, 1],
        NOT_FOUND,
        None,
    ),
    Case(
        TOOL,
        &[&[Said::Missing], &[Said::Failed]],
        &[1, 1],
        UPSTREAM_FAULT,
        None,
    ),
    Case(
        TOOL,
        &[&[Said::Failed], &[Said::Failed]],
        &[1, 1],
        UPSTREAM_FAULT,
        None,
    ),
    Case(
        TOOL,
        &[&[Said::Failed], &[Said::File(Sample::Tool)]],
        &[1, 1],
        FOUND,
        Some(Sample::Tool),
    ),
    Case(
        CODE,
        &[
            &[Said::Missing, Said::Missing],
            &[Said::File(Sample::ToolDebug), Said::File(Sample::Tool)],
        ],
        &[2, 2],
        FOUND_CODE,
        None,
    ),
    Case(SOURCE, &[&[Said::Word], &[]], &[1, 0], FOUND_WORD, None),
    Case(SOURCE, &[&[Said::Word]], &[1], FOUND_WORD, None),
    Case(
        TOOL,
        &[&[Said::NoMemory], &[Said::File(Sample::Tool)]],
        &[0, 0],
        OUT_OF_MEMORY,
        None,
    ),
];

/// A server that asks two others. Its index is empty, since its folder is gone.
static ASKING: Run = Run(
    &[
        "serve",
        "-d",
        "m",
        "-c",
        "1",
        "-t",
        "0",
        "--upstream",
        "http://a:8002 http://b",
        "/none",
    ],
    b"serving on 8002 with 1 workers\n",
    "dbgd: gone /none\n",
    0,
);

/// The same server, which asks one other.
static ASKING_ONE: Run = Run(
    &[
        "serve",
        "-d",
        "m",
        "-c",
        "1",
        "-t",
        "0",
        "--upstream",
        "http://a:8002",
        "/none",
    ],
    b"serving on 8002 with 1 workers\n",
    "dbgd: gone /none\n",
    0,
);

/// A server over doors and links in memory.
type Asking = Server<OpenWorld, MemTree<OpenWorld>, MemDoor, NoGate>;

/// What a link answers.
fn answer_of(rt: &impl Abort, alloc: Global, said: Said) -> LinkAnswer {
    match said {
        Said::File(sample) => LinkAnswer::Reply {
            status: 200,
            body: sample.bytes(alloc).expect(rt, "memory"),
        },
        Said::Word => LinkAnswer::Reply {
            status: 200,
            body: Vec::from_slice(alloc, b"int").expect(rt, "memory"),
        },
        Said::Missing => LinkAnswer::Reply {
            status: 404,
            body: Vec::new(alloc),
        },
        Said::Failed => LinkAnswer::Failed,
        Said::NoMemory => LinkAnswer::OutOfMemory,
    }
}

/// A link that answers so in turn.
fn link_of(rt: &impl Abort, alloc: Global, said: &[Said]) -> MemLink {
    let mut answers = Vec::new(alloc);
    for one in said {
        let pushed = answers.push(answer_of(rt, alloc, *one));
        assert!(rt; pushed.is_ok(), "memory");
    }
    MemLink::new(alloc, answers)
}

/// A row of links.
fn row_of(rt: &impl Abort, alloc: Global, said: &[&[Said]]) -> Vec<MemLink> {
    let mut links = Vec::new(alloc);
    for one in said {
        let pushed = links.push(link_of(rt, alloc, one));
        assert!(rt; pushed.is_ok(), "memory");
    }
    links
}

/// Rows of links, one for each of these.
fn rows_of(rt: &impl Abort, alloc: Global, said: &[&[&[Said]]]) -> Vec<Vec<MemLink>> {
    let mut rows = Vec::new(alloc);
    for one in said {
        let pushed = rows.push(row_of(rt, alloc, one));
        assert!(rt; pushed.is_ok(), "memory");
    }
    rows
}

/// A server with these doors and rows of links.
fn server_of(
    rt: &impl Abort,
    alloc: Global,
    inputs: &[&[&str]],
    said: &[&[&[Said]]],
    count: u64,
) -> Asking {
    let hands = hands(rt, alloc, &Alone, count);
    let doors = doors(rt, alloc, inputs);
    let mut server = around(rt, alloc, hands, doors, NoGate, &SOUND, 0);
    server.links = rows_of(rt, alloc, said);
    server
}

/// Each link of a row was asked so often.
fn are_asked(rt: &impl Abort, row: &[MemLink], counts: &[usize]) {
    assert!(rt; row.len() == counts.len(), "{} links", row.len());
    for (link, count) in row.iter().zip(counts) {
        let asked = link.asked();
        assert!(rt; asked.len() == *count, "{} questions", asked.len());
    }
}

/// A door had one connection, with this reply.
fn has_reply(rt: &impl Abort, door: &MemDoor, wanted: &[u8]) {
    has_ended(rt, door, 1);
    is_answered(rt, door, 0, wanted);
}

/// The reply of a case.
fn wanted_of(rt: &impl Abort, alloc: Global, case: &Case) -> Vec<u8> {
    let Case(_, _, _, front, file) = case;
    match file {
        Some(sample) => reply_with(rt, alloc, *front, *sample),
        None => Vec::from_slice(alloc, *front).expect(rt, "memory"),
    }
}

/// Asks, and compares the reply and how often each link was asked.
fn ask<Rt: Threads + Wait + Sync + Abort>(rt: &Rt, alloc: Global, case: &Case) {
    let Case(request, said, counts, _, _) = case;
    let mut server = server_of(rt, alloc, &[&[*request]], &[*said], 4);
    let run = if said.len() == 1 {
        &ASKING_ONE
    } else {
        &ASKING
    };
    serve(rt, alloc, &mut server, run, &[]);
    let wanted = wanted_of(rt, alloc, case);
    for door in server.doors.as_slice() {
        has_reply(rt, door, wanted.as_slice());
    }
    for row in server.links.as_slice() {
        are_asked(rt, row.as_slice(), *counts);
    }
}

#[test]
fn what_is_not_here_is_asked_of_others(rt: HostRuntime) {
    for case in &CASES {
        ask(&rt, rt.alloc(), case);
    }
}
