//! Questions to other servers over a dial in memory: what is written, and what comes of the answers.

use federation::{HttpLink, Link, LinkAnswer, MemLink, Upstream, ask_all};
use http_wire::MemConn;
use row_types::{BuildId, CanonPath};
use sample_files::{ID_C, both_classes, debug_companion, executable};
use std::alloc::{AllocError, Global};
use std::fmt::Write;
use std::process::Abort;
use std::sync::Wait;
use upstream_wire::MemDial;
use webapi_routes::{Route, SectionName};

/// What a connection to another server holds.
#[derive(Clone, Copy)]
enum Held {
    /// A response of status 404.
    Missing,
    /// The program of the id C.
    Program,
    /// A file of the id A.
    Other,
    /// The debug file of the id C, whose code stands elsewhere.
    Companion,
    /// A text, and bytes behind it.
    Text,
    /// The program, with another status.
    Created,
    /// A text in chunks.
    Chunks,
    /// Nothing.
    Silence,
}

/// A response of a file.
fn file_response(
    rt: &impl Abort,
    alloc: Global,
    head: &[u8],
    file: Result<Vec<u8>, AllocError>,
) -> Vec<u8> {
    let mut bytes = Vec::from_slice(alloc, head).expect(rt, "memory");
    let file = file.expect(rt, "memory");
    bytes
        .extend_from_slice(file.as_slice())
        .expect(rt, "memory");
    bytes
}

/// The bytes that a connection holds.
fn bytes_of(rt: &impl Abort, alloc: Global, held: Held) -> Vec<u8> {
    let ok = b"HTTP/1.1 200 OK\r\n\r\n";
    match held {
        Held::Missing => Vec::from_slice(
            alloc,
            b"HTTP/1.1 404 No\r\nContent-Length: 0\r\n\r\n",
        ).expect(rt, "memory"),
        Held::Program => file_response(rt, alloc, ok, executable(alloc)),
        Held::Other => file_response(rt, alloc, ok, both_classes(alloc)),
        Held::Companion => file_response(rt, alloc, ok, debug_companion(alloc)),
        Held::Text => Vec::from_slice(
            alloc,
            b"HTTP/1.1 200 OK\r\nContent-Length: 3\r\n\r\nintXYZ",
        ).expect(rt, "memory"),
        Held::Created => file_response(rt, alloc, b"HTTP/1.1 201 OK\r\n\r\n", executable(alloc)),
        Held::Chunks => Vec::from_slice(
            alloc,
            b"HTTP/1.1 200 OK\r\nTransfer-Encoding: chunked\r\n\r\n3\r\nabc\r\n0\r\n\r\n",
        )
        .expect(rt, "memory"),
        Held::Silence => Vec::new(alloc),
    }
}

/// A connection that holds this, and of which the write and the read of these numbers fail.
fn conn_of(rt: &impl Abort, alloc: Global, held: Held, bad_write: u64, bad_read: u64) -> MemConn {
    MemConn::new(
        alloc,
        bytes_of(rt, alloc, held),
        Vec::new(alloc),
        vec![in alloc; bad_read].expect(rt, "memory"),
        vec![in alloc; bad_write].expect(rt, "memory"),
    )
}

/// The server at port 8002 of a host that answers so, a connection a question.
fn link_of(
    rt: &impl Abort,
    alloc: Global,
    held: &[Held],
    bad_write: u64,
    bad_read: u64,
) -> HttpLink<MemDial> {
    let mut conns = Vec::new(alloc);
    for one in held {
        let pushed = conns.push(conn_of(rt, alloc, *one, bad_write, bad_read));
        assert!(rt; pushed.is_ok(), "memory");
    }
    HttpLink::new(
        MemDial::new(alloc, conns),
        String::from_str(alloc, "h.example").expect(rt, "memory"),
        8002,
        String::from_str(alloc, "/up").expect(rt, "memory"),
    )
}

/// What is asked of the id C.
#[derive(Clone, Copy)]
enum Wanted {
    Executable,
    Code,
    Source,
}

/// The route of it.
fn route_of(rt: &impl Abort, alloc: Global, wanted: Wanted) -> Route {
    let id = BuildId::new(&ID_C).expect(rt, "20 bytes are an id");
    match wanted {
        Wanted::Executable => Route::Executable(id),
        Wanted::Code => {
            let name = Vec::from_slice(alloc, b".text").expect(rt, "memory");
            Route::Section(id, SectionName::new(name))
        }
        Wanted::Source => {
            let text = String::from_str(alloc, "/w/main.c").expect(rt, "memory");
            match CanonPath::check(text) {
                Ok(path) => Route::Source(id, path),
                Err(_) => panic!(rt; "a canonical path"),
            }
        }
    }
}

/// What is told, as a text.
fn text_of(rt: &impl Abort, alloc: Global, told: &Upstream) -> String {
    let mut text = String::new(alloc);
    let written = match told {
        Upstream::File(file) => write!(text, "file of {}", file.bytes().len()),
        Upstream::Section(section) => write!(text, "section {:?}", section.bytes()),
        Upstream::Source(bytes) => write!(text, "source {:?}", bytes.as_slice()),
        Upstream::Nobody { refused, failed } => write!(text, "nobody {refused} {failed}"),
        Upstream::HopLimit => write!(text, "hop limit"),
        Upstream::OutOfMemory => write!(text, "memory"),
    };
    written.expect(rt, "memory");
    text
}

/// Links, what each answers in turn, and what is told.
#[derive(Clone, Copy)]
struct Case(Wanted, u64, &'static [&'static [Held]], &'static str);

static CASES: [Case; 14] = [
    Case(
        Wanted::Executable,
        0,
        &[&[Held::Other], &[Held::Program]],
        "file of 408",
    ),
    Case(
        Wanted::Executable,
        7,
        &[&[Held::Program], &[Held::Other]],
        "file of 408",
    ),
    Case(
        Wanted::Executable,
        0,
        &[&[Held::Missing], &[Held::Missing]],
        "nobody 2 0",
    ),
    Case(
        Wanted::Executable,
        0,
        &[&[Held::Missing], &[]],
        "nobody 1 1",
    ),
    Case(
        Wanted::Executable,
        0,
        &[&[Held::Silence], &[]],
        "nobody 0 2",
    ),
    Case(
        Wanted::Executable,
        0,
        &[&[], &[Held::Program]],
        "file of 408",
    ),
    Case(Wanted::Executable, 0, &[&[Held::Created]], "nobody 1 0"),
    Case(Wanted::Executable, 0, &[&[Held::Companion]], "nobody 1 0"),
    Case(Wanted::Executable, 8, &[&[Held::Program]], "hop limit"),
    Case(Wanted::Executable, 8, &[], "nobody 0 0"),
    Case(
        Wanted::Source,
        0,
        &[&[Held::Text]],
        "source [105, 110, 116]",
    ),
    Case(Wanted::Source, 0, &[&[Held::Chunks]], "source [97, 98, 99]"),
    Case(
        Wanted::Code,
        0,
        &[&[Held::Companion, Held::Program]],
        "section [195]",
    ),
    Case(
        Wanted::Code,
        0,
        &[&[Held::Missing], &[Held::Missing, Held::Program]],
        "section [195]",
    ),
];

/// The links that answer so.
fn links_of(rt: &impl Abort, alloc: Global, held: &[&[Held]]) -> Vec<HttpLink<MemDial>> {
    let mut links = Vec::new(alloc);
    for one in held {
        let pushed = links.push(link_of(rt, alloc, one, 9, 9));
        assert!(rt; pushed.is_ok(), "memory");
    }
    links
}

/// What links tell of the route.
fn told_by<R: Abort + Wait + Sync>(
    rt: &R,
    alloc: Global,
    links: &mut [HttpLink<MemDial>],
    wanted: Wanted,
    hops: u64,
) -> String {
    let route = route_of(rt, alloc, wanted);
    let told = ask_all(rt, alloc, links, &route, hops);
    text_of(rt, alloc, &told)
}

/// What the links of a case tell.
fn told_of<R: Abort + Wait + Sync>(rt: &R, alloc: Global, case: &Case) -> String {
    let Case(wanted, hops, held, _) = case;
    let mut links = links_of(rt, alloc, held);
    told_by(rt, alloc, links.as_mut_slice(), *wanted, *hops)
}

#[test]
fn the_first_answer_that_passes_is_told(rt: HostRuntime) {
    for case in &CASES {
        let text = told_of(&rt, rt.alloc(), case);
        assert!(rt; text.as_str() == case.3, "{text} at {}", case.3);
    }
}

/// The request of a question that came through two forwarders.
static REQUEST: &[u8] =
    b"GET /up/buildid/404142434445464748494a4b4c4d4e4f50515253/executable HTTP/1.1\r\nHost: h.example:8002\r\nAccept-Encoding: identity\r\nX-Forwarded-For: unknown, unknown, unknown\r\nConnection: close\r\n\r\n";

/// Whether a link answers a question for the program with a response.
fn replies<L: Link, R: Abort + Wait + Sync>(rt: &R, alloc: Global, link: &mut L) -> bool {
    let route = route_of(rt, alloc, Wanted::Executable);
    let answer = link.ask(rt, alloc, &route, 2);
    matches!(answer, LinkAnswer::Reply { .. })
}

/// What was written to the connection that ended, and whether there is one alone.
fn is_written(rt: &impl Abort, link: &HttpLink<MemDial>, wanted: &[u8]) {
    let ended = link.dial().ended_conns().expect(rt, "they are told");
    assert!(rt; ended.len() == 1, "one connection");
    assert!(rt; ended[0].written() == Some(wanted), "a request");
}

#[test]
fn a_link_writes_exactly_its_request(rt: HostRuntime) {
    let mut link = link_of(&rt, rt.alloc(), &[Held::Program], 9, 9);
    assert!(rt; replies(&rt, rt.alloc(), &mut link), "a reply");
    assert!(rt; link.count() == 0, "no fault");
    is_written(&rt, &link, REQUEST);
    let asked = link.dial().asked();
    assert!(rt; asked.len() == 1, "one host");
    assert!(rt;
        asked[0].host() == "h.example" && asked[0].port() == 8002,
        "its host"
    );
}

#[test]
fn a_failed_write_gives_the_connection_back(rt: HostRuntime) {
    let mut link = link_of(&rt, rt.alloc(), &[Held::Program], 0, 9);
    assert!(rt; !replies(&rt, rt.alloc(), &mut link), "no reply");
    assert!(rt; link.count() == 1, "a fault of the link");
    is_written(&rt, &link, b"");
    assert!(rt; link.dial().count() == 1, "a fault of the dial");
}

/// The write and the read that fail of the first of two connections that hold the program, how often the first
/// link failed then, and how often the second is asked. The second read finds the end.
#[derive(Clone, Copy)]
struct Failing(u64, u64, u64, usize);

static FAILING: [Failing; 4] = [
    Failing(0, 9, 1, 1),
    Failing(9, 0, 1, 1),
    Failing(9, 1, 1, 1),
    Failing(9, 9, 0, 0),
];

/// Two links with the program, of which the first fails so.
fn failing_links(rt: &impl Abort, alloc: Global, row: &Failing) -> Vec<HttpLink<MemDial>> {
    let mut links = Vec::new(alloc);
    for (bad_write, bad_read) in [(row.0, row.1), (9, 9)] {
        let pushed = links.push(link_of(rt, alloc, &[Held::Program], bad_write, bad_read));
        assert!(rt; pushed.is_ok(), "memory");
    }
    links
}

/// A link and its dial failed so often, and its one connection ended.
fn is_counted(rt: &impl Abort, link: &HttpLink<MemDial>, faults: u64) {
    assert!(rt; link.count() == faults, "{faults} of the link");
    assert!(rt; link.dial().count() == faults, "{faults} of the dial");
    let ended = link.dial().ended_conns().expect(rt, "they are told");
    assert!(rt; ended.len() == 1, "one connection");
}

/// The file is told by two links, of which the first fails so.
fn is_passed_over<R: Abort + Wait + Sync>(rt: &R, alloc: Global, row: &Failing) {
    let mut links = failing_links(rt, alloc, row);
    let text = told_by(rt, alloc, links.as_mut_slice(), Wanted::Executable, 0);
    assert!(rt; text.as_str() == "file of 408", "{text}");
    let links = links.as_slice();
    assert!(rt; links.len() == 2, "two links");
    is_counted(rt, &links[0], row.2);
    assert!(rt; links[1].dial().asked().len() == row.3, "{} asked", row.3);
}

#[test]
fn a_link_that_fails_at_any_call_is_passed_over(rt: HostRuntime) {
    for row in &FAILING {
        is_passed_over(&rt, rt.alloc(), row);
    }
}

/// A link in memory that answers one question.
fn mem_link(rt: &impl Abort, alloc: Global) -> MemLink {
    let mut answers = Vec::new(alloc);
    let pushed = answers.push(LinkAnswer::Reply {
        status: 404,
        body: Vec::new(alloc),
    });
    assert!(rt; pushed.is_ok(), "memory");
    MemLink::new(alloc, answers)
}

#[test]
fn a_link_in_memory_tells_its_questions(rt: HostRuntime) {
    let mut link = mem_link(&rt, rt.alloc());
    assert!(rt; replies(&rt, rt.alloc(), &mut link), "its answer");
    assert!(rt; !replies(&rt, rt.alloc(), &mut link), "then it fails");
    let asked = link.asked();
    assert!(rt; asked.len() == 2, "two questions");
    let target = b"/buildid/404142434445464748494a4b4c4d4e4f50515253/executable";
    assert!(rt;
        asked[1].target() == target.as_slice() && asked[1].hops() == 2,
        "the second"
    );
}
