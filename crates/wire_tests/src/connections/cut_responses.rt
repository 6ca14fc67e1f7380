//! What is replied where another server's response is cut off at each byte.

use crate::connections::helpers::{conn, report_without_rows, whole};
use crate::connections::texts::{given_head, text_reply};
use federation::{HttpLink, Link};
use http_wire::MemConn;
use sample_world::Sample;
use std::alloc::Global;
use std::process::Abort;
use std::sync::Wait;
use upstream_wire::MemDial;

/// The request for the program of the id C.
const ASKED: &str =
    "GET /buildid/404142434445464748494a4b4c4d4e4f50515253/executable HTTP/1.1\r\n\r\n";

/// A head, and the program behind it.
fn with_program(rt: &impl Abort, alloc: Global, head: &[u8]) -> Vec<u8> {
    let mut bytes = Vec::from_slice(alloc, head).expect(rt, "memory");
    let program = Sample::Tool.bytes(alloc).expect(rt, "memory");
    bytes
        .extend_from_slice(program.as_slice())
        .expect(rt, "memory");
    bytes
}

/// The response that is cut, of 40 bytes and the program's 408.
fn response(rt: &impl Abort, alloc: Global) -> Vec<u8> {
    with_program(rt, alloc, b"HTTP/1.1 200 OK\r\nContent-Length: 408\r\n\r\n")
}

/// The reply that sends the program.
fn found(rt: &impl Abort, alloc: Global) -> Vec<u8> {
    let head = given_head(alloc, 408).expect(rt, "memory");
    with_program(rt, alloc, head.as_bytes())
}

/// A dial whose one connection gives these bytes.
fn dial(rt: &impl Abort, alloc: Global, bytes: &[u8]) -> MemDial {
    let bytes = Vec::from_slice(alloc, bytes).expect(rt, "memory");
    let conn = MemConn::new(
        alloc,
        bytes,
        Vec::new(alloc),
        Vec::new(alloc),
        Vec::new(alloc),
    );
    MemDial::new(alloc, vec![in alloc; conn].expect(rt, "memory"))
}

/// The link of another server that answers with these bytes.
fn link(rt: &impl Abort, alloc: Global, bytes: &[u8]) -> HttpLink<MemDial> {
    HttpLink::new(
        dial(rt, alloc, bytes),
        String::from_str(alloc, "h").expect(rt, "memory"),
        80,
        String::new(alloc),
    )
}

/// That link alone.
fn links_of(rt: &impl Abort, alloc: Global, bytes: &[u8]) -> Vec<HttpLink<MemDial>> {
    vec![in alloc; link(rt, alloc, bytes)].expect(rt, "memory")
}

/// Whether the request, served by an index without rows and by links, has this reply and no other.
fn is_replied<L: Link, R: Abort + Wait + Sync>(
    rt: &R,
    alloc: Global,
    links: &mut [L],
    wanted: &[u8],
) -> bool {
    let mut conn = conn(rt, alloc, &whole(ASKED));
    let served = report_without_rows(rt, alloc, &mut conn, links)
        .served
        .len();
    served == 1 && conn.written() == Some(wanted)
}

/// How often the first of links failed.
fn faults_of(links: &[HttpLink<MemDial>]) -> u64 {
    match links {
        [link, ..] => link.count(),
        [] => 0,
    }
}

/// Whether the request is answered so where another server's response has these bytes, and how often its
/// link failed.
fn answer<R: Abort + Wait + Sync>(
    rt: &R,
    alloc: Global,
    bytes: &[u8],
    wanted: &[u8],
) -> (bool, u64) {
    let mut links = links_of(rt, alloc, bytes);
    let is_wanted = is_replied(rt, alloc, links.as_mut_slice(), wanted);
    (is_wanted, faults_of(links.as_slice()))
}

/// How many fronts of these bytes are answered by this fault of the link.
fn faults<R: Abort + Wait + Sync>(rt: &R, alloc: Global, bytes: &[u8], fault: &[u8]) -> usize {
    let mut faults: usize = 0;
    for len in 0..bytes.len() {
        let front = bytes.get(..len).expect(rt, "a front");
        if answer(rt, alloc, front, fault) == (true, 1) {
            faults = faults.saturating_add(1);
        }
    }
    faults
}

/// How many fronts of the response are answered by 502.
fn faults_of_fronts<R: Abort + Wait + Sync>(rt: &R, alloc: Global, bytes: &[u8]) -> usize {
    let status = "502 Bad Gateway";
    let fault = text_reply(rt, alloc, status, "upstream fault", "keep-alive");
    faults(rt, alloc, bytes, fault.as_bytes())
}

/// Whether the whole response is sent, and its link didn't fail.
fn is_sent<R: Abort + Wait + Sync>(rt: &R, alloc: Global, bytes: &[u8]) -> bool {
    let found = found(rt, alloc);
    answer(rt, alloc, bytes, found.as_slice()) == (true, 0)
}

#[test]
fn a_response_that_is_cut_at_any_byte_is_a_fault(rt: HostRuntime) {
    let bytes = response(&rt, rt.alloc());
    let faults = faults_of_fronts(&rt, rt.alloc(), bytes.as_slice());
    let is_sent = is_sent(&rt, rt.alloc(), bytes.as_slice());
    assert!(rt; faults == 448 && bytes.len() == 448 && is_sent, "{faults}");
}
