//! The reference requests, and the whole bytes of their replies.

use crate::connections::helpers::{Plan, compare, whole};
use crate::connections::texts::{file_head, file_reply, request, text_head, text_reply};
use conn_server::ConnEnd;
use sample_world::Sample;
use std::alloc::Global;
use std::process::Abort;
use std::sync::Wait;

/// The ids of `/srv/bin/libx.so`, `/srv/bin/prog`, `/srv/bin/tool` and `/srv/debug/ppc.debug`.
const A: &str = "000102030405060708090a0b0c0d0e0f10111213";

const B: &str = "202122232425262728292a2b2c2d2e2f30313233";

const C: &str = "404142434445464748494a4b4c4d4e4f50515253";

const B_UPPER: &str = "202122232425262728292A2B2C2D2E2F30313233";

const BIG: &str = "a0a1a2a3a4a5a6a7";

/// The id, the rest of the path, the file that is sent, and its path as it is written.
static FILES: [(&str, &str, Sample, &str); 10] = [
    (B, "debuginfo", Sample::Program, "/srv/bin/prog"),
    (B, "executable", Sample::Program, "/srv/bin/prog"),
    (C, "executable", Sample::Tool, "/srv/bin/tool"),
    (C, "debuginfo", Sample::ToolDebug, "/srv/debug/tool.debug"),
    (
        BIG,
        "debuginfo",
        Sample::OtherMachine,
        "/srv/debug/ppc.debug",
    ),
    (A, "executable", Sample::FirstLibrary, "/srv/bin/libx.so"),
    (B_UPPER, "debuginfo", Sample::Program, "/srv/bin/prog"),
    (B, "source/w/src/main.c", Sample::Source, "/w/src/main.c"),
    (
        B,
        "source/w/src/inc/%2e%2e/main.c",
        Sample::Source,
        "/w/src/main.c",
    ),
    (
        B,
        "source/w/src/./x/../m%61in.c?y",
        Sample::Source,
        "/w/src/main.c",
    ),
];

/// A request for what is asked of an id is answered by these bytes, and the connection closes.
fn is_answered<R: Abort + Wait + Sync>(
    rt: &R,
    alloc: Global,
    asked: (&str, &str, &str),
    bad_calls: &[u64],
    wanted: &[u8],
) {
    let (method, id, rest) = asked;
    let asked = request(alloc, method, id, rest).expect(rt, "memory");
    let plan = Plan {
        bad_calls,
        ..whole(asked.as_str())
    };
    compare(rt, alloc, &plan, wanted, 1, ConnEnd::Closed);
}

#[test]
fn a_file_is_sent_with_its_head(rt: HostRuntime) {
    let alloc = rt.alloc();
    for (id, rest, sample, path) in &FILES {
        let wanted = file_reply(&rt, alloc, *sample, path);
        is_answered(&rt, alloc, ("GET", id, rest), &[], wanted.as_slice());
    }
}

#[test]
fn a_section_is_sent_alone(rt: HostRuntime) {
    let alloc = rt.alloc();
    let head = file_head(alloc, 1, "/srv/bin/tool").expect(&rt, "memory");
    let mut wanted = head.into_bytes();
    wanted.push(0xc3).expect(&rt, "memory");
    is_answered(
        &rt,
        alloc,
        ("GET", C, "section/.text"),
        &[],
        wanted.as_slice(),
    );
}

#[test]
fn a_head_alone_is_sent_for_head(rt: HostRuntime) {
    let alloc = rt.alloc();
    let file = file_head(alloc, 1016, "/srv/bin/prog").expect(&rt, "memory");
    is_answered(&rt, alloc, ("HEAD", B, "debuginfo"), &[], file.as_bytes());
    let text = text_head(alloc, "404 Not Found", 9, "keep-alive").expect(&rt, "memory");
    is_answered(&rt, alloc, ("HEAD", B, "nothing"), &[], text.as_bytes());
}

/// Ids, and what is asked of them, that no file answers.
static NOWHERE: [(&str, &str); 5] = [
    (C, "section/.debug_zz"),
    (BIG, "executable"),
    (BIG, "source/w/src/main.c"),
    ("0000", "debuginfo"),
    (B, "source/w/src/other.c"),
];

#[test]
fn what_is_nowhere_is_not_found(rt: HostRuntime) {
    let alloc = rt.alloc();
    let wanted = text_reply(&rt, alloc, "404 Not Found", "not found", "keep-alive");
    for (id, rest) in &NOWHERE {
        is_answered(&rt, alloc, ("GET", id, rest), &[], wanted.as_bytes());
    }
}

#[test]
fn a_failed_opening_is_a_read_fault(rt: HostRuntime) {
    let alloc = rt.alloc();
    let status = "503 Service Unavailable";
    let wanted = text_reply(&rt, alloc, status, "read fault", "keep-alive");
    is_answered(
        &rt,
        alloc,
        ("GET", C, "executable"),
        &[0],
        wanted.as_bytes(),
    );
}
