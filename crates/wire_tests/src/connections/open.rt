//! Connections by an index of one file and its source in the open world: `/srv/bin/tool` and
//! `/w/main.c`.

use crate::connections::helpers::{Plan, conn, report_by, whole};
use crate::connections::texts::{file_head, request};
use crate::files::file_at;
use conn_server::ConnEnd;
use http_wire::MemConn;
use index_state::Published;
use row_types::{Name, OpenWorld, TrueRow};
use sample_files::{ID_C, executable};
use sample_index::{Index, passing};
use sample_rows::{elf, name, row};
use std::alloc::Global;
use std::process::Abort;
use std::sync::Wait;
use tree_trait::{MemTree, Script};

/// The id of the file.
const C: &str = "404142434445464748494a4b4c4d4e4f50515253";

/// The names that are listed.
fn listed(rt: &impl Abort, alloc: Global) -> Vec<Name> {
    let name = name(alloc, "/srv/bin/tool", 1).expect(rt, "a canonical path");
    vec![in alloc; name].expect(rt, "memory")
}

/// The row of the file.
fn row_of(rt: &impl Abort, alloc: Global) -> TrueRow<OpenWorld> {
    let found = elf(alloc, &ID_C, true, false, &["/w/main.c"]).expect(rt, "a reading");
    row(alloc, "/srv/bin/tool", 1, found).expect(rt, "a row")
}

/// The index of the file.
fn index(rt: &impl Abort, alloc: Global) -> Index<OpenWorld> {
    let mut index = passing(alloc, None, listed(rt, alloc), "/").expect(rt, "an index");
    let row = row_of(rt, alloc);
    assert!(rt; index.publish(alloc, row) == Published::Added);
    index
}

/// The tree with these bytes of the file and of its source, of which the calls of these numbers fail.
pub fn tree(
    rt: &impl Abort,
    alloc: Global,
    file: Vec<u8>,
    source: Vec<u8>,
    bad_calls: &[u64],
) -> MemTree<OpenWorld> {
    let file = file_at(rt, alloc, "/srv/bin/tool", file);
    let source = file_at(rt, alloc, "/w/main.c", source);
    let files = vec![in alloc; file, source].expect(rt, "memory");
    let script = Script {
        stages: vec![in alloc; files].expect(rt, "memory"),
        moves: Vec::new(alloc),
        bad_calls: Vec::from_slice(alloc, bad_calls).expect(rt, "memory"),
    };
    MemTree::new(alloc, script)
}

/// What comes of one request of the id by a hand: the connection, of which the writes of these numbers
/// fail, how many bytes of bodies are told, if the request is, and the end.
pub fn ask<R: Abort + Wait + Sync>(
    rt: &R,
    alloc: Global,
    hand: &mut MemTree<OpenWorld>,
    method: &str,
    rest: &str,
    bad_writes: &[u64],
) -> (MemConn, Option<u64>, ConnEnd) {
    let input = request(alloc, method, C, rest).expect(rt, "memory");
    let plan = Plan {
        bad_writes,
        ..whole(input.as_str())
    };
    let mut conn = conn(rt, alloc, &plan);
    let report = report_by(rt, alloc, index(rt, alloc), hand, &mut conn);
    let told = report.served.as_slice().first().map(|served| served.len);
    (conn, told, report.end)
}

/// The sample executable, made longer to so many bytes, each of which says where it stands.
pub fn longer(rt: &impl Abort, alloc: Global, len: usize) -> Vec<u8> {
    let mut bytes = executable(alloc).expect(rt, "memory");
    for at in bytes.len()..len {
        bytes.push((at % 251) as u8).expect(rt, "memory");
    }
    bytes
}

/// A reply with so many bytes in all, of which the last are missing: the head, and these of the body.
pub fn reply(rt: &impl Abort, alloc: Global, len: usize, path: &str, body: &[u8]) -> Vec<u8> {
    let head = file_head(alloc, len, path).expect(rt, "memory");
    let mut reply = head.into_bytes();
    reply.extend_from_slice(body).expect(rt, "memory");
    reply
}
