//! Files that are sent in pieces: how much of a reply is written, and by which calls.

use crate::connections::open::{ask, longer, reply, tree};
use conn_server::{BodyCause, ConnEnd, PIECE};
use http_wire::MemConn;
use std::alloc::Global;
use std::process::Abort;
use std::sync::Wait;

/// How many bytes the file has, the calls of the hand and the writes that fail, how many bytes of the
/// file are written, and the end.
type Case = (usize, &'static [u64], &'static [u64], usize, ConnEnd);

/// A piece has 65,536 bytes, and the longest of these files two whole ones and 100 bytes more. The
/// opening of the file is the hand's call 0, and the reads of its four windows are the calls 1 to 4. The
/// first piece is read by call 5, the second by call 6 and the third by call 7. The head is write 0, and
/// each piece is a write more.
static CASES: [Case; 11] = [
    // One piece: what stands behind its call and its write doesn't come.
    (408, &[6], &[2], 408, ConnEnd::Closed),
    (65_535, &[6], &[2], 65_535, ConnEnd::Closed),
    (65_536, &[6], &[2], 65_536, ConnEnd::Closed),
    // Two, the second of one byte, and three.
    (65_537, &[7], &[3], 65_537, ConnEnd::Closed),
    (131_172, &[8], &[4], 131_172, ConnEnd::Closed),
    // A read that fails in each of three pieces.
    (131_172, &[5], &[], 0, FAILED),
    (131_172, &[6], &[], 65_536, FAILED),
    (131_172, &[7], &[], 131_072, FAILED),
    // A write that fails in each of them.
    (131_172, &[], &[1], 0, ConnEnd::WriteFault),
    (131_172, &[], &[2], 65_536, ConnEnd::WriteFault),
    (131_172, &[], &[3], 131_072, ConnEnd::WriteFault),
];

/// The end where a read of the body failed.
const FAILED: ConnEnd = ConnEnd::BodyFault(BodyCause::ReadFault);

/// The connection of a case, how many bytes are told, and the end.
fn asked<R: Abort + Wait + Sync>(
    rt: &R,
    alloc: Global,
    case: &Case,
) -> (MemConn, Option<u64>, ConnEnd) {
    let (size, bad_calls, bad_writes, _, _) = case;
    let file = longer(rt, alloc, *size);
    let mut hand = tree(rt, alloc, file, Vec::new(alloc), bad_calls);
    ask(rt, alloc, &mut hand, "GET", "executable", bad_writes)
}

/// The reply to a file of this size, of which so many bytes are written.
fn written(rt: &impl Abort, alloc: Global, size: usize, count: usize) -> Vec<u8> {
    let file = longer(rt, alloc, size);
    let body = file.get(..count).expect(rt, "a place in the file");
    reply(rt, alloc, size, "/srv/bin/tool", body)
}

/// A case has its reply, and its request is told where the reply is whole.
fn compare<R: Abort + Wait + Sync>(rt: &R, alloc: Global, case: &Case) {
    let (size, _, _, count, wanted_end) = case;
    let (conn, told, end) = asked(rt, alloc, case);
    let wanted = written(rt, alloc, *size, *count);
    assert!(rt;
        conn.written() == Some(wanted.as_slice()),
        "{count} of {size}"
    );
    assert!(rt; end == *wanted_end, "{count} of {size}");
    let whole = if *count == *size {
        Some(*size as u64)
    } else {
        None
    };
    assert!(rt; told == whole, "{count} of {size}");
}

#[test]
fn a_file_is_read_and_written_piece_by_piece(rt: HostRuntime) {
    assert!(rt; PIECE == 65_536);
    for case in &CASES {
        compare(&rt, rt.alloc(), case);
    }
}
