//! Files that are changed while they are sent.

use crate::connections::open::{ask, longer, reply, tree};
use answer_check::certify;
use conn_server::{BodyCause, ConnEnd};
use http_wire::MemConn;
use row_types::{BuildId, Kind};
use sample_files::{ID_C, executable};
use std::alloc::Global;
use std::process::Abort;
use std::sync::Wait;

/// Puts a byte at a place.
fn put(bytes: &mut [u8], at: usize, byte: u8) {
    if let Some(place) = bytes.get_mut(at) {
        *place = byte;
    }
}

/// Which file is sent: the sample executable, of 408 bytes, or the same with its section table behind
/// the first piece, of 65,856 bytes.
#[derive(Clone, Copy)]
enum Sent {
    Small,
    Large,
}

/// The sample executable with its section table, the last 256 of its bytes, at 65,600 (0x10040), which
/// byte 40 and those behind it say, the lowest first. They said 152.
fn large(rt: &impl Abort, alloc: Global) -> Vec<u8> {
    let small = executable(alloc).expect(rt, "memory");
    let table = small.get(152..).expect(rt, "a section table");
    let mut bytes = longer(rt, alloc, 65_600);
    bytes.extend_from_slice(table).expect(rt, "memory");
    put(bytes.as_mut_slice(), 40, 0x40);
    put(bytes.as_mut_slice(), 42, 0x01);
    bytes
}

/// The bytes of a file.
fn bytes_of(rt: &impl Abort, alloc: Global, sent: Sent) -> Vec<u8> {
    match sent {
        Sent::Small => executable(alloc).expect(rt, "memory"),
        Sent::Large => large(rt, alloc),
    }
}

/// The same with another byte at a place.
fn changed(rt: &impl Abort, alloc: Global, sent: Sent, at: usize, byte: u8) -> Vec<u8> {
    let mut bytes = bytes_of(rt, alloc, sent);
    put(bytes.as_mut_slice(), at, byte);
    bytes
}

/// The file, the place and the byte that stands there from the read of the first piece on, how many
/// bytes are written, and the end.
type Case = (Sent, usize, u8, usize, ConnEnd);

/// The end where the first byte of the id isn't the one that was checked.
const ID_CHANGED: ConnEnd = ConnEnd::BodyFault(BodyCause::Changed {
    at: 80,
    checked: 0x40,
    seen: 0xff,
});

/// The end where the first byte of the section table isn't.
const FIRST_CHANGED: ConnEnd = ConnEnd::BodyFault(BodyCause::Changed {
    at: 65_600,
    checked: 0x00,
    seen: 0x01,
});

/// The end where its last byte isn't.
const LAST_CHANGED: ConnEnd = ConnEnd::BodyFault(BodyCause::Changed {
    at: 65_855,
    checked: 0x00,
    seen: 0x01,
});

/// The header is read as the first 64 bytes, and the note that has the id as the 36 bytes behind it: the
/// id begins at byte 80 with 0x40. Byte 112 is the code's, which isn't read. In the large file byte 200
/// is none that is read; the section table's first byte and its last are 0, as the ELF gABI has it for
/// the header of no section, and for a section without entries of one size.
static CASES: [Case; 6] = [
    (Sent::Small, 80, 0xff, 0, ID_CHANGED),
    (Sent::Small, 112, 0x90, 408, ConnEnd::Closed),
    (Sent::Large, 80, 0xff, 0, ID_CHANGED),
    (Sent::Large, 200, 0xff, 65_856, ConnEnd::Closed),
    (Sent::Large, 65_600, 0x01, 65_536, FIRST_CHANGED),
    (Sent::Large, 65_855, 0x01, 65_536, LAST_CHANGED),
];

/// The connection of a case, how many bytes are told, and the end. The four windows are read by the
/// reads 0 to 3, and the first piece by read 4.
fn asked<R: Abort + Wait + Sync>(
    rt: &R,
    alloc: Global,
    case: &Case,
) -> (MemConn, Option<u64>, ConnEnd) {
    let (sent, at, byte, _, _) = case;
    let file = bytes_of(rt, alloc, *sent);
    let mut hand = tree(rt, alloc, file, Vec::new(alloc), &[]);
    let other = changed(rt, alloc, *sent, *at, *byte);
    hand.swap(4, "/srv/bin/tool", other).expect(rt, "memory");
    ask(rt, alloc, &mut hand, "GET", "executable", &[])
}

/// The reply of a case: the head, and so many bytes of the file as it has become.
fn written(rt: &impl Abort, alloc: Global, case: &Case) -> Vec<u8> {
    let (sent, at, byte, count, _) = case;
    let file = changed(rt, alloc, *sent, *at, *byte);
    let body = file.get(..*count).expect(rt, "a place in the file");
    reply(rt, alloc, file.len(), "/srv/bin/tool", body)
}

/// A case has its reply.
fn compare<R: Abort + Wait + Sync>(rt: &R, alloc: Global, case: &Case) {
    let (_, at, _, count, wanted_end) = case;
    let (conn, told, end) = asked(rt, alloc, case);
    let wanted = written(rt, alloc, case);
    assert!(rt;
        conn.written() == Some(wanted.as_slice()),
        "{count} bytes, {at} changed"
    );
    assert!(rt; end == *wanted_end, "{count} bytes, {at} changed");
    let whole = if end == ConnEnd::Closed {
        Some(*count as u64)
    } else {
        None
    };
    assert!(rt; told == whole, "{count} bytes, {at} changed");
}

#[test]
fn a_file_that_changes_is_cut_or_still_certified(rt: HostRuntime) {
    for case in &CASES {
        compare(&rt, rt.alloc(), case);
    }
}

/// A file with another byte at a place is the executable of the id.
fn is_certified(rt: &impl Abort, alloc: Global, sent: Sent, at: usize, byte: u8) {
    let id = BuildId::new(&ID_C).expect(rt, "an id");
    let bytes = changed(rt, alloc, sent, at, byte);
    let answer = certify(Kind::Executable, &id, bytes);
    assert!(rt; answer.is_ok(), "{at} changed");
}

#[test]
fn what_was_sent_whole_is_certified(rt: HostRuntime) {
    is_certified(&rt, rt.alloc(), Sent::Small, 112, 0x90);
    is_certified(&rt, rt.alloc(), Sent::Large, 200, 0xff);
}
