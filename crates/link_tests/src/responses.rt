//! Responses that come over a connection in memory.

ghost use Rattle.std.specs.Prelude.{◌<◌, All};

use http_wire::MemConn;
use std::alloc::Global;
use std::fmt::Write;
use std::process::Abort;
use upstream_wire::{Response, read_response};

/// Bytes, and what is read of them.
#[derive(Clone, Copy)]
struct Case(&'static [u8], &'static str);

/// Each frame, with bytes behind the body.
static WHOLE: [Case; 9] = [
    Case(
        b"HTTP/1.1 200 OK\r\nTransfer-Encoding: chunked\r\n\r\n3\r\nabc\r\n0\r\n\r\n",
        "200 abc\n",
    ),
    // RFC 9112, section 7.1: an extension, leading zeros, a trailer; the length isn't looked at.
    Case(
        b"HTTP/1.1 200 OK\r\ntransfer-encoding: CHUNKED\r\nContent-Length: 7\r\n\r\n3;a=b\r\nabc\r\n00f \r\n0123456789abcde\r\n0;x\r\nA: b\r\n\r\nHTTP/1.1 404",
        "200 abc0123456789abcde\n",
    ),
    Case(
        b"HTTP/1.0 404 Not Found\r\nContent-Length: 3\r\ncontent-length: 3\r\n\r\nabcdef",
        "404 abc\n",
    ),
    Case(
        b"HTTP/1.1 200 OK\nContent-Length: 0000000000000000000000003\n\nabc",
        "200 abc\n",
    ),
    Case(b"HTTP/1.1 200 OK\r\nContent-Length: 0\r\n\r\n", "200 \n"),
    Case(b"HTTP/1.1 200\r\n\r\nabc", "200 abc\n"),
    Case(b"HTTP/1.1 200 OK\r\n\r\n", "200 \n"),
    Case(
        b"HTTP/1.1 103 Early Hints\r\nContent-Length: 0\r\n\r\nHTTP/1.1 200 OK\r\n\r\nabc",
        "103 \n",
    ),
    Case(
        b"HTTP/1.1 500 No\r\nTransfer-Encoding: chunked\r\nTransfer-Encoding: Chunked\r\n\r\n0\r\n\r\n",
        "500 \n",
    ),
];

/// Each fault of the format.
static FAULTS: [&[u8]; 20] = [
    b"",
    b"HTTP/2 200 OK\r\n\r\n",
    b"HTTP/1.1 20 OK\r\n\r\n",
    b"HTTP/1.1 200 OK\r\nno field\r\n\r\n",
    b"HTTP/1.1 200 OK\r\nTransfer-Encoding: gzip\r\n\r\nabc",
    b"HTTP/1.1 200 OK\r\nTransfer-Encoding: gzip, chunked\r\n\r\n0\r\n\r\n",
    b"HTTP/1.1 200 OK\r\nTransfer-Encoding: chunked\r\nTransfer-Encoding: gzip\r\n\r\n0\r\n\r\n",
    b"HTTP/1.1 200 OK\r\nTransfer-Encoding: chunked\r\nContent-Length: +1\r\n\r\n0\r\n\r\n",
    b"HTTP/1.1 200 OK\r\nContent-Length:\r\n\r\n",
    b"HTTP/1.1 200 OK\r\nContent-Length: 0x3\r\n\r\nabc",
    b"HTTP/1.1 200 OK\r\nContent-Length: 3\r\nContent-Length: 03\r\n\r\nabc",
    b"HTTP/1.1 200 OK\r\nContent-Length: 1073741825\r\n\r\nabc",
    b"HTTP/1.1 200 OK\r\nContent-Length: 18446744073709551619\r\n\r\nabc",
    b"HTTP/1.1 200 OK\r\nTransfer-Encoding: chunked\r\n\r\ng\r\nabc\r\n0\r\n\r\n",
    b"HTTP/1.1 200 OK\r\nTransfer-Encoding: chunked\r\n\r\n3\nabc\n0\n\n",
    b"HTTP/1.1 200 OK\r\nTransfer-Encoding: chunked\r\n\r\n3\r\nabcd\r\n0\r\n\r\n",
    b"HTTP/1.1 200 OK\r\nTransfer-Encoding: chunked\r\n\r\n3\r\nabc\r0\r\n\r\n",
    b"HTTP/1.1 200 OK\r\nTransfer-Encoding: chunked\r\n\r\n40000001\r\nabc",
    b"HTTP/1.1 200 OK\r\nTransfer-Encoding: chunked\r\n\r\nffffffffffffffff\r\nabc",
    b"HTTP/1.1 200 OK\r\nTransfer-Encoding: chunked\r\n\r\n0\r\nno field\r\n\r\n",
];

/// Cuts of one byte.
fn ones(rt: &impl Abort, alloc: Global, count: usize) -> Vec<usize>
    ensures { All (λ n. 0 < n) result.items }
{
    vec![in alloc; 1; count].expect(rt, "memory")
}

/// The connection that holds these bytes: so many reads give one byte each, and the one of this
/// number fails.
fn conn_of(rt: &impl Abort, alloc: Global, input: &[u8], cuts: usize, bad_read: u64) -> MemConn {
    MemConn::new(
        alloc,
        Vec::from_slice(alloc, input).expect(rt, "memory"),
        ones(rt, alloc, cuts),
        vec![in alloc; bad_read].expect(rt, "memory"),
        Vec::new(alloc),
    )
}

/// Adds the line of a response.
fn push_response(rt: &impl Abort, text: &mut String, response: &Response) {
    let body = str::from_utf8(response.body.as_slice()).expect(rt, "a body is a text");
    writeln!(text, "{} {body}", response.status).expect(rt, "memory");
}

/// What is read of a connection, as a line.
fn line_of(rt: &impl Abort, alloc: Global, conn: &mut MemConn) -> String {
    let mut text = String::new(alloc);
    match read_response(alloc, conn) {
        Ok(response) => push_response(rt, &mut text, &response),
        Err(fault) => writeln!(text, "{fault:?}").expect(rt, "memory"),
    }
    text
}

/// No read fails whose number is so large.
const NEVER: u64 = 1_000_000;

/// Bytes, as they fit and then byte by byte, are read so.
fn compare(rt: &impl Abort, alloc: Global, input: &[u8], wanted: &str) {
    for cuts in [0, input.len()] {
        let mut conn = conn_of(rt, alloc, input, cuts, NEVER);
        let line = line_of(rt, alloc, &mut conn);
        assert!(rt; line.as_str() == wanted, "{line} at {wanted}");
    }
}

#[test]
fn responses_of_each_frame_are_read(rt: HostRuntime) {
    for Case(input, wanted) in &WHOLE {
        compare(&rt, rt.alloc(), input, wanted);
    }
}

#[test]
fn each_fault_of_the_format_is_no_response(rt: HostRuntime) {
    for input in &FAULTS {
        compare(&rt, rt.alloc(), input, "NoResponse\n");
    }
}

/// Responses that state where they end, and what is read of them.
static STATED: [Case; 2] = [
    Case(
        b"HTTP/1.1 200 OK\r\nTransfer-Encoding: chunked\r\n\r\n3;a\r\nabc\r\n2\r\nde\r\n0\r\nA: b\r\n\r\n",
        "200 abcde\n",
    ),
    Case(
        b"HTTP/1.1 200 OK\r\nContent-Length: 5\r\n\r\nabcde",
        "200 abcde\n",
    ),
];

#[test]
fn a_response_in_chunks_cut_at_any_byte_is_none(rt: HostRuntime) {
    let [Case(input, wanted), _] = &STATED;
    compare(&rt, rt.alloc(), input, wanted);
    for len in 0..input.len() {
        compare(&rt, rt.alloc(), &input[..len], "NoResponse\n");
    }
}

/// Byte by byte, with more bytes behind it and a read of this number that fails.
fn read_until(rt: &impl Abort, alloc: Global, input: &[u8], bad_read: usize, wanted: &str) {
    let bytes = bytes_of(rt, alloc, input, 9, b"");
    let mut conn = conn_of(rt, alloc, bytes.as_slice(), bytes.len(), bad_read as u64);
    let line = line_of(rt, alloc, &mut conn);
    assert!(rt; line.as_str() == wanted, "{line} at {bad_read}");
}

#[test]
fn nothing_is_read_behind_a_stated_end(rt: HostRuntime) {
    for Case(input, wanted) in &STATED {
        for bad_read in 0..input.len() {
            read_until(&rt, rt.alloc(), input, bad_read, "ReadFault\n");
        }
        read_until(&rt, rt.alloc(), input, input.len(), wanted);
    }
}

/// A front, a byte so many times, and a back.
fn bytes_of(rt: &impl Abort, alloc: Global, front: &[u8], times: usize, back: &[u8]) -> Vec<u8> {
    let mut bytes = Vec::from_slice(alloc, front).expect(rt, "memory");
    for _ in 0..times {
        bytes.push(b'x').expect(rt, "memory");
    }
    bytes.extend_from_slice(back).expect(rt, "memory");
    bytes
}

/// A head, a line of a chunk and trailers of 16,384 bytes, and of one more.
static LIMITS: [(&[u8], usize, &[u8], &str); 6] = [
    (
        b"HTTP/1.1 200 OK\r\nA:",
        16_362,
        b"\r\n\r\n",
        "NoResponse\n",
    ),
    (b"HTTP/1.1 200 OK\r\nA:", 16_361, b"\r\n\r\n", "200 \n"),
    (
        b"HTTP/1.1 200 OK\r\nTransfer-Encoding: chunked\r\n\r\n0;",
        16_381,
        b"\r\n\r\n",
        "NoResponse\n",
    ),
    (
        b"HTTP/1.1 200 OK\r\nTransfer-Encoding: chunked\r\n\r\n0;",
        16_380,
        b"\r\n\r\n",
        "200 \n",
    ),
    (
        b"HTTP/1.1 200 OK\r\nTransfer-Encoding: chunked\r\n\r\n0\r\nA:",
        16_379,
        b"\r\n\r\n",
        "NoResponse\n",
    ),
    (
        b"HTTP/1.1 200 OK\r\nTransfer-Encoding: chunked\r\n\r\n0\r\nA:",
        16_378,
        b"\r\n\r\n",
        "200 \n",
    ),
];

#[test]
fn heads_lines_and_trailers_have_a_limit(rt: HostRuntime) {
    for (front, times, back, wanted) in &LIMITS {
        let input = bytes_of(&rt, rt.alloc(), front, *times, back);
        compare(&rt, rt.alloc(), input.as_slice(), wanted);
    }
}

/// What stands before fields, how many there are, and what is read: a head has up to 64, trailers any number.
static COUNTS: [(&[u8], usize, &str); 3] = [
    (b"HTTP/1.1 200 OK\r\n", 64, "200 \n"),
    (b"HTTP/1.1 200 OK\r\n", 65, "NoResponse\n"),
    (
        b"HTTP/1.1 200 OK\r\nTransfer-Encoding: chunked\r\n\r\n0\r\n",
        65,
        "200 \n",
    ),
];

/// A front, so many fields, and an empty line.
fn with_fields(rt: &impl Abort, alloc: Global, front: &[u8], count: usize) -> Vec<u8> {
    let mut bytes = Vec::from_slice(alloc, front).expect(rt, "memory");
    for _ in 0..count {
        bytes.extend_from_slice(b"A: b\r\n").expect(rt, "memory");
    }
    bytes.extend_from_slice(b"\r\n").expect(rt, "memory");
    bytes
}

#[test]
fn a_head_has_at_most_64_fields_and_trailers_may_have_more(rt: HostRuntime) {
    for (front, count, wanted) in &COUNTS {
        let input = with_fields(&rt, rt.alloc(), front, *count);
        compare(&rt, rt.alloc(), input.as_slice(), wanted);
    }
}
