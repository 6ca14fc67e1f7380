//! Heads that are cut from a connection in memory.

ghost use Rattle.std.specs.Prelude.{◌<◌, All};

use http_wire::{Head, HeadAnswer, HeadReader, MemConn};
use std::alloc::Global;
use std::process::Abort;

/// Bytes, and what a reader answers of them up to Closed, a line an answer.
#[derive(Clone, Copy)]
struct Case(&'static [u8], &'static str);

/// Heads as they come, requests that are cut or bad, and what fields say.
static CASES: [Case; 19] = [
    Case(b"", "closed\n"),
    Case(b"GET /a HTTP/1.1\r\n\r\n", "GET /a 1\nclosed\n"),
    Case(
        b"GET /a HTTP/1.1\r\n\r\n\r\nPOST /b HTTP/1.0\nHost: x\n\nGET /",
        "GET /a 1\nPOST /b 0 close\nCut { len: 5 }\nclosed\n",
    ),
    Case(b"GET / HT", "Cut { len: 8 }\nclosed\n"),
    Case(b"G(T / HTTP/1.1", "Cut { len: 14 }\nclosed\n"),
    Case(b"G(T / HTTP/1.1\r\n", "Bad { len: 16 }\nclosed\n"),
    // Bytes that can be no head are judged once a line feed came, alone and behind a head.
    Case(b"\x01\x02\x03", "Cut { len: 3 }\nclosed\n"),
    Case(
        b"GET /a HTTP/1.1\r\n\r\n\x01\x02\x03",
        "GET /a 1\nCut { len: 3 }\nclosed\n",
    ),
    Case(b"\x01\x02\x03\n", "Bad { len: 4 }\nclosed\n"),
    Case(
        b"GET /a HTTP/1.1\r\n\r\n\x01\x02\x03\n",
        "GET /a 1\nBad { len: 4 }\nclosed\n",
    ),
    Case(b"GET / HTTP/1.1\r\n\x01: x", "Cut { len: 20 }\nclosed\n"),
    Case(b"GET / HTTP/1.1\r\n\x01: x\n", "Bad { len: 21 }\nclosed\n"),
    Case(
        b"GET / HTTP/1.1\r\nConnection: a,\t Close ,b\r\n\r\n",
        "GET / 1 close\nclosed\n",
    ),
    Case(
        b"GET / HTTP/1.1\r\nConnection: closed\r\nclose: close\r\n\r\n",
        "GET / 1\nclosed\n",
    ),
    Case(
        b"GET / HTTP/1.1\r\nCONTENT-LENGTH: 0\r\n\r\n",
        "GET / 1\nclosed\n",
    ),
    Case(
        b"GET / HTTP/1.1\r\nContent-Length: 00\r\n\r\n",
        "GET / 1 body\nclosed\n",
    ),
    Case(
        b"GET / HTTP/1.1\r\ntransfer-encoding: chunked\r\n\r\n",
        "GET / 1 body\nclosed\n",
    ),
    Case(
        b"GET / HTTP/1.1\r\nX-Forwarded-For: a, ,\t,b\r\nx-forwarded-for:\r\n\r\n",
        "GET / 1 2\nclosed\n",
    ),
    Case(
        b"GET / HTTP/1.1\r\nX-FORWARDED-FOR: a\r\nX-Forwarded-For: b, c\r\n\r\n",
        "GET / 1 3\nclosed\n",
    ),
];

/// Adds a line: the method, the target, the minor version, and what the fields say.
fn push_head(rt: &impl Abort, text: &mut String, head: &Head<'_>) {
    let method = str::from_utf8(head.method).expect(rt, "a method is a text");
    let target = str::from_utf8(head.target).expect(rt, "a target is a text");
    write!(text, "{method} {target} {}", head.minor).expect(rt, "memory");
    if head.close {
        text.push_str(" close").expect(rt, "memory");
    }
    if head.has_body {
        text.push_str(" body").expect(rt, "memory");
    }
    if head.hops > 0 {
        write!(text, " {}", head.hops).expect(rt, "memory");
    }
    text.push_str("\n").expect(rt, "memory");
}

/// Adds the line of an answer.
fn push_answer(rt: &impl Abort, text: &mut String, answer: &HeadAnswer<'_>) {
    match answer {
        HeadAnswer::Head(head) => push_head(rt, text, head),
        HeadAnswer::Closed => text.push_str("closed\n").expect(rt, "memory"),
        HeadAnswer::Refused(fault) => writeln!(text, "{fault:?}").expect(rt, "memory"),
        HeadAnswer::ReadFault => text.push_str("fault\n").expect(rt, "memory"),
    }
}

/// Adds what a reader answers of a connection, up to Closed.
fn push_answers(rt: &impl Abort, alloc: Global, text: &mut String, conn: &mut MemConn) {
    let mut reader = HeadReader::new(alloc).expect(rt, "memory");
    for _ in 0..9 {
        let answer = reader.next(conn);
        push_answer(rt, text, &answer);
        if matches!(answer, HeadAnswer::Closed) {
            break;
        }
    }
}

/// Cuts of one byte.
fn ones(rt: &impl Abort, alloc: Global, count: usize) -> Vec<usize>
    ensures { All (λ n. 0 < n) result.items }
{
    vec![in alloc; 1; count].expect(rt, "memory")
}

/// The connection of these bytes: so many reads give one byte each, and those listed fail.
fn conn_of(
    rt: &impl Abort,
    alloc: Global,
    input: &[u8],
    cuts: usize,
    bad_reads: &[u64],
) -> MemConn {
    MemConn::new(
        alloc,
        Vec::from_slice(alloc, input).expect(rt, "memory"),
        ones(rt, alloc, cuts),
        Vec::from_slice(alloc, bad_reads).expect(rt, "memory"),
        Vec::new(alloc),
    )
}

/// What a reader answers of such a connection, up to Closed.
fn text_of(rt: &impl Abort, alloc: Global, input: &[u8], cuts: usize, bad_reads: &[u64]) -> String {
    let mut text = String::new(alloc);
    let mut conn = conn_of(rt, alloc, input, cuts, bad_reads);
    push_answers(rt, alloc, &mut text, &mut conn);
    text
}

/// A connection of these bytes, as they fit and then byte by byte, answers this.
fn compare(rt: &impl Abort, alloc: Global, input: &[u8], wanted: &str) {
    for cuts in [0, input.len()] {
        let text = text_of(rt, alloc, input, cuts, &[]);
        assert!(rt; text.as_str() == wanted, "{text} at {wanted}");
    }
}

#[test]
fn heads_are_cut_from_the_front(rt: HostRuntime) {
    for Case(input, wanted) in &CASES {
        compare(&rt, rt.alloc(), input, wanted);
    }
}

/// A front, a piece so many times, and a back.
fn bytes_of(
    rt: &impl Abort,
    alloc: Global,
    front: &[u8],
    piece: &[u8],
    times: usize,
    back: &[u8],
) -> Vec<u8> {
    let mut bytes = Vec::from_slice(alloc, front).expect(rt, "memory");
    for _ in 0..times {
        bytes.extend_from_slice(piece).expect(rt, "memory");
    }
    bytes.extend_from_slice(back).expect(rt, "memory");
    bytes
}

/// A request line with a piece that stands so many times, the rest, and what is answered: 64
/// and 65 fields, and 16,385 and 16,383 bytes without an end.
static LIMITS: [(&[u8], &[u8], usize, &[u8], &str); 4] = [
    (
        b"GET / HTTP/1.1\r\n",
        b"a: b\r\n",
        64,
        b"\r\n",
        "GET / 1\nclosed\n",
    ),
    (
        b"GET / HTTP/1.1\r\n",
        b"a: b\r\n",
        65,
        b"\r\n",
        "TooMany\nclosed\n",
    ),
    (b"GET /", b"a", 16_380, b"", "TooLong\nclosed\n"),
    (b"GET /", b"a", 16_378, b"", "Cut { len: 16383 }\nclosed\n"),
];

#[test]
fn heads_have_limits(rt: HostRuntime) {
    for (front, piece, times, back, wanted) in &LIMITS {
        let input = bytes_of(&rt, rt.alloc(), front, piece, *times, back);
        compare(&rt, rt.alloc(), input.as_slice(), wanted);
    }
}

#[test]
fn two_heads_of_one_read_are_given_before_the_source_is_asked_again(rt: HostRuntime) {
    let input = b"GET /a HTTP/1.1\r\n\r\nGET /b HTTP/1.1\r\n\r\n";
    let text = text_of(&rt, rt.alloc(), input, 0, &[1]);
    assert!(rt;
        text.as_str() == "GET /a 1\nGET /b 1\nfault\nclosed\n",
        "{text}"
    );
}
