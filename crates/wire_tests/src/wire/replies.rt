//! The bytes of replies.

ghost use Rattle.std.specs.Prelude.{IsTrue};
ghost use Rattle.http_wire.specs.Reply.{IsStatus};

use http_wire::{MemSink, ReplyFault, ReplyHead, Sink, write_reply};
use row_types::CanonPath;
use sample_rows::path;
use std::alloc::Global;
use std::process::Abort;

/// A reply's status, whether it is a text, its file, whether it closes, its body, and its bytes.
#[derive(Clone, Copy)]
struct Case<'a>(u16, bool, &'a str, bool, &'a [u8], &'a [u8]);

/// Replies of each status, and of each kind. The first is that of a section of one byte, as the
/// documents print it.
static CASES: [Case<'static>; 11] = [
    Case(
        200,
        false,
        "/srv/bin/tool",
        false,
        b"\xc3",
        b"HTTP/1.1 200 OK\r\n\
          Content-Type: application/octet-stream\r\n\
          Content-Length: 1\r\n\
          X-DEBUGINFOD-SIZE: 1\r\n\
          X-DEBUGINFOD-FILE: /srv/bin/tool\r\n\
          Connection: keep-alive\r\n\r\n\xc3",
    ),
    Case(
        200,
        false,
        "",
        true,
        b"int",
        b"HTTP/1.1 200 OK\r\n\
          Content-Type: application/octet-stream\r\n\
          Content-Length: 3\r\n\
          X-DEBUGINFOD-SIZE: 3\r\n\
          Connection: close\r\n\r\nint",
    ),
    Case(
        200,
        false,
        "/a b%/\u{fc}~!\"",
        false,
        b"",
        b"HTTP/1.1 200 OK\r\n\
          Content-Type: application/octet-stream\r\n\
          Content-Length: 0\r\n\
          X-DEBUGINFOD-SIZE: 0\r\n\
          X-DEBUGINFOD-FILE: /a%20b%25/%C3%BC~!\"\r\n\
          Connection: keep-alive\r\n\r\n",
    ),
    Case(
        200,
        true,
        "",
        false,
        b"dbgd 1\n",
        b"HTTP/1.1 200 OK\r\n\
          Content-Type: text/plain\r\n\
          Content-Length: 7\r\n\
          Connection: keep-alive\r\n\r\ndbgd 1\n",
    ),
    Case(
        400,
        true,
        "",
        true,
        b"bad request\n",
        b"HTTP/1.1 400 Bad Request\r\n\
          Content-Type: text/plain\r\n\
          Content-Length: 12\r\n\
          Connection: close\r\n\r\nbad request\n",
    ),
    Case(
        404,
        true,
        "",
        false,
        b"not found\n",
        b"HTTP/1.1 404 Not Found\r\n\
          Content-Type: text/plain\r\n\
          Content-Length: 10\r\n\
          Connection: keep-alive\r\n\r\nnot found\n",
    ),
    Case(
        405,
        true,
        "",
        false,
        b"bad method\n",
        b"HTTP/1.1 405 Method Not Allowed\r\n\
          Content-Type: text/plain\r\n\
          Content-Length: 11\r\n\
          Allow: GET, HEAD\r\n\
          Connection: keep-alive\r\n\r\nbad method\n",
    ),
    Case(
        431,
        true,
        "",
        true,
        b"too large\n",
        b"HTTP/1.1 431 Request Header Fields Too Large\r\n\
          Content-Type: text/plain\r\n\
          Content-Length: 10\r\n\
          Connection: close\r\n\r\ntoo large\n",
    ),
    Case(
        502,
        true,
        "",
        false,
        b"upstream fault\n",
        b"HTTP/1.1 502 Bad Gateway\r\n\
          Content-Type: text/plain\r\n\
          Content-Length: 15\r\n\
          Connection: keep-alive\r\n\r\nupstream fault\n",
    ),
    Case(
        503,
        true,
        "",
        false,
        b"read fault\n",
        b"HTTP/1.1 503 Service Unavailable\r\n\
          Content-Type: text/plain\r\n\
          Content-Length: 11\r\n\
          Connection: keep-alive\r\n\r\nread fault\n",
    ),
    Case(
        507,
        true,
        "",
        false,
        b"out of memory\n",
        b"HTTP/1.1 507 Insufficient Storage\r\n\
          Content-Type: text/plain\r\n\
          Content-Length: 14\r\n\
          Connection: keep-alive\r\n\r\nout of memory\n",
    ),
];

/// Whether a status is one of replies.
fn is_status(status: u16) -> bool
    ensures { IsTrue result → IsStatus status }
{
    matches!(status, 200 | 400 | 404 | 405 | 431 | 502 | 503 | 507)
}

/// The file of a path, if there is one.
pub fn file_of(rt: &impl Abort, alloc: Global, text: &str) -> Option<CanonPath> {
    if text.is_empty() {
        return None;
    }
    Some(path(alloc, text).expect(rt, "a canonical path"))
}

/// Writes the reply of a case.
fn reply(
    rt: &impl Abort,
    alloc: Global,
    sink: &mut MemSink,
    case: &Case<'_>,
    with_body: bool,
) -> Result<(), ReplyFault> {
    let Case(status, text, path, close, body, _) = *case;
    assert!(rt; is_status(status), "{status}");
    let head = ReplyHead {
        status,
        text,
        len: body.len() as u64,
        file: file_of(rt, alloc, path),
        close,
    };
    write_reply(alloc, sink, &head, body, with_body)
}

/// The reply of a case, with its body or without, is these bytes, which go in one write: a second one
/// would fail.
fn compare(rt: &impl Abort, alloc: Global, case: &Case<'_>, with_body: bool, wanted: &[u8]) {
    let second = vec![in alloc; 1].expect(rt, "memory");
    let mut sink = MemSink::new(alloc, second);
    let answer = reply(rt, alloc, &mut sink, case, with_body);
    assert!(rt; answer == Ok(()), "{wanted:?}");
    assert!(rt; sink.written() == Some(wanted), "{wanted:?}");
    let calls = sink.calls().expect(rt, "a sink in memory tells them");
    assert!(rt; calls.len() == 1, "{wanted:?}");
}

#[test]
fn replies_have_these_bytes(rt: HostRuntime) {
    for case in &CASES {
        compare(&rt, rt.alloc(), case, true, case.5);
        let head_len = case.5.len().saturating_sub(case.4.len());
        compare(&rt, rt.alloc(), case, false, &case.5[..head_len]);
    }
}
