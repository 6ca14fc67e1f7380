//! Connections of which one read or one write fails, at each place: the end names the side that
//! failed, and what was written is a front of the replies.

use crate::connections::helpers::{Plan, serve, whole};
use conn_server::ConnEnd;
use std::alloc::Global;
use std::process::Abort;
use std::sync::Wait;

/// The requests at the edges, each on a connection of its own, with how many of its runs a failed read
/// ends, and how many a failed write: an id in capitals, an id that is too short, a source through a
/// folder, a bad escape, a head alone, another method, two requests at once, a head that is cut off,
/// no route, and a bad request.
static CASES: [(&str, u64, u64); 10] = [
    (
        "GET /buildid/202122232425262728292A2B2C2D2E2F30313233/debuginfo HTTP/1.1\r\n\r\n",
        77,
        2,
    ),
    ("GET /buildid/abc/debuginfo HTTP/1.1\r\n\r\n", 40, 1),
    (
        "GET /buildid/202122232425262728292a2b2c2d2e2f30313233/source/w/src/inc/%2e%2e/main.c \
            HTTP/1.1\r\n\r\n",
        98,
        1,
    ),
    (
        "GET /buildid/202122232425262728292a2b2c2d2e2f30313233/debug%zz HTTP/1.1\r\n\r\n",
        76,
        1,
    ),
    (
        "HEAD /buildid/202122232425262728292a2b2c2d2e2f30313233/debuginfo HTTP/1.1\r\n\r\n",
        78,
        1,
    ),
    ("POST /metrics HTTP/1.1\r\n\r\n", 27, 1),
    ("GET /a HTTP/1.1\r\n\r\nGET /b HTTP/1.1\r\n\r\n", 39, 2),
    ("GET / HT", 9, 0),
    ("GET /nothing HTTP/1.1\r\n\r\n", 26, 1),
    ("G(T / HTTP/1.1\r\n\r\n", 16, 1),
];

/// Those of them that keep a connection open, on one.
const KEPT_OPEN: &str =
    "GET /buildid/202122232425262728292A2B2C2D2E2F30313233/debuginfo HTTP/1.1\r\n\r\n\
    GET /buildid/abc/debuginfo HTTP/1.1\r\n\r\n\
    GET /buildid/202122232425262728292a2b2c2d2e2f30313233/source/w/src/inc/%2e%2e/main.c \
        HTTP/1.1\r\n\r\n\
    GET /buildid/202122232425262728292a2b2c2d2e2f30313233/debug%zz HTTP/1.1\r\n\r\n\
    HEAD /buildid/202122232425262728292a2b2c2d2e2f30313233/debuginfo HTTP/1.1\r\n\r\n\
    POST /metrics HTTP/1.1\r\n\r\n\
    GET /a HTTP/1.1\r\n\r\nGET /b HTTP/1.1\r\n\r\n\
    GET /nothing HTTP/1.1\r\n\r\n";

/// A head that is too long, and one of too many fields: their fronts, and a piece so many times. They come
/// in one read, and are refused by one write.
static LARGE: [(&str, &str, usize); 2] = [
    ("GET /", "a", 16_380),
    ("GET / HTTP/1.1\r\n", "a: b\r\n", 65),
];

/// What a sound connection comes to: what is written, how many requests are answered, and the end.
#[derive(Clone, Copy)]
struct Sound<'a>(&'a [u8], usize, ConnEnd);

/// How many replies begin in these bytes. No body of theirs has such a beginning.
fn replies_in(written: &[u8]) -> usize {
    let mut begun: usize = 0;
    for place in 0..written.len() {
        if written[place..].starts_with(b"HTTP/1.1 ") {
            begun = begun.saturating_add(1);
        }
    }
    begun
}

/// What comes of a connection: whether what is written is a front of the replies of a sound one, how many
/// bytes that are and how many replies begin in them, how many requests are answered, and the end.
struct Seen(bool, usize, usize, usize, ConnEnd);

/// Serves the connection of a plan.
fn serve_beside<R: Abort + Wait + Sync>(
    rt: &R,
    alloc: Global,
    plan: &Plan<'_>,
    replies: &[u8],
) -> Seen {
    let (conn, served, end) = serve(rt, alloc, plan);
    let written = conn.written().unwrap_or(b"not told".as_slice());
    let begun = replies_in(written);
    Seen(
        replies.starts_with(written),
        written.len(),
        begun,
        served,
        end,
    )
}

/// Serves the connection of a plan. What is written is a front of what a sound one writes: a reply for
/// each request that is answered, and a proper front of one more at most. Where nothing failed it is all.
/// Gives the end.
fn end_of<R: Abort + Wait + Sync>(
    rt: &R,
    alloc: Global,
    plan: &Plan<'_>,
    sound: &Sound<'_>,
) -> ConnEnd {
    let Sound(replies, requests, sound_end) = sound;
    let Seen(is_front, len, begun, served, end) = serve_beside(rt, alloc, plan, replies);
    assert!(rt; is_front, "other bytes");
    assert!(rt;
        begun == served || begun == served.saturating_add(1),
        "two are cut"
    );
    if end == *sound_end {
        assert!(rt; len == replies.len() && served == *requests, "not all");
    }
    end
}

/// No connection is read or written as often.
const ENOUGH: u64 = 1000;

/// How many connections a failed read ends, or a failed write, of which the first one fails, the second,
/// and so on, up to one that none ends.
fn failed<R: Abort + Wait + Sync>(
    rt: &R,
    alloc: Global,
    plan: &Plan<'_>,
    sound: &Sound<'_>,
    fault: ConnEnd,
) -> u64 {
    for number in 0..ENOUGH {
        let bad: &[u64] = &[number];
        let (bad_reads, bad_writes): (&[u64], &[u64]) = if fault == ConnEnd::ReadFault {
            (bad, &[])
        } else {
            (&[], bad)
        };
        let failing = Plan {
            bad_reads,
            bad_writes,
            ..*plan
        };
        let end = end_of(rt, alloc, &failing, sound);
        if end != fault {
            assert!(rt; end == sound.2, "another end");
            return number;
        }
    }
    ENOUGH
}

/// Lets each read and each write fail of a connection on which this comes, so many bytes one at a time.
/// Gives how many runs a failed read ends, and how many a failed write.
fn failures<R: Abort + Wait + Sync>(rt: &R, alloc: Global, input: &str, cuts: usize) -> (u64, u64) {
    let plan = Plan {
        cuts,
        ..whole(input)
    };
    let (conn, served, end) = serve(rt, alloc, &plan);
    let sound = Sound(
        conn.written().unwrap_or(b"not told".as_slice()),
        served,
        end,
    );
    let reads = failed(rt, alloc, &plan, &sound, ConnEnd::ReadFault);
    (reads, failed(rt, alloc, &plan, &sound, ConnEnd::WriteFault))
}

#[test]
fn a_failed_read_or_write_at_any_place_ends_the_connection(rt: HostRuntime) {
    for (input, reads, writes) in &CASES {
        let (read, written) = failures(&rt, rt.alloc(), input, input.len());
        assert!(rt; read == *reads && written == *writes, "{input}");
    }
}

#[test]
fn a_failed_read_or_write_between_requests_ends_the_connection(rt: HostRuntime) {
    let (read, written) = failures(&rt, rt.alloc(), KEPT_OPEN, KEPT_OPEN.len());
    assert!(rt; read == 454 && written == 10, "{read}");
}

/// A front, and a piece so many times.
fn repeated(rt: &impl Abort, alloc: Global, front: &str, piece: &str, times: usize) -> String {
    let mut text = String::from_str(alloc, front).expect(rt, "memory");
    for _ in 0..times {
        text.push_str(piece).expect(rt, "memory");
    }
    text
}

/// The same of a head that is large, which comes as it fits into reads.
fn large_failures<R: Abort + Wait + Sync>(
    rt: &R,
    alloc: Global,
    front: &str,
    piece: &str,
    times: usize,
) -> (u64, u64) {
    let input = repeated(rt, alloc, front, piece, times);
    failures(rt, alloc, input.as_str(), 0)
}

#[test]
fn a_failed_read_or_write_of_a_large_head_ends_the_connection(rt: HostRuntime) {
    for (front, piece, times) in &LARGE {
        let (read, written) = large_failures(&rt, rt.alloc(), front, piece, *times);
        assert!(rt; read == 1 && written == 1, "{front}");
    }
}
