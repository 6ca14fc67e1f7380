//! Heads that are cut off at each byte.

use crate::connections::helpers::{Plan, compare, serve, whole};
use conn_server::ConnEnd;
use std::alloc::Global;
use std::process::Abort;
use std::sync::Wait;

/// The first one of the reference requests, a request of no route, and how many bytes each has.
static HEADS: [(&str, usize); 2] = [
    (
        "GET /buildid/202122232425262728292a2b2c2d2e2f30313233/debuginfo HTTP/1.1\r\n\r\n",
        76,
    ),
    ("GET / HTTP/1.1\r\n\r\n", 18),
];

/// A front of a head, as it fits into reads and byte by byte, has no reply, and the connection ends so.
fn has_no_reply<R: Abort + Wait + Sync>(rt: &R, alloc: Global, front: &str, end: ConnEnd) {
    for cuts in [0, front.len()] {
        let plan = Plan {
            cuts,
            ..whole(front)
        };
        compare(rt, alloc, &plan, b"", 0, end);
    }
}

/// The end of a connection on which so many bytes of a head come.
fn end_of(len: usize) -> ConnEnd {
    if len == 0 {
        ConnEnd::Closed
    } else {
        ConnEnd::Cut
    }
}

/// No front of a head has a reply: the connection closed where nothing came, and is cut else. Gives
/// how many fronts there are.
fn fronts_have_no_reply<R: Abort + Wait + Sync>(rt: &R, alloc: Global, head: &str) -> usize {
    for len in 0..head.len() {
        let front = head.get(..len).expect(rt, "a front");
        has_no_reply(rt, alloc, front, end_of(len));
    }
    head.len()
}

/// Whether a whole head has its reply, and the connection closed behind it.
fn has_reply<R: Abort + Wait + Sync>(rt: &R, alloc: Global, head: &str) -> bool {
    let (_, served, end) = serve(rt, alloc, &whole(head));
    served == 1 && end == ConnEnd::Closed
}

#[test]
fn a_head_that_is_cut_at_any_byte_has_no_reply(rt: HostRuntime) {
    for (head, len) in &HEADS {
        let fronts = fronts_have_no_reply(&rt, rt.alloc(), head);
        assert!(rt; fronts == *len, "{head}");
        assert!(rt; has_reply(&rt, rt.alloc(), head), "{head}");
    }
}
