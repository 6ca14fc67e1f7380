//! The page of the counters, by what a connection's requests were counted as.

ghost use Rattle.std.specs.Prelude.{◌≡◌, IsSome};

use crate::connections::helpers::{conn, serve_counting, whole};
use crate::connections::texts::text_head;
use crate::counters::expected::TWO_REQUESTS_AND_A_PASS;
use crate::counters::shares::one_drawn;
use conn_server::ConnEnd;
use dbgd_metrics::{Book, Count, Share};
use std::alloc::Global;
use std::process::Abort;
use std::sync::Wait;

/// The reply that sends a page.
fn page_reply(rt: &impl Abort, alloc: Global, page: &str) -> String {
    let mut reply = text_head(alloc, "200 OK", page.len(), "keep-alive").expect(rt, "memory");
    reply.push_str(page).expect(rt, "memory");
    reply
}

/// These bytes are asked and counted in the share: so many requests are answered, and the replies end
/// with the page.
fn ends_with<R: Abort + Wait + Sync>(
    rt: &R,
    alloc: Global,
    book: &Book,
    share: &mut Share,
    asked: &str,
    requests: usize,
    page: &str,
)
    requires book { share.old.book ≡ book.now.id }
    requires row { IsSome share.old.row }
{
    let mut conn = conn(rt, alloc, &whole(asked));
    let report = serve_counting(rt, alloc, book, share, &mut conn);
    assert!(rt; report.served.len() == requests, "{asked}");
    assert!(rt; report.end == ConnEnd::Closed, "{asked}");
    let wanted = page_reply(rt, alloc, page);
    let written = conn.written().expect(rt, "a connection in memory tells it");
    assert!(rt; written.ends_with(wanted.as_bytes()), "{asked}");
}

/// A file of 1016 bytes, what is nowhere, and the counters.
static ASKED: &str =
    "GET /buildid/202122232425262728292a2b2c2d2e2f30313233/debuginfo HTTP/1.1\r\n\r\n\
    GET /buildid/a0a1a2a3a4a5a6a7/executable HTTP/1.1\r\n\r\n\
    GET /metrics HTTP/1.1\r\n\r\n";

#[test]
fn the_page_after_two_requests_and_a_pass_is_sent(rt: HostRuntime) {
    let pass = Count::Pass {
        added: 12,
        replaced: 0,
        dropped: 0,
    };
    let page = TWO_REQUESTS_AND_A_PASS;
    let (book, mut share) = one_drawn(&rt, rt.alloc(), 1);
    book.count(&mut share, pass);
    ends_with(&rt, rt.alloc(), &book, &mut share, ASKED, 3, page);
    assert!(rt; !share.is_marked());
}
