//! Requests at the edges: what is refused, and how connections end.

use crate::connections::helpers::{Plan, compare, whole};
use crate::connections::texts::{no_routes, text_reply};
use conn_server::ConnEnd;
use std::alloc::Global;
use std::process::Abort;
use std::sync::Wait;

/// The bytes of a request, the status line, the text, what the reply says of the connection, and
/// its end.
type Case = (
    &'static str,
    &'static str,
    &'static str,
    &'static str,
    ConnEnd,
);

static CASES: [Case; 8] = [
    (
        "GET /buildid/abc/debuginfo HTTP/1.1\r\n\r\n",
        "400 Bad Request",
        "bad build-id",
        "keep-alive",
        ConnEnd::Closed,
    ),
    (
        "GET /buildid/202122232425262728292a2b2c2d2e2f30313233/debug%zz HTTP/1.1\r\n\r\n",
        "400 Bad Request",
        "bad escape",
        "keep-alive",
        ConnEnd::Closed,
    ),
    (
        "GET /nothing HTTP/1.1\r\n\r\n",
        "404 Not Found",
        "no route",
        "keep-alive",
        ConnEnd::Closed,
    ),
    (
        "G(T / HTTP/1.1\r\n\r\n",
        "400 Bad Request",
        "bad request",
        "close",
        ConnEnd::Refused,
    ),
    (
        "GET /nothing HTTP/1.0\r\n\r\n",
        "404 Not Found",
        "no route",
        "close",
        ConnEnd::Closed,
    ),
    (
        "GET /nothing HTTP/1.1\r\nConnection: x, Close\r\n\r\nGET / HTTP/1.1\r\n\r\n",
        "404 Not Found",
        "no route",
        "close",
        ConnEnd::Closed,
    ),
    (
        "GET / HTTP/1.1\r\nContent-Length: 3\r\n\r\nabc",
        "400 Bad Request",
        "request body",
        "close",
        ConnEnd::Closed,
    ),
    (
        "GET / HTTP/1.1\r\nContent-Length: 0\r\n\r\n",
        "404 Not Found",
        "no route",
        "keep-alive",
        ConnEnd::Closed,
    ),
];

#[test]
fn each_refusal_has_its_reply(rt: HostRuntime) {
    let alloc = rt.alloc();
    for (input, line, body, connection, end) in &CASES {
        let wanted = text_reply(&rt, alloc, line, body, connection);
        compare(&rt, alloc, &whole(input), wanted.as_bytes(), 1, *end);
    }
}

#[test]
fn another_method_is_refused_with_those_that_are_served(rt: HostRuntime) {
    let wanted = b"HTTP/1.1 405 Method Not Allowed\r\nContent-Type: text/plain\r\n\
        Content-Length: 11\r\nAllow: GET, HEAD\r\nConnection: keep-alive\r\n\r\nbad method\n";
    let plan = whole("POST /metrics HTTP/1.1\r\n\r\n");
    compare(&rt, rt.alloc(), &plan, wanted, 1, ConnEnd::Closed);
}

/// The bytes are refused for their size.
fn is_too_large<R: Abort + Wait + Sync>(rt: &R, alloc: Global, input: &str) {
    let status = "431 Request Header Fields Too Large";
    let wanted = text_reply(rt, alloc, status, "too large", "close");
    compare(
        rt,
        alloc,
        &whole(input),
        wanted.as_bytes(),
        1,
        ConnEnd::Refused,
    );
}

/// A front, and a piece so many times.
fn repeated(rt: &impl Abort, alloc: Global, front: &str, piece: &str, times: usize) -> String {
    let mut text = String::from_str(alloc, front).expect(rt, "memory");
    for _ in 0..times {
        text.push_str(piece).expect(rt, "memory");
    }
    text
}

#[test]
fn a_head_that_is_too_large_is_refused(rt: HostRuntime) {
    let alloc = rt.alloc();
    let long = repeated(&rt, alloc, "GET /", "a", 16_380);
    is_too_large(&rt, alloc, long.as_str());
    let mut many = repeated(&rt, alloc, "GET / HTTP/1.1\r\n", "a: b\r\n", 65);
    many.push_str("\r\n").expect(&rt, "memory");
    is_too_large(&rt, alloc, many.as_str());
}

#[test]
fn two_requests_in_one_read_have_two_replies(rt: HostRuntime) {
    let wanted = no_routes(&rt, rt.alloc(), 1, "close");
    for cuts in [0, 38] {
        let plan = Plan {
            cuts,
            ..whole("GET /a HTTP/1.1\r\n\r\nGET /b HTTP/1.0\r\n\r\n")
        };
        compare(
            &rt,
            rt.alloc(),
            &plan,
            wanted.as_slice(),
            2,
            ConnEnd::Closed,
        );
    }
}
