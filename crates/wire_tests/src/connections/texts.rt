//! The texts of requests and replies.

use sample_world::Sample;
use std::alloc::{AllocError, Global};
use std::process::Abort;

/// A request of HTTP/1.1 for what is asked of an id.
pub fn request(alloc: Global, method: &str, id: &str, rest: &str) -> Result<String, AllocError> {
    format!(in alloc; "{method} /buildid/{id}/{rest} HTTP/1.1\r\n\r\n")
}

/// The head of a reply with so many bytes of the file at a path.
pub fn file_head(alloc: Global, len: usize, path: &str) -> Result<String, AllocError> {
    format!(in alloc;
        "HTTP/1.1 200 OK\r\nContent-Type: application/octet-stream\r\nContent-Length: {len}\r\n\
         X-DEBUGINFOD-SIZE: {len}\r\nX-DEBUGINFOD-FILE: {path}\r\n\
         Connection: keep-alive\r\n\r\n"
    )
}

/// The head of a reply with so many bytes of what another server gave.
pub fn given_head(alloc: Global, len: usize) -> Result<String, AllocError> {
    format!(in alloc;
        "HTTP/1.1 200 OK\r\nContent-Type: application/octet-stream\r\nContent-Length: {len}\r\n\
         X-DEBUGINFOD-SIZE: {len}\r\nConnection: keep-alive\r\n\r\n"
    )
}

/// The reply that sends a file, whose path is written so.
pub fn file_reply(rt: &impl Abort, alloc: Global, sample: Sample, path: &str) -> Vec<u8> {
    let body = sample.bytes(alloc).expect(rt, "memory");
    let head = file_head(alloc, body.len(), path).expect(rt, "memory");
    let mut reply = head.into_bytes();
    reply
        .extend_from_slice(body.as_slice())
        .expect(rt, "memory");
    reply
}

/// The head of a reply that is a text of so many bytes: its status, and what it says of the
/// connection.
pub fn text_head(
    alloc: Global,
    status: &str,
    len: usize,
    connection: &str,
) -> Result<String, AllocError> {
    format!(in alloc;
        "HTTP/1.1 {status}\r\nContent-Type: text/plain\r\nContent-Length: {len}\r\n\
         Connection: {connection}\r\n\r\n"
    )
}

/// A reply that is a text of one line: its status, the line, and what it says of the connection.
pub fn text_reply(
    rt: &impl Abort,
    alloc: Global,
    status: &str,
    line: &str,
    connection: &str,
) -> String {
    let len = line.len().saturating_add(1);
    let mut reply = text_head(alloc, status, len, connection).expect(rt, "memory");
    reply.push_str(line).expect(rt, "memory");
    reply.push_str("\n").expect(rt, "memory");
    reply
}

/// Adds the reply to a request of no route, which says this of the connection.
fn push_no_route(rt: &impl Abort, alloc: Global, replies: &mut Vec<u8>, connection: &str) {
    let reply = text_reply(rt, alloc, "404 Not Found", "no route", connection);
    replies
        .extend_from_slice(reply.as_bytes())
        .expect(rt, "memory");
}

/// The replies to requests of no route: so many, and a last one that says this of the connection.
pub fn no_routes(rt: &impl Abort, alloc: Global, before: usize, connection: &str) -> Vec<u8> {
    let mut replies = Vec::new(alloc);
    for _ in 0..before {
        push_no_route(rt, alloc, &mut replies, "keep-alive");
    }
    push_no_route(rt, alloc, &mut replies, connection);
    replies
}
