//! Heads of replies whose body is sent apart.

use super::replies::file_of;
use http_wire::{MemSink, ReplyHead, write_head};

/// The head of a file of 117,440,512 bytes, which are sent apart.
static LARGE_HEAD: &[u8] = b"HTTP/1.1 200 OK\r\n\
    Content-Type: application/octet-stream\r\n\
    Content-Length: 117440512\r\n\
    X-DEBUGINFOD-SIZE: 117440512\r\n\
    X-DEBUGINFOD-FILE: /srv/lib%201\r\n\
    Connection: keep-alive\r\n\r\n";

#[test]
fn a_head_alone_tells_the_length_of_a_body_that_is_sent_apart(rt: HostRuntime) {
    let alloc = rt.alloc();
    let mut sink = MemSink::new(alloc, Vec::new(alloc));
    let head = ReplyHead {
        status: 200,
        text: false,
        len: 117_440_512,
        file: file_of(&rt, alloc, "/srv/lib 1"),
        close: false,
    };
    assert!(rt; write_head(alloc, &mut sink, &head) == Ok(()));
    assert!(rt; sink.written() == Some(LARGE_HEAD));
}
