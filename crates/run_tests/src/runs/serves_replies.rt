//! Requests for the files of the reference tree, and the whole bytes of their replies.

use sample_world::Sample;
use std::alloc::Global;
use std::process::Abort;

/// A request. The ids are those of `/srv/bin/prog`, of `/srv/bin/tool` and its debug information, and of
/// `/srv/debug/ppc.debug`.
#[derive(Clone, Copy)]
pub enum Ask {
    /// The debug information of the program.
    Program,
    /// The tool.
    Tool,
    /// The debug information of the tool.
    ToolDebug,
    /// The code of the tool.
    Code,
    /// A section that is compressed in the tool's debug information.
    Compressed,
    /// A source of the program.
    Source,
    /// A program for another machine, of which there is debug information alone.
    OtherProgram,
    /// The counters.
    Counters,
}

/// The requests of the reference tree, all but the counters.
pub static TABLE: [Ask; 7] = [
    Ask::Program,
    Ask::Tool,
    Ask::ToolDebug,
    Ask::Code,
    Ask::Compressed,
    Ask::Source,
    Ask::OtherProgram,
];

impl Ask {
    /// What comes on the connection.
    pub fn request(self) -> &'static str {
        match self {
            Ask::Program => {
                "GET /buildid/202122232425262728292a2b2c2d2e2f30313233/debuginfo HTTP/1.1\r\n\r\n"
            }
            Ask::Tool => {
                "GET /buildid/404142434445464748494a4b4c4d4e4f50515253/executable HTTP/1.1\r\n\r\n"
            }
            Ask::ToolDebug => {
                "GET /buildid/404142434445464748494a4b4c4d4e4f50515253/debuginfo HTTP/1.1\r\n\r\n"
            }
            Ask::Code => {
                "GET /buildid/404142434445464748494a4b4c4d4e4f50515253/section/.text \
                    HTTP/1.1\r\n\r\n"
            }
            Ask::Compressed => {
                "GET /buildid/404142434445464748494a4b4c4d4e4f50515253/section/.debug_zz \
                    HTTP/1.1\r\n\r\n"
            }
            Ask::Source => {
                "GET /buildid/202122232425262728292a2b2c2d2e2f30313233/source/w/src/main.c \
                    HTTP/1.1\r\n\r\n"
            }
            Ask::OtherProgram => "GET /buildid/a0a1a2a3a4a5a6a7/executable HTTP/1.1\r\n\r\n",
            Ask::Counters => "GET /metrics HTTP/1.1\r\n\r\n",
        }
    }

    /// The reply, up to the file that is its body. The counters are those after the requests for the
    /// program and for the other one, and one pass.
    fn front(self) -> &'static [u8] {
        match self {
            Ask::Program => {
                b"HTTP/1.1 200 OK\r\nContent-Type: application/octet-stream\r\n\
                    Content-Length: 1016\r\nX-DEBUGINFOD-SIZE: 1016\r\n\
                    X-DEBUGINFOD-FILE: /srv/bin/prog\r\nConnection: keep-alive\r\n\r\n"
            }
            Ask::Tool => {
                b"HTTP/1.1 200 OK\r\nContent-Type: application/octet-stream\r\n\
                    Content-Length: 408\r\nX-DEBUGINFOD-SIZE: 408\r\n\
                    X-DEBUGINFOD-FILE: /srv/bin/tool\r\nConnection: keep-alive\r\n\r\n"
            }
            Ask::ToolDebug => {
                b"HTTP/1.1 200 OK\r\nContent-Type: application/octet-stream\r\n\
                    Content-Length: 584\r\nX-DEBUGINFOD-SIZE: 584\r\n\
                    X-DEBUGINFOD-FILE: /srv/debug/tool.debug\r\nConnection: keep-alive\r\n\r\n"
            }
            Ask::Code => {
                b"HTTP/1.1 200 OK\r\nContent-Type: application/octet-stream\r\n\
                    Content-Length: 1\r\nX-DEBUGINFOD-SIZE: 1\r\n\
                    X-DEBUGINFOD-FILE: /srv/bin/tool\r\nConnection: keep-alive\r\n\r\n\xc3"
            }
            Ask::Source => {
                b"HTTP/1.1 200 OK\r\nContent-Type: application/octet-stream\r\n\
                    Content-Length: 26\r\nX-DEBUGINFOD-SIZE: 26\r\n\
                    X-DEBUGINFOD-FILE: /w/src/main.c\r\nConnection: keep-alive\r\n\r\n"
            }
            Ask::Compressed | Ask::OtherProgram => NOT_FOUND,
            Ask::Counters => {
                b"HTTP/1.1 200 OK\r\nContent-Type: text/plain\r\nContent-Length: 234\r\n\
                    Connection: keep-alive\r\n\r\n\
                    dbgd_requests_total{route=\"debuginfo\",status=\"200\"} 1\n\
                    dbgd_requests_total{route=\"executable\",status=\"404\"} 1\n\
                    dbgd_body_bytes_total 1026\n\
                    dbgd_rows_added_total 12\n\
                    dbgd_rows_replaced_total 0\n\
                    dbgd_rows_dropped_total 0\n\
                    dbgd_passes_total 1\n"
            }
        }
    }

    /// The file that is sent.
    fn file(self) -> Option<Sample> {
        match self {
            Ask::Program => Some(Sample::Program),
            Ask::Tool => Some(Sample::Tool),
            Ask::ToolDebug => Some(Sample::ToolDebug),
            Ask::Source => Some(Sample::Source),
            Ask::Code | Ask::Compressed | Ask::OtherProgram | Ask::Counters => None,
        }
    }
}

/// The reply that says that nothing was found.
pub const NOT_FOUND: &[u8] = b"HTTP/1.1 404 Not Found\r\nContent-Type: text/plain\r\n\
    Content-Length: 10\r\nConnection: keep-alive\r\n\r\nnot found\n";

/// The reply to a request of no route.
pub static NO_ROUTE: &[u8] = b"HTTP/1.1 404 Not Found\r\nContent-Type: text/plain\r\n\
    Content-Length: 9\r\nConnection: keep-alive\r\n\r\nno route\n";

/// The requests, one behind the other.
pub fn requests(rt: &impl Abort, alloc: Global, asks: &[Ask]) -> String {
    let mut text = String::new(alloc);
    for ask in asks {
        text.push_str(ask.request()).expect(rt, "memory");
    }
    text
}

/// Adds the file that is sent.
fn push_file(rt: &impl Abort, alloc: Global, replies: &mut Vec<u8>, sample: Sample) {
    let bytes = sample.bytes(alloc).expect(rt, "memory");
    replies
        .extend_from_slice(bytes.as_slice())
        .expect(rt, "memory");
}

/// A reply that sends a file behind this.
pub fn reply_with(rt: &impl Abort, alloc: Global, front: &[u8], sample: Sample) -> Vec<u8> {
    let mut reply = Vec::from_slice(alloc, front).expect(rt, "memory");
    push_file(rt, alloc, &mut reply, sample);
    reply
}

/// The replies to these, one behind the other.
pub fn replies(rt: &impl Abort, alloc: Global, asks: &[Ask]) -> Vec<u8> {
    let mut replies = Vec::new(alloc);
    for ask in asks {
        replies.extend_from_slice(ask.front()).expect(rt, "memory");
        if let Some(sample) = ask.file() {
            push_file(rt, alloc, &mut replies, sample);
        }
    }
    replies
}
