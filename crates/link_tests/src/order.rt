//! When a question reads: a server that answers where the whole request came, and not before.

use http_wire::{MemCall, MemConn, ReadAnswer, Sink, Source, Stream, WriteAnswer};
use row_types::Faults;
use std::alloc::Global;
use std::process::Abort;
use std::sync::Wait;
use upstream_wire::{Answer, Dial, DialAnswer, DialConn, MemDial, ask_over};

/// What is asked.
static REQUEST: &[u8] = b"GET /a HTTP/1.1\r\n\r\n";

/// What is answered.
static RESPONSE: &[u8] = b"HTTP/1.1 200 OK\r\nContent-Length: 2\r\n\r\nok";

/// A connection to a server that takes three bytes at a write, and waits for the whole request: a read
/// before that comes too early, and fails.
#[derive(Drop)]
struct Strict {
    taken: usize,
    is_sent: bool,
    early: Faults,
}

impl Strict {
    /// A connection that has taken and given nothing.
    fn new() -> Strict {
        Strict {
            taken: 0,
            is_sent: false,
            early: Faults::new(),
        }
    }
}

impl Stream for Strict {
    ghost use Rattle.std.specs.Prelude.{None};

    ghost shows = { λ c. record {
      left = None;
      read_faults = c.early;
      written = None;
      write_faults = 0;
      calls = None;
    } };
}

impl Source for Strict {
    fn read(&mut self, room: &mut [u8]) -> ReadAnswer {
        if self.is_sent {
            return ReadAnswer::End;
        }
        let count = RESPONSE.len();
        if self.taken < REQUEST.len() || count == 0 || count > room.len() {
            self.early.raise();
            return ReadAnswer::Failed;
        }
        self.is_sent = true;
        room[..count].copy_from_slice(RESPONSE);
        ReadAnswer::Bytes(count)
    }
}

impl Sink for Strict {
    fn write(&mut self, bytes: &[u8]) -> WriteAnswer {
        let count = bytes.len().min(3);
        self.taken = self.taken.saturating_add(count);
        WriteAnswer::Took(count)
    }
}

/// A dial that connects once.
#[derive(Drop)]
struct OneServer {
    conn: Option<Strict>,
    faults: Faults,
}

impl Dial for OneServer {
    ghost use Rattle.std.specs.Prelude.{None};

    type Conn = Strict;

    ghost shows = { λ d. record { given = None; ended = None; faults = d.faults } };

    fn connect<Rt: Wait>(
        &mut self,
        _rt: &Rt,
        _alloc: Global,
        _host: &str,
        _port: u16,
    ) -> DialAnswer<Strict> {
        match self.conn.take() {
            Some(conn) => DialAnswer::Connected(conn),
            None => {
                self.faults.raise();
                DialAnswer::Failed
            }
        }
    }

    fn ended(&mut self, conn: Strict) {
        self.faults.add(conn.early);
        self.faults.add(Faults::new());
    }
}

/// The answer's status, where there is one.
fn status_of(answer: &Answer) -> Option<u16> {
    match answer {
        Answer::Response(response) => Some(response.status),
        Answer::Failed | Answer::OutOfMemory => None,
    }
}

#[test]
fn the_whole_request_is_taken_before_the_response_is_read(rt: HostRuntime) {
    let mut dial = OneServer {
        conn: Some(Strict::new()),
        faults: Faults::new(),
    };
    let answer = ask_over(&rt, rt.alloc(), &mut dial, "h", 80, REQUEST);
    assert!(rt; status_of(&answer) == Some(200));
    assert!(rt; dial.faults.count() == 0);
}

/// A dial in memory that connects once, to a server that answers so.
fn dial(rt: &impl Abort, alloc: Global) -> MemDial {
    let conn = MemConn::new(
        alloc,
        Vec::from_slice(alloc, RESPONSE).expect(rt, "memory"),
        Vec::new(alloc),
        Vec::new(alloc),
        Vec::new(alloc),
    );
    let mut conns = Vec::new(alloc);
    conns.push(conn).expect(rt, "memory");
    MemDial::new(alloc, conns)
}

/// A call is a write or not, and has these bytes.
fn is_call(rt: &impl Abort, call: Option<&MemCall>, is_write: bool, bytes: &[u8]) {
    let call = call.expect(rt, "the calls are told");
    assert!(rt; call.is_write() == is_write, "{bytes:?}");
    assert!(rt; call.bytes() == bytes, "{bytes:?}");
}

/// The calls of a connection are the request's write and the response's read.
fn are_told(rt: &impl Abort, conn: &DialConn) {
    let calls = conn.calls().expect(rt, "memory suffices for each call");
    assert!(rt; calls.len() == 2, "{}", calls.len());
    is_call(rt, calls.first(), true, REQUEST);
    is_call(rt, calls.get(1), false, RESPONSE);
}

#[test]
fn a_dialled_connection_tells_its_calls(rt: HostRuntime) {
    let mut dial = dial(&rt, rt.alloc());
    let answer = ask_over(&rt, rt.alloc(), &mut dial, "h", 80, REQUEST);
    assert!(rt; status_of(&answer) == Some(200));
    let ended = dial.ended_conns().expect(&rt, "memory suffices for one");
    assert!(rt; ended.len() == 1, "{}", ended.len());
    for conn in ended {
        are_told(&rt, conn);
    }
}
