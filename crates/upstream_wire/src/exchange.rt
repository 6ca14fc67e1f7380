//! A question over a dial: one connection, one request, one response.

ghost use Rattle.std.specs.Prelude.{◌≡◌};
ghost use Rattle.upstream_wire.specs.Ask.{AsksDial, ExchangesOver, ReadsAnswerOf, failed_by};

use crate::dial::{Dial, DialAnswer};
use crate::fault::ResponseFault;
use crate::response::{Response, read_response};
use http_wire::{Sink, Source, write_all};
use std::alloc::Global;
use std::sync::Wait;

/// What came of a question.
#[derive(Drop)]
pub enum Answer {
    /// A response.
    Response(Response),
    /// None: no connection came, a write or a read failed, or what came is no response.
    Failed,
    /// There was not enough memory.
    OutOfMemory,
}

/// Asks a port of a host: connects, writes the request, reads its response, and gives the connection
/// back.
#[tactic(auto, using(crate::proofs::DialLemmas::asks_conn))]
pub fn ask_over<D: Dial, Rt: Wait>(
    rt: &Rt,
    alloc: Global,
    dial: &mut D,
    host: &str,
    port: u16,
    request: &[u8],
) -> Answer
    ensures { AsksDial (D.shows dial.old) host.now port request.now result (D.shows dial.new) }
{
    match dial.connect(rt, alloc, host, port) {
        DialAnswer::Connected(conn) => {
            let mut conn = conn;
            let answer = exchange(alloc, &mut conn, request);
            dial.ended(conn);
            answer
        }
        DialAnswer::Failed => Answer::Failed,
        DialAnswer::OutOfMemory => Answer::OutOfMemory,
    }
}

/// Writes a request, and reads its response.
fn exchange<N: Source + Sink>(alloc: Global, conn: &mut N, request: &[u8]) -> Answer
    ensures { ExchangesOver (N.shows conn.old) request.now (N.shows conn.new) result }
{
    match write_all(conn, request) {
        Ok(()) => read_answer(alloc, conn),
        Err(_) => Answer::Failed,
    }
}

/// Reads a response.
fn read_answer<N: Source>(alloc: Global, conn: &mut N) -> Answer
    ensures { ReadsAnswerOf (N.shows conn.old) result (N.shows conn.new) }
{
    match read_response(alloc, conn) {
        Ok(response) => Answer::Response(response),
        Err(fault) => failed_by(fault),
    }
}

/// What came of a question whose response wasn't read.
fn failed_by(fault: ResponseFault) -> Answer
    ensures { result ≡ failed_by fault }
{
    match fault {
        ResponseFault::NoResponse => Answer::Failed,
        ResponseFault::ReadFault => Answer::Failed,
        ResponseFault::OutOfMemory => Answer::OutOfMemory,
    }
}
