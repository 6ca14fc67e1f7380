//! Chunked bodies.

ghost use Rattle.std.specs.Prelude.{◌≡◌, [], MatchResult};
ghost use Rattle.upstream_wire.specs.Bodies.{FailsBody, ReadsChunked, StepsChunk};
ghost use Rattle.upstream_wire.specs.Chunked.{HasNoChunked};

use crate::data::{read_data, read_line_end};
use crate::fault::ResponseFault;
use crate::limits::BODY_LIMIT;
use crate::lines::read_line;
use crate::trailers::read_trailers;
use http_wire::{Room, Source};
use std::alloc::Global;

/// What was read of a chunked body.
#[derive(Clone, Copy)]
pub(crate) enum Step {
    /// The line of the last chunk.
    Last,
    /// A chunk with so many bytes.
    Chunk(u64),
}

/// Reads a chunk, or the line of the last one.
fn read_chunk<S: Source>(
    room: &mut Room,
    source: &mut S,
    most: u64,
    body: &mut Vec<u8>,
) -> Result<Step, ResponseFault>
    ensures { MatchResult result
        (λ step. StepsChunk room.old (S.shows source.old) most step body.old.items
        room.new (S.shows source.new) body.new.items)
        (λ fault. FailsBody fault (HasNoChunked most)
        room.old (S.shows source.old) (S.shows source.new)) }
{
    let size = match read_line(room, source) {
        Ok(size) => size,
        Err(fault) => return Err(fault),
    };
    if size == 0 {
        return Ok(Step::Last);
    }
    if size > most {
        return Err(ResponseFault::NoResponse);
    }
    match read_data(room, source, size, body) {
        Ok(()) => {}
        Err(fault) => return Err(fault),
    }
    match read_line_end(room, source) {
        Ok(()) => Ok(Step::Chunk(size)),
        Err(fault) => Err(fault),
    }
}

/// Reads a chunked body.
#[tactic(auto, using(crate::proofs::StepLemmas::body_steps))]
pub(crate) fn read_chunked<S: Source>(
    alloc: Global,
    room: &mut Room,
    source: &mut S,
    body: &mut Vec<u8>,
) -> Result<(), ResponseFault>
    requires { body.old.items ≡ [] }
    ensures { MatchResult result
        (λ _. ReadsChunked room.old (S.shows source.old) room.new (S.shows source.new) body.new.items)
        (λ fault. FailsBody fault (HasNoChunked BODY_LIMIT)
        room.old (S.shows source.old) (S.shows source.new)) }
{
    let mut left = BODY_LIMIT;
    loop {
        match read_chunk(room, source, left, body) {
            Ok(Step::Chunk(size)) => left -= size,
            Ok(Step::Last) => break,
            Err(fault) => return Err(fault),
        }
    }
    match read_trailers(alloc, room, source) {
        Ok(()) => Ok(()),
        Err(fault) => Err(fault),
    }
}
