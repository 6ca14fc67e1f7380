//! Bytes of a body.

ghost use Rattle.std.specs.Prelude.{[], ◌<◌, IfOk, MatchResult, length};
ghost use Rattle.httparse.specs.Grammar.{crlf, print_end};
ghost use Rattle.upstream_wire.specs.Bodies.{FailsBody, FailsSome, MovesBytes, ReadsData};
ghost use Rattle.upstream_wire.specs.Chunked.{LacksFront};
ghost use Rattle.upstream_wire.specs.Takes.{Takes};

use crate::fault::ResponseFault;
use http_wire::{ReadAnswer, Room, Source};
use std::alloc::AllocError;

/// Moves at most so many held bytes behind a body, and gives how many.
fn move_some(room: &mut Room, most: u64, body: &mut Vec<u8>) -> Result<u64, AllocError>
    requires some { (0 < most) × (0 < length room.old) }
    ensures { IfOk result (λ n. MovesBytes room.old most body.old.items n room.new body.new.items) }
{
    let held = room.held();
    let count = most.min(held.len() as u64);
    body.extend_from_slice(&held[..count as usize])?;
    room.pass(count as usize);
    Ok(count)
}

/// Reads some bytes where none is held.
fn need_some<S: Source>(room: &mut Room, source: &mut S) -> Result<(), ResponseFault>
    ensures { MatchResult result
        (λ _. Takes room.old (S.shows source.old) [] room.new (S.shows source.new) × (0 < length room.new))
        (λ fault. FailsSome fault room.old (S.shows source.old) (S.shows source.new)) }
{
    if !room.held().is_empty() {
        return Ok(());
    }
    match room.fill(source) {
        ReadAnswer::Bytes(_) => Ok(()),
        ReadAnswer::End => Err(ResponseFault::NoResponse),
        ReadAnswer::Failed => Err(ResponseFault::ReadFault),
    }
}

/// Reads so many bytes behind a body, which grows with what comes.
pub(crate) fn read_data<S: Source>(
    room: &mut Room,
    source: &mut S,
    size: u64,
    body: &mut Vec<u8>,
) -> Result<(), ResponseFault>
    ensures { MatchResult result
        (λ _. ReadsData room.old (S.shows source.old) size body.old.items room.new (S.shows source.new) body.new.items)
        (λ fault. FailsBody fault (λ all. length all < size)
        room.old (S.shows source.old) (S.shows source.new)) }
{
    let mut left = size;
    while left > 0 {
        match need_some(room, source) {
            Ok(()) => {}
            Err(fault) => return Err(fault),
        }
        match move_some(room, left, body) {
            Ok(count) => left -= count,
            Err(_) => return Err(ResponseFault::OutOfMemory),
        }
    }
    Ok(())
}

/// Reads the line end behind a chunk's data.
pub(crate) fn read_line_end<S: Source>(room: &mut Room, source: &mut S) -> Result<(), ResponseFault>
    ensures { MatchResult result
        (λ _. Takes room.old (S.shows source.old) (print_end crlf) room.new (S.shows source.new))
        (λ fault. FailsBody fault (LacksFront (print_end crlf))
        room.old (S.shows source.old) (S.shows source.new)) }
{
    loop {
        match room.held() {
            [13, 10, ..] => {
                room.pass(2);
                return Ok(());
            }
            [] | [_] => {}
            _ => return Err(ResponseFault::NoResponse),
        }
        match room.fill(source) {
            ReadAnswer::Bytes(_) => {}
            ReadAnswer::End => return Err(ResponseFault::NoResponse),
            ReadAnswer::Failed => return Err(ResponseFault::ReadFault),
        }
    }
}
