//! Bodies that go up to the end.

ghost use Rattle.std.specs.Prelude.{◌≡◌, ◌↔◌, ◌<◌, ◌+◌, ◌++◌, [], IfOk, IsTrue, MatchResult, length};
ghost use Rattle.upstream_wire.specs.Bodies.{FailsBody, ReadsToEnd};

use crate::fault::ResponseFault;
use crate::limits::BODY_LIMIT;
use http_wire::{ReadAnswer, Room, Source};
use std::alloc::AllocError;

/// Moves all held bytes behind a body.
fn take_all(room: &mut Room, body: &mut Vec<u8>) -> Result<(), AllocError>
    ensures { IfOk result (λ _. (room.new ≡ []) × (body.new.items ≡ body.old.items ++ room.old)) }
{
    let held = room.held();
    let count = held.len();
    body.extend_from_slice(held)?;
    room.pass(count);
    Ok(())
}

/// Whether these are more bytes than a body has.
fn is_over(body: &[u8], held: &[u8]) -> bool
    ensures { IsTrue result ↔ (BODY_LIMIT < length body.now + length held.now) }
{
    body.len() as u128 + held.len() as u128 > BODY_LIMIT as u128
}

/// Reads a body that goes up to the end.
pub(crate) fn read_to_end<S: Source>(
    room: &mut Room,
    source: &mut S,
    body: &mut Vec<u8>,
) -> Result<(), ResponseFault>
    requires { body.old.items ≡ [] }
    ensures { MatchResult result
        (λ _. ReadsToEnd room.old (S.shows source.old) body.new.items (S.shows source.new))
        (λ fault. FailsBody fault (λ all. BODY_LIMIT < length all)
        room.old (S.shows source.old) (S.shows source.new)) }
{
    loop {
        if is_over(body.as_slice(), room.held()) {
            return Err(ResponseFault::NoResponse);
        }
        match take_all(room, body) {
            Ok(()) => {}
            Err(_) => return Err(ResponseFault::OutOfMemory),
        }
        match room.fill(source) {
            ReadAnswer::Bytes(_) => {}
            ReadAnswer::End => return Ok(()),
            ReadAnswer::Failed => return Err(ResponseFault::ReadFault),
        }
    }
}
