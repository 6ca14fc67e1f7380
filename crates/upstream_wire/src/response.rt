//! Whole responses.

ghost use Rattle.std.specs.Prelude.{◌≡◌, ◌≤◌, [], IfOk, MatchResult};
ghost use Rattle.http_wire.specs.Stream.{LeavesWriting};
ghost use Rattle.upstream_wire.specs.Bodies.{FailsBody};
ghost use Rattle.upstream_wire.specs.Limits.{ArePinnedResponseLimits};
ghost use Rattle.upstream_wire.specs.Reads.{FailsResponse, HasNoBody, IsOnlyResponse, OfLeft, ReadsBody, ReadsResponseOf, ReadsWhole};
ghost use Rattle.upstream_wire.specs.Response.{HasNoWholeResponse};
ghost use Rattle.upstream_wire.specs.Takes.{OnlyGives};

use crate::chunked::read_chunked;
use crate::data::read_data;
use crate::fault::ResponseFault;
use crate::framing::Framing;
use crate::head::read_head;
use crate::to_end::read_to_end;
use http_wire::{Room, Source};
use std::alloc::Global;

/// A response: its status, and its body without what framed it.
#[derive(Drop)]
pub struct Response {
    /// The number of the status, below 1000.
    pub status: u16,
    pub body: Vec<u8>,
}

/// Reads a response from a source, up to its body's stated end and not beyond. The body's room grows
/// with what comes, whatever length is stated.
#[tactic(auto, using(crate::proofs::RoomLemmas::gives_none))]
pub fn read_response<S: Source>(alloc: Global, source: &mut S) -> Result<Response, ResponseFault>
    ensures reads { MatchResult result
        (λ r. ReadsResponseOf (S.shows source.old) r.status r.body.items)
        (λ fault. FailsResponse fault (S.shows source.old) (S.shows source.new)) }
    ensures only { IfOk result (λ r. OfLeft (S.shows source.old)
        (λ left. IsOnlyResponse left r.status r.body.items)) }
    ensures later { (S.shows source.old).read_faults ≤ (S.shows source.new).read_faults }
    ensures given { OnlyGives (S.shows source.old) (S.shows source.new) }
    ensures apart { LeavesWriting (S.shows source.old) (S.shows source.new) }
    ensures limits { ArePinnedResponseLimits }
{
    let Ok(mut room) = Room::new(alloc) else {
        return Err(ResponseFault::OutOfMemory);
    };
    read_whole(alloc, &mut room, source)
}

/// Reads a response behind what is held.
fn read_whole<S: Source>(
    alloc: Global,
    room: &mut Room,
    source: &mut S,
) -> Result<Response, ResponseFault>
    ensures { MatchResult result
        (λ r. ReadsWhole room.old (S.shows source.old) r.status r.body.items (S.shows source.new))
        (λ fault. FailsBody fault HasNoWholeResponse
        room.old (S.shows source.old) (S.shows source.new)) }
{
    let found = match read_head(room, source) {
        Ok(found) => found,
        Err(fault) => return Err(fault),
    };
    let mut body = Vec::new(alloc);
    match read_body(alloc, room, source, found.framing, &mut body) {
        Ok(()) => Ok(Response {
            status: found.status,
            body,
        }),
        Err(fault) => Err(fault),
    }
}

/// Reads a body that is framed so.
fn read_body<S: Source>(
    alloc: Global,
    room: &mut Room,
    source: &mut S,
    framing: Framing,
    body: &mut Vec<u8>,
) -> Result<(), ResponseFault>
    requires { body.old.items ≡ [] }
    ensures { MatchResult result
        (λ _. ReadsBody framing room.old (S.shows source.old) body.new.items (S.shows source.new))
        (λ fault. FailsBody fault (HasNoBody framing)
        room.old (S.shows source.old) (S.shows source.new)) }
{
    match framing {
        Framing::Chunked => read_chunked(alloc, room, source, body),
        Framing::Sized(size) => read_data(room, source, size, body),
        Framing::ToEnd => read_to_end(room, source, body),
        Framing::OtherEncoding => Err(ResponseFault::NoResponse),
        Framing::BadLength => Err(ResponseFault::NoResponse),
    }
}
