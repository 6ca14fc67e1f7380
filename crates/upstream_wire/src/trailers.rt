//! Trailers, which are passed over.

ghost use Rattle.std.specs.Prelude.{◌≡◌, MatchResult, length};
ghost use Rattle.upstream_wire.specs.Bodies.{FailsBody, FindsTrailers, IsTrailerLook, ReadsTrailers};
ghost use Rattle.upstream_wire.specs.Chunked.{HasNoTrailers};

use crate::fault::ResponseFault;
use crate::limits::TRAILERS;
use crate::waiting::read_on;
use http_wire::{HEAD_LIMIT, Room, Source};
use httparse::Status;
use httparse::spans::{EMPTY_HEADER_SPAN, HeaderSpan, parse_headers};
use std::alloc::Global;

/// What bytes in front of which trailers may stand are.
#[derive(Clone, Copy)]
pub(crate) enum TrailerLook {
    /// Trailers of this length.
    Whole(usize),
    /// They hold no whole ones.
    Partial,
    /// They begin none that are read.
    Bad,
}

/// Looks for trailers.
fn look_trailers(bytes: &[u8], headers: &mut [HeaderSpan]) -> TrailerLook
    requires { length headers.old ≡ TRAILERS }
    ensures look { IsTrailerLook bytes.now result }
    ensures same { length headers.new ≡ TRAILERS }
{
    match parse_headers(bytes, headers) {
        Ok(Status::Complete((len, _))) => TrailerLook::Whole(len),
        Ok(Status::Partial) => TrailerLook::Partial,
        Err(_) => TrailerLook::Bad,
    }
}

/// Reads on until trailers are in front, and gives their length. The places of the fields are kept on
/// the heap, and only while trailers are read.
fn find_trailers<S: Source>(
    alloc: Global,
    room: &mut Room,
    source: &mut S,
) -> Result<usize, ResponseFault>
    ensures { MatchResult result
        (λ len. FindsTrailers room.old (S.shows source.old) len room.new (S.shows source.new))
        (λ fault. FailsBody fault HasNoTrailers room.old (S.shows source.old) (S.shows source.new)) }
{
    let Ok(mut headers) = vec![in alloc; EMPTY_HEADER_SPAN; TRAILERS] else {
        return Err(ResponseFault::OutOfMemory);
    };
    wait_trailers(room, source, &mut headers)
}

/// Reads on until trailers are in front, and gives their length.
fn wait_trailers<S: Source>(
    room: &mut Room,
    source: &mut S,
    headers: &mut [HeaderSpan],
) -> Result<usize, ResponseFault>
    requires { length headers.old ≡ TRAILERS }
    ensures { MatchResult result
        (λ len. FindsTrailers room.old (S.shows source.old) len room.new (S.shows source.new))
        (λ fault. FailsBody fault HasNoTrailers room.old (S.shows source.old) (S.shows source.new)) }
{
    loop {
        match look_trailers(room.held(), headers) {
            TrailerLook::Whole(len) => return Ok(len),
            TrailerLook::Partial => {}
            TrailerLook::Bad => return Err(ResponseFault::NoResponse),
        }
        if room.held().len() == HEAD_LIMIT {
            return Err(ResponseFault::NoResponse);
        }
        match read_on(room, source) {
            Ok(()) => {}
            Err(fault) => return Err(fault),
        }
    }
}

/// Reads trailers.
pub(crate) fn read_trailers<S: Source>(
    alloc: Global,
    room: &mut Room,
    source: &mut S,
) -> Result<(), ResponseFault>
    ensures { MatchResult result
        (λ _. ReadsTrailers room.old (S.shows source.old) room.new (S.shows source.new))
        (λ fault. FailsBody fault HasNoTrailers room.old (S.shows source.old) (S.shows source.new)) }
{
    let len = find_trailers(alloc, room, source)?;
    room.pass(len);
    Ok(())
}
