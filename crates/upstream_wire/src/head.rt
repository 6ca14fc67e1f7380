//! Heads of responses.

ghost use Rattle.std.specs.Prelude.{◌≤◌, MatchResult, length};
ghost use Rattle.httparse.specs.Spans.{IsResponseOf, IsResponseWithin};
ghost use Rattle.upstream_wire.specs.Bodies.{FailsBody};
ghost use Rattle.upstream_wire.specs.Heads.{FindsHeadOf, HasNoReadHead, HasReadHead, IsResponseLook, ReadsHeadOf};

use crate::fault::ResponseFault;
use crate::framing::{Framing, framing_of};
use crate::waiting::read_on;
use http_wire::{FIELD_LIMIT, HEAD_LIMIT, Room, Source};
use httparse::Status;
use httparse::spans::{EMPTY_HEADER_SPAN, HeaderSpan, ResponseSpans, parse_response};

/// What the head of a response says.
#[derive(Clone, Copy)]
pub(crate) struct FoundResponse {
    pub status: u16,
    pub framing: Framing,
    /// The head's length in bytes.
    pub len: usize,
}

/// What bytes in front of which a head may stand are.
#[derive(Clone, Copy)]
pub(crate) enum ResponseLook {
    /// They begin with a head.
    Whole(FoundResponse),
    /// They hold no whole head.
    Partial,
    /// They begin with no head that is read.
    Bad,
}

/// Looks for a head.
fn look_head(bytes: &[u8]) -> ResponseLook
    requires { length bytes.now ≤ HEAD_LIMIT }
    ensures { IsResponseLook bytes.now result }
{
    let mut headers = [EMPTY_HEADER_SPAN; FIELD_LIMIT];
    match parse_response(bytes, &mut headers) {
        Ok(Status::Complete(spans)) => ResponseLook::Whole(found_at(bytes, spans, &headers)),
        Ok(Status::Partial) => ResponseLook::Partial,
        Err(_) => ResponseLook::Bad,
    }
}

/// The head at these places.
fn found_at(bytes: &[u8], spans: ResponseSpans, headers: &[HeaderSpan]) -> FoundResponse
    requires short { length bytes.now ≤ HEAD_LIMIT }
    requires few { length headers.now ≤ FIELD_LIMIT }
    requires within { IsResponseWithin bytes.now headers.now spans }
    requires of { IsResponseOf bytes.now headers.now spans }
    ensures { HasReadHead bytes.now result }
{
    FoundResponse {
        status: spans.code,
        framing: framing_of(bytes, &headers[..spans.headers]),
        len: spans.len,
    }
}

/// Reads on until a head is in front, and gives what it says.
fn find_response<S: Source>(room: &mut Room, source: &mut S) -> Result<FoundResponse, ResponseFault>
    ensures { MatchResult result
        (λ found. FindsHeadOf room.old (S.shows source.old) found room.new (S.shows source.new))
        (λ fault. FailsBody fault HasNoReadHead room.old (S.shows source.old) (S.shows source.new)) }
{
    loop {
        match look_head(room.held()) {
            ResponseLook::Whole(found) => return Ok(found),
            ResponseLook::Partial => {}
            ResponseLook::Bad => return Err(ResponseFault::NoResponse),
        }
        if room.held().len() == HEAD_LIMIT {
            return Err(ResponseFault::NoResponse);
        }
        match read_on(room, source) {
            Ok(()) => {}
            Err(fault) => return Err(fault),
        }
    }
}

/// Reads a head, and gives what it says.
pub(crate) fn read_head<S: Source>(
    room: &mut Room,
    source: &mut S,
) -> Result<FoundResponse, ResponseFault>
    ensures { MatchResult result
        (λ found. ReadsHeadOf room.old (S.shows source.old) found room.new (S.shows source.new))
        (λ fault. FailsBody fault HasNoReadHead room.old (S.shows source.old) (S.shows source.new)) }
{
    let found = find_response(room, source)?;
    room.pass(found.len);
    Ok(found)
}
