//! One look at bytes that may begin with a head.

ghost use Rattle.std.specs.Prelude.{◌≤◌, length};
ghost use Rattle.httparse.specs.Spans.{IsRequestOf, IsRequestWithin};
ghost use Rattle.http_wire.specs.Look.{HasHead, IsFoundIn};

use crate::fields::{Said, read_fields};
use crate::limits::{FIELD_LIMIT, HEAD_LIMIT};
use httparse::spans::{EMPTY_HEADER_SPAN, HeaderSpan, RequestSpans, Span, parse_request};
use httparse::{Error, Status};

/// Where the parts of a whole head are, and what it says.
#[derive(Clone, Copy)]
pub struct Found {
    /// Where the method is, in bytes from the head's first one.
    pub method: Span,
    /// Where the target is, likewise.
    pub target: Span,
    /// The version's last number: 0 or 1.
    pub minor: u8,
    /// The head's length in bytes.
    pub len: usize,
    /// What the version and the fields say.
    pub said: Said,
}

/// What some bytes are, to a reader of heads.
#[derive(Clone, Copy)]
pub enum Look {
    /// They begin with a head.
    Whole(Found),
    /// They begin with no whole head, and with more bytes behind them they are one.
    Partial,
    /// They begin with no head, whatever comes behind them.
    Bad,
    /// They begin with more fields than a head has.
    TooMany,
}

/// Says whether bytes begin with a head, or can, as far as the limits let one be.
#[tactic(auto, using(crate::proofs::LineLemmas::has_too_many))]
pub fn look_at(bytes: &[u8]) -> Look
    requires { length bytes.now ≤ HEAD_LIMIT }
    ensures { IsFoundIn bytes.now result }
{
    let mut headers = [EMPTY_HEADER_SPAN; FIELD_LIMIT];
    match parse_request(bytes, &mut headers) {
        Ok(Status::Complete(spans)) => Look::Whole(found_at(bytes, spans, &headers)),
        Ok(Status::Partial) => Look::Partial,
        Err(Error::TooManyHeaders) => Look::TooMany,
        Err(_) => Look::Bad,
    }
}

/// The head at these places.
fn found_at(bytes: &[u8], spans: RequestSpans, headers: &[HeaderSpan]) -> Found
    requires short { length bytes.now ≤ HEAD_LIMIT }
    requires few { length headers.now ≤ FIELD_LIMIT }
    requires within { IsRequestWithin bytes.now headers.now spans }
    requires of { IsRequestOf bytes.now headers.now spans }
    ensures { HasHead bytes.now result }
{
    let said = read_fields(bytes, &headers[..spans.headers]);
    Found {
        method: spans.method,
        target: spans.path,
        minor: spans.version,
        len: spans.len,
        said: Said {
            close: spans.version == 0 || said.close,
            has_body: said.has_body,
            hops: said.hops,
        },
    }
}
