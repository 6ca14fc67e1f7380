//! Lines in front of chunks.

ghost use Rattle.std.specs.Prelude.{MatchResult};
ghost use Rattle.upstream_wire.specs.Bodies.{FailsBody, FindsLine, IsLineLook, ReadsLine};
ghost use Rattle.upstream_wire.specs.Chunked.{HasNoSizeLine};

use crate::fault::ResponseFault;
use crate::waiting::read_on;
use http_wire::{HEAD_LIMIT, Room, Source};
use httparse::{Status, parse_chunk_size};

/// What bytes in front of which a line may stand are.
#[derive(Clone, Copy)]
pub(crate) enum LineLook {
    /// A line of this length, and the size that it says.
    Whole(usize, u64),
    /// They hold no whole line.
    Partial,
    /// They begin no line.
    Bad,
}

/// Looks for a line.
fn look_line(bytes: &[u8]) -> LineLook
    ensures { IsLineLook bytes.now result }
{
    match parse_chunk_size(bytes) {
        Ok(Status::Complete((len, size))) => LineLook::Whole(len, size),
        Ok(Status::Partial) => LineLook::Partial,
        Err(_) => LineLook::Bad,
    }
}

/// Reads on until a line is in front, and gives its length and its size.
fn find_line<S: Source>(room: &mut Room, source: &mut S) -> Result<(usize, u64), ResponseFault>
    ensures { MatchResult result
        (λ r. FindsLine room.old (S.shows source.old) r room.new (S.shows source.new))
        (λ fault. FailsBody fault HasNoSizeLine room.old (S.shows source.old) (S.shows source.new)) }
{
    loop {
        match look_line(room.held()) {
            LineLook::Whole(len, size) => return Ok((len, size)),
            LineLook::Partial => {}
            LineLook::Bad => return Err(ResponseFault::NoResponse),
        }
        if room.held().len() == HEAD_LIMIT {
            return Err(ResponseFault::NoResponse);
        }
        match read_on(room, source) {
            Ok(()) => {}
            Err(fault) => return Err(fault),
        }
    }
}

/// Reads a line, and gives the size that it says.
pub(crate) fn read_line<S: Source>(room: &mut Room, source: &mut S) -> Result<u64, ResponseFault>
    ensures { MatchResult result
        (λ size. ReadsLine room.old (S.shows source.old) size room.new (S.shows source.new))
        (λ fault. FailsBody fault HasNoSizeLine room.old (S.shows source.old) (S.shows source.new)) }
{
    let (len, size) = find_line(room, source)?;
    room.pass(len);
    Ok(size)
}
