//! Waiting for the end of a line.

ghost use Rattle.std.specs.Prelude.{◌<◌, MatchResult, length};
ghost use Rattle.upstream_wire.specs.Waits.{ReadsOn, StopsWaiting};

use crate::fault::ResponseFault;
use http_wire::{HEAD_LIMIT, ReadAnswer, Room, Source};

/// Reads on until a line feed came, or the room is full. Heads, lines and trailers end in one, so that
/// what comes before it isn't looked at byte by byte.
pub(crate) fn read_on<S: Source>(room: &mut Room, source: &mut S) -> Result<(), ResponseFault>
    requires { length room.old < HEAD_LIMIT }
    ensures { MatchResult result
        (λ _. ReadsOn room.old (S.shows source.old) room.new (S.shows source.new))
        (λ fault. StopsWaiting fault room.old (S.shows source.old) (S.shows source.new)) }
{
    loop {
        let came = match room.fill(source) {
            ReadAnswer::Bytes(n) => n,
            ReadAnswer::End => return Err(ResponseFault::NoResponse),
            ReadAnswer::Failed => return Err(ResponseFault::ReadFault),
        };
        if room.ends_line(came) {
            return Ok(());
        }
        if room.held().len() == HEAD_LIMIT {
            return Ok(());
        }
    }
}
