//! Reading until a head is whole, or can't be.

ghost use Rattle.std.specs.Prelude.{◌≡◌};
ghost use Rattle.http_wire.specs.Find.{FindsHead, found_at_end};
ghost use Rattle.http_wire.specs.Look.{IsFoundInLines};

use crate::head::HeadFault;
use crate::limits::HEAD_LIMIT;
use crate::look::{Found, Look, look_at};
use crate::room::Room;
use crate::source::{ReadAnswer, Source};

/// What was found.
#[derive(Clone, Copy)]
pub(crate) enum Find {
    /// A head.
    Whole(Found),
    /// The end, before a head's first byte.
    Closed,
    /// No head.
    Refused(HeadFault),
    /// A read failed.
    Failed,
}

/// Reads on until what is held begins with a head, or can't. The lines that ended are looked at, as often
/// as one ended in what came last: so what is found doesn't depend on how the bytes were cut.
#[tactic(auto, using(crate::proofs::GatherLemmas::gathering))]
pub(crate) fn find_next<S: Source>(room: &mut Room, source: &mut S) -> Find
    ensures { FindsHead room.old (S.shows source.old) room.new (S.shows source.new) result }
{
    let mut look = true;
    loop {
        let held = room.held().len();
        if look {
            match look_at_lines(room) {
                Look::Whole(found) => return Find::Whole(found),
                Look::Bad => return Find::Refused(HeadFault::Bad { len: held }),
                Look::TooMany => return Find::Refused(HeadFault::TooMany),
                Look::Partial => {}
            }
        }
        if held == HEAD_LIMIT {
            return Find::Refused(HeadFault::TooLong);
        }
        match room.fill(source) {
            ReadAnswer::Bytes(n) => look = room.ends_line(n),
            ReadAnswer::End => return at_end(held),
            ReadAnswer::Failed => return Find::Failed,
        }
    }
}

/// Looks at the lines that are held.
fn look_at_lines(room: &Room) -> Look
    ensures { IsFoundInLines room.now result }
{
    look_at(room.lines())
}

/// What the end is behind so many bytes that hold no whole head.
fn at_end(held: usize) -> Find
    ensures { result ≡ found_at_end held }
{
    if held == 0 {
        Find::Closed
    } else {
        Find::Refused(HeadFault::Cut { len: held })
    }
}
