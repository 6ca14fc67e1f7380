//! What becomes of a listed file that was read.

ghost use Rattle.std.specs.Prelude.{◌≡◌, ◌+◌, ◌≤◌, List};
ghost use Rattle.index_lock.specs.Tokens.{IsLater};
ghost use Rattle.index_rows.specs.declared.change.Change.{Change};
ghost use Rattle.index_desk.specs.Counts.{puts};
ghost use Rattle.index_desk.specs.Ends.{PublishedShows, put_by};
ghost use Rattle.scan_worker.specs.Turns.{FitsMiss, FitsRead, FitsRow, TellsIndex, TellsMiss};
ghost use Rattle.scan_worker.specs.Turns.{TellsRow, TurnShows, published_by, turn_of};

use crate::read::NameRead;
use index_desk::{Desk, Ground, WorkEnd};
use index_keeper::Keeper;
use index_state::Published;
use row_types::{Name, TrueRow, Truth};
use scan_queue::Cause;
use std::sync::Wait;

/// What became of a name that was handed out.
#[derive(Clone, Copy, PartialEq, Eq)]
pub(crate) enum Turn {
    /// Its row was added or replaced.
    Published,
    /// It is no longer the pass's: its row stood already, it isn't listed any more, or it was no
    /// longer out as it was to be missed.
    Passed,
    /// It was noted as missed.
    Missed,
    /// The work ends.
    Ended(WorkEnd),
}

/// Hands in what a listed file was read as, in one hold of the lock. Where memory was refused there
/// is nothing to hand in.
pub(crate) fn hand_in<'a, W: Truth, K: Keeper<W>, R, G, Rt: Wait>(
    ground: Ground<'_, R, G, Rt>,
    desk: Desk<'a, W, K>,
    name: &Name,
    read: NameRead<W>,
) -> (Desk<'a, W, K>, Turn)
    ensures tells { TellsIndex W.true_row K.told K.shows name.now read desk.entry.seat result.1
        result.0.seat }
    ensures later { IsLater desk.entry.seat result.0.seat }
    ensures counted { puts desk.entry.seat.seen + published_by result.1
        ≤ puts result.0.seat.seen }
    ensures fits { FitsRead read result.1 }
    ensures shows { TurnShows result.1 result.0.seat.seen }
{
    match read {
        NameRead::Row(row) => publish(ground, desk, row),
        NameRead::Altered(seen) => miss(ground, desk, name, Cause::Altered { seen }),
        NameRead::Failed => miss(ground, desk, name, Cause::ReadFault),
        NameRead::OutOfMemory => (desk, Turn::Ended(WorkEnd::OutOfMemory)),
    }
}

/// Publishes the row of a listed file.
fn publish<'a, W: Truth, K: Keeper<W>, R, G, Rt: Wait>(
    ground: Ground<'_, R, G, Rt>,
    desk: Desk<'a, W, K>,
    row: TrueRow<W>,
) -> (Desk<'a, W, K>, Turn)
    ensures tells { TellsRow W.true_row K.told K.shows row desk.entry.seat result.1
        result.0.seat }
    ensures later { IsLater desk.entry.seat result.0.seat }
    ensures counted { puts desk.entry.seat.seen + published_by result.1
        ≤ puts result.0.seat.seen }
    ensures fits { FitsRow result.1 }
    ensures shows { TurnShows result.1 result.0.seat.seen }
{
    let (desk, answer) = desk.publish(ground.rt, ground.alloc, row);
    (desk, turn_of(answer))
}

/// Notes a name as missed, if it is out.
fn miss<'a, W: Truth, K: Keeper<W>, R, G, Rt: Wait>(
    ground: Ground<'_, R, G, Rt>,
    desk: Desk<'a, W, K>,
    name: &Name,
    cause: Cause,
) -> (Desk<'a, W, K>, Turn)
    ensures tells { TellsMiss W.true_row K.told K.shows name.now cause desk.entry.seat result.1
        result.0.seat }
    ensures later { IsLater desk.entry.seat result.0.seat }
    ensures counted { puts desk.entry.seat.seen + published_by result.1
        ≤ puts result.0.seat.seen }
    ensures fits { FitsMiss result.1 }
    ensures shows { TurnShows result.1 result.0.seat.seen }
{
    let (desk, was_out) = desk.miss(ground.rt, name, cause);
    if was_out {
        (desk, Turn::Missed)
    } else {
        (desk, Turn::Passed)
    }
}

/// What an answer to a row means for the work.
fn turn_of(said: Published) -> Turn
    ensures value { result ≡ turn_of said }
    ensures counted { published_by result ≡ put_by said }
    ensures fits { FitsRow result }
    ensures shows { (log : List Change) → PublishedShows said log → TurnShows result log }
{
    match said {
        Published::Added | Published::Replaced => Turn::Published,
        Published::Already | Published::NotListed { .. } => Turn::Passed,
        Published::Broken => Turn::Ended(WorkEnd::Broken),
        Published::LogFull => Turn::Ended(WorkEnd::LogFull),
        Published::KeeperFault => Turn::Ended(WorkEnd::KeeperFault),
        Published::OutOfMemory => Turn::Ended(WorkEnd::OutOfMemory),
    }
}
