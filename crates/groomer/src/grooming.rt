//! One groomer.

ghost use Rattle.std.specs.Prelude.{◌≡◌, ◌+◌, ◌≤◌, List};
ghost use Rattle.index_lock.specs.Tokens.{IsLater};
ghost use Rattle.index_rows.specs.declared.change.Change.{Change};
ghost use Rattle.index_desk.specs.Counts.{drops};
ghost use Rattle.index_desk.specs.Ends.{EndsShow, JudgedShows};
ghost use Rattle.groomer.specs.Grooms.{Grooms, GroomsOn};
ghost use Rattle.groomer.specs.Judged.{miss_of};

use crate::looking::{Looked, look};
use crate::report::{GroomReport, Tally};
use index_desk::{Desk, WorkEnd};
use index_keeper::Keeper;
use index_lock::{Seat, TurnLock};
use index_state::{GroomTask, Judged, State};
use row_types::{Name, Truth};
use scan_queue::{Cause, Seen};
use std::alloc::Global;
use std::sync::Wait;
use tree_trait::{Gate, Tree};

/// Looks for the files of the rows that are no longer listed, one after the other, until none is
/// left to be handed out, and drops the rows whose files are gone. Each name is taken in one hold
/// of the lock and handed in in another; the look is made between them, at a path under a root
/// alone. A name whose look failed, or found the file of the row, is missed. No point of a gate is
/// passed.
pub fn groom<W: Truth, K: Keeper<W>, T: Tree<W>, G: Gate, R: Wait + Sync>(
    rt: &R,
    alloc: Global,
    lock: &TurnLock<State<W, K>>,
    seat: Seat<State<W, K>>,
    hand: T,
    _gate: &G,
) -> (Seat<State<W, K>>, T, GroomReport)
    requires { seat.lock ≡ lock.now }
    ensures { Grooms T.told W.version seat (T.shows hand) result.0 (T.shows result.1) result.2 }
{
    let mut seat = seat;
    let mut hand = hand;
    let mut tally = Tally {
        dropped: 0,
        missed: 0,
    };
    for _ in rt.forever() {
        let (desk, end) = groom_once(rt, alloc, Desk { lock, seat }, &mut hand, &mut tally);
        let Desk {
            lock: _,
            seat: next,
        } = desk;
        seat = next;
        if let Some(end) = end {
            let Tally { dropped, missed } = tally;
            let report = GroomReport {
                dropped,
                missed,
                end,
            };
            return (seat, hand, report);
        }
    }
    unreachable!()
}

/// Takes the next name, looks for its file and hands it in. Says why the groomer ends, if it does.
fn groom_once<'a, W: Truth, K: Keeper<W>, T: Tree<W>, R: Wait>(
    rt: &R,
    alloc: Global,
    desk: Desk<'a, W, K>,
    hand: &mut T,
    tally: &mut Tally,
) -> (Desk<'a, W, K>, Option<WorkEnd>)
    ensures grooms { GroomsOn T.told W.version desk.entry.seat (T.shows hand.old) tally.old
        result.0.seat (T.shows hand.new) tally.new }
    ensures ends { EndsShow result.1 result.0.seat.seen }
{
    let (desk, task) = desk.groom_take(rt);
    match task {
        Some(task) => look_for(rt, alloc, desk, hand, tally, &task),
        None => (desk, Some(WorkEnd::Empty)),
    }
}

/// Looks for the file of a name that was taken, and hands it in.
fn look_for<'a, W: Truth, K: Keeper<W>, T: Tree<W>, R: Wait>(
    rt: &R,
    alloc: Global,
    desk: Desk<'a, W, K>,
    hand: &mut T,
    tally: &mut Tally,
    task: &GroomTask,
) -> (Desk<'a, W, K>, Option<WorkEnd>)
    ensures grooms { GroomsOn T.told W.version desk.entry.seat (T.shows hand.old) tally.old
        result.0.seat (T.shows hand.new) tally.new }
    ensures ends { EndsShow result.1 result.0.seat.seen }
{
    match look(alloc, hand, task) {
        Looked::Saw(seen) => judge(rt, alloc, desk, tally, &task.name, seen),
        Looked::Failed => {
            tally.add_failed();
            let (desk, _) = desk.miss(rt, &task.name, Cause::ReadFault);
            (desk, None)
        }
        Looked::OutOfMemory => (desk, Some(WorkEnd::OutOfMemory)),
    }
}

/// Judges a name by what was seen at its path, and counts what comes of it.
fn judge<'a, W: Truth, K: Keeper<W>, R: Wait>(
    rt: &R,
    alloc: Global,
    desk: Desk<'a, W, K>,
    tally: &mut Tally,
    name: &Name,
    seen: Seen,
) -> (Desk<'a, W, K>, Option<WorkEnd>)
    ensures later { IsLater desk.entry.seat result.0.seat }
    ensures dropped { tally.new.dropped + drops desk.entry.seat.seen
        ≤ tally.old.dropped + drops result.0.seat.seen }
    ensures least { tally.old.missed ≤ tally.new.missed }
    ensures most { tally.new.missed ≤ tally.old.missed + miss_of seen }
    ensures ends { EndsShow result.1 result.0.seat.seen }
{
    let (desk, answer) = desk.judge(rt, alloc, name, seen);
    tally.add(&answer);
    (desk, end_by(answer))
}

/// How a groomer ends after a judgement, if it does.
fn end_by(answer: Judged) -> Option<WorkEnd>
    ensures { (log : List Change) → JudgedShows answer log → EndsShow result log }
{
    match answer {
        Judged::Dropped | Judged::Moved { .. } | Judged::Strange | Judged::Kept => None,
        Judged::LogFull => Some(WorkEnd::LogFull),
        Judged::KeeperFault => Some(WorkEnd::KeeperFault),
        Judged::OutOfMemory => Some(WorkEnd::OutOfMemory),
        Judged::Broken => Some(WorkEnd::Broken),
    }
}
