//! The events of an index behind its lock, one in a hold.

ghost use Rattle.std.specs.Prelude.{◌≡◌, ◌+◌, ◌≤◌, IfSome, None};
ghost use Rattle.path_scope.specs.Scope.{scope_of};
ghost use Rattle.row_types.specs.Name.{stamp_at};
ghost use Rattle.index_state.specs.Step.{begins, grooms, judges, misses, publishes, takes};
ghost use Rattle.index_state.specs.Step.{to_begin, to_groom, to_judge, to_miss, to_publish};
ghost use Rattle.index_state.specs.Step.{to_take};
ghost use Rattle.index_desk.specs.Counts.{drops, puts};
ghost use Rattle.index_desk.specs.Ends.{JudgedShows, PublishedShows, drop_by, put_by};
ghost use Rattle.index_desk.specs.Holds.{HoldsEvent, HoldsIndex, RetriesAll};

use crate::held::{
    begin_held, groom_held, judge_held, miss_held, publish_held, retry_held, take_held,
};
use index_keeper::Keeper;
use index_lock::{Seat, TurnLock};
use index_state::{Begun, GroomTask, Judged, Published, State};
use path_scope::Selection;
use row_types::{CanonPath, Name, TrueRow, Truth};
use scan_queue::{Cause, Listing, Seen};
use std::alloc::{AllocError, Global};
use std::sync::Wait;

/// A lock over an index, and a token of it. Each call takes the lock once, and gives the desk back
/// with the token that has seen what was left.
#[derive(Drop)]
pub struct Desk<'a, W: Truth, K: Keeper<W>> {
    pub lock: &'a TurnLock<State<W, K>>,
    pub seat: Seat<State<W, K>>,
    pub ghost fits: { seat.lock ≡ lock.now },
}

impl<'a, W: Truth, K: Keeper<W>> Desk<'a, W, K> {
    /// Begins a pass over what a walk of the roots listed. No name may have been spared.
    pub fn begin<Rt: Wait, P: Selection>(
        self,
        rt: &Rt,
        alloc: Global,
        listing: Listing,
        roots: Vec<CanonPath>,
        select: &mut P,
    ) -> (Desk<'a, W, K>, Begun)
        requires { self.seat.origin.sparing ≡ None }
        ensures holds { HoldsEvent W.true_row K.told K.shows (begins listing (scope_of roots.items (P.takes select.old)))
            (to_begin result.1) self.entry.seat result.0.seat }
        ensures same { P.takes select.new ≡ P.takes select.old }
    {
        let Desk { lock, seat } = self;
        let mut held = lock.enter(rt, seat);
        let begun = begin_held(alloc, held.value_mut(), listing, roots, select);
        let seat = lock.leave(held);
        (Desk { lock, seat }, begun)
    }

    /// Takes the next name that is to be read. Its path is that of no skipped name.
    pub fn take<Rt: Wait>(self, rt: &Rt) -> (Desk<'a, W, K>, Option<Name>)
        ensures holds { HoldsEvent W.true_row K.told K.shows takes (to_take result.1)
            self.entry.seat result.0.seat }
        ensures spares { IfSome result.1 (λ name. stamp_at self.entry.seat.origin.spared name.path
            ≡ None) }
    {
        let Desk { lock, seat } = self;
        let mut held = lock.enter(rt, seat);
        let name = take_held(held.value_mut());
        let seat = lock.leave(held);
        (Desk { lock, seat }, name)
    }

    /// Publishes a row. Puts are counted, and the ends shown, by the log that was left.
    pub fn publish<Rt: Wait>(
        self,
        rt: &Rt,
        alloc: Global,
        row: TrueRow<W>,
    ) -> (Desk<'a, W, K>, Published)
        ensures holds { HoldsEvent W.true_row K.told K.shows (publishes row)
            (to_publish result.1) self.entry.seat result.0.seat }
        ensures puts { puts self.entry.seat.seen + put_by result.1 ≤ puts result.0.seat.seen }
        ensures shows { PublishedShows result.1 result.0.seat.seen }
    {
        let Desk { lock, seat } = self;
        let mut held = lock.enter(rt, seat);
        let answer = publish_held(alloc, held.value_mut(), row);
        let seat = lock.leave(held);
        (Desk { lock, seat }, answer)
    }

    /// Takes the next name that is to be looked for.
    pub fn groom_take<Rt: Wait>(self, rt: &Rt) -> (Desk<'a, W, K>, Option<GroomTask>)
        ensures { HoldsEvent W.true_row K.told K.shows grooms (to_groom result.1)
            self.entry.seat result.0.seat }
    {
        let Desk { lock, seat } = self;
        let mut held = lock.enter(rt, seat);
        let task = groom_held(held.value_mut());
        let seat = lock.leave(held);
        (Desk { lock, seat }, task)
    }

    /// Judges a name by what was seen at its path. Drops are counted, and the ends shown, by the log
    /// that was left.
    pub fn judge<Rt: Wait>(
        self,
        rt: &Rt,
        alloc: Global,
        name: &Name,
        seen: Seen,
    ) -> (Desk<'a, W, K>, Judged)
        ensures holds { HoldsEvent W.true_row K.told K.shows (judges name.now seen)
            (to_judge result.1) self.entry.seat result.0.seat }
        ensures drops { drops self.entry.seat.seen + drop_by result.1 ≤ drops result.0.seat.seen }
        ensures shows { JudgedShows result.1 result.0.seat.seen }
    {
        let Desk { lock, seat } = self;
        let mut held = lock.enter(rt, seat);
        let answer = judge_held(alloc, held.value_mut(), name, seen);
        let seat = lock.leave(held);
        (Desk { lock, seat }, answer)
    }

    /// Notes that a name which is out was missed, and by which cause. It says whether the name was
    /// out.
    pub fn miss<Rt: Wait>(self, rt: &Rt, name: &Name, cause: Cause) -> (Desk<'a, W, K>, bool)
        ensures { HoldsEvent W.true_row K.told K.shows (misses name.now cause)
            (to_miss result.1) self.entry.seat result.0.seat }
    {
        let Desk { lock, seat } = self;
        let mut held = lock.enter(rt, seat);
        let was_out = miss_held(held.value_mut(), name, cause);
        let seat = lock.leave(held);
        (Desk { lock, seat }, was_out)
    }

    /// Lets the names that are out or missed be tried again, and gives their number. Where memory
    /// for their copies was refused, the index is as it was.
    pub fn retry<Rt: Wait>(self, rt: &Rt) -> (Desk<'a, W, K>, Result<u64, AllocError>)
        ensures { HoldsIndex W.true_row K.told K.shows (RetriesAll K.told K.shows result.1)
            self.entry.seat result.0.seat }
    {
        let Desk { lock, seat } = self;
        let mut held = lock.enter(rt, seat);
        let answer = retry_held(held.value_mut());
        let seat = lock.leave(held);
        (Desk { lock, seat }, answer)
    }
}
