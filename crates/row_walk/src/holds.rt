//! A whole walk over an index behind its lock.

ghost use Rattle.std.specs.Prelude.{◌≡◌, Bool, IfOk};
ghost use Rattle.index_lock.specs.Tokens.{IsLater};
ghost use Rattle.row_walk.specs.Holds.{GoesOn, HasWalked, IsNewWalk, LooksOn, walked_by};
ghost use Rattle.row_walk.specs.Walk.{IsWalk};
ghost use Rattle.row_walk.specs.declared.found.Found.{Found};

use crate::looked::Looked;
use crate::walk::RowWalk;
use crate::wants::Wants;
use index_desk::look_once;
use index_keeper::Keeper;
use index_lock::{Seat, TurnLock};
use index_state::State;
use row_types::Truth;
use std::alloc::{AllocError, Global};
use std::sync::Wait;

/// What a hold makes of a walk.
#[derive(Drop)]
pub(crate) enum Walked {
    /// It goes on.
    Further(RowWalk),
    /// It is over.
    Done(RowWalk),
}

/// Walks over the rows until all were seen, or at least `enough` of them were wanted. Each hold of
/// the lock is short, and what was looked at in it is tested behind it. What was found is by the rows
/// of the last hold.
pub fn walk_all<W: Truth, K: Keeper<W>, T: Wants, R: Wait>(
    rt: &R,
    alloc: Global,
    lock: &TurnLock<State<W, K>>,
    seat: Seat<State<W, K>>,
    wanted: &T,
    enough: usize,
) -> (Seat<State<W, K>>, Result<RowWalk, AllocError>)
    requires { seat.lock ≡ lock.now }
    ensures later { IsLater seat result.0 }
    ensures walk { IfOk result.1
        (HasWalked W.true_row (T.wants wanted.now) enough result.0.seen) }
{
    let (mut seat, mut walk) = begin(rt, alloc, lock, seat);
    for _ in rt.forever() {
        let (later, walked) = walk_once(rt, lock, seat, walk, wanted, enough);
        seat = later;
        match walked {
            Ok(Walked::Further(further)) => walk = further,
            Ok(Walked::Done(done)) => return (seat, Ok(done)),
            Err(fault) => return (seat, Err(fault)),
        }
    }
    unreachable!()
}

/// Takes the lock once, to begin a walk.
fn begin<W: Truth, K: Keeper<W>, R: Wait>(
    rt: &R,
    alloc: Global,
    lock: &TurnLock<State<W, K>>,
    seat: Seat<State<W, K>>,
) -> (Seat<State<W, K>>, RowWalk)
    requires { seat.lock ≡ lock.now }
    ensures later { IsLater seat result.0 }
    ensures walk { (keeps : Found → Bool) → IsWalk W.true_row keeps result.0.seen result.1 }
{
    look_once(rt, lock, seat, |index: &State<W, K>| begin_at(alloc, index))
}

/// A walk that begins at this index.
fn begin_at<W: Truth, K: Keeper<W>>(alloc: Global, index: &State<W, K>) -> RowWalk
    ensures { IsNewWalk W.true_row index.now.log result }
{
    RowWalk::new(alloc, index)
}

/// Takes the lock once to look, and takes in behind it what was looked at.
fn walk_once<W: Truth, K: Keeper<W>, T: Wants, R: Wait>(
    rt: &R,
    lock: &TurnLock<State<W, K>>,
    seat: Seat<State<W, K>>,
    walk: RowWalk,
    wanted: &T,
    enough: usize,
) -> (Seat<State<W, K>>, Result<Walked, AllocError>)
    requires { seat.lock ≡ lock.now }
    ensures later { IsLater seat result.0 }
    ensures goes { IsWalk W.true_row (T.wants wanted.now) seat.seen walk
        → IfOk result.1 (GoesOn W.true_row (T.wants wanted.now) enough result.0.seen) }
{
    let (seat, looked) = look_once(rt, lock, seat, |index: &State<W, K>| look_at(&walk, index));
    match looked {
        Ok(looked) => (seat, go_on(walk, looked, wanted, enough)),
        Err(fault) => (seat, Err(fault)),
    }
}

/// Looks at this index.
fn look_at<W: Truth, K: Keeper<W>>(
    walk: &RowWalk,
    index: &State<W, K>,
) -> Result<Looked, AllocError>
    ensures { IfOk result (LooksOn W.told W.true_row index.now walk.now) }
{
    walk.look(index)
}

/// Takes in what was looked at, and says whether the walk is over.
fn go_on<T: Wants>(
    walk: RowWalk,
    looked: Looked,
    wanted: &T,
    enough: usize,
) -> Result<Walked, AllocError>
    ensures { IfOk result (λ walked.
        walked ≡ walked_by (T.wants wanted.now) enough looked walk) }
{
    let is_last = looked.is_last();
    let is_copied = looked.is_copied();
    let walk = walk.take_in(looked, wanted)?;
    if is_last || is_copied && walk.found().len() >= enough {
        Ok(Walked::Done(walk))
    } else {
        Ok(Walked::Further(walk))
    }
}
