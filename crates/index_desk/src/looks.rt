//! A hold of a lock for several look-ups.

ghost use Rattle.std.specs.Prelude.{◌≡◌};
ghost use Rattle.std.specs.Fn.{FnOnceReturnsAt};
ghost use Rattle.index_desk.specs.Holds.{Holds};

use index_lock::{Logged, Seat, TurnLock};
use std::sync::Wait;

/// Holds the lock to look at the value, which stays as it is.
pub fn look_once<S: Logged, A, Rt: Wait, F: FnOnce(&S) -> A>(
    rt: &Rt,
    lock: &TurnLock<S>,
    seat: Seat<S>,
    look: F,
) -> (Seat<S>, A)
    requires lock { seat.lock ≡ lock.now }
    requires looks { F.IsAlwaysCallable look }
    ensures { Holds S.log S.origin
        (λ old new. (new ≡ old) × FnOnceReturnsAt F.FnOnce look old result.1) seat result.0 }
{
    let held = lock.enter(rt, seat);
    let answer = look(held.value());
    let later = lock.leave(held);
    (later, answer)
}
