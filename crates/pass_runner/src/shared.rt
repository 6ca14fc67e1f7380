//! An index that is shared for a while by hands that help.

ghost use Rattle.std.specs.Prelude.{◌≡◌, ◌≤◌, [], vec_capacity, vec_len, IfErr, IfOk};
ghost use Rattle.std.specs.List.{AllZip};
ghost use mathlib.Core.List.{IsPrefix};
ghost use Rattle.pass_runner.specs.Helped.{HelpedFrom};

use crate::crew::run_crew;
use crate::helper::Helper;
use index_desk::{Desk, Ground};
use index_keeper::Keeper;
use index_lock::TurnLock;
use index_state::State;
use lock_crew::Slot;
use row_types::Truth;
use std::sync::Wait;
use std::thread::Threads;
use tree_trait::{Gate, Reader, Tree};

/// Puts the index behind a lock of its own, has the hands help side by side, and takes it out again.
/// Both come back as they were where there is no memory for the lock.
pub(crate) fn run_shared<
    W: Truth + Send + Sync,
    K: Keeper<W>,
    T: Tree<W>,
    R: Reader<W> + Sync,
    G: Gate,
    Rt: Threads + Wait + Sync,
>(
    ground: Ground<'_, R, G, Rt>,
    state: State<W, K>,
    helpers: Vec<Helper<T>>,
    rooms: (Vec<Option<Slot<State<W, K>, Helper<T>>>>, Vec<Helper<T>>),
) -> Result<(State<W, K>, Vec<Helper<T>>), (State<W, K>, Vec<Helper<T>>)>
    requires none { (rooms.0.items ≡ []) × (rooms.1.items ≡ []) }
    requires room { (vec_len helpers ≤ vec_capacity rooms.0)
        × (vec_len helpers ≤ vec_capacity rooms.1) }
    ensures log { IfOk result (λ back. IsPrefix state.log back.0.log) }
    ensures origin { IfOk result (λ back. back.0.origin ≡ state.origin) }
    ensures ran { IfOk result (λ back. AllZip (HelpedFrom T.shows T.told W.version state.origin.spared)
        helpers.items back.1.items) }
    ensures count { IfOk result (λ back. vec_len back.1 ≡ vec_len helpers) }
    ensures err { IfErr result (λ back. (back.0 ≡ state) × (back.1 ≡ helpers)) }
{
    match TurnLock::make(ground.alloc, state) {
        Ok((lock, seat)) => {
            let (desk, helpers) = run_crew(ground, Desk { lock: &lock, seat }, helpers, rooms);
            let Desk { lock: _, seat } = desk;
            let held = lock.enter(ground.rt, seat);
            Ok((TurnLock::into_value(lock, held), helpers))
        }
        Err(state) => Err((state, helpers)),
    }
}
