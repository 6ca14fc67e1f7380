//! Opening an index again.

ghost use Rattle.std.specs.Prelude.{◌≡◌, IfErr, IfOk, MatchResult, OnOk};
ghost use Rattle.index_events.specs.Events.{GoesBack, Reopens, StaysClosed};
ghost use Rattle.index_state.specs.Opening.{CanOpen, Opens};

use index_keeper::{Store, StoreAnswer};
use index_state::{OpenFault, State, open_state};
use row_types::Truth;
use std::alloc::Global;

/// Gives the keeper back, opens the store of this path again, and the index on it.
pub(crate) fn reopen<W: Truth, S: Store<W>>(
    alloc: Global,
    state: State<W, S::K>,
    store: &mut S,
    path: &str,
) -> Result<State<W, S::K>, OpenFault>
    ensures { MatchResult result
        (λ index. Reopens S.K.told S.K.shows path.now
        (record { index = state; store = S.shows store.old })
        (record { index = index; store = S.shows store.new }))
        (StaysClosed S.K.told S.K.shows path.now
        (record { index = state; store = S.shows store.old }) (S.shows store.new)) }
{
    store.give_back(state.into_keeper());
    match store.open_store(alloc, path) {
        StoreAnswer::Opened(keeper) => open_lent(alloc, keeper, store),
        StoreAnswer::Failed => Err(OpenFault::KeeperFault),
        StoreAnswer::OutOfMemory => Err(OpenFault::OutOfMemory),
    }
}

/// Opens the index on the keeper, which goes back to its store where that is refused.
fn open_lent<W: Truth, S: Store<W>>(
    alloc: Global,
    keeper: S::K,
    store: &mut S,
) -> Result<State<W, S::K>, OpenFault>
    requires { CanOpen S.K.told (S.K.shows keeper) }
    ensures ok { IfOk result (Opens S.K.told S.K.shows keeper) }
    ensures same { OnOk result (store.new ≡ store.old) }
    ensures err { IfErr result (GoesBack S.K.told S.K.shows keeper (S.shows store.old)
        (S.shows store.new)) }
{
    match open_state(alloc, keeper) {
        Ok(state) => Ok(state),
        Err((fault, keeper)) => {
            store.give_back(keeper);
            Err(fault)
        }
    }
}
