//! Indexes on stores in memory.

ghost use Rattle.std.specs.Prelude.{◌≡◌, [], None, false, IfOk, IfSome};
ghost use Rattle.index_keeper.specs.MemStore.{fresh_store};
ghost use Rattle.index_state.specs.Opening.{Opens};
ghost use Rattle.sample_index.specs.Indexes.{IsInPass, IsNew, StartsPass};

use index_keeper::{MemKeeper, MemStore, Store, StoreAnswer};
use index_state::{Begun, OpenFault, Plan, State, open_state};
use path_scope::AllPaths;
use row_types::{Name, Truth};
use sample_rows::paths;
use scan_queue::Listing;
use std::alloc::Global;

/// An index on a store in memory.
pub type Index<W> = State<W, MemKeeper<W>>;

/// A store without rows, which stops at the call of this number.
pub fn empty_store<W: Truth>(alloc: Global, stop_at: Option<u64>) -> MemStore<W>
    ensures { result ≡ fresh_store [] stop_at [] }
{
    MemStore::new(alloc, Vec::new(alloc), stop_at, Vec::new(alloc))
}

/// The index on a store. Where it is refused the keeper goes back to the store.
pub fn opened<W: Truth, S: Store<W>>(
    alloc: Global,
    store: &mut S,
) -> Result<State<W, S::K>, OpenFault>
    ensures { IfOk result (λ index. (keeper : _) × Opens S.K.told S.K.shows keeper index) }
{
    match store.open_store(alloc, "m") {
        StoreAnswer::Opened(keeper) => match open_state(alloc, keeper) {
            Ok(index) => Ok(index),
            Err((fault, keeper)) => {
                store.give_back(keeper);
                Err(fault)
            }
        },
        StoreAnswer::Failed => Err(OpenFault::KeeperFault),
        StoreAnswer::OutOfMemory => Err(OpenFault::OutOfMemory),
    }
}

/// The index without rows, on a store that stops at the call of this number.
pub fn empty_index<W: Truth + Send>(alloc: Global, stop_at: Option<u64>) -> Option<Index<W>>
    ensures { IfSome result IsNew }
{
    let mut store: MemStore<W> = empty_store(alloc, stop_at);
    match opened(alloc, &mut store) {
        Ok(index) => Some(index),
        Err(_) => None,
    }
}

/// Begins a pass over these names, which stand by path, under this root, a canonical path.
pub fn begin<W: Truth + Send>(
    alloc: Global,
    index: &mut Index<W>,
    listed: Vec<Name>,
    root: &str,
) -> Option<Plan>
    ensures { IfSome result (StartsPass listed.items index.old index.new) }
{
    let roots = paths(alloc, &[root]).ok()?;
    let listing = Listing::new(listed).ok()?;
    match index.begin(alloc, listing, roots, &mut AllPaths) {
        Begun::Begun(plan) => Some(plan),
        Begun::Broken | Begun::OutOfMemory => None,
    }
}

/// The index without rows in a pass over these names, which stand by path, under this root, on a
/// store that stops at the call of this number.
pub fn passing<W: Truth + Send>(
    alloc: Global,
    stop_at: Option<u64>,
    listed: Vec<Name>,
    root: &str,
) -> Option<Index<W>>
    ensures { IfSome result (IsInPass listed.items) }
{
    let mut index = empty_index(alloc, stop_at)?;
    let _plan = begin(alloc, &mut index, listed, root)?;
    Some(index)
}
