//! The trait that stands for a store.

ghost use Rattle.index_keeper.specs.Store.{OpensStore, ShownStore, TakesKeeperBack};

use crate::answer::StoreAnswer;
use crate::keeper::Keeper;
use row_types::Truth;
use std::alloc::Global;

/// A store of rows of a world, that isn't open: a database's file, or a form in memory. A keeper
/// that was opened is given back before the store is opened again. Each object counts its own
/// faults.
pub trait Store<W: Truth>: Drop {
    /// The open form.
    type K: Keeper<W>;

    /// What it shows at a moment. The tables are told where the keepers tell theirs, and the paths
    /// by the form in memory. The number of the last opening and the count of faults stand still at
    /// 2^64 - 1.
    ghost shows: { Self → ShownStore };

    /// Opens the store of this path.
    fn open_store(&mut self, alloc: Global, path: &str) -> StoreAnswer<Self::K>
        ensures { OpensStore Self.K.told Self.K.shows path.now (shows self.old) (shows self.new)
            result };

    /// Ends a keeper: the store holds what a crash of the keeper now may leave. No memory is taken.
    fn give_back(&mut self, keeper: Self::K)
        ensures { TakesKeeperBack Self.K.told (Self.K.shows keeper) (shows self.old) (shows self.new) };
}
