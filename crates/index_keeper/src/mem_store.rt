//! A store in memory.

ghost use Rattle.std.specs.Prelude.{◌≡◌, true, All, OnErr, OnOk};
ghost use Rattle.index_keeper.specs.MemKeeper.{shown_of};
ghost use Rattle.index_keeper.specs.MemStore.{OpensByPlan, store_after_giving, fresh_store, store_opened_by, store_shown};
ghost use Rattle.index_keeper.specs.Store.{OpensStore, TakesKeeperBack};
ghost use Rattle.index_keeper.specs.Tables.{AscendsByPath};
ghost use Rattle.index_keeper.specs.TrueRows.{IsTrueKept};

use crate::answer::StoreAnswer;
use crate::kept::Kept;
use crate::mem_keeper::MemKeeper;
use crate::shelf::Shelf;
use crate::store::Store;
use crate::tables::Tables;
use row_types::{Faults, Truth};
use std::alloc::{AllocError, Global};
use std::marker::{Model, PhantomData};
use std::mem;

/// A store in memory, whatever its path, which tells what it keeps and by which paths it was
/// opened, and fails exactly at the calls of its plan: at the call of the number `stop_at` and each
/// later one, until the store is opened again, and at the calls of the listed numbers. A change at
/// the number `stop_at` is made all the same if that number is odd. What is kept goes to the keeper
/// that is opened, and comes back with it. Contracts see the store as a record.
#[derive(Drop)]
pub struct MemStore<W: Truth> {
    shelf: Shelf,
    paths: Vec<String>,
    faults: Faults,
    epoch: u64,
    of: PhantomData<W>,
}

impl<W: Truth> Model for MemStore<W> {
    ghost use Rattle.std.specs.Prelude.{All, map};
    ghost use Rattle.std.specs.String.{string_bytes};
    ghost use Rattle.index_keeper.specs.MemStore.{StoreFacts};
    ghost use Rattle.index_keeper.specs.TrueRows.{IsTrueKept};

    ghost Value = { StoreFacts };

    ghost view = { λ s. record {
      shelf = s.shelf;
      paths = map string_bytes s.paths.items;
      faults =
          s.faults;
      epoch = s.epoch;
    } };

    ghost invariant = { λ s. All (IsTrueKept W.true_row) s.shelf.tables };
}

impl<W: Truth> MemStore<W> {
    /// The store that keeps these rows, before its first opening.
    pub fn new(
        alloc: Global,
        kept: Vec<Kept>,
        stop_at: Option<u64>,
        bad_calls: Vec<u64>,
    ) -> MemStore<W>
        requires ascend { AscendsByPath kept.items }
        requires holds { All (IsTrueKept W.true_row) kept.items }
        ensures { result ≡ fresh_store kept.items stop_at bad_calls.items }
    {
        MemStore {
            shelf: Shelf::of(alloc, Tables::of(alloc, kept), stop_at, bad_calls),
            paths: Vec::new(alloc),
            faults: Faults::new(),
            epoch: 0,
            of: PhantomData,
        }
    }

    /// Notes a path by which the store is opened, or leaves all as it is.
    fn note_path(&mut self, alloc: Global, path: &str) -> Result<(), AllocError>
        ensures ok { OnOk result (self.new ≡ store_opened_by path.now self.old) }
        ensures err { OnErr result (self.new ≡ self.old) }
    {
        let text = String::from_str(alloc, path)?;
        self.paths.push(text)?;
        Ok(())
    }
}

impl<W: Truth + Send> Store<W> for MemStore<W> {
    ghost use Rattle.index_keeper.specs.MemStore.{store_shown};

    type K = MemKeeper<W>;

    ghost shows = { store_shown };

    fn open_store(&mut self, alloc: Global, path: &str) -> StoreAnswer<MemKeeper<W>>
        ensures opens { OpensStore true shown_of path.now (store_shown self.old)
            (store_shown self.new) result }
        ensures plan { OpensByPlan path.now self.old self.new result }
    {
        if self.note_path(alloc, path).is_err() {
            return StoreAnswer::OutOfMemory;
        }
        if self.shelf.plan.opening_fails() {
            self.shelf.plan.count_call();
            self.faults.raise();
            return StoreAnswer::Failed;
        }
        self.epoch = self.epoch.saturating_add(1);
        self.shelf.plan.count_opening();
        let shelf = mem::replace(&mut self.shelf, Shelf::empty(alloc));
        StoreAnswer::Opened(MemKeeper::open(shelf, self.epoch))
    }

    fn give_back(&mut self, keeper: MemKeeper<W>)
        ensures takes { TakesKeeperBack true (shown_of keeper) (store_shown self.old)
            (store_shown self.new) }
        ensures after { self.new ≡ store_after_giving self.old keeper }
    {
        self.faults.add(keeper.faults());
        self.shelf = keeper.into_shelf();
    }
}
