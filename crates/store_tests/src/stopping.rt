//! A store over a database in memory, which tells its tables and stops at one of its calls.

ghost use Rattle.std.specs.Prelude.{◌≡◌};
ghost use Rattle.index_keeper.specs.Answers.{for_change, for_rows, keeper_failed};
ghost use Rattle.index_keeper.specs.Tables.{EditFacts};
ghost use Rattle.sqlite_keeper.specs.Keeper.{IsCounted};

use index_keeper::{KeepAnswer, Keeper, KeptAnswer, Store, StoreAnswer};
use row_types::{Faults, OpenWorld};
use sqlite::{Connection, MemStore};
use sqlite_keeper::{HeldStore, SqliteKeeper};
use std::alloc::Global;

/// How many calls are made before one fails, and each one after it.
#[derive(Clone, Copy)]
struct Fuse {
    left: u64,
}

impl Fuse {
    /// Whether the next call fails. One that doesn't is counted.
    fn blows(&mut self) -> bool {
        match self.left.checked_sub(1) {
            Some(left) => {
                self.left = left;
                false
            }
            None => true,
        }
    }
}

/// No run makes as many calls.
const ENOUGH: Fuse = Fuse { left: u64::MAX };

/// A store over a database in memory. Its openings and the calls of its keepers are numbered from
/// 0; it stops at one of them, until it is opened again, and then never more. A call at which it
/// stops changes nothing.
#[derive(Drop)]
pub struct StoppingStore {
    held: HeldStore<MemStore>,
    fuse: Fuse,
    faults: Faults,
}

impl StoppingStore {
    /// The store of a database, which stops at the call of this number.
    pub fn new(connection: Connection<MemStore>, stop_at: u64) -> StoppingStore {
        StoppingStore {
            held: HeldStore::new(connection),
            fuse: Fuse { left: stop_at },
            faults: Faults::new(),
        }
    }
}

impl Store<OpenWorld> for StoppingStore {
    ghost use Rattle.std.specs.Prelude.{true};
    ghost use Rattle.sqlite.specs.Steps.{over_memory};
    ghost use Rattle.sqlite_keeper.specs.HeldStore.{held_shown};

    type K = StoppingKeeper;

    ghost shows = { λ s. record (held_shown true over_memory s.held) { faults = s.faults } };

    fn open_store(&mut self, alloc: Global, path: &str) -> StoreAnswer<StoppingKeeper> {
        let mut fuse = self.fuse;
        if fuse.blows() {
            self.fuse = ENOUGH;
            count(&mut self.faults, true);
            return StoreAnswer::Failed;
        }
        match self.held.open_store(alloc, path) {
            StoreAnswer::Opened(keeper) => {
                self.fuse = ENOUGH;
                StoreAnswer::Opened(StoppingKeeper {
                    keeper,
                    fuse,
                    faults: Faults::new(),
                })
            }
            StoreAnswer::Failed => {
                count(&mut self.faults, true);
                StoreAnswer::Failed
            }
            StoreAnswer::OutOfMemory => StoreAnswer::OutOfMemory,
        }
    }

    fn give_back(&mut self, keeper: StoppingKeeper) {
        let StoppingKeeper {
            keeper,
            fuse: _,
            faults,
        } = keeper;
        self.faults.add(faults);
        self.held.give_back(keeper);
    }
}

/// The keeper of such a store.
#[derive(Drop)]
pub struct StoppingKeeper {
    keeper: SqliteKeeper<MemStore>,
    fuse: Fuse,
    faults: Faults,
}

/// Whether rows could not be read.
fn is_unread(answer: &KeptAnswer) -> bool
    ensures { result ≡ keeper_failed (for_rows answer.now) }
{
    matches!(answer, KeptAnswer::Failed)
}

/// Whether a change failed.
fn is_unmade(answer: KeepAnswer) -> bool
    ensures { (edit : EditFacts) → result ≡ keeper_failed (for_change edit answer) }
{
    answer == KeepAnswer::Failed
}

/// Counts a call that failed.
fn count(faults: &mut Faults, failed: bool)
    ensures { IsCounted failed faults.old faults.new }
{
    if failed {
        faults.raise();
    }
}

impl Keeper<OpenWorld> for StoppingKeeper {
    ghost use Rattle.std.specs.Prelude.{true};
    ghost use Rattle.sqlite.specs.Steps.{over_memory};
    ghost use Rattle.sqlite_keeper.specs.Keeper.{keeper_shown};

    ghost told = { true };

    ghost shows = { λ k. record (keeper_shown over_memory k.keeper) { faults = k.faults } };

    fn rows(&mut self, alloc: Global) -> KeptAnswer {
        if self.fuse.blows() {
            count(&mut self.faults, true);
            return KeptAnswer::Failed;
        }
        let answer = self.keeper.rows(alloc);
        count(&mut self.faults, is_unread(&answer));
        answer
    }

    fn put(&mut self, alloc: Global, path: &str, bytes: &[u8]) -> KeepAnswer {
        if self.fuse.blows() {
            count(&mut self.faults, true);
            return KeepAnswer::Failed;
        }
        let answer = self.keeper.put(alloc, path, bytes);
        count(&mut self.faults, is_unmade(answer));
        answer
    }

    fn remove(&mut self, alloc: Global, path: &str) -> KeepAnswer {
        if self.fuse.blows() {
            count(&mut self.faults, true);
            return KeepAnswer::Failed;
        }
        let answer = self.keeper.remove(alloc, path);
        count(&mut self.faults, is_unmade(answer));
        answer
    }

    fn epoch(&self) -> u64 {
        self.keeper.epoch()
    }
}
