//! The store of a trial: one in memory that keeps nothing yet and never fails.

ghost use Rattle.std.specs.Prelude.{◌≡◌, true, IfOk};
ghost use Rattle.row_types.specs.declared.limits.TheConstants.{EDITION};
ghost use Rattle.index_keeper.specs.Answers.{for_change};
ghost use Rattle.index_keeper.specs.Keeper.{AsksKeeper};
ghost use Rattle.index_keeper.specs.Tables.{put_bytes};
ghost use Rattle.index_keeper.specs.TrueRows.{SpellsTrueRow};
ghost use Rattle.dbgd_commands.specs.TrialKeeper.{IsNewKeeper, shown_sure};

use index_keeper::{KeepAnswer, Keeper, KeptAnswer, MemKeeper, MemStore, Store, StoreAnswer};
use row_types::OpenWorld;
use std::alloc::{AllocError, Global};
use std::marker::Model;

/// A keeper in memory that never fails. Contracts see it as the keeper in memory that it is.
#[derive(Drop)]
pub struct TrialKeeper {
    inner: MemKeeper<OpenWorld>,
}

impl Model for TrialKeeper {
    ghost use Rattle.index_keeper.specs.MemKeeper.{MemKeeperFacts};
    ghost use Rattle.dbgd_commands.specs.TrialKeeper.{NeverFails};

    ghost Value = { MemKeeperFacts };

    ghost view = { λ k. k.inner };

    ghost invariant = { λ k. NeverFails k.inner.shelf.plan };
}

impl TrialKeeper {
    /// The keeper of a new store.
    pub fn open(alloc: Global) -> Result<TrialKeeper, AllocError>
        ensures { IfOk result IsNewKeeper }
    {
        let mut store = MemStore::new(alloc, Vec::new(alloc), None, Vec::new(alloc));
        match store.open_store(alloc, "") {
            StoreAnswer::Opened(inner) => Ok(TrialKeeper { inner }),
            StoreAnswer::Failed => unreachable!(),
            StoreAnswer::OutOfMemory => Err(AllocError),
        }
    }
}

impl Keeper<OpenWorld> for TrialKeeper {
    ghost use Rattle.std.specs.Prelude.{true};
    ghost use Rattle.dbgd_commands.specs.TrialKeeper.{shown_sure};

    ghost told = { true };

    ghost shows = { shown_sure };

    fn rows(&mut self, alloc: Global) -> KeptAnswer {
        self.inner.rows(alloc)
    }

    fn put(&mut self, alloc: Global, path: &str, bytes: &[u8]) -> KeepAnswer
        requires { SpellsTrueRow (λ row. row.edition ≡ EDITION) path.now bytes.now }
        ensures { AsksKeeper true (shown_sure self.old) (shown_sure self.new)
            (for_change (put_bytes path.now bytes.now) result) }
    {
        self.inner.put(alloc, path, bytes)
    }

    fn remove(&mut self, alloc: Global, path: &str) -> KeepAnswer {
        self.inner.remove(alloc, path)
    }

    fn epoch(&self) -> u64 {
        self.inner.epoch()
    }
}
