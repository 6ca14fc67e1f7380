//! The store of the file at a path.

ghost use Rattle.std.specs.Prelude.{◌≡◌, false};
ghost use Rattle.index_keeper.specs.Store.{OpensStore, TakesKeeperBack};
ghost use Rattle.sqlite.specs.Files.{over_files};
ghost use Rattle.sqlite_keeper.specs.FileStore.{GivesBegun, file_shown, fresh_file};
ghost use Rattle.sqlite_keeper.specs.Keeper.{keeper_shown};

use crate::fault::SqlFault;
use crate::file_keeper::FileKeeper;
use index_keeper::{Keeper, Store, StoreAnswer};
use row_types::{Faults, OpenWorld};
use std::alloc::Global;
use std::marker::Model;

/// The store in the file at the path by which it is opened, which is made where it isn't there.
/// Contracts see it as a record of its count of faults and the number of its last opening.
#[derive(Drop)]
pub struct SqliteStore {
    rt: HostRuntime,
    faults: Faults,
    epoch: u64,
}

impl Model for SqliteStore {
    ghost use Rattle.sqlite_keeper.specs.FileStore.{FileFacts};

    ghost Value = { FileFacts };

    ghost view = { λ s. record { faults = s.faults; epoch = s.epoch } };
}

impl SqliteStore {
    /// The store of files that are opened through this runtime.
    pub fn new(rt: HostRuntime) -> SqliteStore
        ensures { result ≡ fresh_file }
    {
        SqliteStore {
            rt,
            faults: Faults::new(),
            epoch: 0,
        }
    }
}

impl Store<OpenWorld> for SqliteStore {
    ghost use Rattle.sqlite_keeper.specs.FileStore.{file_shown};

    type K = FileKeeper;

    ghost shows = { file_shown };

    fn open_store(&mut self, _alloc: Global, path: &str) -> StoreAnswer<FileKeeper>
        ensures opens { OpensStore false (λ k. keeper_shown over_files k.keeper)
            path.now (file_shown self.old) (file_shown self.new) result }
        ensures begins { GivesBegun self.old.epoch result }
    {
        match FileKeeper::open(&self.rt, path, self.epoch) {
            Ok(keeper) => {
                self.epoch = keeper.epoch();
                StoreAnswer::Opened(keeper)
            }
            Err(SqlFault::OutOfMemory) => StoreAnswer::OutOfMemory,
            Err(SqlFault::Failed) => {
                self.faults.raise();
                StoreAnswer::Failed
            }
        }
    }

    /// The log is copied into the file. Where that fails nothing is lost: the log keeps it.
    fn give_back(&mut self, keeper: FileKeeper)
        ensures { TakesKeeperBack false (keeper_shown over_files keeper.keeper)
            (file_shown self.old) (file_shown self.new) }
    {
        self.faults.add(keeper.close());
    }
}
