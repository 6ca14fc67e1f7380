//! The store of a connection that it was given.

ghost use Rattle.std.specs.Prelude.{◌≡◌};
ghost use Rattle.index_keeper.specs.Store.{OpensStore, TakesKeeperBack};
ghost use Rattle.sqlite_keeper.specs.HeldStore.{Hands, held_after_giving, held_shown, holding};
ghost use Rattle.sqlite_keeper.specs.Keeper.{keeper_shown};

use crate::adopt::prepare;
use crate::fault::SqlFault;
use crate::keeper::SqliteKeeper;
use crate::telling::Telling;
use index_keeper::{Store, StoreAnswer};
use row_types::{Faults, OpenWorld};
use sqlite::Connection;
use std::alloc::Global;
use std::marker::Model;

/// The store of the connection that it holds, whatever the path. The connection goes to the keeper
/// that is opened, and comes back with it. It tells the tables of the connection where the store of
/// bytes below tells what it holds. Contracts see the store as a record of the connection that it
/// holds, its count of faults and the number of its last opening.
#[derive(Drop)]
pub struct HeldStore<F: Telling> {
    connection: Option<Connection<F>>,
    faults: Faults,
    epoch: u64,
}

impl<F: Telling> Model for HeldStore<F> {
    ghost use Rattle.sqlite_keeper.specs.HeldStore.{HeldStoreFacts, held_facts_code};

    ghost Value = { HeldStoreFacts F };

    ghost coded = { held_facts_code F.code };

    ghost view = { λ s. record {
      connection = s.connection;
      faults = s.faults;
      epoch = s.epoch;
    } };
}

impl<F: Telling> HeldStore<F> {
    /// The store that holds this connection, before its first opening.
    pub fn new(connection: Connection<F>) -> HeldStore<F>
        ensures { result ≡ holding connection }
    {
        HeldStore {
            connection: Some(connection),
            faults: Faults::new(),
            epoch: 0,
        }
    }

    /// The connection, if the store holds one.
    pub fn into_connection(self) -> Option<Connection<F>>
        ensures { result ≡ self.connection }
    {
        let HeldStore {
            connection,
            faults: _,
            epoch: _,
        } = self;
        connection
    }
}

impl<F: Telling + Send + Drop> Store<OpenWorld> for HeldStore<F> {
    ghost use Rattle.sqlite_keeper.specs.HeldStore.{held_shown};

    type K = SqliteKeeper<F>;

    ghost shows = { held_shown F.tells F.Store };

    fn open_store(&mut self, _alloc: Global, path: &str) -> StoreAnswer<SqliteKeeper<F>>
        ensures opens { OpensStore F.tells (keeper_shown F.Store) path.now
            (held_shown F.tells F.Store self.old) (held_shown F.tells F.Store self.new)
            result }
        ensures hands { Hands F.Store self.old self.new result }
    {
        let Some(connection) = &mut self.connection else {
            self.faults.raise();
            return StoreAnswer::Failed;
        };
        match prepare(connection, self.epoch) {
            Ok(epoch) => {
                self.epoch = epoch;
                match self.connection.take() {
                    Some(connection) => StoreAnswer::Opened(SqliteKeeper::new(connection, epoch)),
                    None => unreachable!(),
                }
            }
            Err(SqlFault::OutOfMemory) => StoreAnswer::OutOfMemory,
            Err(SqlFault::Failed) => {
                self.faults.raise();
                StoreAnswer::Failed
            }
        }
    }

    fn give_back(&mut self, keeper: SqliteKeeper<F>)
        ensures takes { TakesKeeperBack F.tells (keeper_shown F.Store keeper)
            (held_shown F.tells F.Store self.old) (held_shown F.tells F.Store self.new) }
        ensures after { self.new ≡ held_after_giving self.old keeper }
    {
        let SqliteKeeper {
            connection,
            faults,
            epoch: _,
        } = keeper;
        self.faults.add(faults);
        self.connection = Some(connection);
    }
}
