//! The keeper over a connection.

ghost use Rattle.std.specs.Prelude.{◌≡◌, [], ◌∷◌, IfSome, IsTrue, option_copied};
ghost use Rattle.sqlite.specs.Held.{state};
ghost use Rattle.sqlite.specs.declared.types.Value.TheVariants.{Blob, Text};
ghost use Rattle.row_types.specs.declared.limits.TheConstants.{EDITION};
ghost use Rattle.index_keeper.specs.Answers.{for_change, for_rows, keeper_failed, rows_given};
ghost use Rattle.index_keeper.specs.Keeper.{AreRowsKept, AsksKeeper};
ghost use Rattle.index_keeper.specs.Tables.{EditFacts, put_bytes, removal_of};
ghost use Rattle.sqlite_keeper.specs.Keeper.{IsCounted, keeper_shown, opened_connection};
ghost use Rattle.sqlite_keeper.specs.Reading.{LooksUpRows};
ghost use Rattle.sqlite_keeper.specs.Statements.{Changes, edit_of, edit_text, edit_values, put_text};
ghost use Rattle.sqlite_keeper.specs.Statements.{remove_text};
ghost use Rattle.sqlite_keeper.specs.Told.{IsDatabaseTold, TellsQueriedRows, TellsChange};

use crate::fault::SqlFault;
use crate::telling::Telling;
use crate::{rows, sql};
use index_keeper::{KeepAnswer, Keeper, KeptAnswer};
use row_types::{Faults, OpenWorld};
use sqlite::Connection;
use std::alloc::Global;
use std::marker::Model;

/// A keeper over a database, which tells its tables where the store of bytes below tells what it
/// holds. Each change is one commit. Contracts see it as a record of its connection, its count of
/// faults and the number of its opening.
#[derive(Drop)]
pub struct SqliteKeeper<F: Telling> {
    pub(crate) connection: Connection<F>,
    pub(crate) faults: Faults,
    pub(crate) epoch: u64,
}

impl<F: Telling> Model for SqliteKeeper<F> {
    ghost use Rattle.std.specs.Prelude.{IsTrue};
    ghost use Rattle.sqlite.specs.Held.{state};
    ghost use Rattle.sqlite_keeper.specs.Keeper.{SqliteKeeperFacts, keeper_code};
    ghost use Rattle.sqlite_keeper.specs.Told.{IsDatabaseTold};

    ghost Value = { SqliteKeeperFacts F };

    ghost coded = { keeper_code F.code };

    ghost view = { λ k. record {
      connection = k.connection;
      faults = k.faults;
      epoch = k.epoch;
    } };

    ghost invariant = { λ k. IsTrue F.tells → IsDatabaseTold (state F.Store k.connection) };
}

impl<F: Telling> SqliteKeeper<F> {
    /// The keeper on a connection, by the number of the opening.
    pub(crate) fn new(connection: Connection<F>, epoch: u64) -> SqliteKeeper<F>
        requires { IsTrue F.tells → IsDatabaseTold (state F.Store connection) }
        ensures { result ≡ opened_connection connection epoch }
    {
        SqliteKeeper {
            connection,
            faults: Faults::new(),
            epoch,
        }
    }

    /// How often a call has failed.
    pub fn faults(&self) -> Faults
        ensures { result ≡ self.now.faults }
    {
        self.faults
    }

    /// All rows of the tables, by path.
    pub(crate) fn read(&mut self, alloc: Global) -> KeptAnswer
        ensures asks { AsksKeeper F.tells (keeper_shown F.Store self.old)
            (keeper_shown F.Store self.new) (for_rows result) }
        ensures rows { IfSome (rows_given result) (AreRowsKept (λ row. row.edition ≡ EDITION)) }
        ensures looks { LooksUpRows F.Store self.old.connection self.new.connection
            (rows_given result) }
        ensures tells { TellsQueriedRows F.Store self.old.connection self.new.connection
            (rows_given result) }
    {
        let mut kept = Vec::new(alloc);
        match rows::read_all(&mut self.connection, &mut kept) {
            Ok(()) => KeptAnswer::All(kept),
            Err(SqlFault::OutOfMemory) => KeptAnswer::OutOfMemory,
            Err(SqlFault::Failed) => {
                self.faults.raise();
                KeptAnswer::Failed
            }
        }
    }

    /// Keeps the bytes under the path, in place of those that were kept there, or nothing.
    pub(crate) fn edit(&mut self, path: &str, bytes: Option<&[u8]>) -> KeepAnswer
        ensures asks { AsksKeeper F.tells (keeper_shown F.Store self.old)
            (keeper_shown F.Store self.new)
            (for_change (edit_of path.now (option_copied bytes.entry)) result) }
        ensures changes { Changes F.Store (edit_text (option_copied bytes.entry))
            (edit_values path.now (option_copied bytes.entry))
            self.old.connection self.new.connection result }
        ensures tells { TellsChange F.Store (edit_of path.now (option_copied bytes.entry))
            self.old.connection self.new.connection result }
    {
        let answer = sql::edit(&mut self.connection, path, bytes);
        count(&mut self.faults, answer);
        answer
    }
}

/// Counts a fault, if the answer is one.
fn count(faults: &mut Faults, answer: KeepAnswer)
    ensures { (edit : EditFacts) →
        IsCounted (keeper_failed (for_change edit answer)) faults.old faults.new }
{
    if answer == KeepAnswer::Failed {
        faults.raise();
    }
}

impl<F: Telling + Send + Drop> Keeper<OpenWorld> for SqliteKeeper<F> {
    ghost use Rattle.sqlite_keeper.specs.Keeper.{keeper_shown};

    ghost told = { F.tells };

    ghost shows = { keeper_shown F.Store };

    fn rows(&mut self, alloc: Global) -> KeptAnswer
        ensures asks { AsksKeeper F.tells (keeper_shown F.Store self.old)
            (keeper_shown F.Store self.new) (for_rows result) }
        ensures rows { IfSome (rows_given result) (AreRowsKept (λ row. row.edition ≡ EDITION)) }
        ensures looks { LooksUpRows F.Store self.old.connection self.new.connection
            (rows_given result) }
        ensures tells { TellsQueriedRows F.Store self.old.connection self.new.connection
            (rows_given result) }
    {
        self.read(alloc)
    }

    fn put(&mut self, _alloc: Global, path: &str, bytes: &[u8]) -> KeepAnswer
        ensures asks { AsksKeeper F.tells (keeper_shown F.Store self.old)
            (keeper_shown F.Store self.new) (for_change (put_bytes path.now bytes.now) result) }
        ensures changes { Changes F.Store put_text (Text path.now ∷ Blob bytes.now ∷ [])
            self.old.connection self.new.connection result }
        ensures tells { TellsChange F.Store (put_bytes path.now bytes.now)
            self.old.connection self.new.connection result }
    {
        self.edit(path, Some(bytes))
    }

    fn remove(&mut self, _alloc: Global, path: &str) -> KeepAnswer
        ensures asks { AsksKeeper F.tells (keeper_shown F.Store self.old)
            (keeper_shown F.Store self.new) (for_change (removal_of path.now) result) }
        ensures changes { Changes F.Store remove_text (Text path.now ∷ [])
            self.old.connection self.new.connection result }
        ensures tells { TellsChange F.Store (removal_of path.now)
            self.old.connection self.new.connection result }
    {
        self.edit(path, None)
    }

    fn epoch(&self) -> u64
        ensures { result ≡ self.now.epoch }
    {
        self.epoch
    }
}
