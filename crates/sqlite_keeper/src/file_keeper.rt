//! The keeper of the store in a file.

ghost use Rattle.std.specs.Prelude.{◌≡◌, [], ◌∷◌, false, IfOk, IfSome};
ghost use Rattle.row_types.specs.declared.limits.TheConstants.{EDITION};
ghost use Rattle.sqlite.specs.Files.{over_files};
ghost use Rattle.sqlite.specs.declared.types.Value.TheVariants.{Blob, Text};
ghost use Rattle.index_keeper.specs.Answers.{for_change, for_rows, rows_given};
ghost use Rattle.index_keeper.specs.Keeper.{AreRowsKept, AsksKeeper};
ghost use Rattle.index_keeper.specs.Tables.{put_bytes, removal_of};
ghost use Rattle.sqlite_keeper.specs.FileStore.{BeginsAnew};
ghost use Rattle.sqlite_keeper.specs.Keeper.{keeper_shown};
ghost use Rattle.sqlite_keeper.specs.Reading.{LooksUpRows};
ghost use Rattle.sqlite_keeper.specs.Statements.{Changes, put_text, remove_text};
ghost use Rattle.sqlite_keeper.specs.Told.{TellsQueriedRows, TellsChange};

use crate::disk_keeper;
use crate::fault::SqlFault;
use crate::keeper::SqliteKeeper;
use index_keeper::{KeepAnswer, Keeper, KeptAnswer};
use row_types::{Faults, OpenWorld};
use sqlite::{Connection, File, FileStore};
use std::alloc::Global;

/// The keeper of a file: it passes each call on to the keeper over the file's database. It has no
/// type parameter, so that code over a store in a file never sees what that database is made of.
/// Contracts see it as a record of the keeper over the database.
pub struct FileKeeper {
    keeper: SqliteKeeper<FileStore<File>>,
}

// A keeper that is let go is closed, as one that is given back. It is written out, so that callers
// don't prove again how each part of the database is dropped.
impl Drop for FileKeeper {
    fn drop(self) {
        let _faults = self.close();
    }
}

impl FileKeeper {
    /// Opens the store in the file at a path, the last opening of which had this number.
    pub(crate) fn open(rt: &HostRuntime, path: &str, last: u64) -> Result<FileKeeper, SqlFault>
        ensures { IfOk result (λ it. BeginsAnew over_files last it.keeper) }
    {
        let connection = Connection::open(rt, path)?;
        match disk_keeper::begin(connection, last) {
            Ok(keeper) => Ok(FileKeeper { keeper }),
            Err(fault) => Err(fault),
        }
    }

    /// Ends the keeper, and says how often a call has failed. The log is copied into the file;
    /// where that fails nothing is lost: the log keeps it.
    pub(crate) fn close(self) -> Faults
        ensures { result ≡ self.keeper.faults }
    {
        let FileKeeper { keeper } = self;
        let SqliteKeeper {
            connection,
            faults,
            epoch: _,
        } = keeper;
        let _copied = connection.close();
        faults
    }
}

impl Keeper<OpenWorld> for FileKeeper {
    ghost use Rattle.std.specs.Prelude.{false};
    ghost use Rattle.sqlite.specs.Files.{over_files};
    ghost use Rattle.sqlite_keeper.specs.Keeper.{keeper_shown};

    ghost told = { false };

    ghost shows = { λ k. keeper_shown over_files k.keeper };

    fn rows(&mut self, alloc: Global) -> KeptAnswer
        ensures asks { AsksKeeper false (keeper_shown over_files self.old.keeper)
            (keeper_shown over_files self.new.keeper) (for_rows result) }
        ensures rows { IfSome (rows_given result) (AreRowsKept (λ row. row.edition ≡ EDITION)) }
        ensures looks { LooksUpRows over_files self.old.keeper.connection self.new.keeper.connection
            (rows_given result) }
        ensures tells { TellsQueriedRows over_files self.old.keeper.connection self.new.keeper.connection
            (rows_given result) }
    {
        disk_keeper::rows(&mut self.keeper, alloc)
    }

    fn put(&mut self, _alloc: Global, path: &str, bytes: &[u8]) -> KeepAnswer
        ensures asks { AsksKeeper false (keeper_shown over_files self.old.keeper)
            (keeper_shown over_files self.new.keeper)
            (for_change (put_bytes path.now bytes.now) result) }
        ensures changes { Changes over_files put_text (Text path.now ∷ Blob bytes.now ∷ [])
            self.old.keeper.connection self.new.keeper.connection result }
        ensures tells { TellsChange over_files (put_bytes path.now bytes.now)
            self.old.keeper.connection self.new.keeper.connection result }
    {
        disk_keeper::edit(&mut self.keeper, path, Some(bytes))
    }

    fn remove(&mut self, _alloc: Global, path: &str) -> KeepAnswer
        ensures asks { AsksKeeper false (keeper_shown over_files self.old.keeper)
            (keeper_shown over_files self.new.keeper) (for_change (removal_of path.now) result) }
        ensures changes { Changes over_files remove_text (Text path.now ∷ [])
            self.old.keeper.connection self.new.keeper.connection result }
        ensures tells { TellsChange over_files (removal_of path.now)
            self.old.keeper.connection self.new.keeper.connection result }
    {
        disk_keeper::edit(&mut self.keeper, path, None)
    }

    fn epoch(&self) -> u64
        ensures { result ≡ self.now.keeper.epoch }
    {
        self.keeper.epoch
    }
}
