//! The keeper over files, on any disk. A call that names a store of bytes is proved for all laws and
//! calls of that store, and where it names the disk below as well, for those of the disk in each of
//! them. The keeper of a file calls these functions, and so names the disk alone.

ghost use Rattle.std.specs.Prelude.{◌≡◌, false, IfOk, IfSome, option_copied};
ghost use Rattle.row_types.specs.declared.limits.TheConstants.{EDITION};
ghost use Rattle.sqlite.specs.Files.{over_files};
ghost use Rattle.index_keeper.specs.Answers.{for_change, for_rows, rows_given};
ghost use Rattle.index_keeper.specs.Keeper.{AreRowsKept, AsksKeeper};
ghost use Rattle.sqlite_keeper.specs.Begins.{BeginsKeeper};
ghost use Rattle.sqlite_keeper.specs.Keeper.{keeper_shown};
ghost use Rattle.sqlite_keeper.specs.Reading.{LooksUpRows};
ghost use Rattle.sqlite_keeper.specs.Statements.{Changes, edit_of, edit_text, edit_values};
ghost use Rattle.sqlite_keeper.specs.Told.{TellsQueriedRows, TellsChange};

use crate::adopt::prepare;
use crate::fault::SqlFault;
use crate::keeper::SqliteKeeper;
use index_keeper::{KeepAnswer, KeptAnswer};
use row_types::Faults;
use sqlite::{Connection, FileStore};
use sqlite_disk::Disk;
use std::alloc::Global;

/// Makes a database ready whose last opening had this number, and gives the keeper on it. One that
/// is refused is closed.
pub fn begin<D: Disk + Drop>(
    mut connection: Connection<FileStore<D>>,
    last: u64,
) -> Result<SqliteKeeper<FileStore<D>>, SqlFault>
    ensures { IfOk result (λ keeper. BeginsKeeper over_files last connection keeper) }
{
    match prepare(&mut connection, last) {
        Ok(epoch) => Ok(SqliteKeeper {
            connection,
            faults: Faults::new(),
            epoch,
        }),
        Err(fault) => {
            let _copied = connection.close();
            Err(fault)
        }
    }
}

/// All rows of the tables, by path.
pub fn rows<D: Disk>(keeper: &mut SqliteKeeper<FileStore<D>>, alloc: Global) -> KeptAnswer
    ensures asks { AsksKeeper false (keeper_shown over_files keeper.old)
        (keeper_shown over_files keeper.new) (for_rows result) }
    ensures rows { IfSome (rows_given result) (AreRowsKept (λ row. row.edition ≡ EDITION)) }
    ensures looks { LooksUpRows over_files keeper.old.connection keeper.new.connection
        (rows_given result) }
    ensures tells { TellsQueriedRows over_files keeper.old.connection keeper.new.connection
        (rows_given result) }
{
    keeper.read(alloc)
}

/// Keeps the bytes under the path, in place of those that were kept there, or nothing.
pub fn edit<D: Disk>(
    keeper: &mut SqliteKeeper<FileStore<D>>,
    path: &str,
    bytes: Option<&[u8]>,
) -> KeepAnswer
    ensures asks { AsksKeeper false (keeper_shown over_files keeper.old)
        (keeper_shown over_files keeper.new)
        (for_change (edit_of path.now (option_copied bytes.entry)) result) }
    ensures changes { Changes over_files (edit_text (option_copied bytes.entry))
        (edit_values path.now (option_copied bytes.entry))
        keeper.old.connection keeper.new.connection result }
    ensures tells { TellsChange over_files (edit_of path.now (option_copied bytes.entry))
        keeper.old.connection keeper.new.connection result }
{
    keeper.edit(path, bytes)
}
