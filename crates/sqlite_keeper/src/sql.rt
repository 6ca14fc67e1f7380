//! The texts of the store, and the functions that run them. A file keeps the texts of its tables as
//! they were written, so these and their order stay.

ghost use Rattle.std.specs.Prelude.{◌≡◌, [], ◌∷◌, IfOk, option_copied};
ghost use Rattle.sqlite.specs.Held.{state};
ghost use Rattle.sqlite.specs.State.{CommitsBy, HasCleanDisk, Survives};
ghost use Rattle.sqlite.specs.Values.{bound};
ghost use Rattle.sqlite.specs.declared.types.Value.TheVariants.{Blob, Text};
ghost use Rattle.index_keeper.specs.Tables.{put_bytes, removal_of};
ghost use Rattle.index_keeper.specs.declared.answer.KeepAnswer.TheVariants.{Done};
ghost use Rattle.sqlite_keeper.specs.Statements.{Changes, HasRun, IsCommitted, IsShown, Raises};
ghost use Rattle.sqlite_keeper.specs.Statements.{WasRaised, edit_of, edit_text, edit_values, put_text, remove_text};
ghost use Rattle.sqlite_keeper.specs.Told.{TellsChange};

use crate::fault::SqlFault;
use index_keeper::KeepAnswer;
use sqlite::types::ValueRef;
use sqlite::{Alter, Connection};

/// Makes the table of the rows, where it isn't there.
pub const KEPT_TABLE: &str =
    "CREATE TABLE IF NOT EXISTS kept(path TEXT PRIMARY KEY NOT NULL, body BLOB NOT NULL) STRICT";

/// Makes the table of the number of openings, where it isn't there.
pub const EPOCH_TABLE: &str = "CREATE TABLE IF NOT EXISTS epoch\
    (one INTEGER PRIMARY KEY CHECK (one = 1), n INTEGER NOT NULL) STRICT";

/// Gives all rows, by path.
pub const ROWS: &str = "SELECT path, body FROM kept ORDER BY path";

/// Keeps the second parameter's bytes under the first one's path.
const PUT: &str = "INSERT INTO kept(path, body) VALUES (?1, ?2) \
    ON CONFLICT(path) DO UPDATE SET body = excluded.body";

/// Keeps nothing under the parameter's path.
const REMOVE: &str = "DELETE FROM kept WHERE path = ?1";

/// Makes the number of openings one greater, or 1, and gives it.
const RAISE: &str = "INSERT INTO epoch(one, n) VALUES (1, 1) \
    ON CONFLICT(one) DO UPDATE SET n = n + 1 RETURNING n";

/// Runs the statement that raises the number of openings, and reads the number that it shows.
fn run_raise<F: Alter>(connection: &mut Connection<F>) -> Result<u64, SqlFault>
    ensures shown { HasCleanDisk (state F.Store connection.new) →
        IfOk result (IsShown F.Store connection.old connection.new) }
    ensures raises { WasRaised F.Store connection.old connection.new }
{
    let row = connection.query_row(RAISE, &[])?;
    Ok(row.get(0)?)
}

/// Raises the number of openings, and gives it.
pub fn raise_epoch<F: Alter>(connection: &mut Connection<F>) -> Result<u64, SqlFault>
    ensures ok { IfOk result (Raises F.Store connection.old connection.new) }
    ensures raises { WasRaised F.Store connection.old connection.new }
{
    let number = run_raise(connection)?;
    if connection.is_autocommit() {
        Ok(number)
    } else {
        Err(SqlFault::Failed)
    }
}

/// Runs a change with these parameters, and says what it came to. It is done where no transaction
/// waits for its end.
fn change<F: Alter>(
    connection: &mut Connection<F>,
    sql: &str,
    params: &[ValueRef<'_>],
) -> KeepAnswer
    ensures runs { HasCleanDisk (state F.Store connection.new) →
        HasRun F.Store sql.now (bound params.now) connection.old connection.new result }
    ensures committed { result ≡ Done → IsCommitted (state F.Store connection.new) }
    ensures survives { Survives (state F.Store connection.old) (state F.Store connection.new)
        (CommitsBy sql.now (bound params.now) (state F.Store connection.old)) }
{
    match connection.execute(sql, params) {
        Ok(_) if connection.is_autocommit() => KeepAnswer::Done,
        Ok(_) => KeepAnswer::Failed,
        Err(error) => match SqlFault::from(error) {
            SqlFault::OutOfMemory => KeepAnswer::OutOfMemory,
            SqlFault::Failed => KeepAnswer::Failed,
        },
    }
}

/// Keeps the bytes under the path, in place of those that were kept there.
fn put<F: Alter>(connection: &mut Connection<F>, path: &str, bytes: &[u8]) -> KeepAnswer
    ensures changes { Changes F.Store put_text (Text path.now ∷ Blob bytes.now ∷ [])
        connection.old connection.new result }
    ensures tells { TellsChange F.Store (put_bytes path.now bytes.now)
        connection.old connection.new result }
{
    let params = [ValueRef::Text(path.as_bytes()), ValueRef::Blob(bytes)];
    change(connection, PUT, &params)
}

/// Keeps nothing under the path.
fn remove<F: Alter>(connection: &mut Connection<F>, path: &str) -> KeepAnswer
    ensures changes { Changes F.Store remove_text (Text path.now ∷ [])
        connection.old connection.new result }
    ensures tells { TellsChange F.Store (removal_of path.now)
        connection.old connection.new result }
{
    change(connection, REMOVE, &[ValueRef::Text(path.as_bytes())])
}

/// Keeps the bytes under the path, in place of those that were kept there, or nothing.
pub fn edit<F: Alter>(
    connection: &mut Connection<F>,
    path: &str,
    bytes: Option<&[u8]>,
) -> KeepAnswer
    ensures changes { Changes F.Store (edit_text (option_copied bytes.entry))
        (edit_values path.now (option_copied bytes.entry)) connection.old connection.new result }
    ensures tells { TellsChange F.Store (edit_of path.now (option_copied bytes.entry))
        connection.old connection.new result }
{
    match bytes {
        Some(bytes) => put(connection, path, bytes),
        None => remove(connection, path),
    }
}
