//! Taking over an open connection.

ghost use Rattle.std.specs.Prelude.{◌≡◌, IfErr, IfOk, IsTrue};
ghost use Rattle.sqlite.specs.Held.{state};
ghost use Rattle.sqlite_keeper.specs.Begins.{Adopts, Front, HasNumber, IsReady, MakesNumber};
ghost use Rattle.sqlite_keeper.specs.Begins.{RefusesToBegin};
ghost use Rattle.sqlite_keeper.specs.Statements.{StaysOutside};
ghost use Rattle.sqlite_keeper.specs.Told.{IsDatabaseTold, tables};

use crate::fault::SqlFault;
use crate::keeper::SqliteKeeper;
use crate::telling::Telling;
use crate::{schema, sql};
use sqlite::{Alter, Connection};

/// What came of taking over a connection. A refusal gives the connection back.
#[derive(Drop)]
pub enum AdoptAnswer<F: Telling> {
    /// The keeper stands on the connection.
    Adopted(SqliteKeeper<F>),
    /// A transaction is open, the database has other tables, refused a statement or failed, or the
    /// number of the opening isn't above 0.
    Failed(Connection<F>),
    /// There was not enough memory.
    OutOfMemory(Connection<F>),
}

/// Makes the tables, where they aren't there, and gives the number of the opening.
fn make<F: Alter>(connection: &mut Connection<F>) -> Result<u64, SqlFault>
    ensures ok { IfOk result (MakesNumber F.Store connection.old connection.new) }
    ensures front { Front F.Store connection.old connection.new }
    ensures outside { StaysOutside F.Store connection.old connection.new }
{
    connection.execute(sql::KEPT_TABLE, &[])?;
    connection.execute(sql::EPOCH_TABLE, &[])?;
    sql::raise_epoch(connection)
}

/// Makes the tables, where they aren't there, and gives the number of the opening, which is above
/// the last one. Nothing is run inside a transaction, or where the database has other tables.
pub(crate) fn prepare<F: Telling>(
    connection: &mut Connection<F>,
    last: u64,
) -> Result<u64, SqlFault>
    ensures ok { IfOk result (IsReady F.Store last connection.old connection.new) }
    ensures err { IfErr result (λ fault. RefusesToBegin F.Store connection.old fault connection.new) }
    ensures told { IfOk result (λ _. IsTrue F.tells → IsDatabaseTold (state F.Store connection.new)) }
    ensures kept { IsTrue F.tells →
        tables (state F.Store connection.new) ≡ tables (state F.Store connection.old) }
{
    if !connection.is_autocommit() {
        return Err(SqlFault::Failed);
    }
    if !schema::fits(connection.schema()) {
        return Err(SqlFault::Failed);
    }
    let number = make(connection)?;
    if !schema::is_store(connection.schema()) {
        return Err(SqlFault::Failed);
    }
    if number <= last {
        return Err(SqlFault::Failed);
    }
    Ok(number)
}

impl<F: Telling> SqliteKeeper<F> {
    /// Makes the tables, where they aren't there, raises the number of openings, and gives the
    /// keeper on the connection.
    pub fn adopt(mut connection: Connection<F>) -> AdoptAnswer<F>
        ensures { Adopts F.Store connection result }
    {
        match prepare(&mut connection, 0) {
            Ok(epoch) => AdoptAnswer::Adopted(SqliteKeeper::new(connection, epoch)),
            Err(SqlFault::Failed) => AdoptAnswer::Failed(connection),
            Err(SqlFault::OutOfMemory) => AdoptAnswer::OutOfMemory(connection),
        }
    }
}
