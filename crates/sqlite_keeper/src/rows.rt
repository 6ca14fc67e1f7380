//! All rows of the tables, read one at a time.

ghost use Rattle.std.specs.Prelude.{◌≡◌, ◌++◌, ◌∷◌, [], false, IfOk, OnOk};
ghost use Rattle.sqlite.specs.Given.{HasGiven};
ghost use Rattle.sqlite.specs.Held.{state};
ghost use Rattle.sqlite.specs.State.{HasCleanDisk, IsUnchanged, Survives};
ghost use Rattle.index_keeper.specs.Tables.{AscendsByPath};
ghost use Rattle.sqlite_keeper.specs.Ascend.{stands_last};
ghost use Rattle.sqlite_keeper.specs.Reading.{GivesAll, GivesRow, LeavesAlone, shown_kept};
ghost use Rattle.sqlite_keeper.specs.Statements.{rows_query};

use crate::fault::SqlFault;
use crate::sql;
use index_keeper::Kept;
use sqlite::{Alter, Connection, Row, Rows};

/// The path and the bytes of a row.
fn kept_of(row: &Row) -> Result<Kept, SqlFault>
    ensures { IfOk result (λ kept. kept ≡ shown_kept row.now) }
{
    Ok(Kept {
        path: row.get(0)?,
        bytes: row.get(1)?,
    })
}

/// The next row, if there is one.
fn next_of<F: Alter>(rows: &mut Rows<'_, F>) -> Result<Option<Kept>, SqlFault>
    ensures same_reference { rows.new.conn.ghost_name ≡ rows.old.conn.ghost_name }
    ensures gives { HasCleanDisk (state F.Store rows.new.conn.now) →
        IfOk result (GivesRow F.Store rows.old.conn.now rows.new.conn.now) }
    ensures same { HasCleanDisk (state F.Store rows.new.conn.now) →
        OnOk result (IsUnchanged (state F.Store rows.old.conn.now)
        (state F.Store rows.new.conn.now)) }
    ensures leaves { HasCleanDisk (state F.Store rows.new.conn.now) →
        LeavesAlone (state F.Store rows.old.conn.now) (state F.Store rows.new.conn.now) }
    ensures outside { rows.old.conn.now.in_transaction ≡ false →
        rows.new.conn.now.in_transaction ≡ false }
    ensures survives { Survives (state F.Store rows.old.conn.now)
        (state F.Store rows.new.conn.now) (λ _. ⊥) }
{
    rows.advance()?;
    match rows.get() {
        Some(row) => Ok(Some(kept_of(row)?)),
        None => Ok(None),
    }
}

/// Whether the path stands behind that of the last row.
fn stands_last(rows: &[Kept], path: &str) -> bool
    ensures { result ≡ stands_last path.now rows.now }
{
    match rows.last() {
        Some(last) => last.path.as_str().cmp(path).is_lt(),
        None => true,
    }
}

/// Adds a row, if its path stands behind that of the last one.
#[tactic(auto, using(crate::proofs::AscendLemmas::push_ascends))]
fn add(rows: &mut Vec<Kept>, row: Kept) -> Result<(), SqlFault>
    requires { AscendsByPath rows.old.items }
    ensures ascends { AscendsByPath rows.new.items }
    ensures added { OnOk result (rows.new.items ≡ rows.old.items ++ row ∷ []) }
{
    if !stands_last(rows.as_slice(), row.path.as_str()) {
        return Err(SqlFault::Failed);
    }
    match rows.push(row) {
        Ok(()) => Ok(()),
        Err(_) => Err(SqlFault::OutOfMemory),
    }
}

/// Reads the rows of a query that has given none yet into a list in which there are none. Rows that
/// don't come strictly by path are a fault.
fn read_from<F: Alter>(rows: &mut Rows<'_, F>, kept: &mut Vec<Kept>) -> Result<(), SqlFault>
    requires { kept.old.items ≡ [] }
    ensures same_reference { rows.new.conn.ghost_name ≡ rows.old.conn.ghost_name }
    ensures ascends { AscendsByPath kept.new.items }
    ensures gives { HasCleanDisk (state F.Store rows.new.conn.now) →
        HasGiven F.Store rows_query [] rows.old.conn.now [] →
        OnOk result (GivesAll F.Store rows.old.conn.now rows.new.conn.now kept.new.items) }
    ensures leaves { HasCleanDisk (state F.Store rows.new.conn.now) →
        HasGiven F.Store rows_query [] rows.old.conn.now [] →
        LeavesAlone (state F.Store rows.old.conn.now) (state F.Store rows.new.conn.now) }
    ensures outside { rows.old.conn.now.in_transaction ≡ false →
        rows.new.conn.now.in_transaction ≡ false }
    ensures survives { Survives (state F.Store rows.old.conn.now)
        (state F.Store rows.new.conn.now) (λ _. ⊥) }
{
    'rows: for _ in 0..u64::MAX {
        match next_of(rows)? {
            Some(row) => add(kept, row)?,
            None => return Ok(()),
        }
    }
    Err(SqlFault::Failed)
}

/// Reads all rows of the tables into a list in which there are none, strictly by path.
pub fn read_all<F: Alter>(
    connection: &mut Connection<F>,
    kept: &mut Vec<Kept>,
) -> Result<(), SqlFault>
    requires { kept.old.items ≡ [] }
    ensures ascends { AscendsByPath kept.new.items }
    ensures gives { HasCleanDisk (state F.Store connection.new) →
        OnOk result (GivesAll F.Store connection.old connection.new kept.new.items) }
    ensures leaves { HasCleanDisk (state F.Store connection.new) →
        LeavesAlone (state F.Store connection.old) (state F.Store connection.new) }
    ensures outside { connection.old.in_transaction ≡ false →
        connection.new.in_transaction ≡ false }
    ensures survives { Survives (state F.Store connection.old) (state F.Store connection.new)
        (λ _. ⊥) }
{
    let mut rows = connection.query(sql::ROWS, &[])?;
    read_from(&mut rows, kept)
}
