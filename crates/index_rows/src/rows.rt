//! The rows of an index.

ghost use Rattle.std.specs.Prelude.{◌≡◌, ◌↔◌, ◌^◌, drop, length, filter, Err, IsSome, IsSomeAnd, IfSome};
ghost use Rattle.std.specs.Prelude.{IfOk, OnOk, OnErr};
ghost use Rattle.std.specs.List.{list_any};
ghost use Rattle.std.specs.Option.{option_copied};
ghost use Rattle.row_types.specs.Ascends.{is_before};
ghost use Rattle.index_rows.specs.Classes.{has_class, has_id, lists_source};
ghost use Rattle.index_rows.specs.Log.{replay};
ghost use Rattle.index_rows.specs.Rows.{after_drop, after_put, after_void, CanBeVoid, IsDropOf};
ghost use Rattle.index_rows.specs.Rows.{IsIndex, row_names, nothing_yet, row_at};
ghost use Rattle.index_rows.specs.Slots.{rows_in_slots};
ghost use Rattle.index_rows.specs.Table.{KeepsRoomAt};
ghost use Rattle.index_rows.specs.declared.prepared.Prepared.{Prepared};
ghost use Rattle.index_rows.specs.declared.fault.RowsFault.{RowsFault};

use crate::change::{Change, list_change};
use crate::fault::RowsFault;
use crate::prepared::{Prepared, into_name, void_change};
use crate::row_iter::RowIter;
use crate::table::Table;
use row_types::{BuildId, CanonPath, Kind, Name, Row, TrueRow, Truth};
use std::alloc::{AllocError, Global};
use std::marker::{Model, PhantomData};
use std::mem;

/// The largest number of changes in a log, 2^22.
pub const LOG_LIMIT: usize = 0x40_0000;

/// The rows of an index, each true in the world `W`, and the log of the changes that made their
/// names. Contracts see it as a record of the rows in path order, the log, and the change that room
/// was made for.
#[derive(Drop)]
pub struct Rows<W: Truth> {
    rows: Table,
    log: Vec<Change>,
    prepared: Prepared,
    alloc: Global,
    of: PhantomData<W>,
}

impl<W: Truth> Model for Rows<W> {
    ghost use Rattle.std.specs.Prelude.{◌<◌, vec_len};
    ghost use Rattle.std.specs.Vec.{vec_capacity};
    ghost use Rattle.index_rows.specs.Rows.{RowsFacts};
    ghost use Rattle.index_rows.specs.Kept.{IsIndexKept};
    ghost use Rattle.index_rows.specs.Slots.{rows_in_slots};
    ghost use Rattle.index_rows.specs.Table.{HasRoom};

    ghost Value = { RowsFacts };

    ghost view = { λ r. record { rows = rows_in_slots r.rows.slots; log = r.log.items; prepared = r.prepared } };

    ghost invariant = { λ r. IsIndexKept W.true_row
        (record { rows = rows_in_slots r.rows.slots; log = r.log.items; prepared = r.prepared })
        (λ row. HasRoom row r.rows) (vec_len r.log < vec_capacity r.log) };
}

impl<W: Truth> Rows<W> {
    /// No rows and no changes.
    pub fn new(alloc: Global) -> Rows<W>
        ensures { result ≡ nothing_yet }
    {
        Rows {
            rows: Table::new(alloc),
            log: Vec::new(alloc),
            prepared: Prepared::Nothing,
            alloc,
            of: PhantomData,
        }
    }

    /// The number of rows.
    pub fn len(&self) -> u64
        ensures value { result ≡ length self.now.rows }
        ensures holds { IsIndex W.true_row self.now }
    {
        self.rows.len() as u64
    }

    /// The number of changes.
    pub fn log_len(&self) -> u64
        ensures value { result ≡ length self.now.log }
        ensures holds { IsIndex W.true_row self.now }
    {
        self.log.len() as u64
    }

    /// The path's row.
    pub fn get(&self, path: &CanonPath) -> Option<&Row>
        ensures value { option_copied result ≡ row_at path.now self.now.rows }
        ensures path { IfSome result (λ row. row.now.name.path ≡ path.now) }
        ensures holds { IsIndex W.true_row self.now }
    {
        self.rows.get(path)
    }

    /// The rows with the id whose files are of the kind.
    pub fn with_class(&self, id: &BuildId, kind: Kind) -> RowIter<'_>
        ensures { result ≡ filter (λ row. has_class id.now kind row.reading) self.now.rows }
    {
        self.rows.found(id, Some(kind))
    }

    /// The rows with the id.
    pub fn rows_of(&self, id: &BuildId) -> RowIter<'_>
        ensures { result ≡ filter (λ row. has_id id.now row.reading) self.now.rows }
    {
        self.rows.found(id, None)
    }

    /// All rows.
    pub fn rows(&self) -> RowIter<'_>
        ensures value { result ≡ self.now.rows }
        ensures holds { IsIndex W.true_row self.now }
    {
        self.rows.rows()
    }

    /// The rows behind a path, in path order. Those in front of it aren't gone through.
    pub fn rows_after(&self, path: &CanonPath) -> RowIter<'_>
        ensures value { result ≡ filter (λ row. is_before path.now row.name.path) self.now.rows }
        ensures holds { IsIndex W.true_row self.now }
    {
        self.rows.rows_after(path)
    }

    /// The changes of the log behind its first `heard`, oldest first.
    pub fn changes_after(&self, heard: usize) -> &[Change]
        ensures value { result.now ≡ drop heard self.now.log }
        ensures holds { IsIndex W.true_row self.now }
    {
        let log = self.log.as_slice();
        let from = heard.min(log.len());
        &log[from..]
    }

    /// A copy of each row's name.
    pub fn names(&self, alloc: Global) -> Result<Vec<Name>, AllocError>
        ensures value { IfOk result (λ names. names.items ≡ row_names self.now.rows) }
        ensures holds { IsIndex W.true_row self.now }
    {
        row_names(alloc, self.rows())
    }

    /// Whether some row with the id lists the source.
    pub fn lists_source(&self, id: &BuildId, path: &CanonPath) -> bool
        ensures { result ≡ list_any (λ row. lists_source id.now path.now row.reading)
            self.now.rows }
    {
        self.rows.lists_source(id, path)
    }

    /// Makes room for a put of an equal row, which then needs no memory. What was prepared before
    /// is given up.
    pub fn reserve(&mut self, row: &TrueRow<W>) -> Result<(), RowsFault>
        ensures ok { OnOk result (self.new ≡ record self.old { prepared = Prepared.Put row.now }) }
        ensures full { (result ≡ Err RowsFault.LogFull) ↔ (length self.old.log ≡ LOG_LIMIT) }
        ensures limit { LOG_LIMIT ≡ 2 ^ 22 }
        ensures err { OnErr result (self.new ≡ self.old) }
        ensures holds { IsIndex W.true_row self.new }
    {
        if self.log.len() == LOG_LIMIT {
            return Err(RowsFault::LogFull);
        }
        let copy = row.row().copy(self.alloc)?;
        self.log.reserve(1)?;
        self.rows.make_room(self.alloc, &copy)?;
        give_up_other(&mut self.rows, &self.prepared, &copy.name.path);
        self.prepared = Prepared::Put(copy);
        Ok(())
    }

    /// Puts the row, for which room was made, in place of its path's, and lists the put.
    pub fn put(&mut self, row: TrueRow<W>)
        requires { self.old.prepared ≡ Prepared.Put row }
        ensures value { self.new ≡ after_put row self.old }
        ensures holds { IsIndex W.true_row self.new }
    {
        match mem::replace(&mut self.prepared, Prepared::Nothing) {
            Prepared::Put(copy) => {
                // The copy stays: its texts are those of all that was made for it.
                self.rows.put(copy);
                let name = into_name(row.into_row());
                list_change(&mut self.log, Change { put: true, name });
            }
            Prepared::Nothing | Prepared::Drop(_) => unreachable!(),
        }
    }

    /// Makes room for a drop of the path's row, which then needs no memory. What was prepared
    /// before is given up.
    pub fn reserve_drop(&mut self, path: &CanonPath) -> Result<(), RowsFault>
        requires { IsSome (row_at path.now self.old.rows) }
        ensures ok { OnOk result (IsSomeAnd (row_at path.now self.old.rows)
            (λ row. self.new ≡ record self.old { prepared = Prepared.Drop row.name })) }
        ensures ready { OnOk result (IsDropOf path.now self.new.prepared) }
        ensures full { (result ≡ Err RowsFault.LogFull) ↔ (length self.old.log ≡ LOG_LIMIT) }
        ensures err { OnErr result (self.new ≡ self.old) }
        ensures holds { IsIndex W.true_row self.new }
    {
        if self.log.len() == LOG_LIMIT {
            return Err(RowsFault::LogFull);
        }
        match self.rows.get(path) {
            Some(row) => {
                let name = row.name.copy(self.alloc)?;
                self.log.reserve(1)?;
                give_up_other(&mut self.rows, &self.prepared, path);
                self.prepared = Prepared::Drop(name);
                Ok(())
            }
            None => unreachable!(),
        }
    }

    /// Drops the path's row, for which room was made, and lists the drop.
    pub fn drop_path(&mut self, path: &CanonPath)
        requires { IsDropOf path.now self.old.prepared }
        ensures value { IsSomeAnd (row_at path.now self.old.rows)
            (λ row. self.new ≡ after_drop row.name self.old) }
        ensures holds { IsIndex W.true_row self.new }
    {
        match mem::replace(&mut self.prepared, Prepared::Nothing) {
            Prepared::Drop(name) => {
                self.rows.remove(path);
                list_change(&mut self.log, Change { put: false, name });
            }
            Prepared::Nothing | Prepared::Put(_) => unreachable!(),
        }
    }

    /// Lists a change without effect in place of the change that room was made for. The rows stay.
    pub fn mark_void(&mut self)
        requires { CanBeVoid self.old.prepared self.old.rows }
        ensures value { self.new ≡ after_void self.old }
        ensures void { replay self.new.log ≡ replay self.old.log }
        ensures holds { IsIndex W.true_row self.new }
    {
        let prepared = mem::replace(&mut self.prepared, Prepared::Nothing);
        give_up(&mut self.rows, &prepared);
        list_change(&mut self.log, void_change(prepared));
    }
}

/// Gives up the slot that was made for a put.
fn give_up(rows: &mut Table, prepared: &Prepared)
    ensures { rows_in_slots rows.new.slots ≡ rows_in_slots rows.old.slots }
{
    if let Prepared::Put(row) = prepared {
        rows.give_up(&row.name.path);
    }
}

/// Gives up the slot that was made for a put of another path.
fn give_up_other(rows: &mut Table, prepared: &Prepared, path: &CanonPath)
    ensures room { KeepsRoomAt path.now rows.old rows.new }
    ensures rows { rows_in_slots rows.new.slots ≡ rows_in_slots rows.old.slots }
{
    if let Prepared::Put(row) = prepared
        && row.name.path != *path
    {
        rows.give_up(&row.name.path);
    }
}

/// A copy of each row's name.
fn row_names(alloc: Global, rows: RowIter<'_>) -> Result<Vec<Name>, AllocError>
    ensures { IfOk result (λ names. names.items ≡ row_names rows.entry) }
{
    let mut names = Vec::new(alloc);
    for row in rows {
        names.push(row.name.copy(alloc)?)?;
    }
    Ok(names)
}
