//! The rows by path, and room for one that is to come.

ghost use Rattle.std.specs.Prelude.{◌≡◌, ◌≢◌, ◌<◌, ◌+◌, ℕ, [], length, None, Some, IsSome, IfSome, OnOk, filter};
ghost use Rattle.std.specs.Option.{option_copied, option_to_list};
ghost use Rattle.row_types.specs.Ascends.{is_before};
ghost use Rattle.row_types.specs.Row.{RowFacts};
ghost use Rattle.index_rows.specs.Table.{total};
ghost use Rattle.index_rows.specs.declared.rows.TheConstants.{LOG_LIMIT};
ghost use Rattle.index_rows.specs.Rows.{row_at, with_row, without_row};
ghost use Rattle.index_rows.specs.Slots.{HasSlot, KeepsOthers, KeepsSlots, rows_in_slots, path_slot};

use crate::row_iter::RowIter;
use crate::shelf::Shelf;
use row_types::{CanonPath, Row};
use std::alloc::{AllocError, Global};
use std::marker::Model;

/// Rows by path, each path once. A path's slot can be made before its row comes, which then needs no
/// memory. Contracts see it as the list of its slots.
#[derive(Drop)]
pub(crate) struct RowMap {
    slots: Shelf,
    len: usize,
}

impl Model for RowMap {
    ghost use Rattle.std.specs.Prelude.{◌≡◌, List, length};
    ghost use Rattle.index_rows.specs.Slots.{AreRowSlots, Slot, rows_in_slots};

    ghost Value = { List Slot };

    ghost view = { λ m. m.slots };

    ghost invariant = { λ m. AreRowSlots m.slots × (m.len ≡ length (rows_in_slots m.slots)) };
}

impl RowMap {
    /// No rows.
    pub fn new(alloc: Global) -> RowMap
        ensures { result ≡ [] }
    {
        RowMap {
            slots: Shelf::new(alloc),
            len: 0,
        }
    }

    /// The number of rows.
    pub fn len(&self) -> usize
        ensures { result ≡ length (rows_in_slots self.now) }
    {
        self.len
    }

    /// The path's row.
    pub fn get(&self, path: &CanonPath) -> Option<&Row>
        ensures value { option_copied result ≡ row_at path.now (rows_in_slots self.now) }
        ensures path { IfSome result (λ row. row.now.name.path ≡ path.now) }
    {
        match self.slots.get(path) {
            Some(slot) => slot.as_ref(),
            None => None,
        }
    }

    /// The path's row. It is found without a search where its slot has the number.
    pub fn get_near(&self, number: u32, path: &CanonPath) -> Option<&Row>
        ensures { option_copied result ≡ row_at path.now (rows_in_slots self.now) }
    {
        if let Some(Some(row)) = self.slots.under(number as usize)
            && row.name.path == *path
        {
            return Some(row);
        }
        self.get(path)
    }

    /// All rows, in path order.
    pub fn rows(&self) -> RowIter<'_>
        ensures { result ≡ rows_in_slots self.now }
    {
        self.slots.rows()
    }

    /// The rows behind a path, in path order.
    pub fn rows_after(&self, path: &CanonPath) -> RowIter<'_>
        ensures { result ≡ filter (λ row. is_before path.now row.name.path) (rows_in_slots self.now) }
    {
        self.slots.rows_after(path)
    }

    /// Makes the path's slot, if there is none, and gives its number.
    pub fn make_room(&mut self, alloc: Global, path: &CanonPath) -> Result<u32, AllocError>
        ensures ok { OnOk result (HasSlot path.now self.new) }
        ensures keeps { KeepsSlots self.old self.new }
        ensures rows { rows_in_slots self.new ≡ rows_in_slots self.old }
    {
        if let Some(number) = self.slots.number(path) {
            return Ok(as_near(number));
        }
        let number = self.slots.make(alloc, path)?;
        Ok(as_near(number))
    }

    /// Gives the path's slot up, if no row is in it.
    pub fn give_up(&mut self, path: &CanonPath)
        ensures gone { path_slot path.now self.new ≢ Some None }
        ensures others { KeepsOthers path.now self.old self.new }
        ensures rows { rows_in_slots self.new ≡ rows_in_slots self.old }
    {
        if let Some(None) = self.slots.get(path) {
            self.slots.take(path);
        }
    }

    /// Puts the row into the slot of its path, and gives the row that was in it.
    pub fn put(&mut self, row: Row) -> Option<Row>
        requires slot { HasSlot row.name.path self.old }
        requires fits { length (rows_in_slots self.old) < LOG_LIMIT }
        ensures rows { rows_in_slots self.new ≡ with_row row (rows_in_slots self.old) }
        ensures total { (f : RowFacts → ℕ) → total f (rows_in_slots self.new)
            + total f (option_to_list result) ≡ total f (rows_in_slots self.old) + f row }
    {
        let old = self.slots.put(row);
        if old.is_none() {
            self.len += 1;
        }
        old
    }

    /// Drops the path's slot, and gives its row.
    pub fn remove(&mut self, path: &CanonPath) -> Row
        requires { IsSome (row_at path.now (rows_in_slots self.old)) }
        ensures rows { rows_in_slots self.new ≡ without_row path.now (rows_in_slots self.old) }
        ensures total { (f : RowFacts → ℕ) → total f (rows_in_slots self.new) + f result
            ≡ total f (rows_in_slots self.old) }
    {
        match self.slots.take(path) {
            Some(Some(row)) => {
                self.len -= 1;
                row
            }
            Some(None) | None => unreachable!(),
        }
    }
}

/// The number, or one that no slot has.
fn as_near(number: usize) -> u32 {
    u32::try_from(number).unwrap_or(u32::MAX)
}
