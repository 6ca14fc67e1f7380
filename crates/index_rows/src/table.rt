//! The rows by path, and what finds them by id and by source.

ghost use Rattle.std.specs.Prelude.{◌≡◌, ◌+◌, ◌<◌, ◌≤◌, [], ℕ, List, length, filter, IsSome, IfSome, OnOk};
ghost use Rattle.std.specs.List.{list_any};
ghost use Rattle.std.specs.Option.{option_copied};
ghost use Rattle.row_types.specs.Ascends.{AscendsBy, is_before};
ghost use Rattle.index_rows.specs.Classes.{has_id, lists_source};
ghost use Rattle.index_rows.specs.Left.{is_wanted};
ghost use Rattle.index_rows.specs.Rows.{row_at, row_path, with_row, without_row};
ghost use Rattle.index_rows.specs.Slots.{rows_in_slots};
ghost use Rattle.index_rows.specs.Table.{HasKeys, HasRoom, KeepsOtherRoom, KeepsRoom, ListsOnce};
ghost use Rattle.index_rows.specs.Table.{id_counts, source_counts};
ghost use Rattle.index_rows.specs.Tallies.{AreBelowLast, CountsSame, KeepsKeys, tally_of};
ghost use Rattle.index_rows.specs.declared.rows.TheConstants.{LOG_LIMIT};

use crate::row_iter::RowIter;
use crate::row_map::RowMap;
use crate::tallies::Tallies;
use row_types::{BuildId, CanonPath, Kind, Reading, Row};
use std::alloc::{AllocError, Global};
use std::marker::Model;

/// Rows by path, with the paths of the rows of an id, and for each id and source the number of rows
/// that list it. Room is made for a row first, and to put it then needs no memory. Contracts see
/// it as a record of the three.
#[derive(Drop)]
pub(crate) struct Table {
    rows: RowMap,
    ids: Tallies,
    sources: Tallies,
}

impl Model for Table {
    ghost use Rattle.index_rows.specs.Slots.{rows_in_slots};
    ghost use Rattle.index_rows.specs.Table.{AreNumbersOf, TableFacts};

    ghost Value = { TableFacts };

    ghost view = { λ t. record
        { slots = t.rows; ids = t.ids.ids.entries; sources = t.sources.ids.entries } };

    ghost invariant = { λ t. AreNumbersOf (rows_in_slots t.rows)
        t.ids.ids.entries t.sources.ids.entries };
}

impl Table {
    /// No rows.
    pub fn new(alloc: Global) -> Table
        ensures { result.slots ≡ [] }
    {
        Table {
            rows: RowMap::new(alloc),
            ids: Tallies::new(alloc),
            sources: Tallies::new(alloc),
        }
    }

    /// The number of rows.
    pub fn len(&self) -> usize
        ensures { result ≡ length (rows_in_slots self.now.slots) }
    {
        self.rows.len()
    }

    /// The path's row.
    pub fn get(&self, path: &CanonPath) -> Option<&Row>
        ensures value { option_copied result ≡ row_at path.now (rows_in_slots self.now.slots) }
        ensures path { IfSome result (λ row. row.now.name.path ≡ path.now) }
    {
        self.rows.get(path)
    }

    /// All rows.
    pub fn rows(&self) -> RowIter<'_>
        ensures { result ≡ rows_in_slots self.now.slots }
    {
        self.rows.rows()
    }

    /// The rows behind a path.
    pub fn rows_after(&self, path: &CanonPath) -> RowIter<'_>
        ensures { result ≡ filter (λ row. is_before path.now row.name.path)
            (rows_in_slots self.now.slots) }
    {
        self.rows.rows_after(path)
    }

    /// The rows with the id whose files are of the kind, if one is given.
    pub fn found(&self, id: &BuildId, kind: Option<Kind>) -> RowIter<'_>
        requires { AscendsBy row_path (rows_in_slots self.now.slots) }
        ensures { result ≡ filter (λ row. is_wanted kind row.reading)
            (filter (λ row. has_id id.now row.reading) (rows_in_slots self.now.slots)) }
    {
        RowIter::found(self.ids.entries(id), &self.rows, kind)
    }

    /// Whether some row with the id lists the source.
    pub fn lists_source(&self, id: &BuildId, path: &CanonPath) -> bool
        ensures { result ≡ list_any (λ row. lists_source id.now path.now row.reading)
            (rows_in_slots self.now.slots) }
    {
        self.sources.count(id, path) > 0
    }

    /// Makes room for the row.
    pub fn make_room(&mut self, alloc: Global, row: &Row) -> Result<(), AllocError>
        ensures ok { OnOk result (HasRoom row.now self.new) }
        ensures keeps { KeepsRoom self.old self.new }
        ensures rows { rows_in_slots self.new.slots ≡ rows_in_slots self.old.slots }
    {
        let number = self.rows.make_room(alloc, &row.name.path)?;
        make_keys(&mut self.ids, &mut self.sources, alloc, number, row)
    }

    /// Gives the path's slot up, if no row is in it.
    pub fn give_up(&mut self, path: &CanonPath)
        ensures others { KeepsOtherRoom path.now self.old self.new }
        ensures rows { rows_in_slots self.new.slots ≡ rows_in_slots self.old.slots }
    {
        self.rows.give_up(path);
    }

    /// Puts the row in place of its path's.
    pub fn put(&mut self, row: Row)
        requires room { HasRoom row self.old }
        requires fits { length (rows_in_slots self.old.slots) < LOG_LIMIT }
        ensures { rows_in_slots self.new.slots ≡ with_row row (rows_in_slots self.old.slots) }
    {
        // The new row counts before the old one goes, so that no number that both have ends.
        count_in(&mut self.ids, &mut self.sources, &row);
        match self.rows.put(row) {
            Some(old) => count_out(&mut self.ids, &mut self.sources, &old),
            None => {}
        }
    }

    /// Drops the path's row.
    pub fn remove(&mut self, path: &CanonPath)
        requires { IsSome (row_at path.now (rows_in_slots self.old.slots)) }
        ensures { rows_in_slots self.new.slots ≡ without_row path.now (rows_in_slots self.old.slots) }
    {
        let old = self.rows.remove(path);
        count_out(&mut self.ids, &mut self.sources, &old);
    }
}

/// Makes room for what a row counts for. Its slot has the number.
fn make_keys(
    ids: &mut Tallies,
    sources: &mut Tallies,
    alloc: Global,
    number: u32,
    row: &Row,
) -> Result<(), AllocError>
    ensures ok { OnOk result (HasKeys row.now.reading row.now.name.path ids.new.ids.entries sources.new.ids.entries) }
    ensures ids_same { CountsSame ids.old.ids.entries ids.new.ids.entries }
    ensures ids_keep { KeepsKeys ids.old.ids.entries ids.new.ids.entries }
    ensures sources_same { CountsSame sources.old.ids.entries sources.new.ids.entries }
    ensures sources_keep { KeepsKeys sources.old.ids.entries sources.new.ids.entries }
{
    match &row.reading {
        Reading::Plain(_) => Ok(()),
        Reading::Elf {
            ident,
            sources: listed,
        } => {
            ids.make_room(alloc, &ident.id, &row.name.path, number)?;
            sources.make_rooms(alloc, &ident.id, listed.paths())
        }
    }
}

/// Counts a row once more, for which room was made.
fn count_in(ids: &mut Tallies, sources: &mut Tallies, row: &Row)
    requires room { HasKeys row.now.reading row.now.name.path ids.old.ids.entries sources.old.ids.entries }
    requires ids_fit { AreBelowLast ids.old.ids.entries }
    requires sources_fit { AreBelowLast sources.old.ids.entries }
    ensures ids { (id path : List ℕ) → tally_of id path ids.new.ids.entries
        ≡ tally_of id path ids.old.ids.entries + id_counts row.now.reading row.now.name.path id path }
    ensures sources { (id path : List ℕ) → tally_of id path sources.new.ids.entries
        ≡ tally_of id path sources.old.ids.entries + source_counts row.now.reading id path }
    ensures once { ListsOnce row.now }
{
    match &row.reading {
        Reading::Plain(_) => {}
        Reading::Elf {
            ident,
            sources: listed,
        } => {
            ids.add(&ident.id, &row.name.path);
            sources.add_all(&ident.id, listed.paths());
        }
    }
}

/// Counts a row once less.
fn count_out(ids: &mut Tallies, sources: &mut Tallies, row: &Row)
    requires ids { (id path : List ℕ) → id_counts row.now.reading row.now.name.path id path
        ≤ tally_of id path ids.old.ids.entries }
    requires sources { (id path : List ℕ) → source_counts row.now.reading id path
        ≤ tally_of id path sources.old.ids.entries }
    ensures ids { (id path : List ℕ) → tally_of id path ids.new.ids.entries
        + id_counts row.now.reading row.now.name.path id path ≡ tally_of id path ids.old.ids.entries }
    ensures sources { (id path : List ℕ) → tally_of id path sources.new.ids.entries
        + source_counts row.now.reading id path ≡ tally_of id path sources.old.ids.entries }
{
    match &row.reading {
        Reading::Plain(_) => {}
        Reading::Elf {
            ident,
            sources: listed,
        } => {
            ids.take(&ident.id, &row.name.path);
            sources.take_all(&ident.id, listed.paths());
        }
    }
}
