//! Slots by path, each under a number too.

ghost use Rattle.std.specs.Prelude.{◌≡◌, [], None, Some, IsSome, IfSome, IfNone, OnOk, OnErr, filter};
ghost use Rattle.std.specs.BTreeMap.{is_at, insert_entry};
ghost use Rattle.std.specs.Cmp.Lexicographic.{slice_cmp};
ghost use Rattle.std.specs.List.Sorted.{IsStrictlySortedBy};
ghost use Rattle.std.specs.Map.{keys_of, remove_entry, set_value};
ghost use Rattle.std.specs.Option.{option_copied};
ghost use Rattle.std.specs.Ordering.{nat_cmp};
ghost use Rattle.row_types.specs.Ascends.{is_before};
ghost use Rattle.slab.specs.Slab.{ContainsKey, Updates, get};
ghost use Rattle.index_rows.specs.Shelf.{IsInSlot};
ghost use Rattle.index_rows.specs.Slots.{HasSlot, KeepsSlots, rows_in_slots, path_slot};

use crate::row_iter::RowIter;
use row_types::{CanonPath, Row};
use slab::Slab;
use std::alloc::{AllocError, Global};
use std::collections::BTreeMap;
use std::marker::Model;
use std::ops::Bound;

/// What may be rows, under numbers.
pub(crate) type Held = Slab<Option<Row>>;

/// Slots by path, each path once. A slot keeps the number that it is made with, by which it is found
/// without a search. Contracts see it as the list of slots.
#[derive(Drop)]
pub(crate) struct Shelf {
    numbers: BTreeMap<CanonPath, usize>,
    held: Held,
}

impl Model for Shelf {
    ghost use Rattle.std.specs.Prelude.{List};
    ghost use Rattle.index_rows.specs.Shelf.{ArePathsNumbered, shelved};
    ghost use Rattle.index_rows.specs.Slots.{Slot};

    ghost Value = { List Slot };

    ghost view = { λ s. shelved s.held s.numbers.entries };

    ghost invariant = { λ s. ArePathsNumbered s.held s.numbers.entries };
}

impl Shelf {
    /// No slots.
    pub fn new(alloc: Global) -> Shelf
        ensures { result ≡ [] }
    {
        Shelf {
            numbers: BTreeMap::new(alloc),
            held: Slab::new(alloc),
        }
    }

    /// What is in the path's slot.
    pub fn get(&self, path: &CanonPath) -> Option<&Option<Row>>
        ensures { option_copied result ≡ path_slot path.now self.now }
    {
        match self.numbers.get(path) {
            Some(number) => self.held.get(*number),
            None => None,
        }
    }

    /// What is in the slot of the number, if there is one.
    pub fn under(&self, number: usize) -> Option<&Option<Row>>
        ensures { IfSome result (λ slot. IsInSlot slot.now self.now) }
    {
        self.held.get(number)
    }

    /// The number of the path's slot.
    pub fn number(&self, path: &CanonPath) -> Option<usize>
        ensures some { IfSome result (λ _. IsSome (path_slot path.now self.now)) }
        ensures none { IfNone result (path_slot path.now self.now ≡ None) }
    {
        match self.numbers.get(path) {
            Some(number) => Some(*number),
            None => None,
        }
    }

    /// The rows in the slots, in path order.
    pub fn rows(&self) -> RowIter<'_>
        ensures { result ≡ rows_in_slots self.now }
    {
        RowIter::all(self.numbers.values(), &self.held)
    }

    /// The rows in the slots behind a path, in path order.
    pub fn rows_after(&self, path: &CanonPath) -> RowIter<'_>
        ensures { result ≡ rows_in_slots (filter (λ slot. is_before path.now slot.0) self.now) }
    {
        let behind = (Bound::Excluded(path), Bound::Unbounded);
        RowIter::after(self.numbers.range(behind), &self.held)
    }

    /// Makes the path's slot, which has none, and gives its number.
    pub fn make(&mut self, alloc: Global, path: &CanonPath) -> Result<usize, AllocError>
        requires { path_slot path.now self.old ≡ None }
        ensures ok { OnOk result
            (self.new ≡ insert_entry (slice_cmp nat_cmp) self.old path.now None) }
        ensures has { OnOk result (HasSlot path.now self.new) }
        ensures keeps { KeepsSlots self.old self.new }
        ensures err { OnErr result (self.new ≡ self.old) }
        ensures ascend { OnOk result (IsStrictlySortedBy (slice_cmp nat_cmp) (keys_of self.new)) }
    {
        let path = path.copy(alloc)?;
        self.held.reserve(1)?;
        let number = self.held.vacant_key();
        self.numbers.insert(path, number)?;
        Ok(self.held.insert_reserved(None))
    }

    /// Puts the row into the slot of its path, and gives what was in it.
    pub fn put(&mut self, row: Row) -> Option<Row>
        requires { IsSome (path_slot row.name.path self.old) }
        ensures old { path_slot row.name.path self.old ≡ Some result }
        ensures new { self.new
            ≡ set_value (is_at (slice_cmp nat_cmp row.name.path)) self.old (Some row) }
        ensures ascend { IsStrictlySortedBy (slice_cmp nat_cmp) (keys_of self.new) }
    {
        match self.numbers.get(&row.name.path) {
            Some(number) => put_under(&mut self.held, *number, row),
            None => unreachable!(),
        }
    }

    /// Takes the path's slot away, if it has one, and gives what was in it.
    pub fn take(&mut self, path: &CanonPath) -> Option<Option<Row>>
        ensures old { result ≡ path_slot path.now self.old }
        ensures new { self.new ≡ remove_entry (is_at (slice_cmp nat_cmp path.now)) self.old }
        ensures ascend { IsStrictlySortedBy (slice_cmp nat_cmp) (keys_of self.new) }
    {
        match self.numbers.remove(path) {
            Some(number) => Some(self.held.remove(number)),
            None => None,
        }
    }
}

/// Puts the row under a number, and gives what was there.
fn put_under(held: &mut Held, number: usize, row: Row) -> Option<Row>
    requires { ContainsKey held.old number }
    ensures old { get held.old number ≡ Some result }
    ensures new { Updates held.old held.new number (Some (Some row)) }
{
    match held.get_mut(number) {
        Some(slot) => slot.replace(row),
        None => unreachable!(),
    }
}
