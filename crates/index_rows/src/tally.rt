//! The paths of one id, each with a number.

ghost use Rattle.std.specs.Prelude.{◌≡◌, ◌+◌, ◌<◌, ◌^◌, [], ℕ, All, List, OnOk, length, slice_index_or, vec_len};
ghost use Rattle.row_types.specs.Ascends.{Ascends, AscendsBy};
ghost use Rattle.index_rows.specs.declared.tally.Tallied.{Tallied};
ghost use Rattle.index_rows.specs.Places.{IsPathPlace};
ghost use Rattle.index_rows.specs.Tally.{HasPlace, KeepsPlaces, SetsCount, count_at, one, tallied_path};

use crate::merge::{have_places, merged};
use row_types::CanonPath;
use std::alloc::{AllocError, Global};
use std::marker::Model;

/// A path, and how often it counts.
#[derive(Drop)]
pub(crate) struct Tallied {
    /// The path.
    pub(crate) path: CanonPath,
    /// How often it counts.
    pub(crate) count: u32,
    /// The number of the slot of its row. Where it is another's, the row is looked up by its path.
    pub(crate) number: u32,
}

/// Paths in order, each with a number. Room is made for a path first, and to count it then needs
/// no memory. Contracts see it as the list.
#[derive(Drop)]
pub(crate) struct Tally {
    entries: Vec<Tallied>,
}

impl Model for Tally {
    ghost use Rattle.std.specs.Prelude.{List};
    ghost use Rattle.row_types.specs.Ascends.{AscendsBy};
    ghost use Rattle.index_rows.specs.Tally.{tallied_path};
    ghost use Rattle.index_rows.specs.declared.tally.Tallied.{Tallied};

    ghost Value = { List Tallied };

    ghost view = { λ t. t.entries.items };

    ghost invariant = { λ t. AscendsBy tallied_path t.entries.items };
}

impl Tally {
    /// No paths.
    pub fn new(alloc: Global) -> Tally
        ensures { result ≡ [] }
    {
        Tally {
            entries: Vec::new(alloc),
        }
    }

    /// The paths, in order.
    pub fn entries(&self) -> &[Tallied]
        ensures value { result.now ≡ self.now }
        ensures ascends { AscendsBy tallied_path self.now }
    {
        self.entries.as_slice()
    }

    /// How often the path counts.
    pub fn count(&self, path: &CanonPath) -> u32
        ensures { result ≡ count_at path.now self.now }
    {
        count_in(self.entries.as_slice(), path)
    }

    /// Makes room for the path, if it has none. The slot of its row has the number.
    pub fn make_room(
        &mut self,
        alloc: Global,
        path: &CanonPath,
        number: u32,
    ) -> Result<(), AllocError>
        ensures ok { OnOk result (HasPlace path.now self.new) }
        ensures same { (other : List ℕ) → count_at other self.new ≡ count_at other self.old }
        ensures keeps { KeepsPlaces self.old self.new }
    {
        match place_of(self.entries.as_slice(), path) {
            Ok(_) => Ok(()),
            Err(place) => {
                let path = path.copy(alloc)?;
                fit_first(&mut self.entries)?;
                let tallied = Tallied {
                    path,
                    count: 0,
                    number,
                };
                self.entries.insert(place, tallied)?;
                Ok(())
            }
        }
    }

    /// Makes room for each of the paths. Both lists are gone through once.
    pub fn make_rooms(&mut self, alloc: Global, paths: &[CanonPath]) -> Result<(), AllocError>
        requires { Ascends paths.now }
        ensures ok { OnOk result (All (λ path. HasPlace path self.new) paths.now) }
        ensures same { (other : List ℕ) → count_at other self.new ≡ count_at other self.old }
        ensures keeps { KeepsPlaces self.old self.new }
    {
        if !have_places(self.entries.as_slice(), paths) {
            self.entries = merged(alloc, self.entries.as_slice(), paths)?;
        }
        Ok(())
    }

    /// Counts the path once more. It has room.
    pub fn add(&mut self, path: &CanonPath)
        requires room { HasPlace path.now self.old }
        requires fits { count_at path.now self.old + 1 < 2 ^ 32 }
        ensures counts { (other : List ℕ)
            → count_at other self.new ≡ count_at other self.old + one path.now other }
        ensures keeps { KeepsPlaces self.old self.new }
    {
        let entries = self.entries.as_slice();
        match place_of(entries, path) {
            Ok(place) => {
                let count = count_there(entries, place) + 1;
                set_count(&mut self.entries, place, count);
            }
            Err(_) => unreachable!(),
        }
    }

    /// Counts the path once less. With its last count its room goes too.
    pub fn take(&mut self, path: &CanonPath)
        requires { 0 < count_at path.now self.old }
        ensures { (other : List ℕ)
            → count_at other self.new + one path.now other ≡ count_at other self.old }
    {
        let entries = self.entries.as_slice();
        match place_of(entries, path) {
            Ok(place) => {
                let count = count_there(entries, place) - 1;
                if count == 0 {
                    drop(self.entries.remove(place));
                } else {
                    set_count(&mut self.entries, place, count);
                }
            }
            Err(_) => unreachable!(),
        }
    }
}

/// The path's place, or else the place at which it would stand. The search halves the list.
pub(crate) fn place_of(entries: &[Tallied], path: &CanonPath) -> Result<usize, usize>
    requires { AscendsBy tallied_path entries.now }
    ensures { IsPathPlace tallied_path path.now entries.now result }
{
    entries.binary_search_by(|entry| entry.path.cmp(path))
}

/// The number at a place.
fn count_there(entries: &[Tallied], place: usize) -> u32
    requires { place < length entries.now }
    ensures { (other : Tallied) → result ≡ (slice_index_or entries.now place other).count }
{
    entries[place].count
}

/// How often the path counts.
fn count_in(entries: &[Tallied], path: &CanonPath) -> u32
    requires { AscendsBy tallied_path entries.now }
    ensures { result ≡ count_at path.now entries.now }
{
    match place_of(entries, path) {
        Ok(place) => count_there(entries, place),
        Err(_) => 0,
    }
}

/// Takes room for one, where none is there: most ids have one path.
fn fit_first(entries: &mut Vec<Tallied>) -> Result<(), AllocError>
    ensures { entries.new.items ≡ entries.old.items }
{
    if entries.is_empty() {
        entries.reserve_exact(1)?;
    }
    Ok(())
}

/// Sets the number at a place.
fn set_count(entries: &mut Vec<Tallied>, place: usize, count: u32)
    requires { place < vec_len entries.old }
    ensures { SetsCount place count entries.old.items entries.new.items }
{
    let entry = &mut entries[place];
    entry.count = count;
}
