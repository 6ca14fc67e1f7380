//! How often paths count, by id.

ghost use Rattle.std.specs.Prelude.{◌≡◌, ◌+◌, ◌<◌, ◌≤◌, ◌^◌, [], ℕ, List, All, IsTrue, IsSome, OnOk};
ghost use Rattle.row_types.specs.Ascends.{Ascends, AscendsBy};
ghost use Rattle.index_rows.specs.Tallies.{AreBelowLast, CountsSame, HasId, HasKey, KeepsKeys};
ghost use Rattle.index_rows.specs.Tally.{tallied_path};
ghost use Rattle.index_rows.specs.Tallies.{tally_of, tallies_of, one_of};
ghost use Rattle.index_rows.specs.Tallies.{times, times_of};

use crate::tally::{Tallied, Tally};
use row_types::{BuildId, CanonPath};
use std::alloc::{AllocError, Global};
use std::collections::BTreeMap;

/// Ids, each with paths, each of which has a number. Room is made for an id and a path first, and
/// to count them then needs no memory.
#[derive(Drop)]
pub(crate) struct Tallies {
    ids: BTreeMap<BuildId, Tally>,
}

impl Tallies {
    /// No ids.
    pub fn new(alloc: Global) -> Tallies
        ensures { (id path : List ℕ) → tally_of id path result.ids.entries ≡ 0 }
    {
        Tallies {
            ids: BTreeMap::new(alloc),
        }
    }

    /// The paths of the id, in order.
    pub fn entries(&self, id: &BuildId) -> &[Tallied]
        ensures value { result.now ≡ tallies_of id.now self.now.ids.entries }
        ensures ascends { AscendsBy tallied_path result.now }
    {
        match self.ids.get(id) {
            Some(tally) => tally.entries(),
            None => &[],
        }
    }

    /// How often the path counts under the id.
    pub fn count(&self, id: &BuildId, path: &CanonPath) -> u32
        ensures { result ≡ tally_of id.now path.now self.now.ids.entries }
    {
        match self.ids.get(id) {
            Some(tally) => tally.count(path),
            None => 0,
        }
    }

    /// Makes room for the id, if it has none.
    fn make_id(&mut self, alloc: Global, id: &BuildId) -> Result<(), AllocError>
        ensures ok { OnOk result (HasId id.now self.new.ids.entries) }
        ensures same { CountsSame self.old.ids.entries self.new.ids.entries }
        ensures keeps { KeepsKeys self.old.ids.entries self.new.ids.entries }
    {
        if !self.ids.contains_key(id) {
            self.ids.insert(*id, Tally::new(alloc))?;
        }
        Ok(())
    }

    /// Makes room for the path under the id, which has room.
    fn make_path(
        &mut self,
        alloc: Global,
        id: &BuildId,
        path: &CanonPath,
        number: u32,
    ) -> Result<(), AllocError>
        requires { HasId id.now self.old.ids.entries }
        ensures ok { OnOk result (HasKey id.now path.now self.new.ids.entries) }
        ensures same { CountsSame self.old.ids.entries self.new.ids.entries }
        ensures keeps { KeepsKeys self.old.ids.entries self.new.ids.entries }
    {
        match self.ids.get_mut(id) {
            Some(tally) => tally.make_room(alloc, path, number),
            None => unreachable!(),
        }
    }

    /// Makes room for the path under the id. The slot of its row has the number.
    pub fn make_room(
        &mut self,
        alloc: Global,
        id: &BuildId,
        path: &CanonPath,
        number: u32,
    ) -> Result<(), AllocError>
        ensures ok { OnOk result (HasKey id.now path.now self.new.ids.entries) }
        ensures same { CountsSame self.old.ids.entries self.new.ids.entries }
        ensures keeps { KeepsKeys self.old.ids.entries self.new.ids.entries }
    {
        self.make_id(alloc, id)?;
        self.make_path(alloc, id, path, number)
    }

    /// Makes room for each of the paths under the id, which has room.
    fn make_paths(
        &mut self,
        alloc: Global,
        id: &BuildId,
        paths: &[CanonPath],
    ) -> Result<(), AllocError>
        requires has { HasId id.now self.old.ids.entries }
        requires ascends { Ascends paths.now }
        ensures ok { OnOk result (All (λ path. HasKey id.now path self.new.ids.entries) paths.now) }
        ensures same { CountsSame self.old.ids.entries self.new.ids.entries }
        ensures keeps { KeepsKeys self.old.ids.entries self.new.ids.entries }
    {
        match self.ids.get_mut(id) {
            Some(tally) => tally.make_rooms(alloc, paths),
            None => unreachable!(),
        }
    }

    /// Makes room for each of the paths under the id. No slot is theirs.
    pub fn make_rooms(
        &mut self,
        alloc: Global,
        id: &BuildId,
        paths: &[CanonPath],
    ) -> Result<(), AllocError>
        requires { Ascends paths.now }
        ensures ok { OnOk result (All (λ path. HasKey id.now path self.new.ids.entries) paths.now) }
        ensures same { CountsSame self.old.ids.entries self.new.ids.entries }
        ensures keeps { KeepsKeys self.old.ids.entries self.new.ids.entries }
    {
        if paths.is_empty() {
            return Ok(());
        }
        self.make_id(alloc, id)?;
        self.make_paths(alloc, id, paths)
    }

    /// Counts the path under the id once more. It has room.
    pub fn add(&mut self, id: &BuildId, path: &CanonPath)
        requires room { HasKey id.now path.now self.old.ids.entries }
        requires fits { tally_of id.now path.now self.old.ids.entries + 1 < 2 ^ 32 }
        ensures counts { (other_id other : List ℕ) → tally_of other_id other self.new.ids.entries
            ≡ tally_of other_id other self.old.ids.entries + one_of id.now path.now other_id other }
        ensures keeps { KeepsKeys self.old.ids.entries self.new.ids.entries }
    {
        match self.ids.get_mut(id) {
            Some(tally) => tally.add(path),
            None => unreachable!(),
        }
    }

    /// Counts each of the paths under the id once more. They have room.
    pub fn add_all(&mut self, id: &BuildId, paths: &[CanonPath])
        requires room { All (λ path. HasKey id.now path self.old.ids.entries) paths.now }
        requires fits { AreBelowLast self.old.ids.entries }
        requires ascends { Ascends paths.now }
        ensures { (other_id other : List ℕ) → tally_of other_id other self.new.ids.entries
            ≡ tally_of other_id other self.old.ids.entries + times_of id.now paths.now other_id other }
    {
        for path in paths {
            self.add(id, path);
        }
    }

    /// Counts the path under the id once less, and says whether the id has no path left.
    fn take_path(&mut self, id: &BuildId, path: &CanonPath) -> bool
        requires { 0 < tally_of id.now path.now self.old.ids.entries }
        ensures counts { (other_id other : List ℕ) → tally_of other_id other self.new.ids.entries
            + one_of id.now path.now other_id other ≡ tally_of other_id other self.old.ids.entries }
        ensures empty { IsTrue result → tallies_of id.now self.new.ids.entries ≡ [] }
    {
        match self.ids.get_mut(id) {
            Some(tally) => {
                tally.take(path);
                tally.entries().is_empty()
            }
            None => unreachable!(),
        }
    }

    /// Counts the path under the id once less. What counts no more has no room.
    pub fn take(&mut self, id: &BuildId, path: &CanonPath)
        requires { 0 < tally_of id.now path.now self.old.ids.entries }
        ensures { (other_id other : List ℕ) → tally_of other_id other self.new.ids.entries
            + one_of id.now path.now other_id other ≡ tally_of other_id other self.old.ids.entries }
    {
        if self.take_path(id, path) {
            self.ids.remove(id);
        }
    }

    /// Counts each of the paths under the id once less.
    pub fn take_all(&mut self, id: &BuildId, paths: &[CanonPath])
        requires { (path : List ℕ) → times paths.now path ≤ tally_of id.now path self.old.ids.entries }
        ensures { (other_id other : List ℕ) → tally_of other_id other self.new.ids.entries
            + times_of id.now paths.now other_id other ≡ tally_of other_id other self.old.ids.entries }
    {
        for path in paths {
            self.take(id, path);
        }
    }
}
