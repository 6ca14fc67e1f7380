//! A keeper in memory.

ghost use Rattle.std.specs.Prelude.{◌≡◌, ◌≤◌, true, false, All, IfSome};
ghost use Rattle.index_keeper.specs.Answers.{for_change, for_rows, rows_given};
ghost use Rattle.index_keeper.specs.Keeper.{AreRowsKept, AsksKeeper};
ghost use Rattle.index_keeper.specs.MemKeeper.{Does, GoesByPlan, opened_keeper, shown_of};
ghost use Rattle.index_keeper.specs.Tables.{put_bytes, removal_of};
ghost use Rattle.index_keeper.specs.TrueRows.{IsTrueKept, IsTrueValue, SpellsTrueRow};

use crate::answer::{KeepAnswer, KeptAnswer};
use crate::edit::Edit;
use crate::keeper::Keeper;
use crate::shelf::Shelf;
use row_types::{Faults, Truth};
use std::alloc::Global;
use std::marker::{Model, PhantomData};

/// A keeper in memory, which tells its tables and its changes, and fails exactly at the calls of
/// its store's plan. Contracts see it as a record.
#[derive(Drop)]
pub struct MemKeeper<W: Truth> {
    shelf: Shelf,
    doubt: Option<Edit>,
    faults: Faults,
    epoch: u64,
    of: PhantomData<W>,
}

impl<W: Truth> Model for MemKeeper<W> {
    ghost use Rattle.std.specs.Prelude.{All};
    ghost use Rattle.index_keeper.specs.MemKeeper.{MemKeeperFacts};
    ghost use Rattle.index_keeper.specs.TrueRows.{IsTrueKept};

    ghost Value = { MemKeeperFacts };

    ghost view = { λ k. record {
      shelf = k.shelf;
      doubt = k.doubt;
      faults = k.faults;
      epoch =
          k.epoch;
    } };

    ghost invariant = { λ k. All (IsTrueKept W.true_row) k.shelf.tables };
}

impl<W: Truth> MemKeeper<W> {
    /// The keeper of what a store kept, by the number of the opening.
    pub(crate) fn open(shelf: Shelf, epoch: u64) -> MemKeeper<W>
        requires { All (IsTrueKept W.true_row) shelf.tables }
        ensures { result ≡ opened_keeper shelf epoch }
    {
        MemKeeper {
            shelf,
            doubt: None,
            faults: Faults::new(),
            epoch,
            of: PhantomData,
        }
    }

    /// How often a call has failed.
    pub(crate) fn faults(&self) -> Faults
        ensures { result ≡ self.now.faults }
    {
        self.faults
    }

    /// What is kept, given back. No memory is taken.
    pub(crate) fn into_shelf(self) -> Shelf
        ensures value { result ≡ self.shelf }
        ensures holds { All (IsTrueKept W.true_row) self.shelf.tables }
    {
        let MemKeeper {
            shelf,
            doubt: _,
            faults: _,
            epoch: _,
            of: _,
        } = self;
        shelf
    }

    /// Makes a change, or fails, as the plan says.
    fn change(&mut self, alloc: Global, edit: Edit) -> KeepAnswer
        requires { IfSome edit.bytes (IsTrueValue W.true_row) }
        ensures plan { GoesByPlan self.old self.new (for_change edit result) }
        ensures later { self.old.faults ≤ self.new.faults }
    {
        if self.shelf.plan.call_fails() {
            self.fail(alloc, edit)
        } else {
            self.make(alloc, edit)
        }
    }

    /// Makes a change.
    fn make(&mut self, alloc: Global, edit: Edit) -> KeepAnswer
        requires { IfSome edit.bytes (IsTrueValue W.true_row) }
        ensures plan { Does false self.old self.new (for_change edit result) }
        ensures later { self.old.faults ≤ self.new.faults }
    {
        match self.shelf.make(alloc, edit) {
            Ok(()) => {
                self.doubt = None;
                KeepAnswer::Done
            }
            Err(_) => KeepAnswer::OutOfMemory,
        }
    }

    /// Fails at a change.
    fn fail(&mut self, alloc: Global, edit: Edit) -> KeepAnswer
        requires { IfSome edit.bytes (IsTrueValue W.true_row) }
        ensures plan { Does true self.old self.new (for_change edit result) }
        ensures later { self.old.faults ≤ self.new.faults }
    {
        match self.shelf.tear(alloc, edit) {
            Ok(doubt) => {
                self.doubt = Some(doubt);
                self.faults.raise();
                KeepAnswer::Failed
            }
            Err(_) => KeepAnswer::OutOfMemory,
        }
    }
}

impl<W: Truth + Send> Keeper<W> for MemKeeper<W> {
    ghost use Rattle.std.specs.Prelude.{true};
    ghost use Rattle.index_keeper.specs.MemKeeper.{shown_of};

    ghost told = { true };

    ghost shows = { shown_of };

    fn rows(&mut self, alloc: Global) -> KeptAnswer
        ensures asks { AsksKeeper true (shown_of self.old) (shown_of self.new) (for_rows result) }
        ensures rows { IfSome (rows_given result) (AreRowsKept W.true_row) }
        ensures plan { GoesByPlan self.old self.new (for_rows result) }
    {
        if self.shelf.plan.call_fails() {
            self.shelf.plan.count_call();
            self.faults.raise();
            return KeptAnswer::Failed;
        }
        match self.shelf.tables.copies(alloc) {
            Ok(rows) => {
                self.shelf.plan.count_call();
                KeptAnswer::All(rows)
            }
            Err(_) => KeptAnswer::OutOfMemory,
        }
    }

    fn put(&mut self, alloc: Global, path: &str, bytes: &[u8]) -> KeepAnswer
        requires { SpellsTrueRow W.true_row path.now bytes.now }
        ensures asks { AsksKeeper true (shown_of self.old) (shown_of self.new)
            (for_change (put_bytes path.now bytes.now) result) }
        ensures plan { GoesByPlan self.old self.new
            (for_change (put_bytes path.now bytes.now) result) }
    {
        match Edit::put(alloc, path, bytes) {
            Ok(edit) => self.change(alloc, edit),
            Err(_) => KeepAnswer::OutOfMemory,
        }
    }

    fn remove(&mut self, alloc: Global, path: &str) -> KeepAnswer
        ensures asks { AsksKeeper true (shown_of self.old) (shown_of self.new)
            (for_change (removal_of path.now) result) }
        ensures plan { GoesByPlan self.old self.new (for_change (removal_of path.now) result) }
    {
        match Edit::removal(alloc, path) {
            Ok(edit) => self.change(alloc, edit),
            Err(_) => KeepAnswer::OutOfMemory,
        }
    }

    fn epoch(&self) -> u64
        ensures { result ≡ self.now.epoch }
    {
        self.epoch
    }
}
