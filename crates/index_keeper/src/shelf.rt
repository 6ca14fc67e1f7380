//! What a store in memory hands to its keeper, and gets back from it.

ghost use Rattle.std.specs.Prelude.{◌≡◌, [], None, IfOk, OnOk, OnErr};
ghost use Rattle.index_keeper.specs.Shelf.{shelf_of, after_making, after_tearing, doubt_of};
ghost use Rattle.index_keeper.specs.Shelf.{IsDoubt};

use crate::edit::Edit;
use crate::plan::Plan;
use crate::tables::Tables;
use std::alloc::{AllocError, Global};
use std::marker::Model;

/// All that is kept. Contracts see it as a record.
#[derive(Drop)]
pub struct Shelf {
    /// The rows that are kept.
    pub tables: Tables,
    /// The changes that were answered Done, in order.
    pub made: Vec<Edit>,
    /// Which calls fail.
    pub plan: Plan,
}

impl Model for Shelf {
    ghost use Rattle.index_keeper.specs.Shelf.{ShelfFacts};

    ghost Value = { ShelfFacts };

    ghost view = { λ s. record { tables = s.tables; made = s.made.items; plan = s.plan } };
}

impl Shelf {
    /// These tables, before the first call.
    pub fn of(alloc: Global, tables: Tables, stop_at: Option<u64>, bad_calls: Vec<u64>) -> Shelf
        ensures { result ≡ shelf_of tables stop_at bad_calls.items }
    {
        Shelf {
            tables,
            made: Vec::new(alloc),
            plan: Plan::new(stop_at, bad_calls),
        }
    }

    /// Nothing, as a store keeps while its keeper is out.
    pub fn empty(alloc: Global) -> Shelf
        ensures { result ≡ shelf_of [] None [] }
    {
        Shelf::of(alloc, Tables::new(alloc), None, Vec::new(alloc))
    }

    /// Makes a change, and notes it, or leaves all as it is.
    pub fn make(&mut self, alloc: Global, edit: Edit) -> Result<(), AllocError>
        ensures ok { OnOk result (self.new ≡ after_making self.old edit) }
        ensures err { OnErr result (self.new ≡ self.old) }
    {
        self.made.reserve(1)?;
        self.tables.edit(alloc, &edit)?;
        match self.made.push(edit) {
            Ok(()) => {}
            Err(_) => unreachable!(),
        }
        self.plan.count_call();
        Ok(())
    }

    /// Fails at a change, which is made where the plan says so, or leaves all as it is. Gives the
    /// change that leads to the other tables.
    pub fn tear(&mut self, alloc: Global, edit: Edit) -> Result<Edit, AllocError>
        ensures ok { OnOk result (self.new ≡ after_tearing self.old edit) }
        ensures value { IfOk result (λ doubt. doubt ≡ doubt_of self.old edit) }
        ensures doubt { IfOk result (IsDoubt edit self.old.tables self.new.tables) }
        ensures err { OnErr result (self.new ≡ self.old) }
    {
        if !self.plan.is_made_next() {
            self.plan.count_call();
            return Ok(edit);
        }
        let undo = self.tables.undo(alloc, edit.path.as_str())?;
        self.tables.edit(alloc, &edit)?;
        self.plan.count_call();
        Ok(undo)
    }
}
