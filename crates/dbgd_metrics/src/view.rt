//! The counters' table: what each seat knows, and the rule that each step keeps.
//! Its first word is the number of rows that were drawn; behind it lie the rows in their order.
use atomic_table::{Seat, Table, TableRule};
use std::alloc::Global;
use std::collections::LinkedList;

/// A load of one word: which, and what it found. No value of it is made.
pub struct Load {
    pub word: u64,
    pub found: u64,
}

/// What one seat knows. No value of it is made.
pub struct Known {
    /// Its row, if it has drawn one.
    pub row: Option<u64>,
    /// Its numbers.
    pub numbers: LinkedList<u64>,
    /// The loads that it has noted, oldest first.
    pub loads: LinkedList<Load>,
    /// So many rows were drawn, or more.
    pub drawn: u64,
}

pub struct BookRule;

impl TableRule<(), Known, u64> for BookRule {
    ghost use Rattle.dbgd_metrics.specs.Rule.{KeepsBook, blank};

    ghost holds = { λ rows. KeepsBook rows };

    ghost first = { λ _. blank };
}

pub type BookTable = Table<(), Known, u64, BookRule, Global>;

pub type Token = Seat<(), Known>;
