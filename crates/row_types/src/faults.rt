//! The count of faults that each object of the outside keeps.

ghost use Rattle.std.specs.Prelude.{◌≡◌, ◌≤◌, ℕ};
ghost use Rattle.row_types.specs.Faults.{raised, summed};

use std::marker::Model;

/// How often an object has failed. Contracts see it as that number. It never falls, and stands still at
/// 2^64 - 1.
#[derive(Clone, Copy, PartialEq, Eq)]
pub struct Faults {
    count: u64,
}

impl Model for Faults {
    ghost Value = { ℕ };

    ghost view = { λ f. f.count };

    ghost inverse = { λ n. record { count = n } };
}

impl Faults {
    /// The count of an object that has not failed.
    pub fn new() -> Faults
        ensures { result ≡ 0 }
    {
        Faults { count: 0 }
    }

    /// How often the object has failed.
    pub fn count(&self) -> u64
        ensures { result ≡ self.now }
    {
        self.count
    }

    /// Counts one fault.
    pub fn raise(&mut self)
        ensures value { self.new ≡ raised self.old }
        ensures later { self.old ≤ self.new }
    {
        self.count = self.count.saturating_add(1);
    }

    /// Counts the faults of another object as well.
    pub fn add(&mut self, more: Faults)
        ensures value { self.new ≡ summed self.old more }
        ensures later { self.old ≤ self.new }
    {
        self.count = self.count.saturating_add(more.count);
    }
}
