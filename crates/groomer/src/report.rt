//! What a groomer did.

ghost use Rattle.std.specs.Prelude.{◌≡◌, ◌+◌, ◌≤◌};
ghost use Rattle.groomer.specs.Grooms.{missed_more};
ghost use Rattle.groomer.specs.Judged.{miss_by};
ghost use Rattle.index_desk.specs.Ends.{drop_by};

use index_desk::WorkEnd;
use index_state::Judged;

/// What a groomer did, and how it ended. The numbers stay at 2^64 - 1 once they are there.
#[derive(Clone, Copy, PartialEq, Eq)]
pub struct GroomReport {
    /// The rows that it dropped.
    pub dropped: u64,
    /// The names that it missed: their look failed, or found the file of the row.
    pub missed: u64,
    /// How it ended.
    pub end: WorkEnd,
}

/// What a groomer has counted so far.
#[derive(Clone, Copy, PartialEq, Eq)]
pub(crate) struct Tally {
    /// The rows that it dropped.
    pub(crate) dropped: u64,
    /// The names that it missed.
    pub(crate) missed: u64,
}

impl Tally {
    /// Counts what came of a judgement.
    pub(crate) fn add(&mut self, answer: &Judged)
        ensures dropped { self.new.dropped ≤ self.old.dropped + drop_by answer.now }
        ensures least { self.old.missed ≤ self.new.missed }
        ensures most { self.new.missed ≤ self.old.missed + miss_by answer.now }
    {
        match answer {
            Judged::Dropped => self.dropped = self.dropped.saturating_add(1),
            Judged::Strange => self.missed = self.missed.saturating_add(1),
            _ => {}
        }
    }

    /// Counts a name whose look failed.
    pub(crate) fn add_failed(&mut self)
        ensures { self.new ≡ missed_more self.old }
    {
        self.missed = self.missed.saturating_add(1);
    }
}
