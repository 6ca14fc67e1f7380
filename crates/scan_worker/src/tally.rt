//! What a worker counts.

ghost use Rattle.std.specs.Prelude.{◌≡◌};
ghost use Rattle.scan_worker.specs.Turns.{CountsLoad, CountsTurn, end_by, no_tally, report_of};

use crate::read::NameRead;
use crate::turn::Turn;
use index_desk::WorkEnd;
use row_types::Truth;

/// What a worker reports. Each number stays at 2^64 - 1 once it is there.
#[derive(Clone, Copy, PartialEq, Eq)]
pub struct WorkReport {
    /// The openings that were answered. One for which memory was refused isn't counted, nor one
    /// behind which memory was refused for a read or for the row.
    pub asked: u64,
    /// The rows that were added or replaced.
    pub published: u64,
    /// The names that were noted as missed.
    pub missed: u64,
    /// How the work ended.
    pub end: WorkEnd,
}

/// The numbers of a report, while the work goes on.
#[derive(Clone, Copy, PartialEq, Eq)]
pub(crate) struct Tally {
    pub(crate) asked: u64,
    pub(crate) published: u64,
    pub(crate) missed: u64,
}

impl Tally {
    /// Nothing was done.
    pub(crate) fn new() -> Tally
        ensures { result ≡ no_tally }
    {
        Tally {
            asked: 0,
            published: 0,
            missed: 0,
        }
    }

    /// Counts an opening, unless memory was refused.
    pub(crate) fn count_load<W: Truth>(&mut self, read: &NameRead<W>)
        ensures { CountsLoad read.now self.old self.new }
    {
        match read {
            NameRead::OutOfMemory => {}
            _ => self.asked = self.asked.saturating_add(1),
        }
    }

    /// Counts what became of a name, and says whether the work ends by it.
    pub(crate) fn count_turn(&mut self, turn: Turn) -> Option<WorkEnd>
        ensures counts { CountsTurn turn self.old self.new }
        ensures end { result ≡ end_by turn }
    {
        match turn {
            Turn::Published => self.published = self.published.saturating_add(1),
            Turn::Missed => self.missed = self.missed.saturating_add(1),
            Turn::Passed => {}
            Turn::Ended(end) => return Some(end),
        }
        None
    }

    /// The report of the work that ended so.
    pub(crate) fn report(self, end: WorkEnd) -> WorkReport
        ensures { result ≡ report_of self end }
    {
        WorkReport {
            asked: self.asked,
            published: self.published,
            missed: self.missed,
            end,
        }
    }
}
