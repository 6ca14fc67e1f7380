//! A clock in memory.

ghost use Rattle.std.specs.Prelude.{◌≡◌, ◌-◌, [], Some};
ghost use Rattle.std.specs.Option.{option_copied};
ghost use Rattle.tree_trait.specs.Clock.{Wakes};
ghost use Rattle.tree_trait.specs.MemClock.{next_wake};

use crate::clock::{Clock, Waited, Wake};
use std::alloc::Global;
use std::marker::Model;
use std::sync::Wait;

/// A clock in memory that waits for nothing: it answers Again so often, and then Stop. Where memory
/// for a wait is refused, the waits aren't told from then on.
#[derive(Drop)]
pub struct MemClock {
    woke: Option<Vec<Waited>>,
    rounds: u64,
}

impl Model for MemClock {
    ghost use Rattle.std.specs.Option.{option_map};
    ghost use Rattle.tree_trait.specs.MemClock.{ClockFacts};

    ghost Value = { ClockFacts };

    ghost view = { λ c. record {
      woke = option_map (λ v. v.items) c.woke;
      rounds = c.rounds;
    } };
}

impl MemClock {
    /// A clock that answers Again so often.
    pub fn new(alloc: Global, rounds: u64) -> MemClock
        ensures { result ≡ record { woke = Some []; rounds = rounds } }
    {
        MemClock {
            woke: Some(Vec::new(alloc)),
            rounds,
        }
    }

    /// The waits so far, in order, where they are told.
    pub fn woke(&self) -> Option<&[Waited]>
        ensures { option_copied result ≡ self.now.woke }
    {
        self.woke.as_ref().map(|woke| woke.as_slice())
    }
}

impl Clock for MemClock {
    ghost woke = { λ c. c.woke };

    fn wait<Rt: Wait + Sync>(&mut self, _rt: &Rt, secs: u64) -> Wake
        ensures wakes { Wakes self.old.woke secs result self.new.woke }
        ensures exact { result ≡ next_wake self.old.rounds }
        ensures rounds { self.new.rounds ≡ self.old.rounds - 1 }
    {
        let wake = if self.rounds == 0 {
            Wake::Stop
        } else {
            Wake::Again
        };
        self.rounds = self.rounds.saturating_sub(1);
        if let Some(woke) = &mut self.woke
            && woke.push(Waited { secs, wake }).is_err()
        {
            self.woke = None;
        }
        wake
    }
}
