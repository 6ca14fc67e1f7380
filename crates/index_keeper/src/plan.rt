//! Which calls of a store in memory fail.

ghost use Rattle.std.specs.Prelude.{◌≡◌};
ghost use Rattle.index_keeper.specs.Plan.{planned, stops_next, is_bad_next, opening_fails};
ghost use Rattle.index_keeper.specs.Plan.{call_fails, is_made_next, after_call, after_opening};

use std::marker::Model;

/// Which calls fail, and how many were made. Contracts see it as a record.
#[derive(Debug, Drop)]
pub struct Plan {
    stop_at: Option<u64>,
    bad_calls: Vec<u64>,
    calls: u64,
    stopped: bool,
}

impl Model for Plan {
    ghost use Rattle.index_keeper.specs.Plan.{PlanFacts};

    ghost Value = { PlanFacts };

    ghost view = { λ p. record {
      stop_at = p.stop_at;
      bad_calls = p.bad_calls.items;
      calls =
          p.calls;
      stopped = p.stopped;
    } };
}

impl Plan {
    /// The plan of these numbers, before the first call.
    pub fn new(stop_at: Option<u64>, bad_calls: Vec<u64>) -> Plan
        ensures { result ≡ planned stop_at bad_calls.items }
    {
        Plan {
            stop_at,
            bad_calls,
            calls: 0,
            stopped: false,
        }
    }

    /// Whether the next call stops the store.
    fn stops_next(&self) -> bool
        ensures { result ≡ stops_next self.now }
    {
        match self.stop_at {
            Some(number) => number == self.calls,
            None => false,
        }
    }

    /// Whether the next call is one that fails alone.
    fn is_bad_next(&self) -> bool
        ensures { result ≡ is_bad_next self.now }
    {
        self.bad_calls.contains(&self.calls)
    }

    /// Whether the next call, an opening, fails.
    pub fn opening_fails(&self) -> bool
        ensures { result ≡ opening_fails self.now }
    {
        self.stops_next() || self.is_bad_next()
    }

    /// Whether the next call, one of a keeper, fails.
    pub fn call_fails(&self) -> bool
        ensures { result ≡ call_fails self.now }
    {
        self.stopped || self.opening_fails()
    }

    /// Whether the next call, a change, fails and is made all the same.
    pub fn is_made_next(&self) -> bool
        ensures { result ≡ is_made_next self.now }
    {
        self.stops_next() && self.calls % 2 == 1
    }

    /// Counts a call.
    pub fn count_call(&mut self)
        ensures { self.new ≡ after_call self.old }
    {
        self.stopped = self.stopped || self.stops_next();
        self.calls = self.calls.saturating_add(1);
    }

    /// Counts an opening that didn't fail.
    pub fn count_opening(&mut self)
        ensures { self.new ≡ after_opening self.old }
    {
        self.stopped = false;
        self.calls = self.calls.saturating_add(1);
    }
}
