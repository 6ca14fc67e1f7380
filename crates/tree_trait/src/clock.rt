//! The trait that stands for the time between passes.

ghost use Rattle.std.specs.Prelude.{List, Option};
ghost use Rattle.tree_trait.specs.Clock.{Wakes};

use std::sync::Wait;

/// What a clock answers.
#[derive(Clone, Copy, PartialEq, Eq)]
pub enum Wake {
    /// The time is over.
    Again,
    /// The program is to end.
    Stop,
}

/// A wait, with its answer.
#[derive(Clone, Copy)]
pub struct Waited {
    /// Seconds, as they were asked.
    pub secs: u64,
    /// What was answered.
    pub wake: Wake,
}

/// The time between passes.
pub trait Clock {
    ghost use Rattle.tree_trait.specs.declared.clock.Waited.{Waited};

    /// The waits so far, in order, where they are told.
    ghost woke: { Self → Option (List Waited) };

    /// Waits for so many seconds.
    fn wait<Rt: Wait + Sync>(&mut self, rt: &Rt, secs: u64) -> Wake
        ensures wakes { Wakes (woke self.old) secs result (woke self.new) };
}
