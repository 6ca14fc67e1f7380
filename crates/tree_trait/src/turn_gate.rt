//! A gate that holds one point until another has come.

ghost use Rattle.std.specs.Prelude.{◌≡◌};

use crate::gate::{Gate, Point};
use std::sync::Wait;
use std::sync::atomic::{AtomicBool, Ordering};
use std::thread;

/// A point by its own text or number.
#[derive(Drop)]
pub enum Hold {
    /// The point `Loading` of this path.
    Loading(String),
    /// The point `Published` of this path.
    Published(String),
    /// The point `Asking` of this number.
    Asking(u64),
    /// The point `Answered` of this number.
    Answered(u64),
}

impl Hold {
    /// Whether it is this point.
    fn is(&self, point: &Point<'_>) -> bool {
        match (self, point) {
            (Hold::Loading(path), Point::Loading(at)) => path.as_str() == *at,
            (Hold::Published(path), Point::Published(at)) => path.as_str() == *at,
            (Hold::Asking(number), Point::Asking(at)) => number == at,
            (Hold::Answered(number), Point::Answered(at)) => number == at,
            _ => false,
        }
    }
}

/// Holds the first thread that comes to one point until another point has come, but for no more
/// than a stated number of turns. In a turn the held thread lets others run. Any other thread and
/// any other point passes.
#[derive(Drop)]
pub struct TurnGate {
    held: Hold,
    until: Hold,
    turns: u64,
    held_came: AtomicBool,
    until_came: AtomicBool,
    ran_out: AtomicBool,
}

impl TurnGate {
    /// A gate that holds the first point until the second came.
    pub fn new(held: Hold, until: Hold, turns: u64) -> TurnGate
        ensures held { result.held ≡ held }
        ensures until { result.until ≡ until }
        ensures turns { result.turns ≡ turns }
    {
        TurnGate {
            held,
            until,
            turns,
            held_came: AtomicBool::new(false),
            until_came: AtomicBool::new(false),
            ran_out: AtomicBool::new(false),
        }
    }

    /// Whether both points came, and the turns never ran out.
    pub fn met(&self) -> bool {
        self.held_came.load(Ordering::SeqCst)
            && self.until_came.load(Ordering::SeqCst)
            && !self.ran_out.load(Ordering::SeqCst)
    }

    /// Lets others run until the second point came or the turns ran out.
    fn hold(&self) {
        for _ in 0..self.turns {
            if self.until_came.load(Ordering::SeqCst) {
                return;
            }
            thread::yield_now();
        }
        if !self.until_came.load(Ordering::SeqCst) {
            self.ran_out.store(true, Ordering::SeqCst);
        }
    }
}

impl Gate for TurnGate {
    fn at<Rt: Wait + Sync>(&self, _rt: &Rt, point: &Point<'_>) {
        if self.until.is(point) {
            self.until_came.store(true, Ordering::SeqCst);
        }
        if self.held.is(point) && !self.held_came.swap(true, Ordering::SeqCst) {
            self.hold();
        }
    }
}
