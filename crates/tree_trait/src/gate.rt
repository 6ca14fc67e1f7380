//! The trait that stands for who may hold a thread at the points that it passes.

use std::sync::Wait;

/// A point that a thread passes.
#[derive(Clone, Copy)]
pub enum Point<'a> {
    /// The file at this path is about to be loaded for a pass.
    Loading(&'a str),
    /// The row of the file at this path was added to the index, or replaced there.
    Published(&'a str),
    /// The connection of this number is about to be answered from the index.
    Asking(u64),
    /// The connection of this number was answered.
    Answered(u64),
}

/// Is told of each point that a thread passes, and may hold the thread there. The lock of the
/// index isn't held at a point.
pub trait Gate: Sync {
    /// A thread has come to a point, and goes on when this returns.
    fn at<Rt: Wait + Sync>(&self, rt: &Rt, point: &Point<'_>);
}

/// Holds no thread.
#[derive(Clone, Copy)]
pub struct NoGate;

impl Gate for NoGate {
    fn at<Rt: Wait + Sync>(&self, _rt: &Rt, _point: &Point<'_>) {}
}
