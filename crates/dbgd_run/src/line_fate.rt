//! What is said of a pass between waits, and what comes of its line.

ghost use Rattle.std.specs.Prelude.{◌≡◌};
ghost use Rattle.dbgd_commands.specs.Endings.{streams};
ghost use Rattle.dbgd_run.specs.RoundSaid.{TellsPass, fate_by, missed_fate, whole_fate};

use dbgd_commands::{Status, say_pass};
use http_wire::Sink;
use pass_runner::PassEnd;
use std::alloc::Global;

/// What came of the line of a pass.
#[derive(Clone, Copy, PartialEq, Eq)]
pub enum LineFate {
    /// It was said. A write to the standard error that fails changes nothing.
    Written,
    /// The standard output refused it, or a part of it.
    Cut,
    /// Memory for it was refused.
    Unmade,
}

/// What came of the line of a whole pass, by the status with which it was said.
fn whole_fate(said: Status) -> LineFate
    ensures { result ≡ whole_fate said }
{
    match said {
        Status::Fault => LineFate::Cut,
        Status::OutOfMemory => LineFate::Unmade,
        Status::Done
        | Status::Usage
        | Status::Absent
        | Status::Altered
        | Status::Limit
        | Status::BadRow => LineFate::Written,
    }
}

/// What came of the line of a missed name, by the status with which it was said.
fn missed_fate(said: Status) -> LineFate
    ensures { result ≡ missed_fate said }
{
    match said {
        Status::OutOfMemory => LineFate::Unmade,
        Status::Done
        | Status::Fault
        | Status::Usage
        | Status::Absent
        | Status::Altered
        | Status::Limit
        | Status::BadRow => LineFate::Written,
    }
}

/// What came of the line of a pass that ended so, by the status with which it was said.
fn fate_by(end: &PassEnd, said: Status) -> LineFate
    ensures { result ≡ fate_by end.now said }
{
    match end {
        PassEnd::Whole(_) => whole_fate(said),
        PassEnd::Missed(_) => missed_fate(said),
        PassEnd::Walk(_)
        | PassEnd::Broken
        | PassEnd::KeeperFault
        | PassEnd::LogFull
        | PassEnd::OutOfMemory => LineFate::Written,
    }
}

/// Says how a pass ended, as a scan does, and tells what came of its line.
pub fn tell_pass<O: Sink>(alloc: Global, end: &PassEnd, out: &mut O, err: &mut O) -> LineFate
    ensures { TellsPass end.now
        (streams O.shows out.old err.old) (streams O.shows out.new err.new) result }
{
    fate_by(end, say_pass(alloc, end, out, err))
}
