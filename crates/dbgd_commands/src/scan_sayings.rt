//! What `scan` says, by how it ended.

ghost use Rattle.dbgd_commands.specs.Endings.{EndsWhole, streams};
ghost use Rattle.dbgd_commands.specs.ScanSaid.{SaysEnd, SaysMiss, SaysPass, bad_row_saying};
ghost use Rattle.dbgd_commands.specs.ScanSaid.{refusal_saying, walk_saying};
ghost use Rattle.pass_runner.specs.declared.pass_end.PassEnd.TheVariants.{Whole};
ghost use Rattle.scan_queue.specs.declared.miss.Cause.TheVariants.{Altered, Appeared};

use crate::scan_end::ScanEnd;
use crate::scan_texts::{altered_text, appeared_text, summary_line};
use crate::speech::{say, say_error, say_fault, say_gone, say_limit, say_no_memory};
use crate::status::Status;
use http_wire::Sink;
use index_keeper::Kept;
use index_state::OpenFault;
use pass_runner::{PassEnd, Summary};
use row_types::Name;
use scan_queue::{Cause, Seen};
use std::alloc::Global;
use tree_walk::WalkFault;

/// Says that a kept value isn't a row under its path.
fn say_bad_row<O: Sink>(kept: &Kept, out: &mut O, err: &mut O) -> Status
    ensures { EndsWhole (bad_row_saying kept.now)
        (streams O.shows out.old err.old) (streams O.shows out.new err.new) result }
{
    say_error(
        "dbgd: bad row ",
        kept.path.as_str(),
        Status::BadRow,
        out,
        err,
    )
}

/// Says why no index could be opened on a store.
pub fn say_refusal<O: Sink>(fault: &OpenFault, out: &mut O, err: &mut O) -> Status
    ensures { EndsWhole (refusal_saying fault.now)
        (streams O.shows out.old err.old) (streams O.shows out.new err.new) result }
{
    match fault {
        OpenFault::KeeperFault => say_fault("store", out, err),
        OpenFault::BadRow { kept, fault: _ } => say_bad_row(kept, out, err),
        OpenFault::LogFull => say_limit("changes", out, err),
        OpenFault::OutOfMemory => say_no_memory(out, err),
    }
}

/// Says why a walk ended.
fn say_walk<O: Sink>(fault: &WalkFault, out: &mut O, err: &mut O) -> Status
    ensures { EndsWhole (walk_saying fault.now)
        (streams O.shows out.old err.old) (streams O.shows out.new err.new) result }
{
    match fault {
        WalkFault::Failed => say_fault("folder", out, err),
        WalkFault::TooMany => say_limit("files", out, err),
        WalkFault::TooManyEntries => say_limit("entries", out, err),
        WalkFault::RootGone(path) => say_gone(path.text(), out, err),
        WalkFault::OutOfMemory => say_no_memory(out, err),
    }
}

/// Says what stood in a listed file's place.
fn say_altered<O: Sink>(alloc: Global, name: &Name, seen: &Seen, out: &mut O, err: &mut O) -> Status
    ensures { SaysMiss name.now (Altered seen.now)
        (streams O.shows out.old err.old) (streams O.shows out.new err.new) result }
{
    match altered_text(alloc, name, seen) {
        Ok(text) => say_error("", text.as_str(), Status::Altered, out, err),
        Err(_) => say_no_memory(out, err),
    }
}

/// Says that the file of a row stands though it isn't listed.
fn say_appeared<O: Sink>(alloc: Global, name: &Name, out: &mut O, err: &mut O) -> Status
    ensures { SaysMiss name.now Appeared
        (streams O.shows out.old err.old) (streams O.shows out.new err.new) result }
{
    match appeared_text(alloc, name) {
        Ok(text) => say_error("", text.as_str(), Status::Altered, out, err),
        Err(_) => say_no_memory(out, err),
    }
}

/// Says why a name was missed.
fn say_miss<O: Sink>(alloc: Global, name: &Name, cause: &Cause, out: &mut O, err: &mut O) -> Status
    ensures { SaysMiss name.now cause.now
        (streams O.shows out.old err.old) (streams O.shows out.new err.new) result }
{
    match cause {
        Cause::ReadFault => say_fault("file", out, err),
        Cause::Altered { seen } => say_altered(alloc, name, seen, out, err),
        Cause::Appeared => say_appeared(alloc, name, out, err),
    }
}

/// Says the numbers of a scan.
fn say_summary<O: Sink>(alloc: Global, summary: &Summary, out: &mut O, err: &mut O) -> Status
    ensures { SaysPass (Whole summary.now)
        (streams O.shows out.old err.old) (streams O.shows out.new err.new) result }
{
    match summary_line(alloc, summary) {
        Ok(line) => say(line.as_bytes(), Status::Done, out, err),
        Err(_) => say_no_memory(out, err),
    }
}

/// Says how a pass ended.
pub fn say_pass<O: Sink>(alloc: Global, end: &PassEnd, out: &mut O, err: &mut O) -> Status
    ensures { SaysPass end.now
        (streams O.shows out.old err.old) (streams O.shows out.new err.new) result }
{
    match end {
        PassEnd::Whole(summary) => say_summary(alloc, summary, out, err),
        PassEnd::Missed(miss) => say_miss(alloc, &miss.name, &miss.cause, out, err),
        PassEnd::Walk(fault) => say_walk(fault, out, err),
        PassEnd::Broken | PassEnd::KeeperFault => say_fault("store", out, err),
        PassEnd::LogFull => say_limit("changes", out, err),
        PassEnd::OutOfMemory => say_no_memory(out, err),
    }
}

/// Says how a scan ended.
pub fn say_end<O: Sink>(alloc: Global, end: &ScanEnd, out: &mut O, err: &mut O) -> Status
    ensures { SaysEnd end.now
        (streams O.shows out.old err.old) (streams O.shows out.new err.new) result }
{
    match end {
        ScanEnd::Refused(fault) => say_refusal(fault, out, err),
        ScanEnd::Passed(end) => say_pass(alloc, end, out, err),
    }
}
