//! What a server says, and the status that it ends with.

ghost use Rattle.std.specs.Prelude.{◌≡◌, ◌||◌, IfOk, MatchResult};
ghost use Rattle.std.specs.List.{flat_map, list_any};
ghost use Rattle.std.specs.String.{string_bytes};
ghost use Rattle.http_wire.specs.Sink.{GetsAll, GetsPart};
ghost use Rattle.dbgd_commands.specs.Endings.{Gets, streams};
ghost use Rattle.dbgd_run.specs.ServeSaid.{Announces, end_line, ended_badly, has_cut, served_status};
ghost use Rattle.dbgd_run.specs.ServeSaid.{SaysServeEnd, serving_line, wants_line};
ghost use Rattle.dbgd_run.specs.Workers.{ends_at};

use crate::line_fate::LineFate;
use crate::passes_end::PassesEnd;
use crate::serve_end::ServeEnd;
use crate::worker::Worker;
use conn_server::DoorEnd;
use dbgd_commands::{Status, push_count, say, say_no_memory, say_refusal, write_line};
use http_wire::{Sink, WriteFault};
use std::alloc::{AllocError, Global};

/// The first line of a server.
pub(crate) fn serving_line(alloc: Global, port: u64, workers: u64) -> Result<String, AllocError>
    ensures { IfOk result (λ text. string_bytes text ≡ serving_line port workers) }
{
    let mut text = String::from_str(alloc, "serving on ")?;
    push_count(&mut text, port, " with ")?;
    push_count(&mut text, workers, " workers")?;
    text.push_str("\n")?;
    Ok(text)
}

/// Says a line on the standard output, and tells whether it was written whole.
pub(crate) fn announce<O: Sink>(line: &str, out: &mut O, err: &mut O) -> bool
    ensures { Announces line.now result
        (streams O.shows out.old err.old) (streams O.shows out.new err.new) }
{
    match say(line.as_bytes(), Status::Done, out, err) {
        Status::Done => true,
        Status::Fault
        | Status::Usage
        | Status::Absent
        | Status::Altered
        | Status::Limit
        | Status::OutOfMemory
        | Status::BadRow => false,
    }
}

/// Whether the serving of a door ended since the door failed.
fn ended_badly(end: Option<DoorEnd>) -> bool
    ensures { result ≡ ended_badly end }
{
    match end {
        Some(DoorEnd::Failed) => true,
        Some(DoorEnd::Closed) | None => false,
    }
}

/// Says that a door failed, if it did.
fn say_door<O: Sink>(end: Option<DoorEnd>, err: &mut O) -> Result<(), WriteFault>
    ensures { MatchResult result
        (λ _. GetsAll (end_line end) (O.shows err.old) (O.shows err.new))
        (λ _. GetsPart (end_line end) (O.shows err.old) (O.shows err.new)) }
{
    match end {
        Some(DoorEnd::Failed) => write_line(err, "dbgd: fault ", "door"),
        Some(DoorEnd::Closed) | None => Ok(()),
    }
}

/// Whether one of two is so.
fn either(one: bool, other: bool) -> bool
    ensures { result ≡ (one || other) }
{
    one || other
}

/// Whether some door failed.
fn is_any_bad<T: Drop, D: Drop, L: Drop>(workers: &[Worker<T, D, L>]) -> bool
    ensures { result ≡ list_any ended_badly (ends_at workers.now) }
{
    let mut failed = false;
    for worker in workers {
        failed = either(failed, ended_badly(worker.end));
    }
    failed
}

/// Writes a line for each door that failed, in order. A write that fails ends that.
fn write_doors<T: Drop, D: Drop, L: Drop, O: Sink>(
    workers: &[Worker<T, D, L>],
    err: &mut O,
) -> Result<(), WriteFault>
    ensures { MatchResult result
        (λ _. GetsAll (flat_map end_line (ends_at workers.now)) (O.shows err.old) (O.shows err.new))
        (λ _. GetsPart (flat_map end_line (ends_at workers.now)) (O.shows err.old) (O.shows err.new)) }
{
    for worker in workers {
        say_door(worker.end, err)?;
    }
    Ok(())
}

/// Says of each door that failed, in order. A write that fails changes nothing else.
fn say_doors<T: Drop, D: Drop, L: Drop, O: Sink>(workers: &[Worker<T, D, L>], err: &mut O)
    ensures { Gets (flat_map end_line (ends_at workers.now)) (O.shows err.old) (O.shows err.new) }
{
    let _ = write_doors(workers, err);
}

/// Whether memory was refused for the line of a pass.
fn wants_line(fate: LineFate, how: Option<PassesEnd>) -> bool
    ensures { result ≡ wants_line fate how }
{
    match (how, fate) {
        (Some(PassesEnd::OutOfMemory), _) => true,
        (_, LineFate::Unmade) => true,
        (_, LineFate::Written | LineFate::Cut) => false,
    }
}

/// Whether the standard output refused the line of a pass.
fn has_cut(fate: LineFate, how: Option<PassesEnd>) -> bool
    ensures { result ≡ has_cut fate how }
{
    match (how, fate) {
        (Some(PassesEnd::OutFailed), _) => true,
        (_, LineFate::Cut) => true,
        (_, LineFate::Written | LineFate::Unmade) => false,
    }
}

/// The status of a server that served.
fn served_status(wants: bool, failed: bool) -> Status
    ensures { result ≡ served_status wants failed }
{
    if wants {
        Status::OutOfMemory
    } else if failed {
        Status::Fault
    } else {
        Status::Done
    }
}

/// Says how a server ended: of each door that failed a line, in order, and the status.
pub(crate) fn say_serve_end<T: Drop, D: Drop, L: Drop, O: Sink>(
    end: &ServeEnd,
    workers: &[Worker<T, D, L>],
    out: &mut O,
    err: &mut O,
) -> Status
    ensures { SaysServeEnd end.now (ends_at workers.now)
        (streams O.shows out.old err.old) (streams O.shows out.new err.new) result }
{
    match end {
        ServeEnd::Refused(fault) => say_refusal(fault, out, err),
        ServeEnd::Unannounced => Status::Fault,
        ServeEnd::Unlocked => say_no_memory(out, err),
        ServeEnd::Served { fate, how, broken } => {
            say_doors(workers, err);
            let failed = either(is_any_bad(workers), *broken);
            served_status(
                wants_line(*fate, *how),
                either(has_cut(*fate, *how), failed),
            )
        }
    }
}
