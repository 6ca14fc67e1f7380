//! The passes of a server: one after each wait.

ghost use Rattle.std.specs.Prelude.{◌≡◌, ◌<◌, vec_len, None, IsSome};
ghost use Rattle.row_types.specs.Rules.{rules};
ghost use Rattle.path_scope.specs.Scope.{scope_of};
ghost use Rattle.index_lock.specs.Tokens.{IsLater};
ghost use Rattle.dbgd_commands.specs.Endings.{streams};
ghost use Rattle.dbgd_commands.specs.Stage.{setting};
ghost use Rattle.dbgd_run.specs.RoundSaid.{CountsPass, TellsPass};
ghost use Rattle.dbgd_run.specs.Rounds.{KeepsPassing, pass_stage, stopped_by};

use crate::line_fate::{LineFate, tell_pass};
use crate::passes_end::PassesEnd;
use dbgd_metrics::{Book, Count, Share};
use http_wire::Sink;
use index_keeper::Keeper;
use index_lock::{Seat, TurnLock};
use index_state::State;
use pass_runner::{PassEnd, run_pass};
use path_canon::Selection;
use row_types::{CanonPath, Truth};
use std::alloc::Global;
use std::sync::Wait;
use std::thread::Threads;
use tree_trait::{Clock, Gate, Reader, Tree, Wake};

/// How the passing ends where the clock says Stop, by whether a line was refused.
fn stopped_by(failed: bool) -> PassesEnd
    ensures { result ≡ stopped_by failed }
{
    if failed {
        PassesEnd::OutFailed
    } else {
        PassesEnd::Stopped
    }
}

/// Counts a whole pass with its rows. Where that doesn't fit, the share is marked.
fn count_pass(book: &Book, share: &mut Share, end: &PassEnd)
    requires book { share.old.book ≡ book.now.id }
    requires row { IsSome share.old.row }
    ensures counts { CountsPass end.now share.old share.new }
    ensures same { (share.new.book ≡ share.old.book) × (share.new.row ≡ share.old.row) }
{
    match end {
        PassEnd::Whole(summary) => {
            let pass = Count::Pass {
                added: summary.added,
                replaced: summary.replaced,
                dropped: summary.dropped,
            };
            book.count(share, pass);
        }
        PassEnd::Missed(_)
        | PassEnd::Walk(_)
        | PassEnd::Broken
        | PassEnd::KeeperFault
        | PassEnd::LogFull
        | PassEnd::OutOfMemory => {}
    }
}

/// Says how a pass ended, and counts it. Tells what came of its line.
pub fn note_pass<O: Sink>(
    alloc: Global,
    end: PassEnd,
    book: &Book,
    share: &mut Share,
    out: &mut O,
    err: &mut O,
) -> LineFate
    requires book { share.old.book ≡ book.now.id }
    requires row { IsSome share.old.row }
    ensures tells { TellsPass end
        (streams O.shows out.old err.old) (streams O.shows out.new err.new) result }
    ensures counts { CountsPass end share.old share.new }
    ensures same { (share.new.book ≡ share.old.book) × (share.new.row ≡ share.old.row) }
{
    let fate = tell_pass(alloc, &end, out, err);
    count_pass(book, share, &end);
    fate
}

/// Makes a pass over the roots, by the files that are selected, with an index that others share after each wait for so many seconds
/// that the clock answers with Again, until it says Stop. The hands are those of `run_pass`. The line
/// of each pass is that of a scan: a whole pass has it on `out`, any other on `err`, with the reason;
/// and a whole pass is counted with its rows in the share, whatever comes of its line. A line that
/// `out` refuses is told on `err`, and the passing goes on; one for which there is no memory ends it at
/// once. A pass that itself ends by want of memory doesn't. The hands come back in their order.
pub fn keep_passing<
    W: Truth + Send + Sync,
    K: Keeper<W>,
    T: Tree<W>,
    P: Selection,
    R: Reader<W> + Sync,
    C: Clock,
    O: Sink,
    G: Gate,
    Rt: Threads + Wait + Sync,
>(
    rt: &Rt,
    alloc: Global,
    lock: &TurnLock<State<W, K>>,
    seat: Seat<State<W, K>>,
    hands: Vec<T>,
    roots: &[CanonPath],
    select: &mut P,
    reader: &R,
    clock: &mut C,
    secs: u64,
    book: &Book,
    share: &mut Share,
    out: &mut O,
    err: &mut O,
    gate: &G,
) -> (Seat<State<W, K>>, Vec<T>, PassesEnd)
    requires lock { seat.lock ≡ lock.now }
    requires hand { 0 < vec_len hands }
    requires spared { seat.origin.sparing ≡ None }
    requires book { share.old.book ≡ book.now.id }
    requires row { IsSome share.old.row }
    ensures later { IsLater seat result.0 }
    ensures passes { KeepsPassing
        (setting (rules W.version W.true_row W.told) T.told T.shows K.told)
        (scope_of roots.now (P.takes select.old)) secs
        (pass_stage seat.seen hands.items (C.woke clock.old)
        (streams O.shows out.old err.old) share.old) result.2
        (pass_stage result.0.seen result.1.items (C.woke clock.new)
        (streams O.shows out.new err.new) share.new) }
    ensures count { vec_len result.1 ≡ vec_len hands }
    ensures same { (share.new.book ≡ share.old.book) × (share.new.row ≡ share.old.row) }
    ensures takes { P.takes select.new ≡ P.takes select.old }
{
    let mut seat = seat;
    let mut hands = hands;
    let mut failed = false;
    for _ in rt.forever() {
        match clock.wait(rt, secs) {
            Wake::Stop => return (seat, hands, stopped_by(failed)),
            Wake::Again => {}
        }
        let (next, back, end) = run_pass(rt, alloc, lock, seat, hands, roots, select, reader, gate);
        seat = next;
        hands = back;
        match note_pass(alloc, end, book, share, out, err) {
            LineFate::Written => {}
            LineFate::Cut => failed = true,
            LineFate::Unmade => return (seat, hands, PassesEnd::OutOfMemory),
        }
    }
    unreachable!()
}
