//! What the hand that leads a pass settles itself over a shared index.

ghost use Rattle.std.specs.Prelude.{◌≡◌, [], true};
ghost use Rattle.std.specs.Bool.{OnFalse};
ghost use Rattle.index_lock.specs.Tokens.{IsLater};
ghost use Rattle.path_scope.specs.Scope.{Scope, is_in_scope, scope_of};
ghost use Rattle.pass_runner.specs.Leading.{LeadsInSettling, MayNote, MayNoteThere};

use crate::holds::{is_open, judge_one};
use crate::scope::is_in_scope;
use groomer::{Looked, look};
use index_desk::{Desk, Ground};
use index_keeper::Keeper;
use index_state::{GroomTask, Judged};
use path_scope::Selection;
use row_types::{CanonPath, Name, Truth};
use scan_queue::{Cause, Miss, Seen};
use scan_worker::{NameRead, read_name};
use std::alloc::Global;
use std::sync::Wait;
use tree_trait::{Reader, Tree};

/// Tries again what is left of a pass with the hand that leads it: the listed files without a row
/// are read, and the rows that are no longer listed are judged by looks at their paths, which are
/// made in the scope of this pass alone. What the hand missed itself is told. How it ends isn't: the
/// pass shows what is left.
pub(crate) fn settle_shared<
    'a,
    W: Truth,
    K: Keeper<W>,
    T: Tree<W>,
    P: Selection,
    R: Reader<W>,
    G,
    Rt: Wait,
>(
    ground: Ground<'_, R, G, Rt>,
    desk: Desk<'a, W, K>,
    hand: &mut T,
    roots: &[CanonPath],
    select: &mut P,
) -> (Desk<'a, W, K>, Vec<Miss>)
    ensures leads { LeadsInSettling T.told W.version (scope_of roots.now (P.takes select.old))
        desk.entry.seat (T.shows hand.old) result.0.seat (T.shows hand.new) [] result.1.items }
    ensures same { P.takes select.new ≡ P.takes select.old }
{
    let mut met = Vec::new(ground.alloc);
    let (desk, ready) = desk.retry(ground.rt);
    if ready.is_err() {
        return (desk, met);
    }
    let desk = read_left(ground, desk, hand, &mut met);
    let desk = look_left(ground.rt, ground.alloc, desk, hand, roots, select, &mut met);
    (desk, met)
}

/// Reads the listed files that have no row, in path order, until none is left or the work ends.
fn read_left<'a, W: Truth, K: Keeper<W>, T: Tree<W>, R: Reader<W>, G, Rt: Wait>(
    ground: Ground<'_, R, G, Rt>,
    desk: Desk<'a, W, K>,
    hand: &mut T,
    met: &mut Vec<Miss>,
) -> Desk<'a, W, K>
    ensures { (scope : Scope) → LeadsInSettling T.told W.version scope desk.entry.seat
        (T.shows hand.old) result.seat (T.shows hand.new) met.old.items met.new.items }
{
    let Desk { lock, mut seat } = desk;
    for _ in ground.rt.forever() {
        let (desk, goes_on) = read_next(ground, Desk { lock, seat }, hand, met);
        if !goes_on {
            return desk;
        }
        let Desk {
            lock: _,
            seat: next,
        } = desk;
        seat = next;
    }
    unreachable!()
}

/// Reads the next listed file that has no row, if one is left. Says whether the work goes on.
fn read_next<'a, W: Truth, K: Keeper<W>, T: Tree<W>, R: Reader<W>, G, Rt: Wait>(
    ground: Ground<'_, R, G, Rt>,
    desk: Desk<'a, W, K>,
    hand: &mut T,
    met: &mut Vec<Miss>,
) -> (Desk<'a, W, K>, bool)
    ensures { (scope : Scope) → LeadsInSettling T.told W.version scope desk.entry.seat
        (T.shows hand.old) result.0.seat (T.shows hand.new) met.old.items met.new.items }
{
    let (desk, name) = desk.take(ground.rt);
    let Some(name) = name else {
        return (desk, false);
    };
    match read_name(ground.alloc, hand, ground.reader, &name) {
        NameRead::Row(row) => {
            let (desk, said) = desk.publish(ground.rt, ground.alloc, row);
            (desk, is_open(said))
        }
        NameRead::Altered(seen) => {
            let cause = Cause::Altered { seen };
            miss_own(ground.rt, desk, met, Miss { name, cause })
        }
        NameRead::Failed => {
            let cause = Cause::ReadFault;
            miss_own(ground.rt, desk, met, Miss { name, cause })
        }
        NameRead::OutOfMemory => (desk, false),
    }
}

/// Looks for the files of the rows that are no longer listed, in path order, until none is left or
/// the work ends.
fn look_left<'a, W: Truth, K: Keeper<W>, T: Tree<W>, P: Selection, Rt: Wait>(
    rt: &Rt,
    alloc: Global,
    desk: Desk<'a, W, K>,
    hand: &mut T,
    roots: &[CanonPath],
    select: &mut P,
    met: &mut Vec<Miss>,
) -> Desk<'a, W, K>
    ensures leads { LeadsInSettling T.told W.version (scope_of roots.now (P.takes select.old))
        desk.entry.seat (T.shows hand.old) result.seat (T.shows hand.new) met.old.items
        met.new.items }
    ensures same { P.takes select.new ≡ P.takes select.old }
{
    let Desk { lock, mut seat } = desk;
    for _ in rt.forever() {
        let (desk, goes_on) = look_next(rt, alloc, Desk { lock, seat }, hand, roots, select, met);
        if !goes_on {
            return desk;
        }
        let Desk {
            lock: _,
            seat: next,
        } = desk;
        seat = next;
    }
    unreachable!()
}

/// Looks for the file of the next row that is no longer listed, if one is left. Says whether the
/// work goes on.
fn look_next<'a, W: Truth, K: Keeper<W>, T: Tree<W>, P: Selection, Rt: Wait>(
    rt: &Rt,
    alloc: Global,
    desk: Desk<'a, W, K>,
    hand: &mut T,
    roots: &[CanonPath],
    select: &mut P,
    met: &mut Vec<Miss>,
) -> (Desk<'a, W, K>, bool)
    ensures leads { LeadsInSettling T.told W.version (scope_of roots.now (P.takes select.old))
        desk.entry.seat (T.shows hand.old) result.0.seat (T.shows hand.new) met.old.items
        met.new.items }
    ensures same { P.takes select.new ≡ P.takes select.old }
{
    let (desk, task) = desk.groom_take(rt);
    let Some(task) = task else {
        return (desk, false);
    };
    // Another token's pass may stand there by now: its rows are not this hand's to look for.
    if is_elsewhere(alloc, &task, roots, select) {
        return (desk, false);
    }
    match look(alloc, hand, &task) {
        Looked::Saw(seen) => judge_own(rt, alloc, desk, met, task, seen),
        Looked::Failed => {
            let GroomTask { name, under: _ } = task;
            let cause = Cause::ReadFault;
            miss_own(rt, desk, met, Miss { name, cause })
        }
        Looked::OutOfMemory => (desk, false),
    }
}

/// Whether the file would be looked for outside of the scope of this pass. Where there is no memory
/// to ask, it counts as such.
fn is_elsewhere<P: Selection>(
    alloc: Global,
    task: &GroomTask,
    roots: &[CanonPath],
    select: &mut P,
) -> bool
    ensures own { OnFalse result (task.now.under ≡ true
        → is_in_scope (scope_of roots.now (P.takes select.old)) task.now.name.path ≡ true) }
    ensures same { P.takes select.new ≡ P.takes select.old }
{
    if !task.under {
        return false;
    }
    match is_in_scope(alloc, roots, select, &task.name.path) {
        Ok(inside) => !inside,
        Err(_) => true,
    }
}

/// Judges a row by what the hand saw at its path, and notes it where its file stands there. Says
/// whether the work goes on.
fn judge_own<'a, W: Truth, K: Keeper<W>, Rt: Wait>(
    rt: &Rt,
    alloc: Global,
    desk: Desk<'a, W, K>,
    met: &mut Vec<Miss>,
    task: GroomTask,
    seen: Seen,
) -> (Desk<'a, W, K>, bool)
    ensures later { IsLater desk.entry.seat result.0.seat }
    ensures noted { MayNoteThere task.name seen result.0.seat.seen met.old.items met.new.items }
{
    let (desk, answer) = judge_one(rt, alloc, desk, &task.name, seen);
    match answer {
        Judged::Strange => {
            let GroomTask { name, under: _ } = task;
            (desk, note(met, name, Cause::Appeared))
        }
        Judged::Kept | Judged::Dropped | Judged::Moved { .. } => (desk, true),
        Judged::Broken | Judged::LogFull | Judged::KeeperFault | Judged::OutOfMemory => {
            (desk, false)
        }
    }
}

/// Notes that the hand missed a name itself, in the pass and in its own list. Says whether the work
/// goes on.
fn miss_own<'a, W: Truth, K: Keeper<W>, Rt: Wait>(
    rt: &Rt,
    desk: Desk<'a, W, K>,
    met: &mut Vec<Miss>,
    miss: Miss,
) -> (Desk<'a, W, K>, bool)
    ensures later { IsLater desk.entry.seat result.0.seat }
    ensures noted { MayNote miss met.old.items met.new.items }
{
    let (desk, _) = desk.miss(rt, &miss.name, miss.cause);
    let Miss { name, cause } = miss;
    (desk, note(met, name, cause))
}

/// Adds a miss to the hand's own list. Says whether there was memory for it.
fn note(met: &mut Vec<Miss>, name: Name, cause: Cause) -> bool
    ensures { MayNote (record { name = name; cause = cause }) met.old.items met.new.items }
{
    met.push(Miss { name, cause }).is_ok()
}
