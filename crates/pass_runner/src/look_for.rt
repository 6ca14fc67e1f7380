//! Looking for the files of rows that are no longer listed.

ghost use Rattle.std.specs.Prelude.{◌≡◌, ℕ, Bool, List, [], false, true, IfSome};
ghost use Rattle.row_types.specs.Faults.{HasCause};
ghost use Rattle.index_state.specs.Away.{GroomsNext};
ghost use Rattle.index_state.specs.Judge.{is_name_kept};
ghost use Rattle.index_state.specs.Marks.{is_marked};
ghost use Rattle.index_state.specs.State.{pass_or_none};
ghost use Rattle.scan_queue.specs.Names.{is_in};
ghost use Rattle.pass_runner.specs.Ends.{SettlesBy};
ghost use Rattle.pass_runner.specs.Settled.{IsPassOn};
ghost use Rattle.pass_runner.specs.Turns.{JudgesLeft, LooksForFile, TakesNames, TurnsOver};
ghost use Rattle.pass_runner.specs.Turns.{after_judged};

use groomer::{Looked, look};
use index_desk::WorkEnd;
use index_keeper::Keeper;
use index_state::{GroomTask, Judged, State, show_index};
use row_types::{Name, Truth};
use scan_queue::{Cause, Seen};
use std::alloc::Global;
use tree_trait::Tree;

/// Looks for the files of the rows that are no longer listed, in path order, and drops those rows
/// whose files are gone. No look is made at a path that isn't marked.
pub(crate) fn look_for_all<W: Truth, K: Keeper<W>, T: Tree<W>>(
    alloc: Global,
    state: &mut State<W, K>,
    hand: &mut T,
) -> WorkEnd
    requires sound { state.old.broken ≡ false }
    requires open { IsPassOn state.old.pass state.old.pass }
    requires read { (pass_or_none state.old.pass).todo ≡ [] }
    ensures settles { TakesNames T.told W.version K.shows (T.shows hand.old) (T.shows hand.new)
        state.old state.new }
    ensures ends { SettlesBy state.old state.new result }
    ensures keeper { HasCause (K.shows state.old.keeper).faults (K.shows state.new.keeper).faults
        (result ≡ WorkEnd.KeeperFault) }
{
    while let Some(task) = next_task(state) {
        if let Some(end) = look_for(alloc, state, hand, &task) {
            return end;
        }
    }
    WorkEnd::Empty
}

/// Hands out the next name to be looked for, which isn't listed.
fn next_task<W: Truth, K: Keeper<W>>(state: &mut State<W, K>) -> Option<GroomTask>
    ensures step { GroomsNext state.old result state.new }
    ensures unlisted { IfSome result (λ task. is_name_kept state.new.pass task.name ≡ false) }
{
    // For its clause: what is to be looked for isn't listed.
    show_index(state);
    state.groom_take()
}

/// Looks for the file of a row that is no longer listed, and judges the row.
fn look_for<W: Truth, K: Keeper<W>, T: Tree<W>>(
    alloc: Global,
    state: &mut State<W, K>,
    hand: &mut T,
    task: &GroomTask,
) -> Option<WorkEnd>
    requires sound { state.old.broken ≡ false }
    requires unlisted { is_name_kept state.old.pass task.now.name ≡ false }
    requires out { is_in (pass_or_none state.old.pass).out task.now.name ≡ true }
    requires under { task.now.under ≡ is_marked state.old.pass task.now.name.path }
    ensures { TurnsOver T.told W.version K.shows [] task.now.name (T.shows hand.old)
        (T.shows hand.new) state.old state.new result }
{
    // For its clause: the index invariant, before a name is judged or missed.
    show_index(state);
    match look_under(alloc, hand, task) {
        Looked::Saw(seen) => judge_name(alloc, state, &task.name, seen),
        Looked::Failed => {
            state.miss(&task.name, Cause::ReadFault);
            None
        }
        Looked::OutOfMemory => Some(WorkEnd::OutOfMemory),
    }
}

/// Looks for the file of a row, if its path is marked.
#[tactic(auto, using(crate::proofs::Turning::looks_as))]
fn look_under<W: Truth, T: Tree<W>>(alloc: Global, hand: &mut T, task: &GroomTask) -> Looked
    ensures { (looks : List ℕ → Bool) → task.now.under ≡ looks task.now.name.path
        → LooksForFile T.told W.version looks task.now.name (T.shows hand.old) (T.shows hand.new) result }
{
    look(alloc, hand, task)
}

/// Judges a name.
fn judge_name<W: Truth, K: Keeper<W>>(
    alloc: Global,
    state: &mut State<W, K>,
    name: &Name,
    seen: Seen,
) -> Option<WorkEnd>
    ensures { JudgesLeft K.told K.shows name.now seen state.old state.new result }
{
    let answer = state.judge(alloc, name, seen);
    after_judged(answer)
}

/// How the settling goes on after a judgement.
fn after_judged(answer: Judged) -> Option<WorkEnd>
    ensures { result ≡ after_judged answer }
{
    match answer {
        Judged::Dropped | Judged::Moved { .. } | Judged::Strange | Judged::Kept => None,
        Judged::LogFull => Some(WorkEnd::LogFull),
        Judged::KeeperFault => Some(WorkEnd::KeeperFault),
        Judged::OutOfMemory => Some(WorkEnd::OutOfMemory),
        Judged::Broken => Some(WorkEnd::Broken),
    }
}
