//! One event of an index that is held.

ghost use Rattle.std.specs.Prelude.{◌≡◌, IfSome, None};
ghost use Rattle.path_scope.specs.Scope.{scope_of};
ghost use Rattle.row_types.specs.Name.{stamp_at};
ghost use Rattle.index_state.specs.Invariant.{IndexInvariant};
ghost use Rattle.index_state.specs.Step.{IndexStep, begins, grooms, judges, misses, publishes};
ghost use Rattle.index_state.specs.Step.{takes, to_begin, to_groom, to_judge, to_miss};
ghost use Rattle.index_state.specs.Step.{to_publish, to_take};
ghost use Rattle.index_desk.specs.Holds.{LogGoesOn, RetriesAll};

use index_keeper::Keeper;
use index_state::{Begun, GroomTask, Judged, Published, State, show_index};
use path_scope::Selection;
use row_types::{CanonPath, Name, TrueRow, Truth};
use scan_queue::{Cause, Listing, Seen};
use std::alloc::{AllocError, Global};

/// Begins a pass. No name may have been spared.
pub(crate) fn begin_held<W: Truth, K: Keeper<W>, P: Selection>(
    alloc: Global,
    state: &mut State<W, K>,
    listing: Listing,
    roots: Vec<CanonPath>,
    select: &mut P,
) -> Begun
    requires { state.old.origin.sparing ≡ None }
    ensures step { IndexStep K.told K.shows state.old (begins listing (scope_of roots.items (P.takes select.old)))
        (to_begin result) state.new }
    ensures goes_on { LogGoesOn state.old state.new }
    ensures holds { IndexInvariant W.true_row K.told K.shows state.new }
    ensures same { P.takes select.new ≡ P.takes select.old }
{
    // For its clause: the index invariant, before the pass begins.
    let _rows = state.rows();
    let begun = state.begin(alloc, listing, roots, select);
    // For its clause: the index invariant.
    show_index(state);
    begun
}

/// Takes the next name that is to be read.
pub(crate) fn take_held<W: Truth, K: Keeper<W>>(state: &mut State<W, K>) -> Option<Name>
    ensures step { IndexStep K.told K.shows state.old takes (to_take result) state.new }
    ensures goes_on { LogGoesOn state.old state.new }
    ensures holds { IndexInvariant W.true_row K.told K.shows state.new }
    ensures spares { IfSome result (λ name. stamp_at state.old.origin.spared name.path ≡ None) }
{
    let name = state.take();
    // For its clause: the index invariant.
    show_index(state);
    name
}

/// Publishes a row.
pub(crate) fn publish_held<W: Truth, K: Keeper<W>>(
    alloc: Global,
    state: &mut State<W, K>,
    row: TrueRow<W>,
) -> Published
    ensures step { IndexStep K.told K.shows state.old (publishes row) (to_publish result)
        state.new }
    ensures goes_on { LogGoesOn state.old state.new }
    ensures holds { IndexInvariant W.true_row K.told K.shows state.new }
{
    let answer = state.publish(alloc, row);
    // For its clause: the index invariant.
    show_index(state);
    answer
}

/// Takes the next name that is to be looked for.
pub(crate) fn groom_held<W: Truth, K: Keeper<W>>(state: &mut State<W, K>) -> Option<GroomTask>
    ensures step { IndexStep K.told K.shows state.old grooms (to_groom result) state.new }
    ensures goes_on { LogGoesOn state.old state.new }
    ensures holds { IndexInvariant W.true_row K.told K.shows state.new }
{
    let task = state.groom_take();
    // For its clause: the index invariant.
    show_index(state);
    task
}

/// Judges a name by what was seen at its path.
pub(crate) fn judge_held<W: Truth, K: Keeper<W>>(
    alloc: Global,
    state: &mut State<W, K>,
    name: &Name,
    seen: Seen,
) -> Judged
    ensures step { IndexStep K.told K.shows state.old (judges name.now seen) (to_judge result)
        state.new }
    ensures goes_on { LogGoesOn state.old state.new }
    ensures holds { IndexInvariant W.true_row K.told K.shows state.new }
{
    let answer = state.judge(alloc, name, seen);
    // For its clause: the index invariant.
    show_index(state);
    answer
}

/// Notes that a name was missed, if it was out.
pub(crate) fn miss_held<W: Truth, K: Keeper<W>>(
    state: &mut State<W, K>,
    name: &Name,
    cause: Cause,
) -> bool
    ensures step { IndexStep K.told K.shows state.old (misses name.now cause) (to_miss result)
        state.new }
    ensures goes_on { LogGoesOn state.old state.new }
    ensures holds { IndexInvariant W.true_row K.told K.shows state.new }
{
    let was_out = state.miss(name, cause);
    // For its clause: the index invariant.
    show_index(state);
    was_out
}

/// Lets the names that are out or missed be tried again.
pub(crate) fn retry_held<W: Truth, K: Keeper<W>>(state: &mut State<W, K>) -> Result<u64, AllocError>
    ensures does { RetriesAll K.told K.shows result state.old state.new }
    ensures goes_on { LogGoesOn state.old state.new }
    ensures holds { IndexInvariant W.true_row K.told K.shows state.new }
{
    let answer = retry_all(state);
    // For its clause: the index invariant.
    show_index(state);
    answer
}

/// Makes the copies of the names that are out or missed, and lets them be tried again.
fn retry_all<W: Truth, K: Keeper<W>>(state: &mut State<W, K>) -> Result<u64, AllocError>
    ensures { RetriesAll K.told K.shows result state.old state.new }
{
    state.refill()?;
    Ok(state.retry())
}
