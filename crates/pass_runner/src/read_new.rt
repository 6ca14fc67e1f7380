//! Reading the listed files that have no row.

ghost use Rattle.std.specs.Prelude.{◌≡◌, ◌∷◌, [], false, true};
ghost use Rattle.row_types.specs.Faults.{HasCause};
ghost use Rattle.index_state.specs.State.{pass_or_none};
ghost use Rattle.index_state.specs.Step.{IsAwaited};
ghost use Rattle.scan_queue.specs.Names.{is_in};
ghost use Rattle.pass_runner.specs.Ends.{ReadsBy};
ghost use Rattle.pass_runner.specs.Settled.{IsPassOn};
ghost use Rattle.pass_runner.specs.Turns.{PublishesNew, TakesNames, TurnsOver};

use index_desk::WorkEnd;
use index_keeper::Keeper;
use index_state::{Published, State, show_index};
use row_types::{Name, TrueRow, Truth};
use scan_queue::Cause;
use scan_worker::{NameRead, read_name};
use std::alloc::Global;
use tree_trait::{Reader, Tree};

/// Loads the listed files that have no row, and publishes what they are, in path order. A file that
/// isn't as it was listed is missed.
pub(crate) fn read_new<W: Truth, K: Keeper<W>, T: Tree<W>, R: Reader<W>>(
    alloc: Global,
    state: &mut State<W, K>,
    hand: &mut T,
    reader: &R,
) -> WorkEnd
    requires sound { state.old.broken ≡ false }
    requires open { IsPassOn state.old.pass state.old.pass }
    ensures settles { TakesNames T.told W.version K.shows (T.shows hand.old) (T.shows hand.new)
        state.old state.new }
    ensures ends { ReadsBy state.old state.new result }
    ensures keeper { HasCause (K.shows state.old.keeper).faults (K.shows state.new.keeper).faults
        (result ≡ WorkEnd.KeeperFault) }
{
    while let Some(name) = state.take() {
        if let Some(end) = read_one(alloc, state, hand, reader, &name) {
            return end;
        }
    }
    WorkEnd::Empty
}

/// Loads a listed file that has no row, and publishes what it is, or misses it.
fn read_one<W: Truth, K: Keeper<W>, T: Tree<W>, R: Reader<W>>(
    alloc: Global,
    state: &mut State<W, K>,
    hand: &mut T,
    reader: &R,
    name: &Name,
) -> Option<WorkEnd>
    requires sound { state.old.broken ≡ false }
    requires awaited { IsAwaited name.now state.old }
    requires out { is_in (pass_or_none state.old.pass).out name.now ≡ true }
    ensures { TurnsOver T.told W.version K.shows (name.now ∷ []) name.now (T.shows hand.old)
        (T.shows hand.new) state.old state.new result }
{
    // For its clause: the index invariant, before a row is put or a name is missed.
    show_index(state);
    match read_name(alloc, hand, reader, name) {
        NameRead::Row(row) => publish_row(alloc, state, row),
        NameRead::Altered(seen) => {
            state.miss(name, Cause::Altered { seen });
            None
        }
        NameRead::Failed => {
            state.miss(name, Cause::ReadFault);
            None
        }
        NameRead::OutOfMemory => Some(WorkEnd::OutOfMemory),
    }
}

/// Publishes the row of a listed name that has none.
fn publish_row<W: Truth, K: Keeper<W>>(
    alloc: Global,
    state: &mut State<W, K>,
    row: TrueRow<W>,
) -> Option<WorkEnd>
    requires sound { state.old.broken ≡ false }
    requires awaited { IsAwaited row.name state.old }
    ensures { PublishesNew K.told K.shows row state.old state.new result }
{
    match state.publish(alloc, row) {
        Published::Added | Published::Replaced => None,
        Published::LogFull => Some(WorkEnd::LogFull),
        Published::OutOfMemory => Some(WorkEnd::OutOfMemory),
        Published::KeeperFault => Some(WorkEnd::KeeperFault),
        Published::Already | Published::NotListed { .. } | Published::Broken => unreachable!(),
    }
}
