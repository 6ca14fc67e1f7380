//! Settling a pass with one hand.

ghost use Rattle.std.specs.Prelude.{◌≡◌, false};
ghost use Rattle.row_types.specs.Faults.{HasCause};
ghost use Rattle.pass_runner.specs.Ends.{SettlesBy};
ghost use Rattle.pass_runner.specs.Settled.{IsPassOn, Settles};

use crate::look_for::look_for_all;
use crate::read_new::read_new;
use index_desk::WorkEnd;
use index_keeper::Keeper;
use index_state::{State, show_index};
use row_types::Truth;
use std::alloc::Global;
use tree_trait::{Reader, Tree};

/// Settles what is left of a pass with one hand: the listed files without a row are read, then the
/// rows that are no longer listed are judged by looks at their paths.
pub fn settle<W: Truth, K: Keeper<W>, T: Tree<W>, R: Reader<W>>(
    alloc: Global,
    state: State<W, K>,
    hand: T,
    reader: &R,
) -> (State<W, K>, T, WorkEnd)
    requires sound { state.broken ≡ false }
    requires open { IsPassOn state.pass state.pass }
    ensures settles { Settles T.told W.version K.shows (T.shows hand) (T.shows result.1)
        state result.0 }
    ensures ends { SettlesBy state result.0 result.2 }
    ensures keeper { HasCause (K.shows state.keeper).faults (K.shows result.0.keeper).faults
        (result.2 ≡ WorkEnd.KeeperFault) }
{
    let mut state = state;
    let mut hand = hand;
    let end = settle_pass(alloc, &mut state, &mut hand, reader);
    (state, hand, end)
}

/// Settles what is left of a pass.
pub(crate) fn settle_pass<W: Truth, K: Keeper<W>, T: Tree<W>, R: Reader<W>>(
    alloc: Global,
    state: &mut State<W, K>,
    hand: &mut T,
    reader: &R,
) -> WorkEnd
    requires sound { state.old.broken ≡ false }
    requires open { IsPassOn state.old.pass state.old.pass }
    ensures settles { Settles T.told W.version K.shows (T.shows hand.old) (T.shows hand.new)
        state.old state.new }
    ensures ends { SettlesBy state.old state.new result }
    ensures keeper { HasCause (K.shows state.old.keeper).faults (K.shows state.new.keeper).faults
        (result ≡ WorkEnd.KeeperFault) }
{
    // For its clause: what is to be read has each path once.
    show_index(state);
    match read_new(alloc, state, hand, reader) {
        WorkEnd::Empty => look_for_all(alloc, state, hand),
        end => end,
    }
}
