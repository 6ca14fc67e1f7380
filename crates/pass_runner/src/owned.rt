//! A pass over an index that is owned.

ghost use Rattle.std.specs.Prelude.{◌≡◌, ◌<◌, ◌≤◌, List, drop, false, length, vec_len, IfOk, IsTrue};
ghost use Rattle.path_scope.specs.Scope.{scope_of};
ghost use Rattle.row_types.specs.Faults.{HasCause};
ghost use Rattle.row_types.specs.Name.{NameFacts};
ghost use Rattle.row_types.specs.Rules.{rules};
ghost use Rattle.index_rows.specs.Rows.{row_names};
ghost use Rattle.tree_trait.specs.Shown.{HandsOn};
ghost use Rattle.pass_runner.specs.Owned.{EndsPass, HandsGo, Helps, LoadsBeside, is_hand_fault, is_unwalked};
ghost use Rattle.pass_runner.specs.Passes.{EndsBegun, EndsOf, EndsOver, IsFresh, IsHandedOut};

use crate::beside::scan_beside;
use crate::pass_end::PassEnd;
use crate::settling::settle_pass;
use crate::summary::summary_of;
use index_desk::{Ground, WorkEnd};
use index_keeper::Keeper;
use index_state::{Begun, Plan, State, show_index};
use path_scope::Selection;
use row_types::{CanonPath, Truth};
use scan_queue::{Listing, Miss};
use std::alloc::{AllocError, Global};
use std::sync::Wait;
use std::thread::Threads;
use tree_trait::{Gate, Reader, Tree};
use tree_walk::{Walk, walk};

/// Makes one pass over the selected files under the roots: walks them, begins a pass over what was
/// listed, has the other hands help with it in threads of their own, and settles what is left. The
/// hands come back in their order. The first one walks and settles, the second one looks for the
/// files of rows that are no longer listed, and those from the third on read listed files that have
/// no row.
pub fn scan_state<
    W: Truth + Send + Sync,
    K: Keeper<W>,
    T: Tree<W>,
    P: Selection,
    R: Reader<W> + Sync,
    G: Gate,
    Rt: Threads + Wait + Sync,
>(
    rt: &Rt,
    alloc: Global,
    state: State<W, K>,
    hands: Vec<T>,
    roots: &[CanonPath],
    select: &mut P,
    reader: &R,
    gate: &G,
) -> (State<W, K>, Vec<T>, PassEnd)
    requires hand { 0 < vec_len hands }
    requires sound { state.broken ≡ false }
    ensures pass { (listing : List NameFacts) × HandsGo
        (λ hand later. EndsPass (rules W.version W.true_row W.told) T.told K.told K.shows
        (vec_len hands) (scope_of roots.now (P.takes select.old)) listing (T.shows hand) (T.shows later) state result.0 result.2)
        (λ hand later. Helps T.told W.version listing (row_names state.rows) (T.shows hand)
        (T.shows later)) hands.items result.1.items }
    ensures hands { HandsGo
        (λ hand later. HandsOn T.told W.version (T.shows hand) (T.shows later)
        (0 < length roots.now) (IsTrue (is_hand_fault result.2)))
        (λ hand later. HandsOn T.told W.version (T.shows hand) (T.shows later) ⊥ ⊥)
        hands.items result.1.items }
    ensures loads { LoadsBeside T.shows hands.items result.1.items result.2 }
    ensures idle { IsTrue (is_unwalked result.2) → drop 1 result.1.items ≡ drop 1 hands.items }
    ensures keeper { result.2 ≡ PassEnd.KeeperFault → 0 < (K.shows result.0.keeper).faults }
    ensures alone { vec_len hands ≤ 1 → HasCause (K.shows state.keeper).faults
        (K.shows result.0.keeper).faults (result.2 ≡ PassEnd.KeeperFault) }
    ensures same { P.takes select.new ≡ P.takes select.old }
{
    let mut hands = hands;
    match walk(alloc, &mut hands[0], roots, select) {
        Ok(
            Walk {
                listing,
                skipped: _,
            },
        ) => {
            let ground = Ground {
                rt,
                alloc,
                reader,
                gate,
            };
            scan_listed(ground, state, hands, listing, roots, select)
        }
        Err(fault) => (state, hands, PassEnd::Walk(fault)),
    }
}

/// Makes a pass over a listing.
fn scan_listed<
    W: Truth + Send + Sync,
    K: Keeper<W>,
    T: Tree<W>,
    P: Selection,
    R: Reader<W> + Sync,
    G: Gate,
    Rt: Threads + Wait + Sync,
>(
    ground: Ground<'_, R, G, Rt>,
    state: State<W, K>,
    hands: Vec<T>,
    listing: Listing,
    roots: &[CanonPath],
    select: &mut P,
) -> (State<W, K>, Vec<T>, PassEnd)
    requires hand { 0 < vec_len hands }
    requires sound { state.broken ≡ false }
    ensures over { HandsGo
        (λ hand later. EndsOver (rules W.version W.true_row W.told) T.told K.told K.shows T.shows
        (vec_len hands) listing (scope_of roots.now (P.takes select.old)) hand later state result.0 result.2)
        (λ hand later. Helps T.told W.version listing (row_names state.rows) (T.shows hand)
        (T.shows later)) hands.items result.1.items }
    ensures hands { HandsGo
        (λ hand later. HandsOn T.told W.version (T.shows hand) (T.shows later)
        ⊥ (IsTrue (is_hand_fault result.2)))
        (λ hand later. HandsOn T.told W.version (T.shows hand) (T.shows later) ⊥ ⊥)
        hands.items result.1.items }
    ensures loads { LoadsBeside T.shows hands.items result.1.items result.2 }
    ensures keeper { result.2 ≡ PassEnd.KeeperFault → 0 < (K.shows result.0.keeper).faults }
    ensures alone { vec_len hands ≤ 1 → HasCause (K.shows state.keeper).faults
        (K.shows result.0.keeper).faults (result.2 ≡ PassEnd.KeeperFault) }
    ensures same { P.takes select.new ≡ P.takes select.old }
{
    if hands.len() > 1 {
        return scan_beside(ground, state, hands, listing, roots, select);
    }
    let mut state = state;
    let mut hands = hands;
    let Ground { alloc, reader, .. } = ground;
    let end = run_over(
        alloc,
        &mut state,
        &mut hands[0],
        listing,
        roots,
        select,
        reader,
    );
    (state, hands, end)
}

/// Begins a pass over a listing, and settles it.
fn run_over<W: Truth, K: Keeper<W>, T: Tree<W>, P: Selection, R: Reader<W>>(
    alloc: Global,
    state: &mut State<W, K>,
    hand: &mut T,
    listing: Listing,
    roots: &[CanonPath],
    select: &mut P,
    reader: &R,
) -> PassEnd
    requires sound { state.old.broken ≡ false }
    ensures over { EndsOver (rules W.version W.true_row W.told) T.told K.told K.shows T.shows
        1 listing (scope_of roots.now (P.takes select.old)) hand.old hand.new state.old state.new result }
    ensures hand { HandsOn T.told W.version (T.shows hand.old) (T.shows hand.new)
        ⊥ (IsTrue (is_hand_fault result)) }
    ensures keeper { HasCause (K.shows state.old.keeper).faults (K.shows state.new.keeper).faults
        (result ≡ PassEnd.KeeperFault) }
    ensures same { P.takes select.new ≡ P.takes select.old }
{
    let Ok(own) = copies(alloc, roots) else {
        return PassEnd::OutOfMemory;
    };
    match state.begin(alloc, listing, own, select) {
        Begun::Begun(plan) => settle_begun(alloc, state, hand, &plan, reader),
        Begun::OutOfMemory => PassEnd::OutOfMemory,
        Begun::Broken => unreachable!(),
    }
}

/// Settles the pass that was begun, and says how it ended. The numbers of a whole pass are those
/// of the plan.
pub(crate) fn settle_begun<W: Truth, K: Keeper<W>, T: Tree<W>, R: Reader<W>>(
    alloc: Global,
    state: &mut State<W, K>,
    hand: &mut T,
    plan: &Plan,
    reader: &R,
) -> PassEnd
    requires fresh { IsFresh state.old }
    ensures ends { EndsBegun (rules W.version W.true_row W.told) T.told K.told K.shows plan.now
        (T.shows hand.old) (T.shows hand.new) state.old state.new result }
    ensures hand { HandsOn T.told W.version (T.shows hand.old) (T.shows hand.new)
        ⊥ (IsTrue (is_hand_fault result)) }
    ensures keeper { HasCause (K.shows state.old.keeper).faults (K.shows state.new.keeper).faults
        (result ≡ PassEnd.KeeperFault) }
{
    match settle_pass(alloc, state, hand, reader) {
        WorkEnd::Empty => end_of(alloc, state, plan),
        WorkEnd::KeeperFault => PassEnd::KeeperFault,
        WorkEnd::LogFull => PassEnd::LogFull,
        WorkEnd::OutOfMemory => PassEnd::OutOfMemory,
        WorkEnd::Broken => unreachable!(),
    }
}

/// The end of a pass of which no name is left to be handed out.
fn end_of<W: Truth, K: Keeper<W>>(alloc: Global, state: &State<W, K>, plan: &Plan) -> PassEnd
    requires handed { IsHandedOut state.now }
    ensures { EndsOf (rules W.version W.true_row W.told) K.told K.shows plan.now state.now result }
{
    // For its clause: a path has one row at most.
    show_index(state);
    match state.first_miss() {
        Some(miss) => match copy_miss(alloc, miss) {
            Ok(miss) => PassEnd::Missed(miss),
            Err(_) => PassEnd::OutOfMemory,
        },
        None => {
            // For its clause: where no name is left, the rows are those of the listing.
            let _standing = state.standing();
            PassEnd::Whole(summary_of(state, plan))
        }
    }
}

/// A copy of a miss.
pub(crate) fn copy_miss(alloc: Global, miss: &Miss) -> Result<Miss, AllocError>
    ensures { IfOk result (λ copy. copy ≡ miss.now) }
{
    Ok(Miss {
        name: miss.name.copy(alloc)?,
        cause: miss.cause,
    })
}

/// Copies of paths, in order.
pub(crate) fn copies(alloc: Global, paths: &[CanonPath]) -> Result<Vec<CanonPath>, AllocError>
    ensures { IfOk result (λ copies. copies.items ≡ paths.now) }
{
    let mut copies = Vec::with_capacity(alloc, paths.len())?;
    for path in paths {
        copies.push(path.copy(alloc)?)?;
    }
    Ok(copies)
}
