//! A pass with which other hands help.

ghost use Rattle.std.specs.Prelude.{◌≡◌, ◌⊎◌, ℕ, ◌+◌, ◌<◌, ◌≤◌, [], false, vec_capacity, vec_len};
ghost use Rattle.std.specs.Prelude.{IfOk, IsTrue};
ghost use Rattle.std.specs.List.{AllZip, filter};
ghost use Rattle.path_scope.specs.Scope.{scope_of};
ghost use Rattle.row_types.specs.Rules.{rules};
ghost use Rattle.index_rows.specs.Rows.{row_names};
ghost use Rattle.tree_trait.specs.Shown.{HandsOn};
ghost use Rattle.scan_queue.specs.Names.{is_in};
ghost use Rattle.pass_runner.specs.Beside.{EndsAgain, IsWeighed, is_whole};
ghost use Rattle.pass_runner.specs.Helped.{HelpedFrom};
ghost use Rattle.pass_runner.specs.Owned.{HandsGo, Helps, LoadsBeside, is_hand_fault};
ghost use Rattle.pass_runner.specs.Passes.{EndsOver};

use crate::helper::Helper;
use crate::owned::{copies, settle_begun};
use crate::parts::{Parts, apart, together};
use crate::pass_end::PassEnd;
use crate::shared::run_shared;
use index_desk::Ground;
use index_keeper::Keeper;
use index_state::{Begun, Plan, State, show_index};
use lock_crew::{Slot, rooms};
use path_scope::Selection;
use row_types::{CanonPath, Truth};
use scan_queue::Listing;
use std::alloc::{AllocError, Global};
use std::sync::Wait;
use std::thread::Threads;
use tree_trait::{Gate, Reader, Tree};

/// What a pass with other hands needs of memory before it begins: the roots twice and the listing
/// again, since a pass is begun twice, and the rooms of the slots.
#[derive(Drop)]
pub(crate) struct Needs<W: Truth, K: Keeper<W>, T: Tree<W>> {
    pub(crate) roots: Vec<CanonPath>,
    pub(crate) listing_again: Listing,
    pub(crate) roots_again: Vec<CanonPath>,
    pub(crate) slots: Vec<Option<Slot<State<W, K>, Helper<T>>>>,
    pub(crate) back: Vec<Helper<T>>,
}

/// Makes a pass over a listing with two hands or more.
pub(crate) fn scan_beside<
    W: Truth + Send + Sync,
    K: Keeper<W>,
    T: Tree<W>,
    P: Selection,
    R: Reader<W> + Sync,
    G: Gate,
    Rt: Threads + Wait + Sync,
>(
    ground: Ground<'_, R, G, Rt>,
    state: State<W, K>,
    hands: Vec<T>,
    listing: Listing,
    roots: &[CanonPath],
    select: &mut P,
) -> (State<W, K>, Vec<T>, PassEnd)
    requires hands { 1 < vec_len hands }
    requires sound { state.broken ≡ false }
    ensures over { HandsGo
        (λ hand later. EndsOver (rules W.version W.true_row W.told) T.told K.told K.shows T.shows
        (vec_len hands) listing (scope_of roots.now (P.takes select.old)) hand later state result.0 result.2)
        (λ hand later. Helps T.told W.version listing (row_names state.rows) (T.shows hand)
        (T.shows later)) hands.items result.1.items }
    ensures hands { HandsGo
        (λ hand later. HandsOn T.told W.version (T.shows hand) (T.shows later)
        ⊥ (IsTrue (is_hand_fault result.2)))
        (λ hand later. HandsOn T.told W.version (T.shows hand) (T.shows later) ⊥ ⊥)
        hands.items result.1.items }
    ensures loads { LoadsBeside T.shows hands.items result.1.items result.2 }
    ensures keeper { result.2 ≡ PassEnd.KeeperFault → 0 < (K.shows result.0.keeper).faults }
    ensures same { P.takes select.new ≡ P.takes select.old }
{
    let many = hands.len() > 2;
    let Ok(needs) = needs_of(ground.alloc, &listing, roots, hands.len()) else {
        return (state, hands, PassEnd::OutOfMemory);
    };
    match apart(ground.alloc, hands) {
        Ok(
            Parts {
                first,
                helpers,
                room,
            },
        ) => {
            let (state, first, helpers, end) = scan_parts(
                ground, state, first, helpers, listing, needs, select,
            );
            let (hands, asked) = together(first, helpers, room);
            (state, hands, weighed(end, asked, many))
        }
        Err(hands) => (state, hands, PassEnd::OutOfMemory),
    }
}

/// What a pass over a listing with so many hands needs of memory.
pub(crate) fn needs_of<W: Truth, K: Keeper<W>, T: Tree<W>>(
    alloc: Global,
    listing: &Listing,
    roots: &[CanonPath],
    hands: usize,
) -> Result<Needs<W, K, T>, AllocError>
    ensures roots { IfOk result (λ needs. (needs.roots.items ≡ roots.now)
        × (needs.roots_again.items ≡ roots.now) × (needs.listing_again ≡ listing.now)) }
    ensures rooms { IfOk result (λ needs. (needs.slots.items ≡ []) × (needs.back.items ≡ [])
        × (hands ≤ vec_capacity needs.slots) × (hands ≤ vec_capacity needs.back)) }
{
    let (slots, back) = rooms(alloc, hands)?;
    Ok(Needs {
        roots: copies(alloc, roots)?,
        listing_again: listing.copy(alloc)?,
        roots_again: copies(alloc, roots)?,
        slots,
        back,
    })
}

/// Begins a pass, has the other hands help with it, and settles what is left.
fn scan_parts<
    W: Truth + Send + Sync,
    K: Keeper<W>,
    T: Tree<W>,
    P: Selection,
    R: Reader<W> + Sync,
    G: Gate,
    Rt: Threads + Wait + Sync,
>(
    ground: Ground<'_, R, G, Rt>,
    state: State<W, K>,
    first: T,
    helpers: Vec<Helper<T>>,
    listing: Listing,
    needs: Needs<W, K, T>,
    select: &mut P,
) -> (State<W, K>, T, Vec<Helper<T>>, PassEnd)
    requires sound { state.broken ≡ false }
    requires again { (needs.roots_again.items ≡ needs.roots.items)
        × (needs.listing_again ≡ listing) }
    requires none { (needs.slots.items ≡ []) × (needs.back.items ≡ []) }
    requires room { (vec_len helpers ≤ vec_capacity needs.slots)
        × (vec_len helpers ≤ vec_capacity needs.back) }
    ensures over { (hands : ℕ) → 1 < hands
        → EndsOver (rules W.version W.true_row W.told) T.told K.told K.shows T.shows
        hands listing (scope_of needs.roots.items (P.takes select.old)) first result.1 state result.0 result.3 }
    ensures helped { AllZip (HelpedFrom T.shows T.told W.version
        (filter (is_in (row_names state.rows)) listing)) helpers.items result.2.items
        ⊎ ((result.2.items ≡ helpers.items) × (is_whole result.3 ≡ false)) }
    ensures hand { HandsOn T.told W.version (T.shows first) (T.shows result.1)
        ⊥ (IsTrue (is_hand_fault result.3)) }
    ensures count { vec_len result.2 ≡ vec_len helpers }
    ensures keeper { result.3 ≡ PassEnd.KeeperFault → 0 < (K.shows result.0.keeper).faults }
    ensures same { P.takes select.new ≡ P.takes select.old }
{
    let Needs {
        roots,
        listing_again,
        roots_again,
        slots,
        back,
    } = needs;
    let mut state = state;
    match state.begin(ground.alloc, listing, roots, select) {
        Begun::Begun(plan) => {
            state.spare();
            // For its clause: the log leaves the names of the rows.
            let _rows = state.rows();
            match run_shared(ground, state, helpers, (slots, back)) {
                Ok((mut state, helpers)) => {
                    // For its clause: the rows of skipped names stand, and the log is bounded.
                    show_index(&state);
                    let mut first = first;
                    let end = settle_again(
                        ground.alloc,
                        &mut state,
                        &mut first,
                        listing_again,
                        roots_again,
                        select,
                        &plan,
                        ground.reader,
                    );
                    (state, first, helpers, end)
                }
                Err((state, helpers)) => (state, first, helpers, PassEnd::OutOfMemory),
            }
        }
        Begun::OutOfMemory => (state, first, helpers, PassEnd::OutOfMemory),
        Begun::Broken => unreachable!(),
    }
}

/// Begins a pass over the listing again, and settles it. The last call is made for its clause: the
/// keeper of an index that is broken has counted a fault.
fn settle_again<W: Truth, K: Keeper<W>, T: Tree<W>, P: Selection, R: Reader<W>>(
    alloc: Global,
    state: &mut State<W, K>,
    hand: &mut T,
    listing: Listing,
    roots: Vec<CanonPath>,
    select: &mut P,
    plan: &Plan,
    reader: &R,
) -> PassEnd
    ensures again { EndsAgain (rules W.version W.true_row W.told) T.told K.told K.shows T.shows
        plan.now listing (scope_of roots.items (P.takes select.old)) hand.old hand.new state.old state.new result }
    ensures hand { HandsOn T.told W.version (T.shows hand.old) (T.shows hand.new)
        ⊥ (IsTrue (is_hand_fault result)) }
    ensures keeper { result ≡ PassEnd.KeeperFault → 0 < (K.shows state.new.keeper).faults }
    ensures same { P.takes select.new ≡ P.takes select.old }
{
    let end = begin_again(alloc, state, hand, listing, roots, select, plan, reader);
    show_index(state);
    end
}

/// Begins a pass over the listing again, and settles it.
fn begin_again<W: Truth, K: Keeper<W>, T: Tree<W>, P: Selection, R: Reader<W>>(
    alloc: Global,
    state: &mut State<W, K>,
    hand: &mut T,
    listing: Listing,
    roots: Vec<CanonPath>,
    select: &mut P,
    plan: &Plan,
    reader: &R,
) -> PassEnd
    ensures again { EndsAgain (rules W.version W.true_row W.told) T.told K.told K.shows T.shows
        plan.now listing (scope_of roots.items (P.takes select.old)) hand.old hand.new state.old state.new result }
    ensures hand { HandsOn T.told W.version (T.shows hand.old) (T.shows hand.new)
        ⊥ (IsTrue (is_hand_fault result)) }
    ensures same { P.takes select.new ≡ P.takes select.old }
{
    match state.begin(alloc, listing, roots, select) {
        Begun::Begun(_) => settle_begun(alloc, state, hand, plan, reader),
        Begun::Broken => PassEnd::KeeperFault,
        Begun::OutOfMemory => PassEnd::OutOfMemory,
    }
}

/// The end of a pass with other hands. Where it read files, the hands that read must have counted as
/// many openings; where they haven't, memory was refused to one of them.
fn weighed(end: PassEnd, asked: u64, many: bool) -> PassEnd
    ensures { IsWeighed end asked many result }
{
    match end {
        PassEnd::Whole(summary) => {
            if many && !has_loaded(asked, summary.added, summary.replaced) {
                PassEnd::OutOfMemory
            } else {
                PassEnd::Whole(summary)
            }
        }
        end => end,
    }
}

/// Whether so many openings are at least as many as the files that were added and replaced.
fn has_loaded(asked: u64, added: u64, replaced: u64) -> bool
    ensures { IsTrue result → added + replaced ≤ asked }
{
    added <= asked && replaced <= asked - added
}
