//! How a pass over a shared index ends, by its last hold.

ghost use Rattle.std.specs.Prelude.{◌≡◌, Contains, IfSome, IsSome, IsTrue, Some, None};
ghost use Rattle.path_scope.specs.Scope.{scope_of};
ghost use Rattle.index_desk.specs.Holds.{LogGoesOn as GoesOn};
ghost use Rattle.index_lock.specs.Tokens.{IsLater};
ghost use Rattle.index_rows.specs.Rows.{row_names};
ghost use Rattle.index_state.specs.Plan.{has_stamp};
ghost use Rattle.row_types.specs.Name.{stamp_at};
ghost use Rattle.row_types.specs.Rules.{rules};
ghost use Rattle.pass_runner.specs.Leading.{BeginsLast, EndsOpen, IsOpenBy, LastShows, is_none_left};
ghost use Rattle.pass_runner.specs.SharedPass.{IsOfPass, IsStray};

use crate::owned::copy_miss;
use crate::pass_end::PassEnd;
use crate::scope::is_in_scope;
use crate::summary::summary_of;
use index_desk::Desk;
use index_keeper::Keeper;
use index_rows::LOG_LIMIT;
use index_state::{Begun, Plan, Standing, State, show_index};
use path_scope::Selection;
use row_types::{CanonPath, Name, Stamp, Truth};
use scan_queue::{Cause, Listing, Miss};
use std::alloc::Global;
use std::sync::Wait;

/// Decides how a pass ended, in one hold: by a plan over a copy of its listing, and then by the
/// first name that was missed, if it is still open and the hand that leads missed it itself.
pub(crate) fn end_one<'a, W: Truth, K: Keeper<W>, P: Selection, Rt: Wait>(
    rt: &Rt,
    alloc: Global,
    desk: Desk<'a, W, K>,
    listing: Listing,
    roots: Vec<CanonPath>,
    select: &mut P,
    plan: &Plan,
    met: &[Miss],
) -> (Desk<'a, W, K>, PassEnd)
    requires { desk.seat.origin.sparing ≡ None }
    ensures later { IsLater desk.entry.seat result.0.seat }
    ensures shows { LastShows (rules W.version W.true_row W.told) listing
        (scope_of roots.items (P.takes select.old)) plan.now met.now result.0.seat.seen result.1 }
    ensures same { P.takes select.new ≡ P.takes select.old }
{
    let Desk { lock, seat } = desk;
    // Not by a closure: nothing would be known of the selection once it was called.
    let mut held = lock.enter(rt, seat);
    let end = end_held(alloc, held.value_mut(), listing, roots, select, plan, met);
    let seat = lock.leave(held);
    (Desk { lock, seat }, end)
}

/// Decides how a pass ended in an index that is held and of which no name was spared.
fn end_held<W: Truth, K: Keeper<W>, P: Selection>(
    alloc: Global,
    state: &mut State<W, K>,
    listing: Listing,
    roots: Vec<CanonPath>,
    select: &mut P,
    plan: &Plan,
    met: &[Miss],
) -> PassEnd
    requires spared { state.old.origin.sparing ≡ None }
    ensures goes_on { GoesOn state.old state.new }
    ensures shows { LastShows (rules W.version W.true_row W.told) listing
        (scope_of roots.items (P.takes select.old)) plan.now met.now state.new.log result }
    ensures same { P.takes select.new ≡ P.takes select.old }
{
    // For its clause: where no name was spared, none is skipped.
    let _rows = state.rows();
    let own = own_miss(alloc, state, met, &listing, roots.as_slice(), select);
    let end = begin_last(alloc, state, listing, roots, select, plan, own);
    // For its clause: the log leaves the names of the rows, and shows whether the index is broken.
    show_index(state);
    end
}

/// Begins a pass again, and decides how it ended.
fn begin_last<W: Truth, K: Keeper<W>, P: Selection>(
    alloc: Global,
    state: &mut State<W, K>,
    listing: Listing,
    roots: Vec<CanonPath>,
    select: &mut P,
    plan: &Plan,
    own: Option<Miss>,
) -> PassEnd
    ensures begins { BeginsLast (rules W.version W.true_row W.told) K.told K.shows listing
        (scope_of roots.items (P.takes select.old)) plan.now own state.old state.new result }
    ensures same { P.takes select.new ≡ P.takes select.old }
{
    match state.begin(alloc, listing, roots, select) {
        Begun::Begun(_) => end_begun(state, plan, own),
        Begun::Broken => PassEnd::KeeperFault,
        Begun::OutOfMemory => PassEnd::OutOfMemory,
    }
}

/// Decides how a pass ended by what is to be done of it once it was begun again.
fn end_begun<W: Truth, K: Keeper<W>>(state: &State<W, K>, plan: &Plan, own: Option<Miss>) -> PassEnd
    requires open { IsSome state.now.pass }
    ensures { EndsOpen (rules W.version W.true_row W.told) K.told K.shows plan.now own state.now
        result }
{
    let standing = state.standing();
    if is_done(&standing) {
        return PassEnd::Whole(summary_of(state, plan));
    }
    if standing.log == LOG_LIMIT as u64 {
        return PassEnd::LogFull;
    }
    match own {
        Some(miss) => PassEnd::Missed(miss),
        None => PassEnd::OutOfMemory,
    }
}

/// Whether no name is left.
fn is_done(standing: &Standing) -> bool
    ensures { result ≡ is_none_left standing.now }
{
    standing.todo == 0 && standing.out == 0 && standing.groom == 0 && standing.missed == 0
}

/// The first name that was missed, if it is one of the pass and still open, the hand that leads
/// missed it itself, and memory was there for it.
fn own_miss<W: Truth, K: Keeper<W>, P: Selection>(
    alloc: Global,
    state: &State<W, K>,
    met: &[Miss],
    listing: &Listing,
    roots: &[CanonPath],
    select: &mut P,
) -> Option<Miss>
    ensures among { IfSome result (λ miss. Contains met.now miss) }
    ensures of_pass { IfSome result (λ miss. IsOfPass listing.now
        (scope_of roots.now (P.takes select.old)) miss.name miss.cause) }
    ensures stands { IfSome result (λ miss. IsOpenBy listing.now (row_names state.now.rows)
        miss.name) }
    ensures same { P.takes select.new ≡ P.takes select.old }
{
    let Some(first) = state.first_miss() else {
        return None;
    };
    for miss in met {
        if miss.name == first.name && miss.cause == first.cause {
            if !is_of_pass(alloc, miss, listing, roots, select) {
                return None;
            }
            if !is_still_open(state, &miss.name, listing) {
                return None;
            }
            return copy_miss(alloc, miss).ok();
        }
    }
    None
}

/// Whether the name is listed and has no row, or has a row and isn't listed.
fn is_still_open<W: Truth, K: Keeper<W>>(
    state: &State<W, K>,
    name: &Name,
    listing: &Listing,
) -> bool
    ensures { IsTrue result → IsOpenBy listing.now (row_names state.now.rows) name.now }
{
    let is_listed = is_stamp(listing.stamp_of(&name.path), name.stamp);
    let has_row = is_stamp(row_stamp(state, &name.path), name.stamp);
    if is_listed { !has_row } else { has_row }
}

/// The stamp of the path's row.
fn row_stamp<W: Truth, K: Keeper<W>>(state: &State<W, K>, path: &CanonPath) -> Option<Stamp>
    ensures { result ≡ stamp_at (row_names state.now.rows) path.now }
{
    match state.row_at(path) {
        Some(row) => Some(row.name.stamp),
        None => None,
    }
}

/// Whether there is a stamp, and it is this one.
fn is_stamp(found: Option<Stamp>, stamp: Stamp) -> bool
    ensures { result ≡ has_stamp found stamp }
{
    match found {
        Some(other) => stamp == other,
        None => false,
    }
}

/// Whether a name that was missed by another file is listed with its stamp, and one that appeared
/// is in the scope of the pass and isn't; and there was memory to ask for that.
fn is_of_pass<P: Selection>(
    alloc: Global,
    miss: &Miss,
    listing: &Listing,
    roots: &[CanonPath],
    select: &mut P,
) -> bool
    ensures of_pass { IsTrue result → IsOfPass listing.now
        (scope_of roots.now (P.takes select.old)) miss.now.name miss.now.cause }
    ensures same { P.takes select.new ≡ P.takes select.old }
{
    match miss.cause {
        Cause::ReadFault => true,
        Cause::Altered { .. } => is_listed(&miss.name, listing),
        Cause::Appeared => is_stray(alloc, &miss.name.path, listing, roots, select),
    }
}

/// Whether the name is listed.
fn is_listed(name: &Name, listing: &Listing) -> bool
    ensures { IsTrue result → stamp_at listing.now name.now.path ≡ Some name.now.stamp }
{
    match listing.stamp_of(&name.path) {
        Some(stamp) => stamp == name.stamp,
        None => false,
    }
}

/// Whether the path isn't listed and is in the scope of the pass, and there was memory to ask.
fn is_stray<P: Selection>(
    alloc: Global,
    path: &CanonPath,
    listing: &Listing,
    roots: &[CanonPath],
    select: &mut P,
) -> bool
    ensures stray { IsTrue result → IsStray listing.now (scope_of roots.now (P.takes select.old))
        path.now }
    ensures same { P.takes select.new ≡ P.takes select.old }
{
    // For its clause: the path is no longer than one that is kept.
    let _text = path.text();
    match listing.stamp_of(path) {
        Some(_) => false,
        None => match is_in_scope(alloc, roots, select, path) {
            Ok(inside) => inside,
            Err(_) => false,
        },
    }
}
