//! A pass over a listing, with an index that is shared.

ghost use Rattle.std.specs.Prelude.{◌≡◌, ◌⊎◌, ◌<◌, ◌≤◌, [], drop, vec_capacity, vec_len, IsTrue, None};
ghost use Rattle.std.specs.List.{AllZip};
ghost use Rattle.path_scope.specs.Scope.{scope_of};
ghost use Rattle.row_types.specs.Rules.{rules};
ghost use Rattle.index_lock.specs.Tokens.{IsLater};
ghost use Rattle.tree_trait.specs.Shown.{HandsOn};
ghost use Rattle.pass_runner.specs.Helped.{HelpedFrom};
ghost use Rattle.pass_runner.specs.Leading.{LeadsPass, SettlesLast};
ghost use Rattle.pass_runner.specs.Owned.{HandsGo, Helps, is_hand_fault};

use crate::beside::{Needs, needs_of};
use crate::crew::run_crew;
use crate::helper::Helper;
use crate::holds::begin_one;
use crate::last_hold::end_one;
use crate::leading::settle_shared;
use crate::parts::{Parts, apart, together};
use crate::pass_end::PassEnd;
use index_desk::{Desk, Ground};
use index_keeper::Keeper;
use index_state::{Begun, Plan};
use path_scope::Selection;
use row_types::{CanonPath, Truth};
use scan_queue::Listing;
use std::sync::Wait;
use std::thread::Threads;
use tree_trait::{Gate, Reader, Tree};

/// Makes a pass over a listing. Memory is looked for before it begins.
pub(crate) fn pass_listed<
    'a,
    W: Truth + Send + Sync,
    K: Keeper<W>,
    T: Tree<W>,
    P: Selection,
    R: Reader<W> + Sync,
    G: Gate,
    Rt: Threads + Wait + Sync,
>(
    ground: Ground<'_, R, G, Rt>,
    desk: Desk<'a, W, K>,
    hands: Vec<T>,
    listing: Listing,
    roots: &[CanonPath],
    select: &mut P,
) -> (Desk<'a, W, K>, Vec<T>, PassEnd)
    requires hand { 0 < vec_len hands }
    requires spared { desk.seat.origin.sparing ≡ None }
    ensures later { IsLater desk.entry.seat result.0.seat }
    ensures over { HandsGo
        (λ hand later. LeadsPass (rules W.version W.true_row W.told) T.told listing
        (scope_of roots.now (P.takes select.old)) desk.entry.seat.seen result.0.seat.seen (T.shows hand) (T.shows later) result.2)
        (λ hand later. Helps T.told W.version [] [] (T.shows hand) (T.shows later))
        hands.items result.1.items }
    ensures hands { HandsGo
        (λ hand later. HandsOn T.told W.version (T.shows hand) (T.shows later)
        ⊥ (IsTrue (is_hand_fault result.2)))
        (λ hand later. HandsOn T.told W.version (T.shows hand) (T.shows later) ⊥ ⊥)
        hands.items result.1.items }
    ensures idle { result.2 ≡ PassEnd.Broken → drop 1 result.1.items ≡ drop 1 hands.items }
    ensures same { P.takes select.new ≡ P.takes select.old }
{
    let Ok(needs) = needs_of(ground.alloc, &listing, roots, hands.len()) else {
        return (desk, hands, PassEnd::OutOfMemory);
    };
    match apart(ground.alloc, hands) {
        Ok(
            Parts {
                first,
                helpers,
                room,
            },
        ) => {
            let (desk, first, helpers, end) = pass_parts(
                ground, desk, first, helpers, listing, needs, select,
            );
            let (hands, _asked) = together(first, helpers, room);
            (desk, hands, end)
        }
        Err(hands) => (desk, hands, PassEnd::OutOfMemory),
    }
}

/// Begins a pass, has the other hands help with it, and lets the first one settle what is left.
fn pass_parts<
    'a,
    W: Truth + Send + Sync,
    K: Keeper<W>,
    T: Tree<W>,
    P: Selection,
    R: Reader<W> + Sync,
    G: Gate,
    Rt: Threads + Wait + Sync,
>(
    ground: Ground<'_, R, G, Rt>,
    desk: Desk<'a, W, K>,
    first: T,
    helpers: Vec<Helper<T>>,
    listing: Listing,
    needs: Needs<W, K, T>,
    select: &mut P,
) -> (Desk<'a, W, K>, T, Vec<Helper<T>>, PassEnd)
    requires spared { desk.seat.origin.sparing ≡ None }
    requires again { (needs.roots_again.items ≡ needs.roots.items)
        × (needs.listing_again ≡ listing) }
    requires none { (needs.slots.items ≡ []) × (needs.back.items ≡ []) }
    requires room { (vec_len helpers ≤ vec_capacity needs.slots)
        × (vec_len helpers ≤ vec_capacity needs.back) }
    ensures later { IsLater desk.entry.seat result.0.seat }
    ensures over { LeadsPass (rules W.version W.true_row W.told) T.told listing
        (scope_of needs.roots.items (P.takes select.old)) desk.entry.seat.seen result.0.seat.seen (T.shows first) (T.shows result.1) result.3 }
    ensures helped { AllZip (HelpedFrom T.shows T.told W.version []) helpers.items result.2.items
        ⊎ (result.2.items ≡ helpers.items) }
    ensures count { vec_len result.2 ≡ vec_len helpers }
    ensures idle { result.3 ≡ PassEnd.Broken → result.2.items ≡ helpers.items }
    ensures same { P.takes select.new ≡ P.takes select.old }
{
    let Needs {
        roots,
        listing_again,
        roots_again,
        slots,
        back,
    } = needs;
    let (desk, begun) = begin_one(ground.rt, ground.alloc, desk, listing, roots, select);
    match begun {
        Begun::Begun(plan) => {
            let (desk, helpers) = run_crew(ground, desk, helpers, (slots, back));
            let mut first = first;
            let (desk, end) = settle_last(
                ground,
                desk,
                &mut first,
                listing_again,
                roots_again,
                select,
                &plan,
            );
            (desk, first, helpers, end)
        }
        Begun::Broken => (desk, first, helpers, PassEnd::Broken),
        Begun::OutOfMemory => (desk, first, helpers, PassEnd::OutOfMemory),
    }
}

/// Lets the first hand settle what is left of a pass, and decides how it ended.
fn settle_last<'a, W: Truth, K: Keeper<W>, T: Tree<W>, P: Selection, R: Reader<W>, G, Rt: Wait>(
    ground: Ground<'_, R, G, Rt>,
    desk: Desk<'a, W, K>,
    hand: &mut T,
    listing: Listing,
    roots: Vec<CanonPath>,
    select: &mut P,
    plan: &Plan,
) -> (Desk<'a, W, K>, PassEnd)
    requires { desk.seat.origin.sparing ≡ None }
    ensures later { IsLater desk.entry.seat result.0.seat }
    ensures over { SettlesLast (rules W.version W.true_row W.told) T.told listing
        (scope_of roots.items (P.takes select.old)) plan.now desk.entry.seat.seen result.0.seat.seen (T.shows hand.old) (T.shows hand.new)
        result.1 }
    ensures same { P.takes select.new ≡ P.takes select.old }
{
    let (desk, met) = settle_shared(ground, desk, hand, roots.as_slice(), select);
    end_one(
        ground.rt,
        ground.alloc,
        desk,
        listing,
        roots,
        select,
        plan,
        met.as_slice(),
    )
}
