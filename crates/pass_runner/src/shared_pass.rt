//! A pass over an index that is shared.

ghost use Rattle.std.specs.Prelude.{◌≡◌, ◌<◌, [], drop, length, vec_len, IsTrue, None};
ghost use Rattle.path_scope.specs.Scope.{scope_of};
ghost use Rattle.row_types.specs.Rules.{rules};
ghost use Rattle.index_lock.specs.Tokens.{IsLater};
ghost use Rattle.tree_trait.specs.Shown.{HandsOn};
ghost use Rattle.pass_runner.specs.Owned.{HandsGo, Helps, is_hand_fault, is_unbegun};
ghost use Rattle.pass_runner.specs.SharedPass.{EndsShared, IsDoneShared, IsUnhinderedPass};

use crate::coordinate::pass_listed;
use crate::pass_end::PassEnd;
use index_desk::{Desk, Ground};
use index_keeper::Keeper;
use index_lock::{Seat, TurnLock};
use index_state::State;
use path_scope::Selection;
use row_types::{CanonPath, Truth};
use std::alloc::Global;
use std::sync::Wait;
use std::thread::Threads;
use tree_trait::{Gate, Reader, Tree};
use tree_walk::{Walk, walk};

/// Makes one pass over the selected files under the roots with an index that others share: the first hand walks, a pass over
/// what was listed begins, and the other hands help with it in threads of their own, as in
/// `scan_state`. Then the first hand tries again what they left, and decides in one hold of the
/// lock how the pass ended: whole where nothing is left to be done for its listing, else by a full
/// log, by the first name that was missed, or by want of memory. A miss is told where the first
/// hand met it itself and it still stands: a listed name without a row, another one with its row.
/// Where another token's stands first, the end is want of memory. An index that is broken as the
/// pass would begin ends it at once. No name may have been spared in the token's index. The hands
/// come back in their order.
pub fn run_pass<
    W: Truth + Send + Sync,
    K: Keeper<W>,
    T: Tree<W>,
    P: Selection,
    R: Reader<W> + Sync,
    G: Gate,
    Rt: Threads + Wait + Sync,
>(
    rt: &Rt,
    alloc: Global,
    lock: &TurnLock<State<W, K>>,
    seat: Seat<State<W, K>>,
    hands: Vec<T>,
    roots: &[CanonPath],
    select: &mut P,
    reader: &R,
    gate: &G,
) -> (Seat<State<W, K>>, Vec<T>, PassEnd)
    requires lock { seat.lock ≡ lock.now }
    requires hand { 0 < vec_len hands }
    requires spared { seat.origin.sparing ≡ None }
    ensures later { IsLater seat result.0 }
    ensures pass { HandsGo
        (λ hand later. EndsShared (rules W.version W.true_row W.told) T.told
        (scope_of roots.now (P.takes select.old)) seat.seen result.0.seen (T.shows hand) (T.shows later) result.2)
        (λ hand later. Helps T.told W.version [] [] (T.shows hand) (T.shows later))
        hands.items result.1.items }
    ensures hands { HandsGo
        (λ hand later. HandsOn T.told W.version (T.shows hand) (T.shows later)
        (0 < length roots.now) (IsTrue (is_hand_fault result.2)))
        (λ hand later. HandsOn T.told W.version (T.shows hand) (T.shows later) ⊥ ⊥)
        hands.items result.1.items }
    ensures idle { IsTrue (is_unbegun result.2) → drop 1 result.1.items ≡ drop 1 hands.items }
    ensures complete { HandsGo
        (λ hand later. IsUnhinderedPass T.told (scope_of roots.now (P.takes select.old))
        result.0.seen (T.shows hand) (T.shows later) → IsDoneShared result.0.seen result.2)
        (λ hand later. HandsOn T.told W.version (T.shows hand) (T.shows later) ⊥ ⊥)
        hands.items result.1.items }
    ensures same { P.takes select.new ≡ P.takes select.old }
{
    let mut hands = hands;
    match walk(alloc, &mut hands[0], roots, select) {
        Ok(
            Walk {
                listing,
                skipped: _,
            },
        ) => {
            let ground = Ground {
                rt,
                alloc,
                reader,
                gate,
            };
            let (desk, hands, end) = pass_listed(
                ground,
                Desk { lock, seat },
                hands,
                listing,
                roots,
                select,
            );
            let Desk { lock: _, seat } = desk;
            (seat, hands, end)
        }
        Err(fault) => (seat, hands, PassEnd::Walk(fault)),
    }
}
