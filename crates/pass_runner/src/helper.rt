//! A hand that helps with a pass.

ghost use Rattle.std.specs.Prelude.{◌≡◌};
ghost use Rattle.index_lock.specs.Tokens.{IsLater};
ghost use Rattle.lock_crew.specs.Runs.{SlotHas, SlotRan};
ghost use Rattle.pass_runner.specs.Helped.{Helped, HelpsFrom, CountsNoLook, loads_counted};

use crossbeam_utils::CachePadded;
use groomer::groom;
use index_keeper::Keeper;
use index_lock::{Seat, TurnLock};
use index_state::State;
use lock_crew::Slot;
use row_types::Truth;
use scan_worker::work;
use std::alloc::Global;
use std::sync::Wait;
use tree_trait::{Gate, Reader, Tree};

/// What a hand helps with.
#[derive(Clone, Copy, PartialEq, Eq)]
pub(crate) enum Task {
    /// Looking for the files of rows that are no longer listed.
    Look,
    /// Reading listed files that have no row.
    Read,
}

/// A hand that helps, what it helps with, and how many openings it was asked for. That number is what
/// its thread reports: it has cache lines of its own in the slot.
#[derive(Drop)]
pub(crate) struct Helper<T: Drop> {
    pub(crate) hand: T,
    pub(crate) task: Task,
    pub(crate) asked: CachePadded<u64>,
}

/// Has the hand of a slot help until nothing is left to be handed out.
pub(crate) fn run_slot<W: Truth, K: Keeper<W>, T: Tree<W>, R: Reader<W>, G: Gate, Rt: Wait + Sync>(
    rt: &Rt,
    alloc: Global,
    lock: &TurnLock<State<W, K>>,
    slot: &mut Option<Slot<State<W, K>, Helper<T>>>,
    reader: &R,
    gate: &G,
)
    requires { SlotHas (λ slot. slot.seat.lock ≡ lock.now) slot.old }
    ensures { SlotRan (λ before after. IsLater before.seat after.seat
        × HelpsFrom T.shows T.told W.version before.seat before.place after.seat after.place) slot.old slot.new }
{
    if let Some(Slot { seat, place }) = slot.take() {
        let (seat, place) = help(rt, alloc, lock, seat, place, reader, gate);
        *slot = Some(Slot { seat, place });
    }
}

/// Has a hand help until nothing is left to be handed out.
fn help<W: Truth, K: Keeper<W>, T: Tree<W>, R: Reader<W>, G: Gate, Rt: Wait + Sync>(
    rt: &Rt,
    alloc: Global,
    lock: &TurnLock<State<W, K>>,
    seat: Seat<State<W, K>>,
    place: Helper<T>,
    reader: &R,
    gate: &G,
) -> (Seat<State<W, K>>, Helper<T>)
    requires { seat.lock ≡ lock.now }
    ensures later { IsLater seat result.0 }
    ensures helped { Helped T.told W.version seat.origin.spared (T.shows place.hand)
        (T.shows result.1.hand) (loads_counted result.1) }
    ensures task { result.1.task ≡ place.task }
    ensures counted { CountsNoLook result.1.task (loads_counted result.1) }
{
    let Helper {
        hand,
        task,
        asked: _,
    } = place;
    let (seat, hand, asked) = match task {
        Task::Look => look_on(rt, alloc, lock, seat, hand, gate),
        Task::Read => read_on(rt, alloc, lock, seat, hand, reader, gate),
    };
    (
        seat,
        Helper {
            hand,
            task,
            asked: CachePadded::new(asked),
        },
    )
}

/// Has a hand look for files until no name is left to be looked for. It opens none.
fn look_on<W: Truth, K: Keeper<W>, T: Tree<W>, G: Gate, Rt: Wait + Sync>(
    rt: &Rt,
    alloc: Global,
    lock: &TurnLock<State<W, K>>,
    seat: Seat<State<W, K>>,
    hand: T,
    gate: &G,
) -> (Seat<State<W, K>>, T, u64)
    requires { seat.lock ≡ lock.now }
    ensures later { IsLater seat result.0 }
    ensures helped { Helped T.told W.version seat.origin.spared (T.shows hand)
        (T.shows result.1) result.2 }
    ensures none { result.2 ≡ 0 }
{
    let (seat, hand, _report) = groom(rt, alloc, lock, seat, hand, gate);
    (seat, hand, 0)
}

/// Has a hand read files until no name is left to be read, and counts its openings.
fn read_on<W: Truth, K: Keeper<W>, T: Tree<W>, R: Reader<W>, G: Gate, Rt: Wait + Sync>(
    rt: &Rt,
    alloc: Global,
    lock: &TurnLock<State<W, K>>,
    seat: Seat<State<W, K>>,
    hand: T,
    reader: &R,
    gate: &G,
) -> (Seat<State<W, K>>, T, u64)
    requires { seat.lock ≡ lock.now }
    ensures later { IsLater seat result.0 }
    ensures helped { Helped T.told W.version seat.origin.spared (T.shows hand)
        (T.shows result.1) result.2 }
{
    let (seat, hand, report) = work(rt, alloc, lock, seat, hand, reader, gate);
    (seat, hand, report.asked)
}
