//! Hands that help with a pass, in threads of their own.

ghost use Rattle.std.specs.Prelude.{◌≡◌, ℕ, ◌<◌, ◌≤◌, [], All, length, slice_index_or, vec_capacity, vec_len};
ghost use Rattle.std.specs.List.{AllZip};
ghost use Rattle.index_lock.specs.Tokens.{IsLater};
ghost use Rattle.lock_crew.specs.Runs.{RunsBy, SlotHas, SlotRan};
ghost use Rattle.pass_runner.specs.Helped.{HelpsFrom};

use crate::helper::{Helper, run_slot};
use index_desk::{Desk, Ground};
use index_keeper::Keeper;
use index_lock::TurnLock;
use index_state::State;
use lock_crew::{Slot, seats_in, seats_out};
use row_types::Truth;
use std::alloc::Global;
use std::sync::Wait;
use std::thread;
use std::thread::Threads;
use tree_trait::{Gate, Reader, Tree};

/// Has the hands help side by side until nothing is left to be handed out, and waits for all. They
/// come back in their order.
pub(crate) fn run_crew<
    'a,
    W: Truth + Send + Sync,
    K: Keeper<W>,
    T: Tree<W>,
    R: Reader<W> + Sync,
    G: Gate,
    Rt: Threads + Wait + Sync,
>(
    ground: Ground<'_, R, G, Rt>,
    desk: Desk<'a, W, K>,
    helpers: Vec<Helper<T>>,
    rooms: (Vec<Option<Slot<State<W, K>, Helper<T>>>>, Vec<Helper<T>>),
) -> (Desk<'a, W, K>, Vec<Helper<T>>)
    requires none { (rooms.0.items ≡ []) × (rooms.1.items ≡ []) }
    requires room { (vec_len helpers ≤ vec_capacity rooms.0)
        × (vec_len helpers ≤ vec_capacity rooms.1) }
    ensures later { IsLater desk.entry.seat result.0.seat }
    ensures ran { AllZip (RunsBy (HelpsFrom T.shows T.told W.version) desk.entry.seat result.0.seat) helpers.items
        result.1.items }
    ensures count { vec_len result.1 ≡ vec_len helpers }
{
    let Desk { lock, seat } = desk;
    let (slots, back) = rooms;
    let (seat, mut slots) = seats_out(lock, seat, helpers, slots);
    run_slots(ground, lock, &mut slots);
    let (seat, helpers) = seats_in(lock, seat, slots, back);
    (Desk { lock, seat }, helpers)
}

/// Has the hands of the slots help, in threads where they can be made, and waits for all.
fn run_slots<
    W: Truth + Send + Sync,
    K: Keeper<W>,
    T: Tree<W>,
    R: Reader<W> + Sync,
    G: Gate,
    Rt: Threads + Wait + Sync,
>(
    ground: Ground<'_, R, G, Rt>,
    lock: &TurnLock<State<W, K>>,
    slots: &mut Vec<Option<Slot<State<W, K>, Helper<T>>>>,
)
    requires { All (SlotHas (λ slot. slot.seat.lock ≡ lock.now)) slots.old.items }
    ensures ran { AllZip (SlotRan (λ before after. IsLater before.seat after.seat
        × HelpsFrom T.shows T.told W.version before.seat before.place after.seat after.place)) slots.old.items slots.new.items }
    ensures locks { All (SlotHas (λ slot. slot.seat.lock ≡ lock.now)) slots.new.items }
    ensures count { vec_len slots.new ≡ vec_len slots.old }
{
    let threads = slots.len();
    if threads == 0 {
        return;
    }
    let Ground {
        rt,
        alloc,
        reader,
        gate,
    } = ground;
    run_each(rt, alloc, lock, slots.as_mut_slice(), threads, reader, gate);
}

/// Has the hand of each slot help, in at most so many threads.
fn run_each<
    W: Truth + Send + Sync,
    K: Keeper<W>,
    T: Tree<W>,
    R: Reader<W> + Sync,
    G: Gate,
    Rt: Threads + Wait + Sync,
>(
    rt: &Rt,
    alloc: Global,
    lock: &TurnLock<State<W, K>>,
    slots: &mut [Option<Slot<State<W, K>, Helper<T>>>],
    threads: usize,
    reader: &R,
    gate: &G,
)
    requires threads { 0 < threads }
    requires filled { All (SlotHas (λ slot. slot.seat.lock ≡ lock.now)) slots.old }
    ensures each { (i : ℕ) (d : _) → i < length slots.old
        → SlotRan (λ before after. IsLater before.seat after.seat
        × HelpsFrom T.shows T.told W.version before.seat before.place after.seat after.place)
        (slice_index_or slots.old i d) (slice_index_or slots.new i d) }
    ensures length { length slots.new ≡ length slots.old }
{
    thread::for_each_mut(
        rt,
        slots,
        threads,
        &|_, slot: &mut Option<Slot<State<W, K>, Helper<T>>>|
            requires { SlotHas (λ slot. slot.seat.lock ≡ lock.now) slot.now }
            ensures { SlotRan (λ before after. IsLater before.seat after.seat
                × HelpsFrom T.shows T.told W.version before.seat before.place after.seat
                after.place) slot.entry.now slot.exit.now }
        { run_slot(rt, alloc, lock, slot, reader, gate) },
    );
}
