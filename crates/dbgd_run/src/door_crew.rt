//! Doors in threads of their own.

ghost use Rattle.std.specs.Prelude.{◌≡◌, ℕ, ◌<◌, All, length, slice_index_or, vec_len};
ghost use Rattle.std.specs.List.{AllZip};
ghost use Rattle.index_lock.specs.Tokens.{IsLater};
ghost use Rattle.lock_crew.specs.Runs.{SlotHas, SlotRan};
ghost use Rattle.conn_server.specs.Stage.{conn_setting};
ghost use Rattle.conn_server.specs.Tallied.{HasRowIn};
ghost use Rattle.dbgd_run.specs.Workers.{RunsWorker};

use crate::threads::{ThreadKinds, ThreadSite};
use crate::worker::{WorkerSlot, run_slot};
use std::sync::Wait;
use std::thread;
use std::thread::Threads;
use tree_trait::Gate;

/// Serves the doors of the slots, in at most so many threads.
fn run_each<Y: ThreadKinds, G: Gate, Rt: Threads + Wait + Sync>(
    shared: &ThreadSite<'_, Y::W, Y::K, G, Rt>,
    slots: &mut [Option<WorkerSlot<Y>>],
    threads: usize,
)
    requires threads { 0 < threads }
    requires filled { All (SlotHas (λ slot. (slot.seat.lock ≡ shared.now.lock.now)
        × HasRowIn shared.now.book.now slot.place.share)) slots.old }
    ensures each { (i : ℕ) (d : _) → i < length slots.old
        → SlotRan (λ before after. IsLater before.seat after.seat
        × RunsWorker
        (conn_setting Y.W.true_row Y.T.told Y.W.version Y.T.shows shared.now.site.now.folders.now
        shared.now.book.now.rows)
        Y.D.shows Y.L.shows before.seat before.place after.seat after.place)
        (slice_index_or slots.old i d) (slice_index_or slots.new i d) }
    ensures length { length slots.new ≡ length slots.old }
{
    thread::for_each_mut(
        shared.site.rt,
        slots,
        threads,
        &|number, slot: &mut Option<WorkerSlot<Y>>|
            requires { SlotHas (λ slot. (slot.seat.lock ≡ shared.now.lock.now)
                × HasRowIn shared.now.book.now slot.place.share) slot.now }
            ensures { SlotRan (λ before after. IsLater before.seat after.seat
                × RunsWorker
                (conn_setting Y.W.true_row Y.T.told Y.W.version Y.T.shows
                shared.entry.now.site.now.folders.now shared.entry.now.book.now.rows)
                Y.D.shows Y.L.shows before.seat before.place after.seat after.place)
                slot.entry.now slot.exit.now }
        { run_slot::<Y, G, Rt>(shared, number as u64, slot) },
    );
}

/// Serves the doors of the slots, in threads where they can be made, and waits for all. The k-th
/// connection of the w-th door has the number k x N + w, of N doors.
pub(crate) fn run_doors<Y: ThreadKinds, G: Gate, Rt: Threads + Wait + Sync>(
    shared: &ThreadSite<'_, Y::W, Y::K, G, Rt>,
    slots: &mut Vec<Option<WorkerSlot<Y>>>,
)
    requires filled { All (SlotHas (λ slot. (slot.seat.lock ≡ shared.now.lock.now)
        × HasRowIn shared.now.book.now slot.place.share)) slots.old.items }
    ensures ran { AllZip (SlotRan (λ before after. IsLater before.seat after.seat
        × RunsWorker
        (conn_setting Y.W.true_row Y.T.told Y.W.version Y.T.shows shared.now.site.now.folders.now
        shared.now.book.now.rows)
        Y.D.shows Y.L.shows before.seat before.place after.seat after.place)) slots.old.items slots.new.items }
    ensures locks { All (SlotHas (λ slot. slot.seat.lock ≡ shared.now.lock.now)) slots.new.items }
    ensures count { vec_len slots.new ≡ vec_len slots.old }
{
    let threads = slots.len();
    if threads == 0 {
        return;
    }
    run_each::<Y, G, Rt>(shared, slots.as_mut_slice(), threads);
}
