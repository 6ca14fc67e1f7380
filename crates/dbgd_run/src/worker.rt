//! A worker of a server.

ghost use Rattle.std.specs.Prelude.{◌≡◌};
ghost use Rattle.index_lock.specs.Tokens.{IsLater};
ghost use Rattle.lock_crew.specs.Runs.{SlotHas, SlotRan};
ghost use Rattle.conn_server.specs.Stage.{conn_setting};
ghost use Rattle.conn_server.specs.Tallied.{HasRowIn};
ghost use Rattle.dbgd_run.specs.Workers.{RunsWorker};

use crate::threads::{ThreadKinds, ThreadSite};
use conn_server::{DoorEnd, serve_door};
use dbgd_commands::Kinds;
use dbgd_metrics::Share;
use index_lock::Seat;
use index_state::State;
use lock_crew::Slot;
use std::sync::Wait;
use tree_trait::Gate;

/// A worker: a hand, a door, the links and the share that it is served with, and how the serving
/// ended, once it has.
#[derive(Drop)]
pub(crate) struct Worker<T: Drop, D: Drop, L: Drop> {
    pub(crate) hand: T,
    pub(crate) share: Share,
    pub(crate) door: D,
    pub(crate) links: Vec<L>,
    pub(crate) end: Option<DoorEnd>,
}

/// The same of these kinds.
pub(crate) type WorkerOf<X> = Worker<<X as Kinds>::T, <X as Kinds>::D, <X as Kinds>::L>;

/// A worker with a token, of the kinds of a thread.
pub(crate) type WorkerSlot<Y> = Slot<
    State<<Y as ThreadKinds>::W, <Y as ThreadKinds>::K>,
    Worker<<Y as ThreadKinds>::T, <Y as ThreadKinds>::D, <Y as ThreadKinds>::L>,
>;

/// Serves the door of a worker: its connections have this number and each that is greater by a
/// multiple of the number of doors.
fn run_worker<Y: ThreadKinds, G: Gate, Rt: Wait + Sync>(
    shared: &ThreadSite<'_, Y::W, Y::K, G, Rt>,
    number: u64,
    seat: Seat<State<Y::W, Y::K>>,
    worker: &mut Worker<Y::T, Y::D, Y::L>,
) -> Seat<State<Y::W, Y::K>>
    requires lock { seat.lock ≡ shared.now.lock.now }
    requires share { HasRowIn shared.now.book.now worker.old.share }
    ensures later { IsLater seat result }
    ensures ran { RunsWorker
        (conn_setting Y.W.true_row Y.T.told Y.W.version Y.T.shows shared.now.site.now.folders.now
        shared.now.book.now.rows)
        Y.D.shows Y.L.shows seat worker.old result worker.new }
{
    let site = shared.site;
    let (seat, end) = serve_door(
        site.rt,
        site.alloc,
        shared.lock,
        seat,
        &mut worker.hand,
        worker.links.as_mut_slice(),
        site.folders,
        shared.book,
        &mut worker.share,
        &mut worker.door,
        number,
        site.doors,
        site.gate,
    );
    worker.end = Some(end);
    seat
}

/// Serves the door of the worker of a slot.
pub(crate) fn run_slot<Y: ThreadKinds, G: Gate, Rt: Wait + Sync>(
    shared: &ThreadSite<'_, Y::W, Y::K, G, Rt>,
    number: u64,
    slot: &mut Option<WorkerSlot<Y>>,
)
    requires { SlotHas (λ slot. (slot.seat.lock ≡ shared.now.lock.now)
        × HasRowIn shared.now.book.now slot.place.share) slot.old }
    ensures { SlotRan (λ before after. IsLater before.seat after.seat
        × RunsWorker
        (conn_setting Y.W.true_row Y.T.told Y.W.version Y.T.shows shared.now.site.now.folders.now
        shared.now.book.now.rows)
        Y.D.shows Y.L.shows before.seat before.place after.seat after.place) slot.old slot.new }
{
    if let Some(Slot { seat, mut place }) = slot.take() {
        let seat = run_worker::<Y, G, Rt>(shared, number, seat, &mut place);
        *slot = Some(Slot { seat, place });
    }
}
