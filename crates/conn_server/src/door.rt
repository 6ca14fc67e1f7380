//! The connections of a door, one after the other.

ghost use Rattle.std.specs.Prelude.{◌≡◌, map};
ghost use Rattle.index_lock.specs.Tokens.{IsLater};
ghost use Rattle.conn_server.specs.Tallied.{HasRowIn};
ghost use Rattle.conn_server.specs.Doors.{ServesDoor, TakesNextVisit};
ghost use Rattle.conn_server.specs.Objects.{StayLent, setting_by, stage_by};
ghost use Rattle.conn_server.specs.Stage.{conn_setting, stage_with};

use crate::connection::serve_by;
use crate::lend::lend;
use crate::objects::Objects;
use crate::service::Service;
use dbgd_metrics::{Book, Share};
use federation::Link;
use http_wire::{Door, DoorAnswer};
use index_desk::Desk;
use index_keeper::Keeper;
use index_lock::{Seat, TurnLock};
use index_state::State;
use row_types::{CanonPath, Truth};
use std::alloc::Global;
use std::sync::Wait;
use tree_trait::{Gate, Tree};

/// How the serving of a door ended.
#[derive(Clone, Copy, PartialEq, Eq)]
pub enum DoorEnd {
    /// No connection comes any more.
    Closed,
    /// The door failed.
    Failed,
}

/// Serves the connections of a door, one after the other, until it closes or fails, and hands each
/// of them back. The first one has the first number, and each later one a number that is greater by
/// the step, up to 2^64 - 1. A connection that ends by want of memory ends alone. The links are those of
/// each of them.
pub fn serve_door<W: Truth, K: Keeper<W>, T: Tree<W>, L: Link, D: Door, G: Gate, R: Wait + Sync>(
    rt: &R,
    alloc: Global,
    lock: &TurnLock<State<W, K>>,
    seat: Seat<State<W, K>>,
    hand: &mut T,
    links: &mut [L],
    folders: &[CanonPath],
    book: &Book,
    share: &mut Share,
    door: &mut D,
    first: u64,
    step: u64,
    gate: &G,
) -> (Seat<State<W, K>>, DoorEnd)
    requires lock { seat.lock ≡ lock.now }
    requires share { HasRowIn book.now share.old }
    ensures later { IsLater seat result.0 }
    ensures share { HasRowIn book.now share.new }
    ensures serves { ServesDoor
        (conn_setting W.true_row T.told W.version T.shows folders.now book.now.rows)
        (stage_with seat hand.old share.old (map L.shows links.old)) (D.shows door.old) result.1
        (stage_with result.0 hand.new share.new (map L.shows links.new)) (D.shows door.new) }
{
    let service = Service {
        rt,
        alloc,
        folders,
        number: first,
        gate,
    };
    let mut objects = lend(hand, links, book, share);
    let (desk, end) = serve_visits(service, Desk { lock, seat }, &mut objects, door, step);
    (desk.seat, end)
}

/// Serves the connections, the first one under the number that is given.
fn serve_visits<'d, W: Truth, K: Keeper<W>, T: Tree<W>, L: Link, D: Door, G: Gate, R: Wait + Sync>(
    service: Service<'_, G, R>,
    desk: Desk<'d, W, K>,
    objects: &mut Objects<'_, T, L>,
    door: &mut D,
    step: u64,
) -> (Desk<'d, W, K>, DoorEnd)
    ensures later { IsLater desk.entry.seat result.0.seat }
    ensures same { StayLent objects.old objects.new }
    ensures serves { ServesDoor
        (setting_by W.true_row T.told W.version T.shows service.entry.folders.now objects.old)
        (stage_by L.shows desk.entry.seat objects.old) (D.shows door.old) result.1
        (stage_by L.shows result.0.seat objects.new) (D.shows door.new) }
{
    let (rt, mut service, mut desk) = (service.rt, service, desk);
    for _ in rt.forever() {
        let (next, end) = serve_next(&service, desk, objects, door);
        desk = next;
        service.number = service.number.saturating_add(step);
        match end {
            Some(end) => return (desk, end),
            None => {}
        }
    }
    unreachable!()
}

/// Serves the next connection, if one comes, and hands it back.
fn serve_next<'d, W: Truth, K: Keeper<W>, T: Tree<W>, L: Link, D: Door, G: Gate, R: Wait + Sync>(
    service: &Service<'_, G, R>,
    desk: Desk<'d, W, K>,
    objects: &mut Objects<'_, T, L>,
    door: &mut D,
) -> (Desk<'d, W, K>, Option<DoorEnd>)
    ensures later { IsLater desk.entry.seat result.0.seat }
    ensures same { StayLent objects.old objects.new }
    ensures next { TakesNextVisit
        (setting_by W.true_row T.told W.version T.shows service.now.folders.now objects.old)
        (stage_by L.shows desk.entry.seat objects.old) (D.shows door.old) result.1
        (stage_by L.shows result.0.seat objects.new) (D.shows door.new) }
{
    match door.accept(service.rt) {
        DoorAnswer::Came(conn) => {
            let mut conn = conn;
            let (desk, _report) = serve_by(service, desk, objects, &mut conn);
            door.ended(conn);
            (desk, None)
        }
        DoorAnswer::Closed => (desk, Some(DoorEnd::Closed)),
        DoorAnswer::Failed => (desk, Some(DoorEnd::Failed)),
    }
}
