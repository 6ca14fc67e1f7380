//! A connection: its requests, one after the other.

ghost use Rattle.std.specs.Prelude.{◌≡◌, ◌≤◌, [], false, map, vec_capacity};
ghost use Rattle.index_lock.specs.Tokens.{IsLater};
ghost use Rattle.conn_server.specs.Connection.{Serves};
ghost use Rattle.conn_server.specs.Objects.{StayLent, setting_by, stage_by};
ghost use Rattle.conn_server.specs.Tallied.{HasRowIn};
ghost use Rattle.conn_server.specs.Stage.{conn_setting, stage_with};

use crate::buffers::{Buffers, new_buffers};
use crate::lend::lend;
use crate::objects::Objects;
use crate::pieces::PIECE;
use crate::report::{ConnEnd, ConnReport, Served};
use crate::service::Service;
use crate::turn::{ConnTurn, next_turn};
use dbgd_metrics::{Book, Share};
use federation::Link;
use http_wire::{Sink, Source};
use index_desk::Desk;
use index_keeper::Keeper;
use index_lock::{Seat, TurnLock};
use index_state::State;
use row_types::{CanonPath, Truth};
use std::alloc::Global;
use std::sync::Wait;
use tree_trait::{Gate, Point, Tree};

/// The largest number of requests that a connection has.
pub const REQUESTS: usize = 100;

/// Answers the requests of a connection, in order, until one closes it, the source ends, or
/// something fails. Where no file here passes, the links are asked in order. A file that passes is sent
/// in pieces of 64 KiB, each of which is compared with what was checked of it. All memory of the
/// report and of the reader is taken before the first read, and room for a piece before the head of the
/// first reply that needs so much of it. The gate is passed under this number each time before the index
/// is asked, and behind each reply that was written whole and counted.
pub fn serve_connection<
    W: Truth,
    K: Keeper<W>,
    T: Tree<W>,
    L: Link,
    N: Source + Sink,
    G: Gate,
    R: Wait + Sync,
>(
    rt: &R,
    alloc: Global,
    lock: &TurnLock<State<W, K>>,
    seat: Seat<State<W, K>>,
    hand: &mut T,
    links: &mut [L],
    folders: &[CanonPath],
    book: &Book,
    share: &mut Share,
    conn: &mut N,
    number: u64,
    gate: &G,
) -> (Seat<State<W, K>>, ConnReport)
    requires lock { seat.lock ≡ lock.now }
    requires share { HasRowIn book.now share.old }
    ensures later { IsLater seat result.0 }
    ensures share { HasRowIn book.now share.new }
    ensures serves { Serves
        (conn_setting W.true_row T.told W.version T.shows folders.now book.now.rows)
        (stage_with seat hand.old share.old (map L.shows links.old)) (N.shows conn.old) result.1
        (stage_with result.0 hand.new share.new (map L.shows links.new)) (N.shows conn.new) }
    ensures requests { REQUESTS ≡ 100 }
    ensures pieces { PIECE ≡ 65536 }
{
    let service = Service {
        rt,
        alloc,
        folders,
        number,
        gate,
    };
    let mut objects = lend(hand, links, book, share);
    let (desk, report) = serve_by(&service, Desk { lock, seat }, &mut objects, conn);
    (desk.seat, report)
}

/// Answers the requests, where there is memory for the report and for what is read into.
pub(crate) fn serve_by<
    'd,
    W: Truth,
    K: Keeper<W>,
    T: Tree<W>,
    L: Link,
    N: Source + Sink,
    G: Gate,
    R: Wait + Sync,
>(
    service: &Service<'_, G, R>,
    desk: Desk<'d, W, K>,
    objects: &mut Objects<'_, T, L>,
    conn: &mut N,
) -> (Desk<'d, W, K>, ConnReport)
    ensures later { IsLater desk.entry.seat result.0.seat }
    ensures same { StayLent objects.old objects.new }
    ensures serves { Serves
        (setting_by W.true_row T.told W.version T.shows service.now.folders.now objects.old)
        (stage_by L.shows desk.entry.seat objects.old) (N.shows conn.old) result.1
        (stage_by L.shows result.0.seat objects.new) (N.shows conn.new) }
{
    let alloc = service.alloc;
    match (Vec::with_capacity(alloc, REQUESTS), new_buffers(alloc)) {
        (Ok(served), Ok(buffers)) => serve_all(service, desk, objects, conn, buffers, served),
        _ => (
            desk,
            ConnReport {
                served: Vec::new(alloc),
                end: ConnEnd::OutOfMemory,
            },
        ),
    }
}

/// Answers the requests into the room that was made.
fn serve_all<
    'd,
    W: Truth,
    K: Keeper<W>,
    T: Tree<W>,
    L: Link,
    N: Source + Sink,
    G: Gate,
    R: Wait + Sync,
>(
    service: &Service<'_, G, R>,
    desk: Desk<'d, W, K>,
    objects: &mut Objects<'_, T, L>,
    conn: &mut N,
    buffers: Buffers,
    served: Vec<Served>,
) -> (Desk<'d, W, K>, ConnReport)
    requires fresh { buffers.reader ≡ record { all = []; held = []; over = false } }
    requires none { served.items ≡ [] }
    requires room { REQUESTS ≤ vec_capacity served }
    ensures later { IsLater desk.entry.seat result.0.seat }
    ensures same { StayLent objects.old objects.new }
    ensures serves { Serves
        (setting_by W.true_row T.told W.version T.shows service.now.folders.now objects.old)
        (stage_by L.shows desk.entry.seat objects.old) (N.shows conn.old) result.1
        (stage_by L.shows result.0.seat objects.new) (N.shows conn.new) }
{
    let (rt, gate, number) = (service.rt, service.gate, service.number);
    let (mut desk, mut buffers, mut served) = (desk, buffers, served);
    loop {
        let last = served.len() + 1 == REQUESTS;
        let (next, turn) = next_turn(service, desk, objects, last, &mut buffers, conn);
        desk = next;
        match turn {
            ConnTurn::Replied(entry) => {
                gate.at(rt, &Point::Answered(number));
                served.push_reserved(entry);
            }
            ConnTurn::Last(entry, end) => {
                gate.at(rt, &Point::Answered(number));
                served.push_reserved(entry);
                return (desk, ConnReport { served, end });
            }
            ConnTurn::Ended(end) => return (desk, ConnReport { served, end }),
        }
    }
}
