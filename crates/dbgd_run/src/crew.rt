//! What works in a server: it is hired before the store is opened, and dismissed in the end.

ghost use Rattle.std.specs.Prelude.{◌≡◌, ◌+◌, ◌*◌, ◌<◌, ◌≤◌, [], ◌++◌, length, All, IfOk, OnErr, vec_capacity, vec_len};
ghost use Rattle.std.specs.Vec.Iter.{into_iter_items};
ghost use Rattle.std.proofs.Props.{props};
ghost use Rattle.conn_server.specs.Tallied.{HasRowIn};
ghost use Rattle.dbgd_run.specs.Workers.{IsFreshShare, doors_at, hands_at, links_at, shares_at};

use crate::serve_end::ServeEnd;
use crate::shares::Shares;
use crate::threads::Index;
use crate::worker::{Worker, WorkerOf};
use dbgd_commands::Kinds;
use dbgd_metrics::{Book, Share};
use lock_crew::{Slot, rooms};
use path_canon::Matching;
use std::alloc::{AllocError, Global};
use std::mem;
use std::vec::IntoIter;

/// The workers, each with a share of the counters that has a row, and room for their slots and for what
/// comes back.
#[derive(Drop)]
pub(crate) struct Workers<'a, X: Kinds> {
    pub(crate) book: &'a Book,
    pub(crate) all: Vec<WorkerOf<X>>,
    pub(crate) room: (Vec<Option<Slot<Index<X>, WorkerOf<X>>>>, Vec<WorkerOf<X>>),
    ghost none: { (room.0.items ≡ []) × (room.1.items ≡ []) },
    ghost fits: { (vec_len all ≤ vec_capacity room.0) × (vec_len all ≤ vec_capacity room.1) },
    ghost rows: { All (λ worker. HasRowIn book.now worker.share) all.items } by { Prim.hlevel props },
}

/// What a server works with: a hand or more for its passes, which files these select, their share, which has
/// a row, and its workers.
#[derive(Drop)]
pub(crate) struct Crew<'a, X: Kinds> {
    pub(crate) hands: Vec<X::T>,
    pub(crate) select: Matching<'a>,
    pub(crate) share: Share,
    pub(crate) workers: Workers<'a, X>,
    ghost hand: { 0 < vec_len hands },
    ghost row: { HasRowIn workers.book.now share } by { Prim.hlevel props },
}

/// What comes back of it, and how the server ended.
#[derive(Drop)]
pub(crate) struct Back<X: Kinds> {
    pub(crate) hands: Vec<X::T>,
    pub(crate) workers: Vec<WorkerOf<X>>,
    pub(crate) end: ServeEnd,
}

/// The hands and the rows of links that a server doesn't ask, and room for all that comes back of it, by
/// its number of workers.
#[derive(Drop)]
pub(crate) struct Unasked<T: Drop, D: Drop, L: Drop> {
    pub(crate) count: usize,
    pub(crate) hands: Vec<T>,
    pub(crate) other_hands: IntoIter<T>,
    pub(crate) doors: Vec<D>,
    pub(crate) rows: Vec<Vec<L>>,
    pub(crate) other_rows: IntoIter<Vec<L>>,
    ghost none: { (hands.items ≡ []) × (doors.items ≡ []) × (rows.items ≡ []) },
    ghost room: { (count + 2 + (count + length (into_iter_items other_hands)) ≤ vec_capacity hands)
        × (count ≤ vec_capacity doors)
        × (count + length (into_iter_items other_rows) ≤ vec_capacity rows) },
}

/// The same of these kinds.
pub(crate) type UnaskedOf<X> = Unasked<<X as Kinds>::T, <X as Kinds>::D, <X as Kinds>::L>;

/// Hands, shares, doors and rows of links as workers, in order, in the room that was made, and the hands and
/// the rows that are left.
fn workers_of<T: Drop, D: Drop, L: Drop>(
    hands: Vec<T>,
    shares: Vec<Share>,
    doors: Vec<D>,
    rows: Vec<Vec<L>>,
    room: Vec<Worker<T, D, L>>,
) -> (Vec<Worker<T, D, L>>, IntoIter<T>, IntoIter<Vec<L>>)
    requires none { room.items ≡ [] }
    requires hands { vec_len doors ≤ vec_len hands }
    requires shares { vec_len shares ≡ vec_len doors }
    requires rows { vec_len doors ≤ vec_len rows }
    requires room { vec_len doors ≤ vec_capacity room }
    ensures hands { hands_at result.0.items ++ into_iter_items result.1 ≡ hands.items }
    ensures shares { shares_at result.0.items ≡ shares.items }
    ensures doors { doors_at result.0.items ≡ doors.items }
    ensures rows { links_at result.0.items ++ into_iter_items result.2 ≡ rows.items }
    ensures count { vec_len result.0 ≡ vec_len doors }
    ensures others { vec_len doors + length (into_iter_items result.1) ≡ vec_len hands }
    ensures other_rows { vec_len doors + length (into_iter_items result.2) ≡ vec_len rows }
{
    let mut hands = hands.into_iter();
    let mut shares = shares.into_iter();
    let mut rows = rows.into_iter();
    let mut workers = room;
    for door in doors {
        let (Some(hand), Some(share), Some(links)) = (hands.next(), shares.next(), rows.next())
        else {
            unreachable!()
        };
        workers.push_reserved(Worker {
            hand,
            share,
            door,
            links,
            end: None,
        });
    }
    (workers, hands, rows)
}

/// Takes two hands and one for each door for the passes, and makes each door a worker, with the next hand and
/// row of links and with a share of its own. Where there is no memory all are left.
pub(crate) fn hire<'a, X: Kinds>(
    alloc: Global,
    select: Matching<'a>,
    book: &'a Book,
    shares: Shares,
    hands: &mut Vec<X::T>,
    doors: &mut Vec<X::D>,
    rows: &mut Vec<Vec<X::L>>,
) -> Result<(Crew<'a, X>, UnaskedOf<X>), AllocError>
    requires hands { vec_len doors.old * 2 + 2 ≤ vec_len hands.old }
    requires rows { vec_len doors.old ≤ vec_len rows.old }
    requires own { IsFreshShare book.now shares.own }
    requires others { All (IsFreshShare book.now) shares.others.items }
    requires many { vec_len shares.others ≡ vec_len doors.old }
    ensures hands { IfOk result (λ hired. hands.old.items ≡ hired.0.hands.items
        ++ (hands_at hired.0.workers.all.items ++ into_iter_items hired.1.other_hands)) }
    ensures doors { IfOk result (λ hired. doors_at hired.0.workers.all.items ≡ doors.old.items) }
    ensures rows { IfOk result (λ hired. rows.old.items ≡ links_at hired.0.workers.all.items
        ++ into_iter_items hired.1.other_rows) }
    ensures select { IfOk result (λ hired. hired.0.select ≡ select.entry) }
    ensures own { IfOk result (λ hired. hired.0.share ≡ shares.own) }
    ensures shares { IfOk result (λ hired. shares_at hired.0.workers.all.items
        ≡ shares.others.items) }
    ensures book { IfOk result (λ hired. hired.0.workers.book.now ≡ book.now) }
    ensures first { IfOk result (λ hired. vec_len hired.0.hands ≡ vec_len doors.old + 2) }
    ensures count { IfOk result (λ hired. (vec_len hired.0.workers.all ≡ vec_len doors.old)
        × (hired.1.count ≡ vec_len doors.old)) }
    ensures all { IfOk result (λ hired. vec_len hands.old
        ≡ vec_len hired.0.hands + (hired.1.count + length (into_iter_items hired.1.other_hands))) }
    ensures all_rows { IfOk result (λ hired. vec_len rows.old
        ≡ hired.1.count + length (into_iter_items hired.1.other_rows)) }
    ensures err { OnErr result ((hands.new ≡ hands.old) × (doors.new ≡ doors.old)
        × (rows.new ≡ rows.old)) }
{
    let count = doors.len();
    let empty = Vec::with_capacity(alloc, count)?;
    let room = rooms(alloc, count)?;
    let hands_room = Vec::with_capacity(alloc, hands.len())?;
    let doors_room = Vec::with_capacity(alloc, count)?;
    let rows_room = Vec::with_capacity(alloc, rows.len())?;
    let behind = hands.split_off(count + 2)?;
    let first = mem::replace(hands, Vec::new(alloc));
    let served = mem::replace(doors, Vec::new(alloc));
    let links = mem::replace(rows, Vec::new(alloc));
    let (all, other_hands, other_rows) = workers_of(behind, shares.others, served, links, empty);
    let workers = Workers { book, all, room };
    let rest = Unasked {
        count,
        hands: hands_room,
        other_hands,
        doors: doors_room,
        rows: rows_room,
        other_rows,
    };
    let crew = Crew {
        hands: first,
        select,
        share: shares.own,
        workers,
    };
    Ok((crew, rest))
}

/// What comes back where nothing was served.
pub(crate) fn unserved<X: Kinds>(crew: Crew<'_, X>, end: ServeEnd) -> Back<X>
    ensures hands { result.hands ≡ crew.entry.hands }
    ensures workers { result.workers ≡ crew.entry.workers.all }
    ensures end { result.end ≡ end }
{
    let Crew { hands, workers, .. } = crew;
    let workers = workers.all;
    Back {
        hands,
        workers,
        end,
    }
}

/// The hands, the doors and the rows of links of workers, in order, behind those that are there.
fn parts_of<T: Drop, D: Drop, L: Drop>(
    workers: Vec<Worker<T, D, L>>,
    hands: Vec<T>,
    doors: Vec<D>,
    rows: Vec<Vec<L>>,
) -> (Vec<T>, Vec<D>, Vec<Vec<L>>)
    requires room { (vec_len hands + vec_len workers ≤ vec_capacity hands)
        × (vec_len doors + vec_len workers ≤ vec_capacity doors)
        × (vec_len rows + vec_len workers ≤ vec_capacity rows) }
    ensures hands { result.0.items ≡ hands.items ++ hands_at workers.items }
    ensures doors { result.1.items ≡ doors.items ++ doors_at workers.items }
    ensures rows { result.2.items ≡ rows.items ++ links_at workers.items }
    ensures count { (vec_len result.0 ≡ vec_len hands + vec_len workers)
        × (vec_len result.1 ≡ vec_len doors + vec_len workers)
        × (vec_len result.2 ≡ vec_len rows + vec_len workers) }
    ensures capacity { (vec_capacity result.0 ≡ vec_capacity hands)
        × (vec_capacity result.2 ≡ vec_capacity rows) }
{
    let mut hands = hands;
    let mut doors = doors;
    let mut rows = rows;
    for worker in workers {
        hands.push_reserved(worker.hand);
        doors.push_reserved(worker.door);
        rows.push_reserved(worker.links);
    }
    (hands, doors, rows)
}

/// These, and behind them the others.
fn joined<T: Drop>(first: Vec<T>, others: IntoIter<T>) -> Vec<T>
    requires { vec_len first + length (into_iter_items others) ≤ vec_capacity first }
    ensures all { result.items ≡ first.items ++ into_iter_items others }
    ensures count { vec_len result ≡ vec_len first + length (into_iter_items others) }
{
    let mut all = first;
    for other in others {
        all.push_reserved(other);
    }
    all
}

/// Puts hands, doors and rows of links back in their order: the hands of the passes, those of the workers, and
/// the others.
pub(crate) fn dismiss<X: Kinds>(
    back: Back<X>,
    rest: UnaskedOf<X>,
    hands: &mut Vec<X::T>,
    doors: &mut Vec<X::D>,
    rows: &mut Vec<Vec<X::L>>,
)
    requires first { vec_len back.hands ≡ rest.count + 2 }
    requires count { vec_len back.workers ≡ rest.count }
    ensures hands { hands.new.items ≡ back.hands.items
        ++ (hands_at back.workers.items ++ into_iter_items rest.other_hands) }
    ensures doors { doors.new.items ≡ doors_at back.workers.items }
    ensures rows { rows.new.items ≡ links_at back.workers.items ++ into_iter_items rest.other_rows }
    ensures all { vec_len hands.new
        ≡ vec_len back.hands + (rest.count + length (into_iter_items rest.other_hands)) }
    ensures count { vec_len doors.new ≡ rest.count }
    ensures all_rows { vec_len rows.new ≡ rest.count + length (into_iter_items rest.other_rows) }
{
    let Unasked {
        count: _,
        hands: room,
        other_hands,
        doors: doors_room,
        rows: rows_room,
        other_rows,
    } = rest;
    let mut first = back.hands;
    let mut front = room;
    let Ok(()) = front.append(&mut first) else {
        unreachable!()
    };
    let (front, served, links) = parts_of(back.workers, front, doors_room, rows_room);
    *hands = joined(front, other_hands);
    *doors = served;
    *rows = joined(links, other_rows);
}
