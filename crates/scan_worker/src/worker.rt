//! One worker of a pass.

ghost use Rattle.std.specs.Prelude.{◌≡◌};
ghost use Rattle.index_desk.specs.Ends.{EndsShow};
ghost use Rattle.scan_worker.specs.Ends.{uncounted};
ghost use Rattle.scan_worker.specs.Turns.{LoadsListed};
ghost use Rattle.scan_worker.specs.Works.{Works, WorksOn};

use crate::read::{NameRead, read_name};
use crate::tally::{Tally, WorkReport};
use crate::turn::{Turn, hand_in};
use index_desk::{Desk, Ground, WorkEnd};
use index_keeper::Keeper;
use index_lock::{Seat, TurnLock};
use index_state::State;
use row_types::{Name, Truth};
use std::alloc::Global;
use std::sync::Wait;
use tree_trait::{Gate, Point, Reader, Tree};

/// Works on the pass of an index until no name is left to be handed out: takes a name, opens its
/// file and reads the parts that its row rests on while the lock is free, and hands in its row, or
/// that it was missed. The gate is passed before each opening, and after each row that was added or
/// replaced.
pub fn work<W: Truth, K: Keeper<W>, T: Tree<W>, R: Reader<W>, G: Gate, Rt: Wait + Sync>(
    rt: &Rt,
    alloc: Global,
    lock: &TurnLock<State<W, K>>,
    seat: Seat<State<W, K>>,
    hand: T,
    reader: &R,
    gate: &G,
) -> (Seat<State<W, K>>, T, WorkReport)
    requires { seat.lock ≡ lock.now }
    ensures { Works T.told W.version seat (T.shows hand) result.0 (T.shows result.1) result.2 }
{
    let ground = Ground {
        rt,
        alloc,
        reader,
        gate,
    };
    let mut seat = seat;
    let mut hand = hand;
    let mut tally = Tally::new();
    for _ in rt.forever() {
        let (desk, end) = work_once(ground, Desk { lock, seat }, &mut hand, &mut tally);
        let Desk {
            lock: _,
            seat: next,
        } = desk;
        seat = next;
        if let Some(end) = end {
            return (seat, hand, tally.report(end));
        }
    }
    unreachable!()
}

/// Works on one name, if one is left. Says whether the work ends.
fn work_once<'a, W: Truth, K: Keeper<W>, T: Tree<W>, R: Reader<W>, G: Gate, Rt: Wait + Sync>(
    ground: Ground<'_, R, G, Rt>,
    desk: Desk<'a, W, K>,
    hand: &mut T,
    tally: &mut Tally,
) -> (Desk<'a, W, K>, Option<WorkEnd>)
    ensures works { WorksOn T.told W.version desk.entry.seat (T.shows hand.old) tally.old
        result.0.seat (T.shows hand.new) tally.new (uncounted result.1) }
    ensures ends { EndsShow result.1 result.0.seat.seen }
{
    let (desk, name) = desk.take(ground.rt);
    let Some(name) = name else {
        return (desk, Some(WorkEnd::Empty));
    };
    ground.gate.at(ground.rt, &Point::Loading(name.path.text()));
    let read = ask_for(ground, hand, tally, &name);
    let (desk, turn) = hand_in(ground, desk, &name, read);
    if turn == Turn::Published {
        ground
            .gate
            .at(ground.rt, &Point::Published(name.path.text()));
    }
    (desk, tally.count_turn(turn))
}

/// Opens a listed file and reads it, and counts the opening.
fn ask_for<W: Truth, T: Tree<W>, R: Reader<W>, G, Rt>(
    ground: Ground<'_, R, G, Rt>,
    hand: &mut T,
    tally: &mut Tally,
    name: &Name,
) -> NameRead<W>
    ensures { LoadsListed T.told W.version name.now (T.shows hand.old) (T.shows hand.new) tally.old
        tally.new result }
{
    let read = read_name(ground.alloc, hand, ground.reader, name);
    tally.count_load(&read);
    read
}
