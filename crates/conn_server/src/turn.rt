//! One request of a connection.

ghost use Rattle.std.specs.Prelude.{◌≡◌, false};
ghost use Rattle.index_lock.specs.Tokens.{IsLater};
ghost use Rattle.conn_server.specs.Objects.{StayLent, setting_by, stage_by};
ghost use Rattle.conn_server.specs.Plans.{CanPlan, CarriesOut, PlansNext, turn_plan};
ghost use Rattle.conn_server.specs.Tallied.{HasRowIn};
ghost use Rattle.conn_server.specs.Stage.{wire_of};
ghost use Rattle.conn_server.specs.Turns.{Turns, end_by_fault, turn_by};

use crate::buffers::Buffers;
use crate::counting::count_sent;
use crate::objects::Objects;
use crate::plan::{ReplyPlan, plan_for};
use crate::report::{ConnEnd, Served};
use crate::send::send;
use crate::send_fault::SendFault;
use crate::service::Service;
use dbgd_metrics::{Book, Share};
use federation::Link;
use http_wire::{HeadReader, ReplyFault, Sink, Source};
use index_desk::Desk;
use index_keeper::Keeper;
use row_types::Truth;
use std::alloc::Global;
use std::sync::Wait;
use tree_trait::{Gate, Tree};

/// What came of one request.
#[derive(Drop)]
pub(crate) enum ConnTurn {
    /// It was answered, and the connection goes on.
    Replied(Served),
    /// It was answered, and the connection ends.
    Last(Served, ConnEnd),
    /// It wasn't answered, or not whole, and the connection ends.
    Ended(ConnEnd),
}

/// Reads the next request and answers it. The last one of a connection is answered with a reply
/// that closes. It is counted once its reply was written whole.
pub(crate) fn next_turn<
    'd,
    W: Truth,
    K: Keeper<W>,
    T: Tree<W>,
    L: Link,
    N: Source + Sink,
    G: Gate,
    R: Wait + Sync,
>(
    service: &Service<'_, G, R>,
    desk: Desk<'d, W, K>,
    objects: &mut Objects<'_, T, L>,
    last: bool,
    buffers: &mut Buffers,
    conn: &mut N,
) -> (Desk<'d, W, K>, ConnTurn)
    requires open { buffers.old.reader.over ≡ false }
    ensures later { IsLater desk.entry.seat result.0.seat }
    ensures same { StayLent objects.old objects.new }
    ensures turn { Turns (setting_by W.true_row T.told W.version T.shows service.now.folders.now objects.old) last
        (stage_by L.shows desk.entry.seat objects.old)
        (wire_of (N.shows conn.old) buffers.old.reader) result.1
        (stage_by L.shows result.0.seat objects.new)
        (wire_of (N.shows conn.new) buffers.new.reader) }
{
    let (desk, plan) = plan_next(service, desk, objects, last, &mut buffers.reader, conn);
    let turn = carry_out(
        service.alloc,
        objects.book,
        objects.hand,
        objects.share,
        conn,
        &mut buffers.piece,
        plan,
    );
    (desk, turn)
}

/// Reads the next request, and says what is to be done about it.
fn plan_next<
    'd,
    W: Truth,
    K: Keeper<W>,
    T: Tree<W>,
    L: Link,
    N: Source + Sink,
    G: Gate,
    R: Wait + Sync,
>(
    service: &Service<'_, G, R>,
    desk: Desk<'d, W, K>,
    objects: &mut Objects<'_, T, L>,
    last: bool,
    reader: &mut HeadReader,
    conn: &mut N,
) -> (Desk<'d, W, K>, ReplyPlan<T::File>)
    ensures later { IsLater desk.entry.seat result.0.seat }
    ensures same { StayLent objects.old objects.new }
    ensures plans { PlansNext (setting_by W.true_row T.told W.version T.shows service.now.folders.now objects.old)
        (stage_by L.shows desk.entry.seat objects.old) reader.old last
        (N.shows conn.old) (turn_plan T.opened result.1)
        (stage_by L.shows result.0.seat objects.new) reader.new (N.shows conn.new) }
    ensures can { CanPlan W.version (turn_plan T.opened result.1) }
{
    let answer = reader.next(conn);
    plan_for(service, desk, objects, last, &answer)
}

/// Does what is to be done. A request is counted once its reply was written whole.
fn carry_out<W: Truth, T: Tree<W>, N: Sink>(
    alloc: Global,
    book: &Book,
    hand: &mut T,
    share: &mut Share,
    conn: &mut N,
    room: &mut Vec<u8>,
    plan: ReplyPlan<T::File>,
) -> ConnTurn
    requires can { CanPlan W.version (turn_plan T.opened plan) }
    requires share { HasRowIn book.now share.old }
    ensures share { HasRowIn book.now share.new }
    ensures does { CarriesOut (record { told = T.told; version = W.version; start = T.shows hand.old })
        (turn_plan T.opened plan) share.old (N.shows conn.old) result share.new (T.shows hand.new)
        (N.shows conn.new) }
{
    match plan {
        ReplyPlan::End(end) => ConnTurn::Ended(end),
        ReplyPlan::Reply { decided, form, end } => {
            let sent = send(alloc, hand, conn, room, decided, form);
            count_sent(book, share, &sent);
            turn_by(sent, form.close, end)
        }
    }
}

/// What came of a request, by what is told of its reply.
fn turn_by(sent: Result<Served, SendFault>, close: bool, end: ConnEnd) -> ConnTurn
    ensures { result ≡ turn_by sent close end }
{
    match sent {
        Ok(served) => {
            if close {
                ConnTurn::Last(served, end)
            } else {
                ConnTurn::Replied(served)
            }
        }
        Err(fault) => ConnTurn::Ended(end_by(fault)),
    }
}

/// How a connection ends where a reply wasn't written whole.
fn end_by(fault: SendFault) -> ConnEnd
    ensures { result ≡ end_by_fault fault }
{
    match fault {
        SendFault::Reply(ReplyFault::OutOfMemory) => ConnEnd::OutOfMemory,
        SendFault::Reply(ReplyFault::WriteFault) => ConnEnd::WriteFault,
        SendFault::Body(why) => ConnEnd::BodyFault(why),
    }
}
