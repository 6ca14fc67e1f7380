//! The stream of a connection that waits in the lobby while it is idle.

ghost use Rattle.std.specs.Prelude.{◌≡◌, ◌<◌, ◌≤◌, None, length};
ghost use Rattle.http_wire.specs.Sink.{TakesSome};
ghost use Rattle.http_wire.specs.Source.{GivesBytes};
ghost use Rattle.dbgd_edges.specs.Wires.{answer_with};
ghost use Rattle.http_wire.specs.declared.limits.TheConstants.{HEAD_LIMIT};

use crate::front::{Front, front_of};
use crate::lobby::{Lobby, Watch};
use crate::moment::{Moment, put_in_front, read_behind, read_moment};
use crate::outbox::Outbox;
use crate::parked::{Parked, Why};
use http_wire::{HEAD_LIMIT, ReadAnswer, WriteAnswer};
use std::alloc::Global;
use std::net::{Shutdown, TcpStream};
use std::sync::Arc;
use std::time::{Clock, Instant};

/// What is known of the bytes that come next.
#[derive(Clone, Copy, PartialEq, Eq)]
enum Stay {
    /// The lobby was told of bytes that weren't read yet.
    Ready,
    /// Nothing.
    Open,
    /// What came behind a head wasn't looked at yet.
    Behind,
    /// The last read ended since the connection is idle.
    Idle,
    /// No more is waited for.
    Over,
    /// No more is waited for, since the other side has ended.
    Ended,
}

/// The stream of a connection, with what came of the next head and what wasn't sent yet.
#[derive(Drop)]
pub struct Wire<R: Drop> {
    clock: R,
    lobby: Arc<Lobby>,
    stream: TcpStream,
    place: usize,
    outbox: Outbox,
    /// What came of the next head, or behind a head.
    begun: Vec<u8>,
    /// When the first byte of that head was read.
    first: Option<Instant>,
    stay: Stay,
    /// Whether the system tells the lobby of bytes that come.
    is_watched: bool,
    /// Whether bytes, or the end, may be there that it told of and that weren't read.
    has_more: bool,
    /// Whether it told that the other side has ended.
    is_ended: bool,
}

impl<R: Drop> Wire<R> {
    /// The stream of a connection that comes out of the lobby.
    pub fn new(
        alloc: Global,
        clock: R,
        lobby: Arc<Lobby>,
        parked: Parked,
        place: usize,
    ) -> Wire<R> {
        Wire {
            clock,
            lobby,
            stream: parked.stream,
            place,
            outbox: Outbox::new(alloc),
            begun: parked.begun,
            first: parked.first,
            stay: if parked.why == Why::Late {
                Stay::Over
            } else {
                Stay::Ready
            },
            is_watched: true,
            has_more: true,
            is_ended: parked.is_ended,
        }
    }
}

impl<R: Clock + Drop> Wire<R> {
    /// Reads some bytes, once what was held back is sent: a head, or what can be none. It ends where the
    /// connection is idle, or the next head isn't whole.
    pub fn read(&mut self, room: &mut [u8]) -> ReadAnswer
        requires { 0 < length room.old }
        ensures gives { GivesBytes room.new None None result }
    {
        if !self.outbox.flush(&mut self.stream) {
            return ReadAnswer::Failed;
        }
        let most = room.len().min(HEAD_LIMIT);
        let (room, _) = room.split_at_mut(most);
        self.read_next(room)
    }

    /// Reads what comes next, into a room that has no more than the longest head.
    fn read_next(&mut self, room: &mut [u8]) -> ReadAnswer
        requires some { 0 < length room.old }
        requires most { length room.old ≤ HEAD_LIMIT }
        ensures gives { GivesBytes room.new None None result }
    {
        match self.stay {
            Stay::Ready => self.read_more(room),
            Stay::Behind => self.give_behind(room),
            Stay::Over | Stay::Ended => self.give_rest(room),
            Stay::Open | Stay::Idle => {
                if self.lobby.is_wanted() {
                    self.be_idle()
                } else {
                    self.linger(room)
                }
            }
        }
    }

    /// Waits a moment for the next bytes, of which the lobby isn't told meanwhile: that would wake another
    /// worker.
    fn linger(&mut self, room: &mut [u8]) -> ReadAnswer
        requires some { 0 < length room.old }
        requires most { length room.old ≤ HEAD_LIMIT }
        ensures gives { GivesBytes room.new None None result }
    {
        if self.is_watched {
            self.is_watched = self.lobby.unwatch(&self.stream).is_err();
        }
        self.read_more(room)
    }

    /// Ends a read since the connection is idle.
    fn be_idle(&mut self) -> ReadAnswer
        ensures { result ≡ ReadAnswer.End }
    {
        self.stay = Stay::Idle;
        ReadAnswer::End
    }

    /// Looks at what came behind a head, and gives a head or what can be none.
    fn give_behind(&mut self, room: &mut [u8]) -> ReadAnswer
        requires most { length room.old ≤ HEAD_LIMIT }
        ensures gives { GivesBytes room.new None None result }
    {
        let known = put_in_front(room, self.begun.as_slice());
        match front_of(&room[..known]) {
            Front::Whole(len) => {
                self.forget(len);
                self.stay = if self.begun.is_empty() {
                    Stay::Open
                } else {
                    Stay::Behind
                };
                ReadAnswer::Bytes(len)
            }
            Front::Begun if known < room.len() => self.be_idle(),
            _ => self.give_over(known, Stay::Over),
        }
    }

    /// Lets go of so many bytes that were given.
    fn forget(&mut self, len: usize) {
        let len = len.min(self.begun.len());
        self.begun.drain(..len);
        if self.begun.is_empty() {
            self.first = None;
        }
    }

    /// Gives the bytes that stand in front of the room, or the end where there are none. No more is
    /// waited for.
    fn give_over(&mut self, known: usize, stay: Stay) -> ReadAnswer
        ensures { result ≡ answer_with known }
    {
        self.forget(known);
        self.stay = stay;
        if known == 0 {
            ReadAnswer::End
        } else {
            ReadAnswer::Bytes(known)
        }
    }

    /// Gives what is left, where no more is waited for.
    fn give_rest(&mut self, room: &mut [u8]) -> ReadAnswer
        ensures gives { GivesBytes room.new None None result }
    {
        let known = put_in_front(room, self.begun.as_slice());
        self.give_over(known, self.stay)
    }

    /// Reads behind what came of the next head.
    fn read_more(&mut self, room: &mut [u8]) -> ReadAnswer
        requires some { 0 < length room.old }
        requires most { length room.old ≤ HEAD_LIMIT }
        ensures gives { GivesBytes room.new None None result }
    {
        let known = put_in_front(room, self.begun.as_slice());
        if known == room.len() {
            return self.give_over(known, Stay::Over);
        }
        let moment = read_behind(&mut self.stream, room, known);
        self.has_more = moment == Moment::Bytes(room.len() - known);
        match moment {
            Moment::Bytes(n) => self.take_in(room, known, known + n),
            Moment::End => self.give_over(known, Stay::Ended),
            Moment::Nothing => self.be_idle(),
            Moment::Broken => ReadAnswer::Failed,
        }
    }

    /// Gives the head in front of the bytes that stand in the room, or what can be none, and keeps what
    /// comes of another.
    fn take_in(&mut self, room: &[u8], known: usize, whole: usize) -> ReadAnswer
        requires known { known ≤ whole }
        requires some { 0 < whole }
        requires whole { whole ≤ length room.now }
        requires most { length room.now ≤ HEAD_LIMIT }
        ensures gives { GivesBytes room.now None None result }
    {
        match front_of(&room[..whole]) {
            Front::Whole(len) => self.take_head(&room[..whole], len),
            Front::Begun if whole < room.len() && self.keeps(&room[known..whole]) => {
                self.be_idle()
            }
            _ => self.give_over(whole, Stay::Over),
        }
    }

    /// Keeps bytes of the next head. Gives whether there is memory for them, and that head may still take
    /// its time.
    fn keeps(&mut self, bytes: &[u8]) -> bool {
        let now = Instant::now(&self.clock).ok();
        self.first = self.first.or(now);
        let is_late = match (self.first, now) {
            (Some(first), Some(now)) => self.lobby.is_late(first, now),
            _ => false,
        };
        !is_late && self.begun.extend_from_slice(bytes).is_ok()
    }

    /// Gives a head of so many bytes, and keeps what came behind it, of which the next head's time
    /// begins. Where there is no memory for that, it gives all, and no more is waited for.
    fn take_head(&mut self, bytes: &[u8], len: usize) -> ReadAnswer
        requires some { 0 < len }
        requires within { len ≤ length bytes.now }
        ensures gives { GivesBytes bytes.now None None result }
    {
        self.begun.clear();
        self.first = None;
        if len < bytes.len() && !self.keeps(&bytes[len..]) {
            return self.give_over(bytes.len(), Stay::Over);
        }
        self.stay = if self.begun.is_empty() {
            Stay::Open
        } else {
            Stay::Behind
        };
        ReadAnswer::Bytes(len)
    }

    /// Takes some bytes from the front.
    pub fn write(&mut self, bytes: &[u8]) -> WriteAnswer
        requires { 0 < length bytes.now }
        ensures { TakesSome bytes.now result }
    {
        if self.stay == Stay::Idle {
            self.stay = Stay::Open;
        }
        self.outbox.write(&self.stream, bytes)
    }

    /// Hands the connection back to the lobby, where it waits for bytes, or is shut and waits for the
    /// other side. What was held back is sent first.
    pub fn finish(self) {
        let mut wire = self;
        let is_sent = wire.outbox.flush(&mut wire.stream);
        let is_kept = is_sent && wire.is_kept();
        match Instant::now(&wire.clock) {
            Ok(now) if is_kept => wire.park(now),
            _ => wire.lobby.give_up(wire.stream, wire.place),
        }
    }

    /// Whether the connection is to stand in the lobby: it is idle, or it is shut now and the other side
    /// hasn't ended.
    fn is_kept(&mut self) -> bool {
        match self.stay {
            Stay::Idle => true,
            Stay::Ended => false,
            _ => self.stream.shutdown(Shutdown::Write).is_ok() && !self.is_left(),
        }
    }

    /// Whether the other side ends within a moment, for which is waited where no worker is wanted elsewhere.
    fn is_left(&mut self) -> bool {
        if self.lobby.is_wanted() {
            return false;
        }
        let moment = read_moment(&mut self.stream, &mut [0; 4096]);
        moment == Moment::End || moment == Moment::Broken
    }

    /// Of which bytes the system is to tell now. A read that gave fewer than it had room for gave all that
    /// were there, and the system tells by itself of those that come behind them.
    fn watch(&self) -> Watch {
        if !self.is_watched {
            Watch::Begins
        } else if self.stay != Stay::Idle || self.has_more || self.is_ended {
            Watch::Anew
        } else {
            Watch::GoesOn
        }
    }

    /// Puts the connection into the lobby.
    fn park(self, now: Instant) {
        let watch = self.watch();
        let (why, begun) = if self.stay == Stay::Idle {
            (Why::Idle, self.begun)
        } else {
            (Why::Shut, self.begun)
        };
        let parked = Parked::new(self.stream, begun, self.first, now, why);
        self.lobby.park(parked, self.place, watch);
    }
}
