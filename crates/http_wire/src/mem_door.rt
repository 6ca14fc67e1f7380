//! A door in memory.

ghost use Rattle.std.specs.Prelude.{◌≡◌, ◌∷◌, None, Some, []};
ghost use Rattle.std.specs.Option.{option_copied};
ghost use Rattle.http_wire.specs.Door.{Accepts, TakesConnectionBack, arrivals};
ghost use Rattle.http_wire.specs.MemConn.{shown_conn};
ghost use Rattle.http_wire.specs.MemDoor.{after_conn, door_call_of, is_arrived, next_conn, shown_door};
ghost use Rattle.http_wire.specs.Told.{Gains};

use crate::door::{Door, DoorAnswer, DoorSaid};
use crate::mem_conn::MemConn;
use std::alloc::Global;
use std::collections::VecDeque;
use std::marker::Model;
use std::snapshot::Snapshot;
use std::sync::Wait;

/// A call of a door in memory that gave a connection or took one back. Contracts see what that showed
/// then, too.
#[derive(Drop)]
pub struct MemDoorCall {
    is_arrival: bool,
    conn: Snapshot<MemConn>,
}

impl Model for MemDoorCall {
    ghost use Rattle.http_wire.specs.Door.{DoorCall};
    ghost use Rattle.http_wire.specs.MemDoor.{door_call_of};

    ghost Value = { DoorCall };

    ghost view = { λ c. door_call_of c.is_arrival c.conn.value };
}

impl MemDoorCall {
    /// Whether a connection came, and wasn't taken back.
    pub fn is_arrival(&self) -> bool
        ensures { result ≡ is_arrived self.now }
    {
        self.is_arrival
    }
}

/// A door in memory: it gives its connections in order, and then says that none comes any more.
/// Where memory for one that is taken back is refused, those that ended aren't told from then on, and
/// where memory for a call is, the calls aren't. Contracts see it as the connections to come, those that
/// ended, the calls and the last answer.
#[derive(Drop)]
pub struct MemDoor {
    waiting: VecDeque<MemConn>,
    ended: Option<Vec<MemConn>>,
    calls: Option<Vec<MemDoorCall>>,
    last: Option<DoorSaid>,
}

impl Model for MemDoor {
    ghost use Rattle.std.specs.Option.{option_map};
    ghost use Rattle.http_wire.specs.MemDoor.{DoorFacts};

    ghost Value = { DoorFacts };

    ghost view = { λ d. record {
      waiting = d.waiting.items;
      ended = option_map (λ v. v.items) d.ended;
      calls = option_map (λ v. v.items) d.calls;
      last = d.last;
    } };
}

impl MemDoor {
    /// A door that gives these connections, in order.
    pub fn new(alloc: Global, conns: Vec<MemConn>) -> MemDoor
        ensures { result ≡ record { waiting = conns.items; ended = Some []; calls = Some []; last = None } }
    {
        MemDoor {
            waiting: VecDeque::from(conns),
            ended: Some(Vec::new(alloc)),
            calls: Some(Vec::new(alloc)),
            last: None,
        }
    }

    /// The connections that were taken back, in order, where they are told.
    pub fn ended_conns(&self) -> Option<&[MemConn]>
        ensures { option_copied result ≡ self.now.ended }
    {
        self.ended.as_ref().map(|ended| ended.as_slice())
    }

    /// The calls that gave a connection or took one back, in order, where they are told.
    pub fn calls(&self) -> Option<&[MemDoorCall]>
        ensures { option_copied result ≡ self.now.calls }
    {
        self.calls.as_ref().map(|calls| calls.as_slice())
    }

    /// The last answer, where one was given.
    pub fn last(&self) -> Option<DoorSaid>
        ensures { result ≡ self.now.last }
    {
        self.last
    }

    // The next answer.
    fn next(&mut self) -> DoorAnswer<MemConn>
        ensures exact { result ≡ next_conn self.old.waiting }
        ensures state { self.new ≡ record (after_conn self.old self.old.waiting) { calls = self.new.calls } }
        ensures told { Gains self.old.calls (arrivals shown_conn result) self.new.calls }
    {
        match self.waiting.pop_front() {
            Some(conn) => {
                self.last = Some(DoorSaid::Came);
                self.note(true, &conn);
                DoorAnswer::Came(conn)
            }
            None => {
                self.last = Some(DoorSaid::Closed);
                DoorAnswer::Closed
            }
        }
    }

    // One call more.
    fn note(&mut self, is_arrival: bool, conn: &MemConn)
        ensures gains { Gains self.old.calls (door_call_of is_arrival conn.now ∷ []) self.new.calls }
        ensures same { self.new ≡ record self.old { calls = self.new.calls } }
    {
        let conn = Snapshot::of(conn);
        if let Some(calls) = &mut self.calls
            && calls.push(MemDoorCall { is_arrival, conn }).is_err()
        {
            self.calls = None;
        }
    }
}

impl Door for MemDoor {
    type Conn = MemConn;

    ghost shows = { shown_door };

    fn accept<Rt: Wait + Sync>(&mut self, _rt: &Rt) -> DoorAnswer<MemConn>
        ensures accepts { Accepts shown_conn (shown_door self.old) result (shown_door self.new) }
        ensures exact { result ≡ next_conn self.old.waiting }
        ensures state { self.new ≡ record (after_conn self.old self.old.waiting) { calls = self.new.calls } }
    {
        self.next()
    }

    fn ended(&mut self, conn: MemConn)
        ensures takes_back { TakesConnectionBack (shown_conn conn) (shown_door self.old) (shown_door self.new) }
        ensures gains { Gains self.old.ended (conn ∷ []) self.new.ended }
        ensures same { self.new ≡ record self.old { ended = self.new.ended; calls = self.new.calls } }
    {
        self.note(false, &conn);
        if let Some(ended) = &mut self.ended
            && ended.push(conn).is_err()
        {
            self.ended = None;
        }
    }
}
