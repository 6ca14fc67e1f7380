//! Servers whose doors fail.

use crate::runs::hands::Files::Two;
use crate::runs::rig::{Run, SOUND};
use crate::runs::serves_replies::NO_ROUTE;
use crate::runs::serves_rig::{around, door, hands, has_ended, is_answered, serve};
use http_wire::{Door, DoorAnswer, DoorSaid, MemConn, MemDoor};
use std::alloc::Global;
use std::process::Abort;
use std::sync::Wait;
use tree_trait::NoGate;

/// A door in memory whose accept of one number fails, counted from 0.
#[derive(Drop)]
struct Failing {
    door: MemDoor,
    bad_accept: u64,
    accepts: u64,
    last: Option<DoorSaid>,
    faults: u64,
}

impl Door for Failing {
    ghost use Rattle.std.specs.Prelude.{None};

    type Conn = MemConn;

    ghost shows = { λ d. record { last = d.last; calls = None; faults = d.faults } };

    fn accept<Rt: Wait + Sync>(&mut self, rt: &Rt) -> DoorAnswer<MemConn> {
        let faults = self.faults;
        let is_bad = self.accepts == self.bad_accept;
        self.accepts = self.accepts.saturating_add(1);
        let answer = if is_bad {
            DoorAnswer::Failed
        } else {
            self.door.accept(rt)
        };
        self.last = Some(answer.said());
        self.faults = match &answer {
            DoorAnswer::Failed => faults.saturating_add(1),
            DoorAnswer::Came(_) | DoorAnswer::Closed => faults,
        };
        answer
    }

    fn ended(&mut self, conn: MemConn) {
        self.door.ended(conn);
    }
}

/// A door with two connections that ask for no route, whose accept of this number fails.
fn failing_at(rt: &impl Abort, alloc: Global, bad_accept: u64) -> Failing {
    Failing {
        door: door(
            rt,
            alloc,
            &["GET /a HTTP/1.1\r\n\r\n", "GET /b HTTP/1.1\r\n\r\n"],
        ),
        bad_accept,
        accepts: 0,
        last: None,
        faults: 0,
    }
}

/// What is said where the first door fails at once. The other one is served, and the second pass is made.
static RUN: Run = Run(
    &["serve", "-d", "m", "-c", "2", "-t", "7", "/srv"],
    b"serving on 8002 with 2 workers\n\
        scan: 2 files, 2 added, 0 replaced, 0 dropped, 0 kept, 1 executables, 1 debuginfo\n\
        scan: 2 files, 0 added, 0 replaced, 0 dropped, 2 kept, 1 executables, 1 debuginfo\n",
    "dbgd: fault door\n",
    1,
);

// A door's accepts are those of its two connections, and the one that says that none comes any more.
#[test]
fn a_door_that_fails_is_told_and_the_other_is_served(rt: HostRuntime) {
    let alloc = rt.alloc();
    let first = failing_at(&rt, alloc, 0);
    let doors = vec![in alloc; first, failing_at(&rt, alloc, 3)].expect(&rt, "memory");
    let hands = hands(&rt, alloc, &Two, 6);
    let mut server = around(&rt, alloc, hands, doors, NoGate, &SOUND, 1);
    serve(&rt, alloc, &mut server, &RUN, &[7, 7]);
    for (failing, count) in server.doors.iter().zip(&[0, 2]) {
        has_ended(&rt, &failing.door, *count);
        for place in 0..*count {
            is_answered(&rt, &failing.door, place, NO_ROUTE);
        }
    }
}
