//! A door of a lobby.

ghost use Rattle.std.specs.Prelude.{◌≡◌, ◌≤◌, None};
ghost use Rattle.std.specs.Option.{option_map};
ghost use Rattle.row_types.specs.Faults.{HasCause};
ghost use Rattle.http_wire.specs.Door.{said_of};
ghost use Rattle.dbgd_edges.specs.Accepts.{accept_counted, accept_said};
ghost use Rattle.dbgd_edges.specs.Numbers.{ArePinnedAccepts};

use crate::accept_fault::AcceptFault;
use crate::lead::Lead;
use crate::lobby::Lobby;
use crate::lobby_conn::LobbyConn;
use crate::parked::{Parked, Why};
use crate::wire::Wire;
use http_wire::{Door, DoorAnswer, DoorSaid};
use row_types::Faults;
use std::alloc::Global;
use std::net::{OpenListener, TcpListener, TcpStream};
use std::sync::{Arc, Mutex, Wait};
use std::thread;
use std::time::{Clock, Duration};

/// Milliseconds until an accept is tried again for which no descriptor was left.
pub const ACCEPT_MILLIS: u64 = 100;

/// One of the doors of a lobby: each connection that has bytes comes to one of them. It tells its last
/// answer alone, and counts each error of the system, also one that it takes itself. The clock is the
/// one by which it waits.
#[derive(Drop)]
pub struct LobbyDoor<R: Drop, L: Drop = TcpListener> {
    clock: R,
    alloc: Global,
    lobby: Arc<Lobby>,
    lead: Arc<Mutex<Lead<L>>>,
    last: Option<DoorSaid>,
    faults: Faults,
}

/// What a door answers where no connection came, if the accept isn't to be tried again.
fn answer_of<C: Drop>(fault: AcceptFault) -> Option<DoorAnswer<C>>
    ensures { option_map said_of result ≡ accept_said fault }
{
    match fault.said()? {
        DoorSaid::Closed => Some(DoorAnswer::Closed),
        DoorSaid::Came | DoorSaid::Failed => Some(DoorAnswer::Failed),
    }
}

impl<R: Drop, L: Drop> LobbyDoor<R, L> {
    /// A door that gave no answer yet and hasn't failed.
    pub fn new(
        clock: R,
        alloc: Global,
        lobby: Arc<Lobby>,
        lead: Arc<Mutex<Lead<L>>>,
    ) -> LobbyDoor<R, L>
        ensures clock { result.clock ≡ clock }
        ensures last { result.last ≡ None }
        ensures faults { result.faults ≡ 0 }
    {
        LobbyDoor {
            clock,
            alloc,
            lobby,
            lead,
            last: None,
            faults: Faults::new(),
        }
    }

    /// How often the door has failed.
    pub fn count(&self) -> u64
        ensures { result ≡ self.now.faults }
    {
        self.faults.count()
    }

    /// Counts why no connection came.
    fn count_fault(&mut self, fault: AcceptFault)
        ensures value { self.new.faults ≡ accept_counted fault self.old.faults }
        ensures later { self.old.faults ≤ self.new.faults }
    {
        if fault.is_counted() {
            self.faults.raise();
        }
    }
}

impl<R: Clock + Copy + Drop, L: OpenListener<Stream = TcpStream> + Drop> LobbyDoor<R, L> {
    /// The connection that came out of the lobby. One that was shut is read away.
    fn conn_of(&self, parked: Parked, place: usize) -> Option<LobbyConn<R>> {
        if parked.why == Why::Shut {
            self.lobby.drain(parked, place);
            return None;
        }
        let lobby = Arc::try_clone(&self.lobby).ok()?;
        let wire = Wire::new(self.alloc, self.clock, lobby, parked, place);
        Some(LobbyConn::new(wire))
    }

    /// Waits for a connection that is to be taken, for a moment.
    fn look<Rt: Wait>(&self, rt: &Rt) -> Result<Option<(Parked, usize)>, AcceptFault> {
        if let Some(next) = self.lobby.next() {
            return Ok(Some(next));
        }
        let mut lead = self.lead.lock(rt);
        match self.lobby.next() {
            Some(next) => Ok(Some(next)),
            None => {
                lead.turn(&*self.lobby, &self.clock)?;
                Ok(self.lobby.next())
            }
        }
    }

    /// Waits until what is scarce may be there again.
    fn wait_out(&self, fault: AcceptFault) {
        if fault.is_waited_out() && !self.lobby.close_oldest() {
            thread::sleep(&self.clock, Duration::from_millis(ACCEPT_MILLIS));
        }
    }

    /// The next connection. An accept that gave none for a passing reason is tried again.
    fn next<Rt: Wait>(&mut self, rt: &Rt) -> DoorAnswer<LobbyConn<R>>
        ensures cause { HasCause self.old.faults self.new.faults
            (said_of result ≡ DoorSaid.Failed) }
        ensures pause { ArePinnedAccepts }
    {
        for _ in rt.forever() {
            match self.look(rt) {
                Ok(None) => {}
                Ok(Some((parked, place))) => {
                    if let Some(conn) = self.conn_of(parked, place) {
                        return DoorAnswer::Came(conn);
                    }
                }
                Err(fault) => {
                    self.count_fault(fault);
                    if let Some(answer) = answer_of(fault) {
                        return answer;
                    }
                    self.wait_out(fault);
                }
            }
        }
        unreachable!()
    }
}

impl<R: Clock + Copy + Send + Drop, L: OpenListener<Stream = TcpStream> + Send + Drop> Door
    for LobbyDoor<R, L> {
    ghost use Rattle.std.specs.Prelude.{None};

    type Conn = LobbyConn<R>;

    ghost shows = { λ d. record { last = d.last; calls = None; faults = d.faults } };

    fn accept<Rt: Wait + Sync>(&mut self, rt: &Rt) -> DoorAnswer<LobbyConn<R>> {
        self.lobby.enter();
        let answer = self.next(rt);
        self.lobby.leave();
        self.last = Some(answer.said());
        answer
    }

    fn ended(&mut self, conn: LobbyConn<R>) {
        conn.finish();
    }
}
