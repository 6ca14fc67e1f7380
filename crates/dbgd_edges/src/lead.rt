//! What a worker without work has: the listening socket, and the wait for all connections.

ghost use Rattle.std.specs.Prelude.{◌≡◌, true, None, IfOk};
ghost use Rattle.dbgd_edges.specs.Numbers.{ArePinnedBatches};

use crate::accept_fault::AcceptFault;
use crate::lobby::{LISTENER, Lobby};
use mio::unix::SourceFd;
use mio::{Events, Interest, Poll, Token};
use std::alloc::Global;
use std::io;
use std::net::{Net, OpenListener, TcpStream};
use std::os::fd::AsRawFd;
use std::time::{Clock, Duration, Instant};

/// How many connections are told of at a time, at most.
pub const BATCH: usize = 64;

/// How many connections are accepted in a row, at most.
pub const ACCEPTS: u32 = 64;

/// Milliseconds until those that stand too long are looked for.
pub const SWEEP_MILLIS: u64 = 250;

/// The lead of a lobby. One worker at a time has it.
#[derive(Drop)]
pub struct Lead<L: Drop> {
    listener: L,
    poll: Poll,
    events: Events<Global>,
    /// One that was accepted, and for which there was no room.
    comer: Option<TcpStream>,
    /// Whether connections may wait to be accepted.
    is_accepting: bool,
    /// When those were last looked for that stand too long.
    swept: Option<Instant>,
}

impl<L: AsRawFd + Drop> Lead<L> {
    /// The lead over a listening socket that waits for nothing.
    pub fn new<R: Net>(net: &R, alloc: Global, listener: L) -> io::Result<Lead<L>>
        ensures listener { IfOk result (λ lead. lead.listener ≡ listener) }
        ensures fresh { IfOk result (λ lead. (lead.comer ≡ None) × (lead.is_accepting ≡ true)
            × (lead.swept ≡ None)) }
    {
        let poll = Poll::new(net)?;
        let fd = listener.as_raw_fd();
        poll.registry()
            .register(&mut SourceFd(&fd), Token(LISTENER), Interest::READABLE)?;
        Ok(Lead {
            listener,
            poll,
            events: Events::with_capacity(alloc, BATCH)?,
            comer: None,
            is_accepting: true,
            swept: None,
        })
    }
}

impl<L: Drop> Lead<L> {
    /// What is waited for.
    pub fn poll(&self) -> &Poll {
        &self.poll
    }

    /// Has those taken that have bytes, and notes whether connections wait to be accepted.
    fn hand_out(&mut self, lobby: &Lobby) {
        if !self.events.is_empty() && lobby.hear(&self.events) {
            self.is_accepting = true;
        }
    }

    /// Has those looked for that stand too long, each quarter of a second.
    fn sweep<C: Clock>(&mut self, lobby: &Lobby, clock: &C) {
        let Ok(now) = Instant::now(clock) else {
            return;
        };
        let moment = Duration::from_millis(SWEEP_MILLIS);
        let is_due = self
            .swept
            .is_none_or(|then| now.duration_since(then) >= moment);
        if is_due {
            self.swept = Some(now);
            lobby.sweep(now);
        }
    }

    /// Waits until bytes or a connection came, for a quarter of a second.
    fn wait<C: Clock>(&mut self, lobby: &Lobby, clock: &C) -> Result<(), AcceptFault>
        ensures { ArePinnedBatches }
    {
        let most = if self.is_accepting { 0 } else { SWEEP_MILLIS };
        self.poll
            .poll(&mut self.events, Some(Duration::from_millis(most)))?;
        self.hand_out(lobby);
        self.sweep(lobby, clock);
        Ok(())
    }
}

impl<L: OpenListener<Stream = TcpStream> + Drop> Lead<L> {
    /// The next connection that waits to be accepted.
    fn comer(&mut self) -> Result<TcpStream, AcceptFault> {
        if let Some(stream) = self.comer.take() {
            return Ok(stream);
        }
        let (stream, _) = self.listener.accept()?;
        Ok(stream)
    }

    /// Accepts some connections, while there is room. Gives whether more may wait.
    fn accept<C: Clock>(&mut self, lobby: &Lobby, clock: &C) -> Result<bool, AcceptFault> {
        for _ in 0..ACCEPTS {
            let stream = match self.comer() {
                Ok(stream) => stream,
                Err(AcceptFault::NoneWaits) => return Ok(false),
                Err(fault) => return Err(fault),
            };
            if !lobby.make_place() {
                self.comer = Some(stream);
                return Ok(true);
            }
            admit(lobby, clock, stream)?;
        }
        Ok(true)
    }

    /// Accepts what waits for that, and waits until a connection is to be taken, for a moment.
    pub fn turn<C: Clock>(&mut self, lobby: &Lobby, clock: &C) -> Result<(), AcceptFault> {
        if self.is_accepting {
            self.is_accepting = self.accept(lobby, clock)?;
        }
        self.wait(lobby, clock)
    }
}

/// Takes in a connection that was accepted.
fn admit<C: Clock>(lobby: &Lobby, clock: &C, stream: TcpStream) -> Result<(), AcceptFault> {
    lobby.admit(clock, stream).map_err(|_| AcceptFault::Aborted)
}
