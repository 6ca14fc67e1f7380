//! The connections that no worker holds.

use crate::hall::Hall;
use crate::lobby_limits::LobbyLimits;
use crate::parked::{Parked, Why, is_over};
use crate::stream_call::make_waiting;
use mio::unix::SourceFd;
use mio::{Events, Interest, Registry, Token};
use std::alloc::Global;
use std::io::{self, ErrorKind, Read};
use std::net::TcpStream;
use std::os::fd::{AsRawFd, RawFd};
use std::sync::atomic::{AtomicUsize, Ordering};
use std::sync::{Mutex, MutexGuard};
use std::thread;
use std::time::{Clock, Instant};

/// How often the places are tried, which are never held for long.
const HALL_TRIES: u32 = 1_000_000;

/// The token of the listening socket.
pub const LISTENER: usize = usize::MAX;

/// Of which bytes of a connection the system is to tell.
#[derive(Clone, Copy, PartialEq, Eq)]
pub enum Watch {
    /// Of those that are there and of those that come, from now on.
    Begins,
    /// The same, once more.
    Anew,
    /// Of those that come, as before.
    GoesOn,
}

/// The connections that no worker holds, one for all doors of a run.
#[derive(Drop)]
pub struct Lobby {
    alloc: Global,
    limits: LobbyLimits,
    registry: Registry,
    hall: Mutex<Hall>,
    /// How many workers wait for a connection.
    free: AtomicUsize,
    /// How many connections a worker is to take.
    ready: AtomicUsize,
}

impl Lobby {
    /// A lobby in which no one stands, over the sources that are waited for.
    pub fn new(alloc: Global, limits: LobbyLimits, registry: Registry) -> Lobby {
        Lobby {
            alloc,
            limits,
            registry,
            hall: Mutex::new(Hall::new(alloc)),
            free: AtomicUsize::new(0),
            ready: AtomicUsize::new(0),
        }
    }

    /// Whether a worker that waits for its client is wanted elsewhere.
    pub fn is_wanted(&self) -> bool {
        self.free.load(Ordering::SeqCst) == 0 || self.ready.load(Ordering::SeqCst) > 0
    }

    /// Whether a head that began then has taken too long by now.
    pub fn is_late(&self, first: Instant, now: Instant) -> bool {
        is_over(first, now, self.limits.head_millis)
    }

    /// A worker waits for a connection from now on.
    pub fn enter(&self) {
        self.free.fetch_add(1, Ordering::SeqCst);
    }

    /// A worker no longer waits for a connection.
    pub fn leave(&self) {
        self.free.fetch_sub(1, Ordering::SeqCst);
    }

    /// The places, for a moment. None where no try had them.
    fn hall(&self) -> Option<MutexGuard<'_, Hall>> {
        for _ in 0..HALL_TRIES {
            if let Some(hall) = self.hall.try_lock() {
                return Some(hall);
            }
            thread::yield_now();
        }
        None
    }

    /// Has the system tell of its bytes.
    fn watch(&self, fd: RawFd, place: usize, watch: Watch) -> io::Result<()> {
        let mut source = SourceFd(&fd);
        match watch {
            Watch::Begins => self
                .registry
                .register(&mut source, Token(place), Interest::READABLE),
            Watch::Anew => self
                .registry
                .reregister(&mut source, Token(place), Interest::READABLE),
            Watch::GoesOn => Ok(()),
        }
    }

    /// Has it no longer told of bytes that come.
    pub fn unwatch(&self, stream: &TcpStream) -> io::Result<()> {
        let fd = stream.as_raw_fd();
        self.registry.deregister(&mut SourceFd(&fd))
    }

    /// Takes a connection in, for which another one is closed where there are too many. Where there is no
    /// room for what came of its head, it is closed itself. Where the system told of it while a worker had
    /// it, that is to tell once more. It is asked while the places are held: behind that another worker may
    /// have the connection, and its number be another's.
    pub fn park(&self, parked: Parked, place: usize, watch: Watch) {
        let fd = parked.stream.as_raw_fd();
        let Some(mut hall) = self.hall() else {
            return;
        };
        let _ = hall.make_place(&self.limits);
        let has_room = hall.make_byte_room(&self.limits, parked.begun.capacity() as u64);
        let is_missed = hall.put(place, parked);
        let watch = if is_missed && watch == Watch::GoesOn {
            Watch::Anew
        } else {
            watch
        };
        if !has_room || self.watch(fd, place, watch).is_err() {
            hall.close(place);
        }
        self.count(&hall);
    }

    /// Counts the connections that a worker is to take.
    fn count(&self, hall: &Hall) {
        self.ready.store(hall.ready(), Ordering::SeqCst);
    }

    /// Closes a connection that a worker holds.
    pub fn give_up(&self, stream: TcpStream, place: usize) {
        drop(stream);
        if let Some(mut hall) = self.hall() {
            hall.free_place(place);
        }
    }

    /// Takes in a connection that was accepted. One that can't be made ready is gone.
    pub fn admit<C: Clock>(&self, clock: &C, stream: TcpStream) -> io::Result<()> {
        make_waiting(&stream)?;
        let now = Instant::now(clock)?;
        let place = self.place()?;
        let parked = Parked::new(stream, Vec::new(self.alloc), None, now, Why::Idle);
        self.park(parked, place, Watch::Begins);
        Ok(())
    }

    /// A free place.
    fn place(&self) -> io::Result<usize> {
        match self.hall() {
            Some(mut hall) => Ok(hall.take_place()?),
            None => Err(io::Error::from(ErrorKind::WouldBlock)),
        }
    }

    /// Makes room for a connection. Gives whether there is: there is none where a worker is to take each one
    /// that stands here.
    pub fn make_place(&self) -> bool {
        match self.hall() {
            Some(mut hall) => {
                let has_place = hall.make_place(&self.limits);
                self.count(&hall);
                has_place
            }
            None => false,
        }
    }

    /// Closes the connection that stands here longest. Gives whether there was one.
    pub fn close_oldest(&self) -> bool {
        match self.hall() {
            Some(mut hall) => {
                let is_closed = hall.close_oldest(false);
                self.count(&hall);
                is_closed
            }
            None => false,
        }
    }

    /// Has workers take the connections of which the system tells. Gives whether it tells of the listening
    /// socket.
    pub fn hear(&self, events: &Events<Global>) -> bool {
        let Some(mut hall) = self.hall() else {
            return true;
        };
        let mut has_comers = false;
        for event in events.iter() {
            let Token(place) = event.token();
            if place == LISTENER {
                has_comers = true;
            } else {
                hall.hear(place, event.is_read_closed());
            }
        }
        self.count(&hall);
        has_comers
    }

    /// Closes those that stand here too long, and has those taken whose heads are late.
    pub fn sweep(&self, now: Instant) {
        if let Some(mut hall) = self.hall() {
            hall.sweep(now, &self.limits);
            self.count(&hall);
        }
    }

    /// The next connection that a worker is to take, and its place.
    pub fn next(&self) -> Option<(Parked, usize)> {
        if self.ready.load(Ordering::SeqCst) == 0 {
            return None;
        }
        let mut hall = self.hall()?;
        let next = hall.next();
        self.count(&hall);
        next
    }

    /// Reads away what comes on a connection that was shut.
    pub fn drain(&self, parked: Parked, place: usize) {
        let mut parked = parked;
        match parked.stream.read(&mut [0; 4096]) {
            Ok(n) if n > 0 => self.park_again(parked, place),
            Err(error) if error.kind() == ErrorKind::WouldBlock => self.park_again(parked, place),
            _ => self.give_up(parked.into_stream(), place),
        }
    }

    /// Takes a connection back that was shut, which stands here as long as it did.
    fn park_again(&self, parked: Parked, place: usize) {
        let mut parked = parked;
        parked.is_told = false;
        self.park(parked, place, Watch::Anew);
    }
}
