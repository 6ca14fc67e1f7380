//! What stands in the system's place: a listening socket whose first accepts fail, a stream that
//! answers by a list, a clock whose time goes on in its sleeps alone, and names with addresses.

ghost use Rattle.std.specs.Prelude.{◌≤◌, IfOk, length};

use std::io::{Error, Read, Result, Write};
use std::net::{Ipv4Addr, Net, OpenListener, OpenStream, SocketAddr, TcpListener, TcpStream};
use std::os::fd::{AsRawFd, RawFd};
use std::sync::atomic::{AtomicU64, Ordering};
use std::time::{Clock, Duration};

/// A listening socket whose first accepts fail with the errors of these numbers.
#[derive(Drop)]
pub struct Stumbling {
    pub listener: TcpListener,
    pub numbers: &'static [i32],
    pub accepts: AtomicU64,
}

impl OpenListener for Stumbling {
    type Stream = TcpStream;

    fn accept(&self) -> Result<(TcpStream, SocketAddr)> {
        let at = self.accepts.fetch_add(1, Ordering::SeqCst);
        match self.numbers.get(at as usize) {
            Some(number) => Err(Error::from_raw_os_error(*number)),
            None => self.listener.accept(),
        }
    }
}

impl AsRawFd for Stumbling {
    fn as_raw_fd(&self) -> RawFd {
        self.listener.as_raw_fd()
    }
}

/// A stream whose reads and writes move as many bytes as its list says, or fail with the error
/// whose number stands there with a sign. Behind the list they move none.
#[derive(Drop)]
pub struct Scripted {
    pub answers: Vec<i32>,
    pub calls: usize,
}

impl Scripted {
    /// What the next call does, which has room for so many bytes.
    fn next(&mut self, room: usize) -> Result<usize>
        ensures { IfOk result (λ n. n ≤ room) }
    {
        let answer = self.answers.get(self.calls).copied().unwrap_or(0);
        self.calls = self.calls.saturating_add(1);
        if answer < 0 {
            return Err(Error::from_raw_os_error(answer.saturating_neg()));
        }
        Ok(room.min(answer.unsigned_abs() as usize))
    }
}

impl Read for Scripted {
    fn read(&mut self, buf: &mut [u8]) -> Result<usize> {
        self.next(buf.len())
    }
}

impl Write for Scripted {
    fn write(&mut self, buf: &[u8]) -> Result<usize> {
        self.next(buf.len())
    }

    fn flush(&mut self) -> Result<()> {
        Ok(())
    }
}

impl OpenStream for Scripted {
    fn set_nodelay(&self, _nodelay: bool) -> Result<()> {
        Ok(())
    }

    fn set_read_timeout(&self, _dur: Option<Duration>) -> Result<()> {
        Ok(())
    }

    fn set_write_timeout(&self, _dur: Option<Duration>) -> Result<()> {
        Ok(())
    }
}

/// A clock whose time goes on in its sleeps alone, in each by no more than a limit.
#[derive(Drop)]
pub struct Napping {
    pub slept: AtomicU64,
    pub most: u64,
    pub broken: bool,
}

impl Napping {
    /// A clock that no one slept by, whose sleeps have this limit in milliseconds.
    pub fn new(most: u64) -> Napping {
        Napping {
            slept: AtomicU64::new(0),
            most,
            broken: false,
        }
    }

    /// Milliseconds of sleep.
    pub fn slept(&self) -> u64 {
        self.slept.load(Ordering::SeqCst)
    }
}

impl Clock for Napping {
    fn monotonic(&self) -> Result<Duration> {
        if self.broken {
            return Err(Error::from_raw_os_error(22));
        }
        Ok(Duration::from_millis(self.slept()))
    }

    fn since_1970(&self) -> Result<Duration> {
        self.monotonic()
    }

    fn sleep(&self, duration: Duration) {
        let time = u64::try_from(duration.as_millis()).unwrap_or(u64::MAX);
        self.slept.fetch_add(time.min(self.most), Ordering::SeqCst);
    }
}

/// The sockets of this machine, where each name leads to these ports of it, in order, or a look-up
/// fails with the error of this number.
#[derive(Clone, Copy)]
pub struct Named<'a> {
    pub rt: HostRuntime,
    pub ports: &'a [u16],
    pub refusal: Option<i32>,
}

impl<'a> Net for Named<'a> {
    type Stream = TcpStream;

    type Listener = TcpListener;

    fn bind(&self, addr: SocketAddr) -> Result<TcpListener> {
        self.rt.bind(addr)
    }

    fn connect(&self, addr: SocketAddr) -> Result<TcpStream> {
        self.rt.connect(addr)
    }

    fn connect_timeout(&self, addr: SocketAddr, timeout: Duration) -> Result<TcpStream> {
        self.rt.connect_timeout(addr, timeout)
    }

    fn lookup_host(&self, _host: &str, _port: u16, found: &mut [SocketAddr]) -> Result<usize>
        ensures in_bounds { IfOk result (λ n. n ≤ length found.new) }
    {
        if let Some(number) = self.refusal {
            return Err(Error::from_raw_os_error(number));
        }
        for (slot, port) in found.iter_mut().zip(self.ports) {
            *slot = SocketAddr::from((Ipv4Addr::LOCALHOST, *port));
        }
        Ok(found.len().min(self.ports.len()))
    }
}

impl<'a> Clock for Named<'a> {
    fn monotonic(&self) -> Result<Duration> {
        self.rt.monotonic()
    }

    fn since_1970(&self) -> Result<Duration> {
        self.rt.since_1970()
    }
}
