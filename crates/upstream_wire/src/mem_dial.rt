//! A dial in memory.

ghost use Rattle.std.specs.Prelude.{◌≡◌, ◌∷◌, [], Some, IfOk};
ghost use Rattle.std.specs.Option.{option_copied};
ghost use Rattle.http_wire.specs.Told.{Gains};
ghost use Rattle.upstream_wire.specs.Dial.{Connects, TakesDialledBack, dialled};
ghost use Rattle.upstream_wire.specs.MemDial.{GivesConn, counted, given_of, shown_dial, shown_dialled};

use crate::dial::{Dial, DialAnswer};
use crate::dial_conn::DialConn;
use http_wire::MemConn;
use row_types::Faults;
use std::alloc::{AllocError, Global};
use std::collections::VecDeque;
use std::marker::Model;
use std::snapshot::Snapshot;
use std::sync::Wait;

/// A host and a port that were asked for, and got a connection. Contracts see it as these, with what
/// the connection showed as it came.
#[derive(Drop)]
pub struct AskedHost {
    host: String,
    port: u16,
    conn: Snapshot<MemConn>,
}

impl Model for AskedHost {
    ghost use Rattle.std.specs.String.{string_bytes};
    ghost use Rattle.upstream_wire.specs.Dial.{GivenConn};
    ghost use Rattle.upstream_wire.specs.MemDial.{given_of};

    ghost Value = { GivenConn };

    ghost view = { λ a. given_of (string_bytes a.host) a.port a.conn.value };
}

impl AskedHost {
    /// A host and a port that get this connection.
    fn new(alloc: Global, host: &str, port: u16, conn: &MemConn) -> Result<AskedHost, AllocError>
        ensures { IfOk result (λ asked. asked ≡ given_of host.now port conn.now) }
    {
        Ok(AskedHost {
            host: String::from_str(alloc, host)?,
            port,
            conn: Snapshot::of(conn),
        })
    }

    /// The host.
    pub fn host(&self) -> &str
        ensures { result.now ≡ self.now.host }
    {
        self.host.as_str()
    }

    /// The port.
    pub fn port(&self) -> u16
        ensures { result ≡ self.now.port }
    {
        self.port
    }
}

/// A dial in memory: it gives its connections in order, and then fails. Where memory for one that is
/// taken back is refused, those that ended aren't told from then on. Contracts see it as the
/// connections to come, those that were given, those that ended and the count of faults.
#[derive(Drop)]
pub struct MemDial {
    waiting: VecDeque<MemConn>,
    asked: Vec<AskedHost>,
    ended: Option<Vec<DialConn>>,
    faults: Faults,
}

impl Model for MemDial {
    ghost use Rattle.std.specs.Option.{option_map};
    ghost use Rattle.upstream_wire.specs.MemDial.{DialFacts};

    ghost Value = { DialFacts };

    ghost view = { λ d. record {
      waiting = d.waiting.items;
      given = d.asked.items;
      ended = option_map (λ v. v.items) d.ended;
      faults = d.faults;
    } };
}

impl MemDial {
    /// A dial that gives these connections, in order.
    pub fn new(alloc: Global, conns: Vec<MemConn>) -> MemDial
        ensures { result ≡ record { waiting = conns.items; given = []; ended = Some []; faults = 0 } }
    {
        MemDial {
            waiting: VecDeque::from(conns),
            asked: Vec::new(alloc),
            ended: Some(Vec::new(alloc)),
            faults: Faults::new(),
        }
    }

    /// The hosts and ports that got a connection, in order.
    pub fn asked(&self) -> &[AskedHost]
        ensures { result.now ≡ self.now.given }
    {
        self.asked.as_slice()
    }

    /// The connections that were taken back, in order, where they are told.
    pub fn ended_conns(&self) -> Option<&[DialConn]>
        ensures { option_copied result ≡ self.now.ended }
    {
        self.ended.as_ref().map(|ended| ended.as_slice())
    }

    /// How often it has failed.
    pub fn count(&self) -> u64
        ensures { result ≡ self.now.faults }
    {
        self.faults.count()
    }

    // The next answer.
    fn next(&mut self, alloc: Global, host: &str, port: u16) -> DialAnswer<DialConn>
        ensures { GivesConn self.old host.now port result self.new self.old.waiting }
    {
        let asked = match self.waiting.front() {
            Some(conn) => AskedHost::new(alloc, host, port, conn),
            None => {
                self.faults.raise();
                return DialAnswer::Failed;
            }
        };
        let Ok(asked) = asked else {
            return DialAnswer::OutOfMemory;
        };
        if self.asked.push(asked).is_err() {
            return DialAnswer::OutOfMemory;
        }
        match self.waiting.pop_front() {
            Some(conn) => DialAnswer::Connected(DialConn::new(conn)),
            None => unreachable!(),
        }
    }
}

impl Dial for MemDial {
    type Conn = DialConn;

    ghost shows = { shown_dial };

    fn connect<Rt: Wait>(
        &mut self,
        _rt: &Rt,
        alloc: Global,
        host: &str,
        port: u16,
    ) -> DialAnswer<DialConn>
        ensures connects { Connects (shown_dial self.old) host.now port (dialled shown_dialled result) (shown_dial self.new) }
        ensures gives { GivesConn self.old host.now port result self.new self.old.waiting }
    {
        self.next(alloc, host, port)
    }

    fn ended(&mut self, conn: DialConn)
        ensures takes_back { TakesDialledBack (shown_dial self.old) (shown_dialled conn) (shown_dial self.new) }
        ensures gains { Gains self.old.ended (conn ∷ []) self.new.ended }
        ensures same { self.new ≡ record self.old { ended = self.new.ended; faults = counted self.old.faults conn } }
    {
        self.faults.add(conn.failed_reads());
        self.faults.add(conn.failed_writes());
        if let Some(ended) = &mut self.ended
            && ended.push(conn).is_err()
        {
            self.ended = None;
        }
    }
}
