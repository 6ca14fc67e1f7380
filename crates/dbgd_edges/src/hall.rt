//! The places of a lobby.

ghost use Rattle.std.specs.Prelude.{◌≡◌, ◌+◌, ◌-◌, ◌^◌, ◌≤◌, ◌∷◌, [], false, None, Some, length, min, slice_index_or, slice_set, IfSome};
ghost use Rattle.std.specs.Bool.{OnTrue};
ghost use Rattle.dbgd_edges.specs.Halls.{KeepsOtherPlaces, conn_at};

use crate::lobby_limits::LobbyLimits;
use crate::parked::{Lot, Parked, Why};
use std::alloc::{AllocError, Global};
use std::collections::VecDeque;
use std::mem;
use std::time::Instant;

/// How many connections are asked for news before one is closed.
const ASKED: u32 = 64;

/// How many connections are closed at a time, at most.
const CLOSED: u32 = 64;

/// The places of the connections. A connection keeps its place until it is closed.
#[derive(Drop)]
pub struct Hall {
    rows: Vec<Option<Parked>>,
    /// Of which places the system told while a worker had the connection.
    missed: Vec<bool>,
    free: Vec<usize>,
    /// The places of the connections that a worker is to take, in order.
    ready: VecDeque<usize>,
    /// How many connections stand here.
    conns: u64,
    /// How many bytes of heads that aren't whole are held.
    bytes: u64,
}

impl Hall {
    /// A hall without places.
    pub fn new(alloc: Global) -> Hall
        ensures places { (result.rows.items ≡ []) × (result.free.items ≡ []) × (result.ready.items ≡ []) }
        ensures counts { (result.conns ≡ 0) × (result.bytes ≡ 0) }
    {
        Hall {
            rows: Vec::new(alloc),
            missed: Vec::new(alloc),
            free: Vec::new(alloc),
            ready: VecDeque::new(alloc),
            conns: 0,
            bytes: 0,
        }
    }

    /// How many connections a worker is to take.
    pub fn ready(&self) -> usize
        ensures { result ≡ length self.now.ready.items }
    {
        self.ready.len()
    }

    /// A free place. There is memory from then on to free it, and to tell of it.
    pub fn take_place(&mut self) -> Result<usize, AllocError>
        ensures counts { (self.new.conns ≡ self.old.conns) × (self.new.bytes ≡ self.old.bytes) }
    {
        if let Some(place) = self.free.pop() {
            return Ok(place);
        }
        let place = self.rows.len();
        self.missed.push(false)?;
        self.rows.push(None)?;
        self.free.reserve(self.rows.len())?;
        self.ready.reserve(self.rows.len())?;
        Ok(place)
    }

    /// Gives a place back.
    pub fn free_place(&mut self, place: usize)
        ensures rows { self.new.rows.items ≡ self.old.rows.items }
        ensures ready { self.new.ready.items ≡ self.old.ready.items }
        ensures counts { (self.new.conns ≡ self.old.conns) × (self.new.bytes ≡ self.old.bytes) }
    {
        let _ = self.free.push(place);
    }

    /// Puts a connection at its place. Gives whether the system told of it while a worker had it.
    pub fn put(&mut self, place: usize, parked: Parked) -> bool
        ensures rows { self.new.rows.items ≡ slice_set self.old.rows.items place (Some parked) }
        ensures missed { result ≡ slice_index_or self.old.missed.items place false }
        ensures noted { self.new.missed.items ≡ slice_set self.old.missed.items place false }
        ensures free { self.new.free.items ≡ self.old.free.items }
        ensures ready { self.new.ready.items ≡ self.old.ready.items }
    {
        self.fill(place, parked);
        if place < self.missed.len() {
            mem::replace(&mut self.missed[place], false)
        } else {
            false
        }
    }

    /// Puts a connection at its place, and counts it.
    fn fill(&mut self, place: usize, parked: Parked)
        ensures rows { self.new.rows.items ≡ slice_set self.old.rows.items place (Some parked) }
        ensures missed { self.new.missed.items ≡ self.old.missed.items }
        ensures free { self.new.free.items ≡ self.old.free.items }
        ensures ready { self.new.ready.items ≡ self.old.ready.items }
    {
        let held = parked.begun.capacity() as u64;
        if place < self.rows.len() {
            self.rows[place] = Some(parked);
            self.conns = self.conns.saturating_add(1);
            self.bytes = self.bytes.saturating_add(held);
        }
    }

    /// Takes out what stands at a place.
    fn take(&mut self, place: usize) -> Option<Parked>
        ensures stood { result ≡ conn_at self.old.rows.items place }
        ensures rows { self.new.rows.items ≡ slice_set self.old.rows.items place None }
        ensures ready { self.new.ready.items ≡ self.old.ready.items }
        ensures conns { self.new.conns ≤ self.old.conns }
    {
        if place >= self.rows.len() {
            return None;
        }
        let parked = self.rows[place].take()?;
        self.conns = self.conns.saturating_sub(1);
        self.bytes = self.bytes.saturating_sub(parked.begun.capacity() as u64);
        Some(parked)
    }

    /// Closes the connection at a place.
    pub fn close(&mut self, place: usize)
        ensures rows { self.new.rows.items ≡ slice_set self.old.rows.items place None }
        ensures ready { self.new.ready.items ≡ self.old.ready.items }
        ensures conns { self.new.conns ≤ self.old.conns }
    {
        if self.take(place).is_some() {
            self.free_place(place);
        }
    }

    /// Has a worker take the connection at a place, if one stands there.
    pub fn tell(&mut self, place: usize)
        ensures others { KeepsOtherPlaces place self.old.rows.items self.new.rows.items }
        ensures counts { (self.new.conns ≡ self.old.conns) × (self.new.bytes ≡ self.old.bytes) }
    {
        if place >= self.rows.len() {
            return;
        }
        if let Some(parked) = &mut self.rows[place] {
            if !parked.is_told && self.ready.push_back(place).is_ok() {
                parked.is_told = true;
            }
        }
    }

    /// Has a worker take the connection at a place of which the system told, or notes that it did while
    /// a worker has it.
    pub fn hear(&mut self, place: usize, is_ended: bool)
        ensures others { KeepsOtherPlaces place self.old.rows.items self.new.rows.items }
        ensures counts { (self.new.conns ≡ self.old.conns) × (self.new.bytes ≡ self.old.bytes) }
    {
        if self.note_end(place, is_ended) {
            self.tell(place);
        } else if let Some(is_missed) = self.missed.get_mut(place) {
            *is_missed = true;
        }
    }

    /// Notes that the other side of the connection at a place has ended, where it has. Gives whether one
    /// stands there.
    fn note_end(&mut self, place: usize, is_ended: bool) -> bool
        ensures others { KeepsOtherPlaces place self.old.rows.items self.new.rows.items }
        ensures counts { (self.new.conns ≡ self.old.conns) × (self.new.bytes ≡ self.old.bytes) }
    {
        if place >= self.rows.len() {
            return false;
        }
        match &mut self.rows[place] {
            Some(parked) => {
                parked.is_ended = parked.is_ended || is_ended;
                true
            }
            None => false,
        }
    }

    /// The next connection that a worker is to take, and its place.
    pub fn next(&mut self) -> Option<(Parked, usize)>
        ensures first { IfSome result (λ given. self.old.ready.items ≡ given.1 ∷ self.new.ready.items) }
        ensures stood { IfSome result (λ given. conn_at self.old.rows.items given.1 ≡ Some given.0) }
        ensures rows { IfSome result (λ given. self.new.rows.items
            ≡ slice_set self.old.rows.items given.1 None) }
    {
        let place = self.ready.pop_front()?;
        Some((self.take(place)?, place))
    }

    /// Closes those that stand here too long, and has those taken whose heads are late.
    pub fn sweep(&mut self, now: Instant, limits: &LobbyLimits)
        ensures { self.new.conns ≤ self.old.conns }
    {
        for place in 0..self.rows.len() {
            match self.lot(place, now, limits) {
                Lot::Stays => {}
                Lot::Ends => self.close(place),
                Lot::IsLate => self.tell(place),
            }
        }
    }

    /// What becomes of what stands at a place.
    fn lot(&mut self, place: usize, now: Instant, limits: &LobbyLimits) -> Lot
        ensures others { KeepsOtherPlaces place self.old.rows.items self.new.rows.items }
        ensures counts { (self.new.conns ≡ self.old.conns) × (self.new.bytes ≡ self.old.bytes) }
    {
        if place >= self.rows.len() {
            return Lot::Stays;
        }
        let Some(parked) = &mut self.rows[place] else {
            return Lot::Stays;
        };
        let lot = parked.lot(now, limits);
        if lot == Lot::IsLate {
            parked.why = Why::Late;
        }
        lot
    }

    /// The place of the connection that stands here longest and that no worker is to take: of all, or
    /// of those with a head that isn't whole.
    fn oldest(&self, is_for_bytes: bool) -> Option<usize> {
        let mut oldest: Option<(usize, Instant)> = None;
        for (place, row) in self.rows.iter().enumerate() {
            if let Some(parked) = row {
                let is_older = oldest.is_none_or(|(_, since)| parked.since < since);
                if is_older && !parked.is_told && !(is_for_bytes && parked.begun.is_empty()) {
                    oldest = Some((place, parked.since));
                }
            }
        }
        oldest.map(|(place, _)| place)
    }

    /// Whether bytes came at a place that no one read.
    fn has_news(&self, place: usize) -> bool {
        match self.rows.get(place) {
            Some(Some(parked)) => parked.has_news(),
            _ => false,
        }
    }

    /// Closes the connection that stands here longest, of those whose next request hasn't come. Gives
    /// whether there was one.
    pub fn close_oldest(&mut self, is_for_bytes: bool) -> bool
        ensures { self.new.conns ≤ self.old.conns }
    {
        for _ in 0..ASKED {
            let Some(place) = self.oldest(is_for_bytes) else {
                return false;
            };
            if !self.has_news(place) {
                self.close(place);
                return true;
            }
            self.tell(place);
        }
        false
    }

    /// Makes room for one connection more. Gives whether there is.
    pub fn make_place(&mut self, limits: &LobbyLimits) -> bool
        ensures { self.new.conns ≤ self.old.conns }
    {
        self.conns < limits.conns || self.close_oldest(false)
    }

    /// Makes room for so many bytes more of heads that aren't whole. Gives whether there is.
    pub fn make_byte_room(&mut self, limits: &LobbyLimits, held: u64) -> bool
        ensures conns { self.new.conns ≤ self.old.conns }
        ensures room { OnTrue result (min (self.new.bytes + held) (2 ^ 64 - 1) ≤ limits.now.bytes) }
    {
        for _ in 0..CLOSED {
            if self.bytes.saturating_add(held) <= limits.bytes {
                return true;
            }
            if !self.close_oldest(true) {
                return false;
            }
        }
        false
    }
}
