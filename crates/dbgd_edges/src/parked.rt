//! A connection that no worker holds.

use crate::lobby_limits::LobbyLimits;
use std::net::TcpStream;
use std::time::{Duration, Instant};

/// Why no worker holds a connection.
#[derive(Clone, Copy, PartialEq, Eq)]
pub enum Why {
    /// It is idle, or its next head isn't whole.
    Idle,
    /// Its head has taken too long.
    Late,
    /// It was shut, and what still comes is read away.
    Shut,
}

/// What becomes of a connection that stands in the lobby.
#[derive(Clone, Copy, PartialEq, Eq)]
pub enum Lot {
    /// It stays.
    Stays,
    /// It is closed.
    Ends,
    /// A worker gives the head that isn't whole to its reader.
    IsLate,
}

/// A connection that no worker holds.
#[derive(Drop)]
pub struct Parked {
    pub stream: TcpStream,
    /// What came of its next head.
    pub begun: Vec<u8>,
    /// When the first byte of that head was read.
    pub first: Option<Instant>,
    /// Since when it stands there.
    pub since: Instant,
    pub why: Why,
    /// Whether a worker is to take it.
    pub is_told: bool,
    /// Whether the system told that its other side has ended.
    pub is_ended: bool,
}

/// Whether a time that began then is over.
pub fn is_over(start: Instant, now: Instant, millis: u64) -> bool {
    now.duration_since(start) >= Duration::from_millis(millis)
}

impl Parked {
    /// A connection that stands in the lobby from now on.
    pub fn new(
        stream: TcpStream,
        begun: Vec<u8>,
        first: Option<Instant>,
        now: Instant,
        why: Why,
    ) -> Parked {
        let first = if begun.is_empty() {
            None
        } else {
            Some(first.unwrap_or(now))
        };
        Parked {
            stream,
            begun,
            first,
            since: now,
            why,
            is_told: false,
            is_ended: false,
        }
    }

    /// What becomes of it by now. One that a worker is to take stays, whose reads say whether its head is
    /// late.
    pub fn lot(&self, now: Instant, limits: &LobbyLimits) -> Lot {
        match (self.why, self.first) {
            _ if self.is_told => Lot::Stays,
            (Why::Idle, Some(first)) if is_over(first, now, limits.head_millis) => Lot::IsLate,
            (Why::Idle, None) if is_over(self.since, now, limits.idle_millis) => Lot::Ends,
            (Why::Shut, _) if is_over(self.since, now, limits.shut_millis) => Lot::Ends,
            _ => Lot::Stays,
        }
    }

    /// Whether bytes came that no one read.
    pub fn has_news(&self) -> bool {
        if self.why == Why::Shut || self.stream.set_nonblocking(true).is_err() {
            return false;
        }
        let came = self.stream.peek(&mut [0; 1]);
        let is_back = self.stream.set_nonblocking(false).is_ok();
        is_back && matches!(came, Ok(1))
    }

    /// Its stream alone.
    pub fn into_stream(self) -> TcpStream {
        self.stream
    }
}
