//! The room that heads and bodies are read into.

ghost use Rattle.std.specs.Prelude.{◌≡◌, ◌<◌, ◌≤◌, ◌-◌, [], length, take, drop, IfOk};
ghost use Rattle.std.specs.List.{list_any};
ghost use Rattle.http_wire.specs.Room.{AreLines, Fills, is_feed};
ghost use Rattle.http_wire.specs.Source.{ReadsStream};

use crate::limits::HEAD_LIMIT;
use crate::source::{ReadAnswer, Source};
use std::alloc::{AllocError, Global};
use std::marker::Model;

/// Bytes that came and weren't taken yet, as many as the longest head has at most. Contracts see it as
/// their list.
#[derive(Drop)]
pub struct Room {
    bytes: Vec<u8>,
    start: usize,
    end: usize,
}

impl Model for Room {
    ghost use Rattle.std.specs.Prelude.{◌≡◌, ◌≤◌, ℕ, List, drop, length, take};
    ghost use Rattle.http_wire.specs.declared.limits.TheConstants.{HEAD_LIMIT};

    ghost Value = { List ℕ };

    ghost view = { λ r. drop r.start (take r.end r.bytes.items) };

    ghost invariant = { λ r.
        (r.start ≤ r.end) × (r.end ≤ HEAD_LIMIT) × (length r.bytes.items ≡ HEAD_LIMIT) };
}

impl Room {
    /// An empty room. It takes all its memory here.
    pub fn new(alloc: Global) -> Result<Room, AllocError>
        ensures { IfOk result (λ room. room ≡ []) }
    {
        Ok(Room {
            bytes: vec![in alloc; 0; HEAD_LIMIT]?,
            start: 0,
            end: 0,
        })
    }

    /// What is held.
    pub fn held(&self) -> &[u8]
        ensures value { result.now ≡ self.now }
        ensures short { length self.now ≤ HEAD_LIMIT }
    {
        &self.bytes[self.start..self.end]
    }

    /// What is held up to the last line feed, and nothing where none is held.
    pub fn lines(&self) -> &[u8]
        ensures value { AreLines self.now result.now }
        ensures short { length result.now ≤ HEAD_LIMIT }
    {
        let held = self.held();
        &held[..lines_len(held)]
    }

    /// Whether a line feed is among so many bytes at the end.
    pub fn ends_line(&self, came: usize) -> bool
        requires { came ≤ length self.now }
        ensures { result ≡ list_any is_feed (drop (length self.now - came) self.now) }
    {
        let held = self.held();
        held[held.len() - came..].contains(&b'\n')
    }

    /// Takes so many bytes from the front.
    pub fn pass(&mut self, n: usize)
        requires { n ≤ length self.old }
        ensures { self.new ≡ drop n self.old }
    {
        self.start += n;
    }

    /// Reads some more bytes behind what is held.
    pub fn fill<S: Source>(&mut self, source: &mut S) -> ReadAnswer
        requires { length self.old < HEAD_LIMIT }
        ensures { Fills self.old (S.shows source.old) self.new (S.shows source.new) result }
    {
        let (answer, end) = fill_bytes(&mut self.bytes, self.start, self.end, source);
        self.start = 0;
        self.end = end;
        answer
    }
}

/// How many bytes there are up to the last line feed.
fn lines_len(bytes: &[u8]) -> usize
    ensures inside { result ≤ length bytes.now }
    ensures lines { AreLines bytes.now (take result bytes.now) }
{
    let mut end = bytes.len();
    while end > 0 && bytes[end - 1] != b'\n' {
        end -= 1;
    }
    end
}

/// Moves the held bytes to the front, and reads behind them.
fn fill_bytes<S: Source>(
    bytes: &mut [u8],
    start: usize,
    end: usize,
    source: &mut S,
) -> (ReadAnswer, usize)
    requires room { length bytes.old ≡ HEAD_LIMIT }
    requires held { (start ≤ end) × (end ≤ HEAD_LIMIT) }
    requires some { end - start < HEAD_LIMIT }
    ensures end { result.1 ≤ HEAD_LIMIT }
    ensures fills { Fills (drop start (take end bytes.old)) (S.shows source.old)
        (take result.1 bytes.new) (S.shows source.new) result.0 }
{
    let held = move_to_front(bytes, start, end);
    read_behind(bytes, held, source)
}

/// Reads behind the held bytes, and gives how many are held then.
fn read_behind<S: Source>(bytes: &mut [u8], held: usize, source: &mut S) -> (ReadAnswer, usize)
    requires room { length bytes.old ≡ HEAD_LIMIT }
    requires held { held < HEAD_LIMIT }
    ensures end { result.1 ≤ HEAD_LIMIT }
    ensures fills { Fills (take held bytes.old) (S.shows source.old)
        (take result.1 bytes.new) (S.shows source.new) result.0 }
{
    match read_more(bytes, held, source) {
        ReadAnswer::Bytes(n) => (ReadAnswer::Bytes(n), held + n),
        ReadAnswer::End => (ReadAnswer::End, held),
        ReadAnswer::Failed => (ReadAnswer::Failed, held),
    }
}

/// Moves bytes to the front, and gives how many they are.
fn move_to_front(room: &mut [u8], start: usize, end: usize) -> usize
    requires { (start ≤ end) × (end ≤ length room.old) }
    ensures count { result ≡ end - start }
    ensures front { take result room.new ≡ drop start (take end room.old) }
{
    if start == 0 {
        return end;
    }
    room.copy_within(start..end, 0);
    end - start
}

/// Reads into the room behind the held bytes.
fn read_more<S: Source>(room: &mut [u8], held: usize, source: &mut S) -> ReadAnswer
    requires { held < length room.old }
    ensures front { take held room.new ≡ take held room.old }
    ensures reads { ReadsStream (drop held room.new) (S.shows source.old) (S.shows source.new) result }
{
    let (_, free) = room.split_at_mut(held);
    source.read(free)
}
