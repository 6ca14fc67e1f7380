//! Known bytes of a file that stand one behind the other.

ghost use Rattle.std.specs.Prelude.{◌≡◌, ◌+◌, ◌-◌, ◌<◌, ◌≤◌, ◌^◌, ◌++◌, length, drop, nat_le, IfOk, OnOk, OnErr, MatchOption};
ghost use Rattle.file_formats.specs.Numbers.{bytes_at};
ghost use Rattle.file_picture.specs.Picture.{PieceFacts, piece_end};
ghost use Rattle.file_picture.specs.Pieces.{piece_of, put_before, put_behind};

use std::alloc::{AllocError, Global};
use std::marker::Model;

/// Bytes of a file, and the place of the first. Contracts see it as a record of the two.
#[derive(Drop)]
pub struct Piece {
    /// Bytes from the file's start.
    at: u64,
    /// How many of the kept bytes come before the piece's own: room for bytes that are put before
    /// these, so that many of them don't move all that is behind each time.
    room: usize,
    kept: Vec<u8>,
}

impl Model for Piece {
    ghost use Rattle.std.specs.Prelude.{drop};
    ghost use Rattle.file_picture.specs.Picture.{PieceFacts};
    ghost use Rattle.file_picture.specs.Pieces.{IsPiece};

    ghost Value = { PieceFacts };

    ghost view = { λ p. record { at = p.at; bytes = drop p.room p.kept.items } };

    ghost invariant = { λ p. IsPiece p.at p.room p.kept.items };
}

impl Piece {
    /// The piece of these bytes.
    pub fn new(at: u64, bytes: Vec<u8>) -> Piece
        requires { at + length bytes.items < 2 ^ 64 }
        ensures { result ≡ piece_of at bytes.items }
    {
        Piece {
            at,
            room: 0,
            kept: bytes,
        }
    }

    /// Where the piece begins, in bytes from the file's start.
    pub fn at(&self) -> u64
        ensures { result ≡ self.now.at }
    {
        self.at
    }

    /// Whether the piece begins at a place or before it.
    pub fn begins_by(&self, place: u64) -> bool
        ensures { result ≡ nat_le self.now.at place }
    {
        self.at <= place
    }

    /// The bytes.
    pub fn bytes(&self) -> &[u8]
        ensures { result.now ≡ self.now.bytes }
    {
        &self.kept[self.room..]
    }

    /// How many bytes the piece has.
    pub fn len(&self) -> u64
        ensures value { result ≡ length self.now.bytes }
        ensures fits { piece_end self.now < 2 ^ 64 }
    {
        (self.kept.len() - self.room) as u64
    }

    /// Where the piece ends, in bytes from the file's start.
    pub fn end(&self) -> u64
        ensures value { result ≡ piece_end self.now }
        ensures fits { piece_end self.now < 2 ^ 64 }
    {
        self.at + self.len()
    }

    /// The bytes of a range that doesn't begin before the piece, where it has them all.
    pub fn slice(&self, at: u64, len: u64) -> Option<&[u8]>
        requires { self.now.at ≤ at }
        ensures { MatchOption result (piece_end self.now < at + len) (λ bytes.
            (at + len ≤ piece_end self.now)
            × (bytes.now ≡ bytes_at self.now.bytes (at - self.now.at) len)) }
    {
        part(self.bytes(), at - self.at, len)
    }

    /// Puts bytes behind those of the piece.
    pub fn append(&mut self, bytes: &[u8]) -> Result<(), AllocError>
        requires { piece_end self.old + length bytes.now < 2 ^ 64 }
        ensures ok { OnOk result (self.new ≡ put_behind self.old bytes.now) }
        ensures err { OnErr result (self.new ≡ self.old) }
    {
        self.kept.extend_from_slice(bytes)
    }

    /// Puts bytes before those of the piece.
    pub fn prepend(&mut self, bytes: &[u8]) -> Result<(), AllocError>
        requires { length bytes.now ≤ self.old.at }
        ensures ok { OnOk result (self.new ≡ put_before bytes.now self.old) }
        ensures err { OnErr result (self.new ≡ self.old) }
    {
        if self.room < bytes.len() {
            let room = bytes.len().max(self.bytes().len());
            let alloc = *self.kept.allocator();
            self.kept = with_room(alloc, room, &self.kept[self.room..])?;
            self.room = room;
        }
        write_before(&mut self.kept, self.room, bytes);
        self.room -= bytes.len();
        self.at -= bytes.len() as u64;
        Ok(())
    }
}

/// The bytes of a range of these, where they hold it.
pub fn part(bytes: &[u8], from: u64, len: u64) -> Option<&[u8]>
    ensures { MatchOption result (length bytes.now < from + len) (λ part.
        (from + len ≤ length bytes.now) × (part.now ≡ bytes_at bytes.now from len)) }
{
    let end = from.checked_add(len)?;
    if end > bytes.len() as u64 {
        return None;
    }
    Some(&bytes[from as usize..end as usize])
}

/// A copy of the bytes behind so much room.
fn with_room(alloc: Global, room: usize, bytes: &[u8]) -> Result<Vec<u8>, AllocError>
    ensures len { IfOk result (λ kept. length kept.items ≡ room + length bytes.now) }
    ensures own { IfOk result (λ kept. drop room kept.items ≡ bytes.now) }
{
    let mut kept = Vec::with_capacity(alloc, room.saturating_add(bytes.len()))?;
    kept.resize(room, 0)?;
    kept.extend_from_slice(bytes)?;
    Ok(kept)
}

/// Writes bytes over those that end at a place.
fn write_before(kept: &mut [u8], end: usize, bytes: &[u8])
    requires room { length bytes.now ≤ end }
    requires inside { end ≤ length kept.old }
    ensures len { length kept.new ≡ length kept.old }
    ensures own { drop (end - length bytes.now) kept.new ≡ bytes.now ++ drop end kept.old }
{
    kept[end - bytes.len()..end].copy_from_slice(bytes);
}
