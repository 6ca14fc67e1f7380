//! A picture.

ghost use Rattle.std.specs.Prelude.{◌≡◌, ◌+◌, ◌≤◌, [], length, IfErr, IfNone, IfSome, OnErr, OnOk, MatchOption};
ghost use Rattle.file_picture.specs.Difference.{AgreesAt, IsFirstDifference};
ghost use Rattle.file_picture.specs.Picture.{GivesRange, IsAdded, IsCovered, IsFirstGap, IsRangeFree, IsPicture, sum_of};

use crate::difference::{Difference, first_difference};
use crate::joins::put;
use crate::piece::Piece;
use crate::places::{begun, known_to, next_begin};
use std::alloc::Global;
use std::marker::Model;

/// The size of a file, and those of its bytes that are known, in pieces that neither overlap nor
/// touch. Contracts see it as a record of the size and the pieces.
#[derive(Drop)]
pub struct Picture {
    size: u64,
    /// How many bytes the pieces have.
    sum: u64,
    pieces: Vec<Piece>,
}

impl Model for Picture {
    ghost use Rattle.file_picture.specs.Picture.{PictureFacts};
    ghost use Rattle.file_picture.specs.Pieces.{ArePiecesKept};

    ghost Value = { PictureFacts };

    ghost view = { λ p. record { size = p.size; pieces = p.pieces.items } };

    ghost invariant = { λ p. ArePiecesKept p.size p.sum p.pieces.items };
}

impl Picture {
    /// The picture of a file of so many bytes, of which none is known.
    pub fn new(alloc: Global, size: u64) -> Picture
        ensures { result ≡ record { size = size; pieces = [] } }
    {
        Picture {
            size,
            sum: 0,
            pieces: Vec::new(alloc),
        }
    }

    /// The file's size, in bytes.
    pub fn size(&self) -> u64
        ensures value { result ≡ self.now.size }
        ensures holds { IsPicture self.now }
    {
        self.size
    }

    /// How many bytes are known.
    pub fn bytes(&self) -> u64
        ensures value { result ≡ sum_of self.now.pieces }
        ensures within { result ≤ self.now.size }
    {
        self.sum
    }

    /// The bytes of a range, where all of them are known. A range of none is, up to the file's size.
    pub fn slice(&self, at: u64, len: u64) -> Option<&[u8]>
        ensures { MatchOption result (IsCovered self.now at len → ⊥)
            (λ bytes. GivesRange self.now at len bytes.now) }
    {
        if len == 0 {
            return if at <= self.size { Some(&[]) } else { None };
        }
        let count = begun(&self.pieces, at);
        if count == 0 {
            return None;
        }
        self.pieces[count - 1].slice(at, len)
    }

    /// The first run of bytes of a range that aren't known: its place and its length.
    pub fn missing(&self, at: u64, len: u64) -> Option<(u64, u64)>
        requires { at + len ≤ self.now.size }
        ensures { MatchOption result (IsCovered self.now at len)
            (λ run. IsFirstGap self.now at len run.0 run.1) }
    {
        let count = begun(&self.pieces, at);
        let end = at + len;
        let from = known_to(&self.pieces, count, at);
        if end <= from {
            return None;
        }
        let to = next_begin(&self.pieces, count, end);
        Some((from, to - from))
    }

    /// The first of these bytes, which stand in a file from a place on, that isn't the one that is
    /// known there. Where no byte is known, none is looked at.
    pub fn difference(&self, at: u64, bytes: &[u8]) -> Option<Difference>
        requires inside { at + length bytes.now ≤ self.now.size }
        ensures none { IfNone result (AgreesAt self.now at bytes.now) }
        ensures some { IfSome result (IsFirstDifference self.now at bytes.now) }
    {
        first_difference(&self.pieces, at, bytes)
    }

    /// Puts bytes at a place, none of which was known there, or gives them back where memory is
    /// refused. They become one piece with those that they touch.
    pub fn add(&mut self, at: u64, bytes: Vec<u8>) -> Result<(), Vec<u8>>
        requires inside { at + length bytes.items ≤ self.old.size }
        requires free { IsRangeFree self.old at (length bytes.items) }
        ensures ok { OnOk result (IsAdded self.old at bytes.items self.new) }
        ensures back { IfErr result (λ given. given ≡ bytes) }
        ensures same { OnErr result (self.new ≡ self.old) }
    {
        let len = bytes.len() as u64;
        put(&mut self.pieces, at, bytes)?;
        self.sum += len;
        Ok(())
    }
}
