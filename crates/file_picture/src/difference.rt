//! Where bytes of a file aren't those that are known.

ghost use Rattle.std.specs.Prelude.{◌≡◌, ◌+◌, ◌<◌, ◌≤◌, ◌^◌, length, MatchOption};
ghost use Rattle.file_formats.specs.Numbers.{bytes_at};
ghost use Rattle.file_picture.specs.Difference.{AgreesAt, IsFirstDifference};
ghost use Rattle.file_picture.specs.Picture.{ArePiecesApart};
ghost use Rattle.file_picture.specs.Pieces.{IsFirstUnequal, piece_alone, pieces_alone};

use crate::piece::{Piece, part};
use crate::places::begun;

/// A byte of a file that isn't the one that is known.
#[derive(Clone, Copy, Debug, PartialEq, Eq)]
pub struct Difference {
    /// Bytes from the file's start.
    pub at: u64,
    /// The byte that is known.
    pub checked: u8,
    /// The one that is seen in its place.
    pub seen: u8,
}

/// The first of these bytes, which stand in a file from a place on, that isn't the one that pieces
/// have there.
pub fn first_difference(pieces: &[Piece], at: u64, bytes: &[u8]) -> Option<Difference>
    requires apart { ArePiecesApart 0 pieces.now }
    requires fits { at + length bytes.now < 2 ^ 64 }
    ensures { MatchOption result (AgreesAt (pieces_alone pieces.now) at bytes.now)
        (IsFirstDifference (pieces_alone pieces.now) at bytes.now) }
{
    let count = begun(pieces, at + bytes.len() as u64);
    let begun_by = begun(pieces, at);
    // The last piece that begins by the place may reach it.
    let first = begun_by.saturating_sub(1);
    for index in first..count {
        if let Some(difference) = piece_difference(&pieces[index], at, bytes) {
            return Some(difference);
        }
    }
    None
}

/// The first of these bytes, which stand in a file from a place on, that isn't the one that a piece
/// has there.
fn piece_difference(piece: &Piece, at: u64, bytes: &[u8]) -> Option<Difference>
    requires { at + length bytes.now < 2 ^ 64 }
    ensures { MatchOption result (AgreesAt (piece_alone piece.now) at bytes.now)
        (IsFirstDifference (piece_alone piece.now) at bytes.now) }
{
    let begin = piece.at();
    let from = begin.max(at);
    let to = piece.end().min(at + bytes.len() as u64);
    if to <= from {
        return None;
    }
    let len = to - from;
    let known = stretch(piece.bytes(), from - begin, len);
    let seen = stretch(bytes, from - at, len);
    match first_unequal(known, seen) {
        Some(index) => {
            let place = from + index as u64;
            Some(Difference {
                at: place,
                checked: known[index],
                seen: seen[index],
            })
        }
        None => None,
    }
}

/// The bytes of a range of these, which lies in them.
fn stretch(bytes: &[u8], from: u64, len: u64) -> &[u8]
    requires { from + len ≤ length bytes.now }
    ensures value { result.now ≡ bytes_at bytes.now from len }
    ensures long { length result.now ≡ len }
{
    match part(bytes, from, len) {
        Some(found) => found,
        None => unreachable!(),
    }
}

/// The first place at which two lists of bytes of one length differ.
fn first_unequal(known: &[u8], seen: &[u8]) -> Option<usize>
    requires { length known.now ≡ length seen.now }
    ensures { MatchOption result (known.now ≡ seen.now) (IsFirstUnequal known.now seen.now) }
{
    // In one go, as they hardly ever differ.
    if known == seen {
        return None;
    }
    for index in 0..known.len() {
        if known[index] != seen[index] {
            return Some(index);
        }
    }
    None
}
