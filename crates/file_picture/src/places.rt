//! Where pieces stand.

ghost use Rattle.std.specs.Prelude.{◌≡◌, ◌+◌, ◌-◌, ◌<◌, ◌≤◌, ◌&&◌, length};
ghost use Rattle.file_picture.specs.Picture.{ArePiecesApart, piece_end};
ghost use Rattle.file_picture.specs.Pieces.{BeginsPiece, EndsPiece, IsBegun, IsKnownTo, IsNextBegin};

use crate::piece::Piece;

/// How many pieces begin at a place or before it.
pub fn begun(pieces: &[Piece], at: u64) -> usize
    requires { ArePiecesApart 0 pieces.now }
    ensures { IsBegun pieces.now at result }
{
    pieces.partition_point(|piece| piece.begins_by(at))
}

/// The first place from one on at which no byte is known, where so many pieces begin at that one or
/// before it.
pub fn known_to(pieces: &[Piece], count: usize, at: u64) -> u64
    requires apart { ArePiecesApart 0 pieces.now }
    requires begun { IsBegun pieces.now at count }
    ensures { IsKnownTo pieces.now count at result }
{
    if count == 0 {
        return at;
    }
    pieces[count - 1].end().max(at)
}

/// Where the piece behind so many begins, or the end of a range where none begins before it.
pub fn next_begin(pieces: &[Piece], count: usize, end: u64) -> u64
    ensures { IsNextBegin pieces.now count end result }
{
    if count < pieces.len() {
        pieces[count].at().min(end)
    } else {
        end
    }
}

/// Whether the last of so many pieces ends at a place.
pub fn ends_at(pieces: &[Piece], count: usize, at: u64) -> bool
    requires { count ≤ length pieces.now }
    ensures { EndsPiece pieces.now count at result }
{
    count > 0 && pieces[count - 1].end() == at
}

/// Whether the piece behind so many begins at a place.
pub fn begins_at(pieces: &[Piece], count: usize, at: u64) -> bool
    ensures { BeginsPiece pieces.now count at result }
{
    count < pieces.len() && pieces[count].at() == at
}
