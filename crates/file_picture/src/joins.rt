//! How bytes are put among pieces.

ghost use Rattle.std.specs.Prelude.{◌≡◌, ◌+◌, ◌-◌, ◌<◌, ◌≤◌, ◌^◌, ◌++◌, length, slice_index_or, IfOk, IfErr, MatchBool, OnOk, OnErr};
ghost use Rattle.std.specs.List.{insert};
ghost use Rattle.file_picture.specs.Picture.{ArePiecesApart, AreFree, PieceFacts, piece_end};
ghost use Rattle.file_picture.specs.Pieces.{CanPut, ArePiecesPut, ReplacesPiece, Spans, TouchesNone, piece_of, put_before, put_behind};

use crate::piece::Piece;
use crate::places::{begins_at, begun, ends_at};
use std::alloc::{AllocError, Global};

/// Puts bytes among pieces that have none of theirs, as one piece with those that they touch, or
/// gives them back.
pub fn put(pieces: &mut Vec<Piece>, at: u64, bytes: Vec<u8>) -> Result<(), Vec<u8>>
    requires apart { ArePiecesApart 0 pieces.old.items }
    requires fits { at + length bytes.items < 2 ^ 64 }
    requires free { AreFree pieces.old.items at (length bytes.items) }
    ensures ok { OnOk result (ArePiecesPut pieces.old.items at bytes.items pieces.new.items) }
    ensures back { IfErr result (λ given. given ≡ bytes) }
    ensures same { OnErr result (pieces.new.items ≡ pieces.old.items) }
{
    if bytes.is_empty() {
        return Ok(());
    }
    let count = begun(pieces, at);
    match join(pieces, count, at, &bytes) {
        Ok(true) => Ok(()),
        Ok(false) => insert(pieces, count, at, bytes),
        Err(_) => Err(bytes),
    }
}

/// Joins bytes with the pieces that they touch, and says whether they touch one.
fn join(pieces: &mut Vec<Piece>, count: usize, at: u64, bytes: &[u8]) -> Result<bool, AllocError>
    requires place { CanPut pieces.old.items at bytes.now count }
    requires fits { at + length bytes.now < 2 ^ 64 }
    ensures ok { IfOk result (λ touches. MatchBool touches
        (ArePiecesPut pieces.old.items at bytes.now pieces.new.items)
        ((pieces.new.items ≡ pieces.old.items)
        × TouchesNone pieces.old.items at (length bytes.now) count)) }
    ensures err { OnErr result (pieces.new.items ≡ pieces.old.items) }
{
    let after = ends_at(pieces, count, at);
    let before = begins_at(pieces, count, at + bytes.len() as u64);
    if after {
        if before {
            span(pieces, count, bytes)?;
            return Ok(true);
        }
        append(pieces, count - 1, bytes)?;
        return Ok(true);
    }
    if before {
        prepend(pieces, count, bytes)?;
        return Ok(true);
    }
    Ok(false)
}

/// Puts a piece of these bytes at an index.
fn insert(pieces: &mut Vec<Piece>, index: usize, at: u64, bytes: Vec<u8>) -> Result<(), Vec<u8>>
    requires index { index ≤ length pieces.old.items }
    requires fits { at + length bytes.items < 2 ^ 64 }
    ensures ok { OnOk result (pieces.new.items
        ≡ insert pieces.old.items index (piece_of at bytes.items)) }
    ensures back { IfErr result (λ given. given ≡ bytes) }
    ensures same { OnErr result (pieces.new.items ≡ pieces.old.items) }
{
    if let Err(_) = pieces.reserve(1) {
        return Err(bytes);
    }
    match pieces.insert(index, Piece::new(at, bytes)) {
        Ok(()) => Ok(()),
        Err(_) => unreachable!(),
    }
}

/// Puts bytes behind those of the piece of an index.
fn append(pieces: &mut Vec<Piece>, index: usize, bytes: &[u8]) -> Result<(), AllocError>
    requires index { index < length pieces.old.items }
    requires fits { (d : PieceFacts) → piece_end (slice_index_or pieces.old.items index d)
        + length bytes.now < 2 ^ 64 }
    ensures ok { OnOk result (ReplacesPiece (λ p. put_behind p bytes.now) index pieces.old.items
        pieces.new.items) }
    ensures err { OnErr result (pieces.new.items ≡ pieces.old.items) }
{
    let piece = &mut pieces[index];
    piece.append(bytes)
}

/// Puts bytes before those of the piece of an index.
fn prepend(pieces: &mut Vec<Piece>, index: usize, bytes: &[u8]) -> Result<(), AllocError>
    requires index { index < length pieces.old.items }
    requires room { (d : PieceFacts) → length bytes.now
        ≤ (slice_index_or pieces.old.items index d).at }
    ensures ok { OnOk result (ReplacesPiece (put_before bytes.now) index pieces.old.items
        pieces.new.items) }
    ensures err { OnErr result (pieces.new.items ≡ pieces.old.items) }
{
    let piece = &mut pieces[index];
    piece.prepend(bytes)
}

/// Joins the pieces of an index and of the one before it with the bytes between them. The smaller
/// of the two moves.
fn span(pieces: &mut Vec<Piece>, index: usize, bytes: &[u8]) -> Result<(), AllocError>
    requires above { 0 < index }
    requires below { index < length pieces.old.items }
    requires touch { (d : PieceFacts) → piece_end (slice_index_or pieces.old.items (index - 1) d)
        + length bytes.now ≡ (slice_index_or pieces.old.items index d).at }
    ensures ok { OnOk result (Spans bytes.now index pieces.old.items pieces.new.items) }
    ensures err { OnErr result (pieces.new.items ≡ pieces.old.items) }
{
    let before = &pieces[index - 1];
    let after = &pieces[index];
    if before.len() < after.len() {
        let front = joined(*pieces.allocator(), before.bytes(), bytes)?;
        prepend(pieces, index, &front)?;
        let _moved = pieces.remove(index - 1);
    } else {
        let back = joined(*pieces.allocator(), bytes, after.bytes())?;
        append(pieces, index - 1, &back)?;
        let _moved = pieces.remove(index);
    }
    Ok(())
}

/// Bytes, and others behind them.
fn joined(alloc: Global, front: &[u8], back: &[u8]) -> Result<Vec<u8>, AllocError>
    ensures { IfOk result (λ both. both.items ≡ front.now ++ back.now) }
{
    let mut both = Vec::with_capacity(alloc, front.len().saturating_add(back.len()))?;
    both.extend_from_slice(front)?;
    both.extend_from_slice(back)?;
    Ok(both)
}
