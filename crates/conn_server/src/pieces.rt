//! A file that is sent in pieces.

ghost use Rattle.std.specs.Prelude.{◌≡◌, ◌+◌, ◌<◌, ◌≤◌, length, max, min, vec_len, MatchResult, OnOk};
ghost use Rattle.file_picture.specs.Difference.{AgreesAt};
ghost use Rattle.http_wire.specs.Sink.{GetsAll};
ghost use Rattle.tree_trait.specs.Opened.{HoldsPicture};
ghost use Rattle.conn_server.specs.Pieces.{SendsFile, SendsPiece, StopsFile, StopsPiece, StopsRead};

use crate::report::BodyCause;
use crate::send_fault::SendFault;
use file_picture::Picture;
use http_wire::{ReplyFault, Sink, write_all};
use row_types::Truth;
use std::alloc::{AllocError, Global};
use tree_trait::{RoomAnswer, Tree};

/// How many bytes of a file are read, compared and written at a time. Its last piece may be shorter.
pub const PIECE: usize = 65_536;

/// Takes the room for the pieces of a file of so many bytes, where less of it is there: as many bytes
/// as the largest of them has, and no more.
pub(crate) fn make_room(alloc: Global, room: &mut Vec<u8>, size: u64) -> Result<(), AllocError>
    ensures ok { OnOk result (min PIECE size ≤ vec_len room.new) }
    ensures most { vec_len room.new ≤ max (vec_len room.old) (min PIECE size) }
{
    let most = (PIECE as u64).min(size) as usize;
    if room.len() < most {
        *room = vec![in alloc; 0; most]?;
    }
    Ok(())
}

/// Sends an open file of so many bytes, piece by piece. Each piece is compared with what was checked
/// of the file before it is written.
pub(crate) fn send_pieces<W: Truth, T: Tree<W>, N: Sink>(
    hand: &mut T,
    file: &mut T::File,
    checked: &Picture,
    conn: &mut N,
    size: u64,
    room: &mut [u8],
) -> Result<(), SendFault>
    requires room { min PIECE size ≤ length room.old }
    requires size { size ≡ checked.now.size }
    requires holds { HoldsPicture W.version (T.opened file.old).path (T.opened file.old).stamp checked.now }
    ensures { MatchResult result
        (λ _. SendsFile (record { told = T.told; version = W.version; start = T.shows hand.old })
        (T.opened file.old) checked.now (N.shows conn.old) (T.shows hand.new) (N.shows conn.new))
        (StopsFile (record { told = T.told; version = W.version; start = T.shows hand.old })
        (T.opened file.old) checked.now (N.shows conn.old) (T.shows hand.new) (N.shows conn.new)) }
{
    let mut at = 0;
    while at < size {
        let len = (PIECE as u64).min(size - at) as usize;
        match send_piece(hand, file, checked, conn, at, &mut room[..len]) {
            Ok(()) => at += len as u64,
            Err(fault) => return Err(fault),
        }
    }
    Ok(())
}

/// Reads a piece, compares it and writes it.
fn send_piece<W: Truth, T: Tree<W>, N: Sink>(
    hand: &mut T,
    file: &mut T::File,
    checked: &Picture,
    conn: &mut N,
    at: u64,
    piece: &mut [u8],
) -> Result<(), SendFault>
    requires some { 0 < length piece.old }
    requires inside { at + length piece.old ≤ (T.opened file.old).stamp.size }
    requires sized { checked.now.size ≡ (T.opened file.old).stamp.size }
    requires holds { HoldsPicture W.version (T.opened file.old).path (T.opened file.old).stamp checked.now }
    ensures sends { MatchResult result
        (λ _. SendsPiece (record { told = T.told; version = W.version; start = T.shows hand.old })
        (T.opened file.old) checked.now at piece.new (N.shows conn.old) (T.shows hand.new)
        (N.shows conn.new))
        (StopsPiece (record { told = T.told; version = W.version; start = T.shows hand.old })
        (T.opened file.old) checked.now at (length piece.old) (N.shows conn.old) (T.shows hand.new)
        (N.shows conn.new)) }
    ensures length { length piece.new ≡ length piece.old }
    ensures name { T.opened file.new ≡ T.opened file.old }
{
    match hand.read_at(file, at, piece) {
        RoomAnswer::Filled => send_read(checked, conn, at, piece),
        RoomAnswer::Failed => Err(SendFault::Body(BodyCause::ReadFault)),
    }
}

/// Compares a piece that was read with what was checked, and writes it.
fn send_read<N: Sink>(
    checked: &Picture,
    conn: &mut N,
    at: u64,
    piece: &[u8],
) -> Result<(), SendFault>
    requires { at + length piece.now ≤ checked.now.size }
    ensures { MatchResult result
        (λ _. AgreesAt checked.now at piece.now
        × GetsAll piece.now (N.shows conn.old) (N.shows conn.new))
        (StopsRead checked.now at piece.now (N.shows conn.old) (N.shows conn.new)) }
{
    match checked.difference(at, piece) {
        Some(change) => Err(SendFault::Body(BodyCause::Changed {
            at: change.at,
            checked: change.checked,
            seen: change.seen,
        })),
        None => match write_all(conn, piece) {
            Ok(()) => Ok(()),
            Err(_) => Err(SendFault::Reply(ReplyFault::WriteFault)),
        },
    }
}
