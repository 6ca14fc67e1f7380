//! A reply with a file that was found here.

ghost use Rattle.std.specs.Prelude.{◌≡◌, ◌≤◌, ℕ, true, MatchResult, OnOk, Some, length, min, vec_len};
ghost use Rattle.http_wire.specs.Reply.{head_bytes};
ghost use Rattle.http_wire.specs.ReplyFault.{FailsReply};
ghost use Rattle.http_wire.specs.Sink.{GetsAll};
ghost use Rattle.tree_trait.specs.Opened.{HoldsPicture};
ghost use Rattle.answer_core.specs.Local.{file_found};
ghost use Rattle.conn_server.specs.Bodies.{found_here};
ghost use Rattle.conn_server.specs.Replies.{reply_head};
ghost use Rattle.conn_server.specs.Sent.{Sends, SendsBehind, SendsContents};

use crate::pieces::{PIECE, make_room, send_pieces};
use crate::reason::Reason;
use crate::send::{ReplyForm, head_of};
use crate::send_fault::SendFault;
use answer_check::Checked;
use http_wire::{ReplyFault, Sink, write_head};
use row_types::{CanonPath, Truth};
use std::alloc::Global;
use tree_trait::Tree;

/// A file that is sent: what was checked of it, the open file, and its path.
#[derive(Drop)]
pub(crate) struct FoundFile<F: Drop> {
    pub from: Checked,
    pub file: F,
    pub path: CanonPath,
}

/// Writes a reply with a file. Gives how many bytes of it were written.
pub(crate) fn send_file<W: Truth, T: Tree<W>, N: Sink>(
    alloc: Global,
    hand: &mut T,
    conn: &mut N,
    room: &mut Vec<u8>,
    why: Reason,
    found: FoundFile<T::File>,
    form: ReplyForm,
) -> Result<u64, SendFault>
    requires holds { HoldsPicture W.version (T.opened found.file).path (T.opened found.file).stamp found.from.picture }
    ensures { (n : ℕ) → Sends (record { told = T.told; version = W.version; start = T.shows hand.old }) why
        (found_here (file_found found.from (T.opened found.file) found.path n)) form.close form.with_body
        (N.shows conn.old) (T.shows hand.new) (N.shows conn.new) result }
{
    let len = found.from.picture().size();
    match write_front(alloc, conn, room, why, len, &found.path, form) {
        Ok(()) => send_behind(hand, conn, room.as_mut_slice(), found, form.with_body),
        Err(fault) => Err(SendFault::Reply(fault)),
    }
}

/// Writes the head of a reply with a file of so many bytes. The memory in which the file is read is
/// taken before, where it is sent.
fn write_front<N: Sink>(
    alloc: Global,
    conn: &mut N,
    room: &mut Vec<u8>,
    why: Reason,
    len: u64,
    path: &CanonPath,
    form: ReplyForm,
) -> Result<(), ReplyFault>
    ensures head { let head = reply_head why len (Some path.now) form.close in MatchResult result
        (λ _. GetsAll (head_bytes head) (N.shows conn.old) (N.shows conn.new))
        (λ fault. FailsReply fault (head_bytes head) (N.shows conn.old) (N.shows conn.new)) }
    ensures room { OnOk result (form.with_body ≡ true → min PIECE len ≤ vec_len room.new) }
{
    if form.with_body {
        make_room(alloc, room, len)?;
    }
    let head = head_of(alloc, why, len, Some(path), form.close)?;
    write_head(alloc, conn, &head)?;
    Ok(())
}

/// Sends the file behind the head, where the body is written. Gives how many bytes were.
fn send_behind<W: Truth, T: Tree<W>, N: Sink>(
    hand: &mut T,
    conn: &mut N,
    room: &mut [u8],
    found: FoundFile<T::File>,
    with_body: bool,
) -> Result<u64, SendFault>
    requires room { with_body ≡ true → min PIECE found.from.picture.size ≤ length room.old }
    requires holds { HoldsPicture W.version (T.opened found.file).path (T.opened found.file).stamp found.from.picture }
    ensures { SendsBehind (record { told = T.told; version = W.version; start = T.shows hand.old })
        (T.opened found.file) found.from.picture with_body (N.shows conn.old) (T.shows hand.new)
        (N.shows conn.new) result }
{
    if with_body {
        send_contents(hand, conn, room, found)
    } else {
        Ok(0)
    }
}

/// Sends a file. Gives how many bytes it has.
fn send_contents<W: Truth, T: Tree<W>, N: Sink>(
    hand: &mut T,
    conn: &mut N,
    room: &mut [u8],
    found: FoundFile<T::File>,
) -> Result<u64, SendFault>
    requires room { min PIECE found.from.picture.size ≤ length room.old }
    requires holds { HoldsPicture W.version (T.opened found.file).path (T.opened found.file).stamp found.from.picture }
    ensures { SendsContents (record { told = T.told; version = W.version; start = T.shows hand.old })
        (T.opened found.file) found.from.picture (N.shows conn.old) (T.shows hand.new)
        (N.shows conn.new) result }
{
    let FoundFile {
        from,
        file,
        path: _,
    } = found;
    let mut file = file;
    let checked = from.picture();
    let len = checked.size();
    match send_pieces(hand, &mut file, checked, conn, len, room) {
        Ok(()) => Ok(len),
        Err(fault) => Err(fault),
    }
}
