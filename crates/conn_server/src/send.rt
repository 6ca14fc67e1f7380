//! Writing the reply to what was decided.

ghost use Rattle.std.specs.Prelude.{◌≡◌, ℕ, IfOk, option_copied};
ghost use Rattle.dbgd_metrics.specs.Numbers.{IsCountedStatus};
ghost use Rattle.conn_server.specs.Bodies.{body_facts, decided_facts};
ghost use Rattle.conn_server.specs.Replies.{reply_head};
ghost use Rattle.conn_server.specs.Sent.{CanCarry, CanSend, Sends, SendsBytes, SendsDecided};
ghost use Rattle.conn_server.specs.Sent.{WritesBytes, told_of};

use crate::body::{Body, given};
use crate::decide::Decided;
use crate::found_file::{FoundFile, send_file};
use crate::reason::Reason;
use crate::report::{Asked, Served};
use crate::send_fault::SendFault;
use http_wire::{ReplyFault, ReplyHead, Sink, write_reply};
use row_types::{CanonPath, Truth};
use std::alloc::{AllocError, Global};
use tree_trait::Tree;

/// How a reply is written.
#[derive(Clone, Copy, PartialEq, Eq)]
pub(crate) struct ReplyForm {
    /// Whether no other reply follows.
    pub close: bool,
    /// Whether its body is written.
    pub with_body: bool,
}

/// Writes the reply. Gives what is told of it.
pub(crate) fn send<W: Truth, T: Tree<W>, N: Sink>(
    alloc: Global,
    hand: &mut T,
    conn: &mut N,
    room: &mut Vec<u8>,
    decided: Decided<T::File>,
    form: ReplyForm,
) -> Result<Served, SendFault>
    requires send { CanSend W.version (decided_facts T.opened decided) }
    ensures sends { SendsDecided (record { told = T.told; version = W.version; start = T.shows hand.old })
        (decided_facts T.opened decided) form.close form.with_body (N.shows conn.old) (T.shows hand.new)
        (N.shows conn.new) result }
    ensures status { IfOk result (λ served. IsCountedStatus served.status) }
{
    let Decided {
        asked,
        reason,
        generation,
        body,
    } = decided;
    let sent = send_body(alloc, hand, conn, room, reason, body, form);
    told(asked, reason, generation, sent)
}

/// What is told of a request whose reply was written.
fn told(
    asked: Asked,
    why: Reason,
    generation: u64,
    sent: Result<u64, SendFault>,
) -> Result<Served, SendFault>
    ensures value { result ≡ told_of asked why generation sent }
    ensures status { IfOk result (λ served. IsCountedStatus served.status) }
{
    let len = sent?;
    Ok(Served {
        asked,
        gen_: generation,
        status: why.status(),
        reason: why,
        len,
    })
}

/// Writes a reply that carries this. Gives how many bytes of a body were written. A file is read in
/// the meantime; everything else is held.
fn send_body<W: Truth, T: Tree<W>, N: Sink>(
    alloc: Global,
    hand: &mut T,
    conn: &mut N,
    room: &mut Vec<u8>,
    why: Reason,
    body: Body<T::File>,
    form: ReplyForm,
) -> Result<u64, SendFault>
    requires carry { (n : ℕ) → CanCarry W.version (body_facts T.opened n body) }
    ensures { (n : ℕ) → Sends (record { told = T.told; version = W.version; start = T.shows hand.old }) why
        (body_facts T.opened n body) form.close form.with_body (N.shows conn.old) (T.shows hand.new)
        (N.shows conn.new) result }
{
    match body {
        Body::Line => send_bytes(alloc, conn, why, why.row().line, None, form),
        Body::File { from, file, path } => {
            let found = FoundFile { from, file, path };
            send_file(alloc, hand, conn, room, why, found, form)
        }
        Body::Section { from, path } => {
            let part = from.bytes();
            send_bytes(alloc, conn, why, part, Some(&path), form)
        }
        Body::Source { bytes, path } => {
            send_bytes(alloc, conn, why, bytes.as_slice(), Some(&path), form)
        }
        Body::Upstream(passed) => send_bytes(alloc, conn, why, given(&passed), None, form),
        Body::Page(text) => send_bytes(alloc, conn, why, text.as_bytes(), None, form),
    }
}

/// Writes a reply with these bytes of a body. Gives how many of them were written.
fn send_bytes<N: Sink>(
    alloc: Global,
    conn: &mut N,
    why: Reason,
    body: &[u8],
    file: Option<&CanonPath>,
    form: ReplyForm,
) -> Result<u64, SendFault>
    ensures { SendsBytes why body.now (option_copied file.entry) form.close form.with_body
        (N.shows conn.old) (N.shows conn.new) result }
{
    match write_bytes(alloc, conn, why, body, file, form) {
        Ok(len) => Ok(len),
        Err(fault) => Err(SendFault::Reply(fault)),
    }
}

/// The same, with the fault of the writing alone.
fn write_bytes<N: Sink>(
    alloc: Global,
    conn: &mut N,
    why: Reason,
    body: &[u8],
    file: Option<&CanonPath>,
    form: ReplyForm,
) -> Result<u64, ReplyFault>
    ensures { WritesBytes why body.now (option_copied file.entry) form.close form.with_body
        (N.shows conn.old) (N.shows conn.new) result }
{
    let head = head_of(alloc, why, body.len() as u64, file, form.close)?;
    write_reply(alloc, conn, &head, body, form.with_body)?;
    Ok(if form.with_body { head.len } else { 0 })
}

/// The head of a reply with a body of so many bytes.
pub(crate) fn head_of(
    alloc: Global,
    why: Reason,
    len: u64,
    file: Option<&CanonPath>,
    close: bool,
) -> Result<ReplyHead, AllocError>
    ensures { IfOk result (λ head. head ≡ reply_head why len (option_copied file.entry) close) }
{
    let row = why.row();
    Ok(ReplyHead {
        status: row.status,
        text: row.text,
        len,
        file: copy_of(alloc, file)?,
        close,
    })
}

/// A copy of a path that is told.
fn copy_of(alloc: Global, file: Option<&CanonPath>) -> Result<Option<CanonPath>, AllocError>
    ensures { IfOk result (λ copy. copy ≡ option_copied file.entry) }
{
    match file {
        Some(path) => Ok(Some(path.copy(alloc)?)),
        None => Ok(None),
    }
}
