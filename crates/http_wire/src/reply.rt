//! Replies (RFC 9112).

ghost use Rattle.std.specs.Prelude.{◌≡◌, ◌≤◌, ◌++◌, length, IfOk, MatchResult};
ghost use Rattle.http_wire.specs.Reply.{IsStatus, head_bytes, reply_bytes};
ghost use Rattle.http_wire.specs.ReplyFault.{FailsReply};
ghost use Rattle.http_wire.specs.Sink.{GetsAll};

use crate::reply_lines::print_head;
use crate::sink::{Sink, WriteFault, write_both};
use row_types::CanonPath;
use std::alloc::{AllocError, Global};

/// The longest body, in bytes, that is copied behind its head, so that one write takes both.
const SMALL_BODY: usize = 4096;

/// The head of a reply.
#[derive(Drop)]
pub struct ReplyHead {
    /// One of 200, 400, 404, 405, 431, 502, 503 and 507.
    pub status: u16,
    /// Whether the body is a text. Else it is bytes of a file, and its size is told once more.
    pub text: bool,
    /// The body's length in bytes, also where the body isn't sent.
    pub len: u64,
    /// Where the body comes from, if that is told.
    pub file: Option<CanonPath>,
    /// Whether no other reply follows on the connection.
    pub close: bool,
}

/// Why a reply wasn't written whole.
#[derive(Clone, Copy, Debug, PartialEq, Eq)]
pub enum ReplyFault {
    /// There was no memory for its head. Nothing was written.
    OutOfMemory,
    /// A write failed. A proper prefix was written.
    WriteFault,
}

impl From<AllocError> for ReplyFault {
    ghost use Rattle.http_wire.specs.declared.reply.ReplyFault.TheVariants.{OutOfMemory};

    ghost from_gives = { λ _ fault. fault ≡ OutOfMemory };

    fn from(_: AllocError) -> ReplyFault {
        ReplyFault::OutOfMemory
    }
}

impl From<WriteFault> for ReplyFault {
    ghost use Rattle.http_wire.specs.declared.reply.ReplyFault.TheVariants as fault;

    ghost from_gives = { λ _ given. given ≡ fault.WriteFault };

    fn from(_: WriteFault) -> ReplyFault {
        ReplyFault::WriteFault
    }
}

/// Writes the head of a reply, whose body is sent apart or not at all. Memory is taken before the
/// first write.
pub fn write_head<S: Sink>(alloc: Global, sink: &mut S, head: &ReplyHead) -> Result<(), ReplyFault>
    requires { IsStatus head.now.status }
    ensures { MatchResult result
        (λ _. GetsAll (head_bytes head.now) (S.shows sink.old) (S.shows sink.new))
        (λ fault. FailsReply fault (head_bytes head.now) (S.shows sink.old) (S.shows sink.new)) }
{
    write_whole(alloc, sink, head, &[])
}

/// Writes a reply: its head, and the body where `with_body` is true. Memory is taken before the
/// first write.
pub fn write_reply<S: Sink>(
    alloc: Global,
    sink: &mut S,
    head: &ReplyHead,
    body: &[u8],
    with_body: bool,
) -> Result<(), ReplyFault>
    requires status { IsStatus head.now.status }
    requires len { head.now.len ≡ length body.now }
    ensures { let bytes = reply_bytes head.now body.now with_body in MatchResult result
        (λ _. GetsAll bytes (S.shows sink.old) (S.shows sink.new))
        (λ fault. FailsReply fault bytes (S.shows sink.old) (S.shows sink.new)) }
{
    if with_body {
        write_whole(alloc, sink, head, body)
    } else {
        write_head(alloc, sink, head)
    }
}

/// Writes a head and these bytes behind it.
fn write_whole<S: Sink>(
    alloc: Global,
    sink: &mut S,
    head: &ReplyHead,
    body: &[u8],
) -> Result<(), ReplyFault>
    requires { IsStatus head.now.status }
    ensures { let bytes = head_bytes head.now ++ body.now in MatchResult result
        (λ _. GetsAll bytes (S.shows sink.old) (S.shows sink.new))
        (λ fault. FailsReply fault bytes (S.shows sink.old) (S.shows sink.new)) }
{
    let (small, large) = body.split_at(small_len(body));
    let first = first_piece(alloc, head, small)?;
    write_both(sink, first.as_slice(), large)?;
    Ok(())
}

/// The head with the bytes that are copied behind it.
fn first_piece(alloc: Global, head: &ReplyHead, small: &[u8]) -> Result<Vec<u8>, AllocError>
    requires { IsStatus head.now.status }
    ensures { IfOk result (λ piece. piece.items ≡ head_bytes head.now ++ small.now) }
{
    let mut piece = print_head(alloc, head)?.into_bytes();
    piece.extend_from_slice(small)?;
    Ok(piece)
}

/// How many bytes of a body are copied behind its head: all, or none.
fn small_len(body: &[u8]) -> usize
    ensures { result ≤ length body.now }
{
    if body.len() <= SMALL_BODY {
        body.len()
    } else {
        0
    }
}
