//! Where bytes go.

ghost use Rattle.std.specs.Prelude.{◌<◌, ◌++◌, MatchResult, length};
ghost use Rattle.http_wire.specs.Sink.{GetsAll, GetsPart, WritesStream};

use crate::stream::Stream;

/// What a write answers.
#[derive(Clone, Copy, PartialEq, Eq)]
pub enum WriteAnswer {
    /// So many bytes from the front were written, at least one.
    Took(usize),
    /// None was written.
    Failed,
}

/// A write that failed before all the bytes were written.
#[derive(Clone, Copy, Debug, PartialEq, Eq)]
pub struct WriteFault;

/// Where bytes go: a stream of the program, or a list in memory.
pub trait Sink: Stream {
    /// Writes some bytes from the front.
    fn write(&mut self, bytes: &[u8]) -> WriteAnswer
        requires { 0 < length bytes.now }
        ensures writes { WritesStream bytes.now (Self.shows self.old) (Self.shows self.new) result };
}

/// Writes all the bytes. After a fault a proper prefix of them was written.
pub fn write_all<S: Sink>(sink: &mut S, bytes: &[u8]) -> Result<(), WriteFault>
    ensures { MatchResult result
        (λ _. GetsAll bytes.now (S.shows sink.old) (S.shows sink.new))
        (λ _. GetsPart bytes.now (S.shows sink.old) (S.shows sink.new)) }
{
    let mut at = 0;
    while at < bytes.len() {
        match sink.write(&bytes[at..]) {
            WriteAnswer::Took(n) => at += n,
            WriteAnswer::Failed => return Err(WriteFault),
        }
    }
    Ok(())
}

/// Writes two pieces, one after the other.
#[tactic(auto, using(crate::proofs::Pieces::in_a_row))]
pub fn write_both<S: Sink>(sink: &mut S, first: &[u8], second: &[u8]) -> Result<(), WriteFault>
    ensures { MatchResult result
        (λ _. GetsAll (first.now ++ second.now) (S.shows sink.old) (S.shows sink.new))
        (λ _. GetsPart (first.now ++ second.now) (S.shows sink.old) (S.shows sink.new)) }
{
    write_all(sink, first)?;
    write_all(sink, second)
}
