//! The reader of heads.

ghost use Rattle.std.specs.Prelude.{◌≡◌, [], false, length, IfOk, IsTrue};
ghost use Rattle.std.specs.Borrow.{sem};
ghost use Rattle.std.specs.Io.BufRead.{Rests};
ghost use Rattle.httparse.specs.Spans.{IsWithin};
ghost use Rattle.row_types.specs.Faults.{HasCause};
ghost use Rattle.http_wire.specs.Heads.{ArePinnedHeadLimits};
ghost use Rattle.http_wire.specs.Reader.{StepsReader, AnswersNext, IsHeadAt, head_failed};
ghost use Rattle.http_wire.specs.Stream.{LeavesWriting};
ghost use Rattle.http_wire.specs.contracts.reader.HeadReader.{the_row};

use crate::find::{Find, find_next};
use crate::head::{Head, HeadAnswer};
use crate::look::Found;
use crate::room::Room;
use crate::source::Source;
use std::alloc::{AllocError, Global};
use std::marker::Model;

/// Cuts heads from a source, one after the other. Contracts see the bytes that it holds, and
/// whether it is over: it has refused bytes, or a read has failed.
#[derive(Drop)]
pub struct HeadReader {
    room: Room,
    /// How many bytes of the room the last head has.
    last: usize,
    over: bool,
}

impl Model for HeadReader {
    ghost use Rattle.std.specs.Prelude.{◌≤◌, drop, length};
    ghost use Rattle.http_wire.specs.ReaderFacts.{ReaderFacts};

    ghost Value = { ReaderFacts };

    ghost view = { λ r. record { all = r.room; held = drop r.last r.room; over = r.over } };

    ghost invariant = { λ r. r.last ≤ length r.room };
}

impl HeadReader {
    /// A reader that holds nothing. It takes all its memory here.
    pub fn new(alloc: Global) -> Result<HeadReader, AllocError>
        ensures value { IfOk result (λ reader.
            reader ≡ record { all = []; held = []; over = false }) }
        ensures limits { ArePinnedHeadLimits }
    {
        Ok(HeadReader {
            room: Room::new(alloc)?,
            last: 0,
            over: false,
        })
    }

    /// The next head of the source. What comes behind a head is held for the next call.
    pub fn next<S: Source>(&mut self, source: &mut S) -> HeadAnswer<'_>
        ensures* after_borrow { sem 𝓛 (Rests the_row self.entry (λ new.
            AnswersNext self.old (S.shows source.old) new (S.shows source.new) result)) }
        ensures cause { HasCause (S.shows source.old).read_faults (S.shows source.new).read_faults
            (IsTrue (head_failed result)) }
        ensures apart { LeavesWriting (S.shows source.old) (S.shows source.new) }
    {
        match self.advance(source) {
            Find::Whole(found) => HeadAnswer::Head(self.head(&found)),
            Find::Closed => HeadAnswer::Closed,
            Find::Refused(fault) => HeadAnswer::Refused(fault),
            Find::Failed => HeadAnswer::ReadFault,
        }
    }

    // Finds the next head.
    #[tactic(auto, using(crate::proofs::ReaderLemmas::stays_over))]
    fn advance<S: Source>(&mut self, source: &mut S) -> Find
        ensures { StepsReader self.old (S.shows source.old) self.new (S.shows source.new) result }
    {
        if self.over {
            return Find::Closed;
        }
        self.room.pass(self.last);
        let find = find_next(&mut self.room, source);
        self.last = match find {
            Find::Whole(found) => found.len,
            _ => 0,
        };
        self.over = matches!(find, Find::Refused(_) | Find::Failed);
        find
    }

    // The head that was found.
    fn head(&self, found: &Found) -> Head<'_>
        requires method { IsWithin (length self.now.all) found.now.method }
        requires target { IsWithin (length self.now.all) found.now.target }
        ensures { IsHeadAt self.now.all found.now result }
    {
        let bytes = self.room.held();
        Head {
            method: found.method.of(bytes),
            target: found.target.of(bytes),
            minor: found.minor,
            close: found.said.close,
            has_body: found.said.has_body,
            hops: found.said.hops,
        }
    }
}
