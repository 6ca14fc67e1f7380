//! The parts of an open file that its row rests on.

ghost use Rattle.std.specs.Prelude.{◌≡◌, ℕ, IfOk, MatchResult};
ghost use Rattle.file_picture.specs.Agrees.{AsksOf};
ghost use Rattle.file_picture.specs.Passed.{HasPassed};
ghost use Rattle.file_picture.specs.ReadSoFar.{IsNextRead, IsReadSoFar};
ghost use Rattle.row_types.specs.declared.limits.TheConstants.{READ_LIMIT};
ghost use Rattle.tree_trait.specs.Opened.{opened_name, unread_picture};
ghost use Rattle.tree_trait.specs.Reader.{IsReadPart};
ghost use Rattle.scan_worker.specs.Parts.{ReadsNextPart, ReadsOpenFile, StopsReading};

use crate::read::NameRead;
use row_types::{Name, Truth};
use std::alloc::Global;
use tree_trait::{FillAnswer, Opened, Reader, Tree, ViewAnswer, fill};

/// Reads of an open file, of which nothing was read yet, what its row rests on, and makes the row.
pub(crate) fn read_parts<W: Truth, T: Tree<W>, R: Reader<W>>(
    alloc: Global,
    hand: &mut T,
    reader: &R,
    own: Name,
    opened: Opened<W, T::File>,
) -> NameRead<W>
    requires name { opened_name opened ≡ own }
    requires file { T.opened opened.file ≡ opened_name opened }
    requires unread { opened.picture ≡ unread_picture opened.stamp.size }
    ensures { ReadsOpenFile T.told W.version own own.stamp (T.shows hand.old) (T.shows hand.new)
        result }
{
    let mut own = own;
    let mut opened = opened;
    let mut from = 1;
    'parts: loop {
        match read_more(alloc, hand, reader, own, &mut opened, &mut from) {
            Ok(name) => own = name,
            Err(end) => return end,
        }
    }
}

/// Makes the row of an open file, if what was read of it decides it, or reads one of its parts and
/// gives the name back. No section before one is looked at for a build-id.
fn read_more<W: Truth, T: Tree<W>, R: Reader<W>>(
    alloc: Global,
    hand: &mut T,
    reader: &R,
    own: Name,
    opened: &mut Opened<W, T::File>,
    from: &mut u64,
) -> Result<Name, NameRead<W>>
    requires name { opened_name opened.old ≡ own }
    requires file { T.opened opened.old.file ≡ opened_name opened.old }
    requires passed { HasPassed opened.old.picture from.old }
    requires read { IsReadSoFar READ_LIMIT opened.old.picture }
    ensures name { opened_name opened.new ≡ opened_name opened.old }
    ensures file { T.opened opened.new.file ≡ opened_name opened.new }
    ensures step { MatchResult result
        (λ given. ReadsNextPart T.told W.version own (T.shows hand.old) (T.shows hand.new)
        opened.old.picture opened.new.picture given)
        (λ end. StopsReading T.told W.version own (T.shows hand.old) (T.shows hand.new)
        opened.old.picture end) }
    ensures passed { IfOk result (λ _. HasPassed opened.new.picture from.new) }
    ensures read { IfOk result (λ _. IsReadSoFar READ_LIMIT opened.new.picture) }
{
    // For its clause: a version of the name agrees with the picture.
    opened.knows();
    match reader.read_view(alloc, own, opened, *from) {
        ViewAnswer::Row(row) => Err(NameRead::Row(row)),
        ViewAnswer::OutOfMemory(_) => Err(NameRead::OutOfMemory),
        ViewAnswer::Need {
            name,
            at,
            len,
            next,
        } => {
            *from = next;
            read_part(alloc, hand, name, opened, at, len)
        }
    }
}

/// Reads one part of an open file, and gives the name back.
fn read_part<W: Truth, T: Tree<W>>(
    alloc: Global,
    hand: &mut T,
    own: Name,
    opened: &mut Opened<W, T::File>,
    at: u64,
    len: u64,
) -> Result<Name, NameRead<W>>
    requires name { opened_name opened.old ≡ own }
    requires file { T.opened opened.old.file ≡ opened_name opened.old }
    requires asks { AsksOf (IsReadPart own.stamp) opened.old.picture at len }
    requires next { IsNextRead READ_LIMIT opened.old.picture at len }
    requires read { IsReadSoFar READ_LIMIT opened.old.picture }
    ensures name { opened_name opened.new ≡ opened_name opened.old }
    ensures file { T.opened opened.new.file ≡ opened_name opened.new }
    ensures step { MatchResult result
        (λ given. ReadsNextPart T.told W.version own (T.shows hand.old) (T.shows hand.new)
        opened.old.picture opened.new.picture given)
        (λ end. StopsReading T.told W.version own (T.shows hand.old) (T.shows hand.new)
        opened.old.picture end) }
    ensures passed { IfOk result (λ _.
        (i : ℕ) → HasPassed opened.old.picture i → HasPassed opened.new.picture i) }
    ensures read { IfOk result (λ _. IsReadSoFar READ_LIMIT opened.new.picture) }
{
    // For its clause: a version of the name agrees with the picture.
    opened.knows();
    match fill(alloc, hand, opened, at, len) {
        FillAnswer::Done => {
            // For its clauses: no more bytes are known than the file has, in a picture still.
            let _known = opened.picture().bytes();
            let _size = opened.picture().size();
            Ok(own)
        }
        FillAnswer::Failed => Err(NameRead::Failed),
        FillAnswer::OutOfMemory => Err(NameRead::OutOfMemory),
    }
}
