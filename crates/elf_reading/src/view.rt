//! The row of a file by a picture of it.

ghost use Rattle.file_picture.specs.Passed.{HasPassed};
ghost use Rattle.file_picture.specs.ReadSoFar.{IsReadSoFar};
ghost use Rattle.row_types.specs.declared.limits.TheConstants.{READ_LIMIT};
ghost use Rattle.tree_trait.specs.Opened.{IsPictureOf};
ghost use Rattle.tree_trait.specs.Reader.{SaysRow};

use crate::elf_reader::{large_row, row_of};
use crate::elf_truth::ElfTruth;
use crate::reading::{ReadingView, reading_seen};
use file_picture::Picture;
use row_types::{FILE_LIMIT, Name};
use std::alloc::Global;
use tree_trait::ViewAnswer;

/// The row under a name of each file that agrees with a picture, as soon as what is known and what is
/// asked for decide it; else a part that isn't there, and with which no more than
/// [`READ_LIMIT`](row_types::READ_LIMIT) bytes are known. No section before one is looked at for a
/// build-id. A file above [`FILE_LIMIT`] needs no part, and nothing of it is looked at.
pub fn read_view<W: ElfTruth>(
    alloc: Global,
    name: Name,
    picture: &Picture,
    from: u64,
) -> ViewAnswer<W>
    requires picture { IsPictureOf W.version name picture.now }
    requires passed { HasPassed picture.now from }
    requires read { IsReadSoFar READ_LIMIT picture.now }
    ensures { SaysRow name picture.now result }
{
    if name.stamp.size > FILE_LIMIT {
        return ViewAnswer::Row(large_row(name));
    }
    match reading_seen(alloc, picture, from) {
        ReadingView::Need { at, len, next } => ViewAnswer::Need {
            name,
            at,
            len,
            next,
        },
        ReadingView::Read(reading) => ViewAnswer::Row(row_of(name, reading)),
        ReadingView::OutOfMemory => ViewAnswer::OutOfMemory(name),
    }
}
