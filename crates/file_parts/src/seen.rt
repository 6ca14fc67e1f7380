//! The file at a path, as it is found.

ghost use Rattle.std.specs.Prelude.{◌≡◌, ℕ, List};
ghost use Rattle.file_parts.specs.AtPath.{SeesAtPath, SeesOpened, stamped_name};
ghost use Rattle.file_parts.specs.Wholes.{needs_of};

use crate::fills::fill_whole;
use crate::part::FilePart;
use row_types::{FILE_LIMIT, Stamp, Truth};
use std::alloc::Global;
use tree_trait::{FillAnswer, OpenAnswer, Opened, Tree};

/// What is found of the file at a path.
#[derive(Drop)]
pub enum FileSeen<W: Truth, F: Drop> {
    /// The open file, with all that the answer rests on.
    Read(Opened<W, F>),
    /// It is larger than a file that is read, and has this stamp.
    TooLarge(Stamp),
    /// No regular file is there.
    Gone,
    /// The opening or a read failed, and the hand's count of faults rose.
    Failed,
    /// Memory was refused.
    OutOfMemory,
}

/// Opens the file at a path, up to [`FILE_LIMIT`], and reads of it what the answer rests on, and no
/// more; want of memory where that would be more than [`READ_LIMIT`](row_types::READ_LIMIT) bytes.
pub fn read_at_path<W: Truth, T: Tree<W>>(
    alloc: Global,
    hand: &mut T,
    path: &str,
    part: FilePart<'_>,
) -> FileSeen<W, T::File>
    ensures { SeesAtPath T.opened (needs_of part.entry) T.told W.version path.now
        (T.shows hand.old) (T.shows hand.new) result }
{
    match hand.open_file(alloc, path, FILE_LIMIT) {
        OpenAnswer::Opened { file, stamp } => read_opened(alloc, hand, path, part, file, stamp),
        OpenAnswer::TooLarge { stamp } => FileSeen::TooLarge(stamp),
        OpenAnswer::Gone => FileSeen::Gone,
        OpenAnswer::Failed => FileSeen::Failed,
        OpenAnswer::OutOfMemory => FileSeen::OutOfMemory,
    }
}

/// Reads of a file that was opened what the answer rests on.
fn read_opened<W: Truth, T: Tree<W>>(
    alloc: Global,
    hand: &mut T,
    path: &str,
    part: FilePart<'_>,
    file: T::File,
    stamp: Stamp,
) -> FileSeen<W, T::File>
    requires known { (b : List ℕ) × W.version path.now stamp b }
    requires opened { T.opened file ≡ stamped_name path.now stamp }
    ensures { SeesOpened T.opened (needs_of part.entry) T.told W.version path.now stamp
        (T.shows hand.old) (T.shows hand.new) result }
{
    let Ok(own) = String::from_str(alloc, path) else {
        return FileSeen::OutOfMemory;
    };
    let mut opened = Opened::new(alloc, own, stamp, file);
    let end = fill_whole(alloc, hand, &mut opened, part);
    // For its clause: a version of the name agrees with the picture.
    opened.knows();
    match end {
        FillAnswer::Done => FileSeen::Read(opened),
        FillAnswer::Failed => FileSeen::Failed,
        FillAnswer::OutOfMemory => FileSeen::OutOfMemory,
    }
}
