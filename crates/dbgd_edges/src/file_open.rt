//! Regular files of the system that are opened, and read in parts.

ghost use Rattle.std.specs.Prelude.{◌≡◌, ℕ, ◌≤◌, length, IfOk};
ghost use Rattle.std.specs.String.{string_bytes};
ghost use Rattle.dbgd_edges.specs.OpenFiles.{IsOpenAnswered, real_name};

use crate::ahead::Ahead;
use crate::look::{regular, stamp_of, unchanged};
use crate::read_fault::ReadFault;
use crate::tries::settled;
use row_types::Stamp;
use std::alloc::Global;
use std::fs::{self, Files, Metadata, OpenFile};
use std::os::unix::fs::FileExt;
use tree_trait::OpenAnswer;

/// An open file of the system, with what was seen of it as it was opened.
#[derive(Drop)]
pub struct RealFile<F: Drop> {
    path: String,
    stamp: Stamp,
    seen: Metadata,
    file: F,
    ahead: Ahead,
}

/// The answer with an open file.
fn opened<F: Drop>(
    path: String,
    stamp: Stamp,
    seen: Metadata,
    file: F,
    ahead: Ahead,
) -> OpenAnswer<RealFile<F>>
    ensures { (limit : ℕ) → stamp.size ≤ limit
        → IsOpenAnswered (string_bytes path) limit result }
{
    OpenAnswer::Opened {
        file: RealFile {
            path,
            stamp,
            seen,
            file,
            ahead,
        },
        stamp,
    }
}

/// One try to open the file at a path. It is the one that was seen there, where a link isn't
/// followed.
fn open_once<R: Files>(
    files: &R,
    alloc: Global,
    path: &str,
    limit: u64,
) -> Result<OpenAnswer<RealFile<R::File>>, ReadFault>
    ensures { IfOk result (IsOpenAnswered path.now limit) }
{
    let seen = regular(fs::symlink_metadata(files, path))?;
    let stamp = stamp_of(&seen)?;
    if stamp.size > limit {
        return Ok(OpenAnswer::TooLarge { stamp });
    }
    let file = fs::open(files, path)?;
    let now = unchanged(&seen, file.metadata())?;
    let path = String::from_str(alloc, path)?;
    Ok(opened(path, stamp, now, file, Ahead::new(alloc)))
}

/// Opens the file at a path. Where it changed between the look and the opening, both are made
/// again.
pub fn open_real<R: Files>(
    files: &R,
    alloc: Global,
    path: &str,
    limit: u64,
) -> Result<OpenAnswer<RealFile<R::File>>, ReadFault>
    ensures { IfOk result (IsOpenAnswered path.now limit) }
{
    settled(|| open_once(files, alloc, path, limit))
}

impl<F: FileExt + OpenFile + Drop> RealFile<F> {
    /// Reads the bytes from a place on into all of a room. The file is looked at again behind each read
    /// of the system: one that changed since it was opened gives none that weren't read before.
    pub fn read_into(&mut self, at: u64, room: &mut [u8]) -> Result<(), ReadFault>
        ensures length { length room.new ≡ length room.old }
        ensures name { real_name self.new ≡ real_name self.old }
    {
        if self.ahead.give(at, room) {
            return Ok(());
        }
        if self.ahead.turn_to(at, room.len(), self.stamp.size) {
            self.read_ahead()?;
            if self.ahead.give(at, room) {
                return Ok(());
            }
        }
        self.file.read_exact_at(room, at)?;
        unchanged(&self.seen, self.file.metadata())?;
        Ok(())
    }

    /// Reads what there is room for ahead.
    fn read_ahead(&mut self) -> Result<(), ReadFault>
        ensures { real_name self.new ≡ real_name self.old }
    {
        let read = self.fill_ahead();
        if read.is_err() {
            self.ahead.forget();
        }
        read
    }

    /// Reads into the room ahead, and looks at the file again.
    fn fill_ahead(&mut self) -> Result<(), ReadFault>
        ensures { real_name self.new ≡ real_name self.old }
    {
        let start = self.ahead.start();
        self.file.read_exact_at(self.ahead.room(), start)?;
        unchanged(&self.seen, self.file.metadata())?;
        Ok(())
    }
}
