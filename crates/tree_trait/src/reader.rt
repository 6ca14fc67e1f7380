//! The trait that stands for what reads a file.

ghost use Rattle.std.specs.Prelude.{◌≡◌, ◌⊎◌, ◌≤◌, ◌<◌, IfOk};
ghost use Rattle.file_picture.specs.Passed.{HasPassed};
ghost use Rattle.file_picture.specs.ReadSoFar.{IsReadSoFar};
ghost use Rattle.row_types.specs.declared.limits.TheConstants.{FILE_LIMIT, READ_LIMIT};
ghost use Rattle.tree_trait.specs.Found.{found_name};
ghost use Rattle.tree_trait.specs.Opened.{opened_name};
ghost use Rattle.tree_trait.specs.Reader.{IsRowOf, SaysRow};

use crate::found::Found;
use crate::opened::Opened;
use row_types::{Name, TrueRow, Truth};
use std::alloc::{AllocError, Global};

/// What the bytes that are known of a file say of the row under its name.
#[derive(Drop)]
pub enum ViewAnswer<W: Truth> {
    /// These bytes are needed, and aren't there.
    Need {
        /// The name, given back.
        name: Name,
        /// Where they begin, in bytes from the file's start.
        at: u64,
        /// How many they are.
        len: u64,
        /// The index of the section from which to look on for a build-id, once they are there.
        next: u64,
    },
    /// The row.
    Row(TrueRow<W>),
    /// Memory was refused for the sources, and the name comes back.
    OutOfMemory(Name),
}

/// Makes the row of a file, which is true in the world `W`. Threads share it.
pub trait Reader<W: Truth>: Sync {
    /// The row of a file that was found under this name, by the reading of its bytes. A file above
    /// [`FILE_LIMIT`](row_types::FILE_LIMIT) has one too; of any other of more than
    /// [`READ_LIMIT`](row_types::READ_LIMIT) bytes the answer is want of memory.
    fn read(&self, alloc: Global, name: Name, found: &Found<W>) -> Result<TrueRow<W>, AllocError>
        requires { found_name found.now ≡ name }
        ensures row { IfOk result (IsRowOf name found.now.bytes) }
        ensures small { IfOk result (λ _. name.stamp.size ≤ READ_LIMIT ⊎ FILE_LIMIT < name.stamp.size) };

    /// The row under the name of an open file, by the bytes that were read of it, once they decide it;
    /// else a part that isn't there, and with which no more than
    /// [`READ_LIMIT`](row_types::READ_LIMIT) bytes are known. No section before one is looked at for a
    /// build-id. A file above [`FILE_LIMIT`](row_types::FILE_LIMIT) needs no part.
    fn read_view<F: Drop>(
        &self,
        alloc: Global,
        name: Name,
        opened: &Opened<W, F>,
        from: u64,
    ) -> ViewAnswer<W>
        requires name { opened_name opened.now ≡ name }
        requires passed { HasPassed opened.now.picture from }
        requires read { IsReadSoFar READ_LIMIT opened.now.picture }
        ensures { SaysRow name opened.now.picture result };
}
