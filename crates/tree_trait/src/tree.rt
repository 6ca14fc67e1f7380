//! The trait that stands for a tree of files.

ghost use Rattle.std.specs.Prelude.{◌≡◌, ℕ, ◌+◌, ◌<◌, ◌≤◌, Bool, true, List, length, IsTrue};
ghost use Rattle.file_formats.specs.Numbers.{bytes_at};
ghost use Rattle.row_types.specs.Name.{NameFacts};
ghost use Rattle.tree_trait.specs.Asks.{AsksTree, ReadsOpened};
ghost use Rattle.tree_trait.specs.Dir.{dir_facts};
ghost use Rattle.tree_trait.specs.Heard.{load, stat, read_dir, open_file, read_at, wants_memory};
ghost use Rattle.tree_trait.specs.Load.{load_facts};
ghost use Rattle.tree_trait.specs.Open.{IsOpenedAs, open_facts, room_facts};
ghost use Rattle.tree_trait.specs.Shown.{ShownTree};
ghost use Rattle.tree_trait.specs.declared.opening.RoomAnswer.TheVariants as room_answer;

use crate::answer::LoadAnswer;
use crate::dir::DirAnswer;
use crate::opening::{OpenAnswer, RoomAnswer};
use crate::stat::StatAnswer;
use row_types::Truth;
use std::alloc::Global;

/// The files of a world as they stand outside: the real file system, or a script in memory. Each
/// object counts its own faults.
pub trait Tree<W: Truth>: Send + Drop {
    /// An open file.
    type File: Send + Drop;

    /// Whether the tree tells what it has. It is a fact of the type.
    ghost told: { Bool };

    /// What it shows: the names that are there, where told, and that they never change and none
    /// lies under another; its questions so far with their answers, where they are told; and how
    /// often a call has failed, a count that never falls and stands still at 2^64 - 1.
    ghost shows: { Self → ShownTree };

    /// The path and the stamp with which a file was opened.
    ghost opened: { Self.File → NameFacts };

    /// Reads the regular file at a path, if it has no more bytes than the limit.
    fn load(&mut self, alloc: Global, path: &str, limit: u64) -> LoadAnswer<W>
        ensures asks { AsksTree told W.version (shows self.old) (shows self.new)
            (load path.now limit (load_facts result)) }
        ensures memory { IsTrue (wants_memory (load path.now limit (load_facts result)))
            → self.new ≡ self.old };

    /// Looks at what stands at a path.
    fn stat(&mut self, alloc: Global, path: &str) -> StatAnswer
        ensures asks { AsksTree told W.version (shows self.old) (shows self.new)
            (stat path.now result) }
        ensures memory { IsTrue (wants_memory (stat path.now result)) → self.new ≡ self.old };

    /// Reads the entries of the folder at a path.
    fn read_dir(&mut self, alloc: Global, path: &str) -> DirAnswer
        ensures asks { AsksTree told W.version (shows self.old) (shows self.new)
            (read_dir path.now (dir_facts result)) }
        ensures memory { IsTrue (wants_memory (read_dir path.now (dir_facts result)))
            → self.new ≡ self.old };

    /// Opens the regular file at a path, if it has no more bytes than the limit. None of its bytes
    /// is read.
    fn open_file(&mut self, alloc: Global, path: &str, limit: u64) -> OpenAnswer<Self::File>
        ensures asks { AsksTree told W.version (shows self.old) (shows self.new)
            (open_file path.now limit (open_facts result)) }
        ensures name { IsOpenedAs opened path.now result }
        ensures memory { IsTrue (wants_memory (open_file path.now limit (open_facts result)))
            → self.new ≡ self.old };

    /// Reads the bytes of an open file from a place on into all of a room. No memory is taken from
    /// outside; a tree that tells its questions stops telling them where it has none for this one.
    fn read_at(&mut self, file: &mut Self::File, at: u64, room: &mut [u8]) -> RoomAnswer
        requires some { 0 < length room.old }
        requires inside { at + length room.old ≤ (opened file.old).stamp.size }
        ensures asks { ReadsOpened told W.version (shows self.old) (shows self.new)
            (read_at (opened file.old) at (room_facts result room.new)) }
        ensures name { opened file.new ≡ opened file.old }
        ensures len { length room.new ≡ length room.old }
        ensures bytes { result ≡ room_answer.Filled → W.told ≡ true → (b : List ℕ)
            → W.version (opened file.old).path (opened file.old).stamp b
            → room.new ≡ bytes_at b at (length room.old) };
}
