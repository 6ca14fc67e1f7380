//! A tree that notes what it is asked.

ghost use Rattle.std.specs.Prelude.{◌≡◌};

use row_types::OpenWorld;
use std::alloc::Global;
use tree_trait::{DirAnswer, Found, LoadAnswer, MemTree, OpenAnswer, RoomAnswer, StatAnswer, Tree};

/// A tree in memory, with the looks and the readings of folders that were asked of it, as far as there
/// was memory for them.
#[derive(Drop)]
pub struct Noted {
    /// The tree.
    pub tree: MemTree<OpenWorld>,
    /// The questions, as `look /w, read /w, `.
    pub asked: String,
}

/// Adds a question.
fn note(asked: &mut String, word: &str, path: &str) {
    let _added = asked.push_str(word).is_ok()
        && asked.push_str(path).is_ok()
        && asked.push_str(", ").is_ok();
}

impl Tree<OpenWorld> for Noted {
    ghost use Rattle.std.specs.Prelude.{true};
    ghost use Rattle.tree_trait.specs.Found.{found_name};
    ghost use Rattle.tree_trait.specs.MemTree.{tree_shows};

    type File = Found<OpenWorld>;

    ghost told = { true };

    ghost shows = { λ t. tree_shows t.tree };

    ghost opened = { found_name };

    fn load(&mut self, alloc: Global, path: &str, limit: u64) -> LoadAnswer<OpenWorld> {
        self.tree.load(alloc, path, limit)
    }

    fn stat(&mut self, alloc: Global, path: &str) -> StatAnswer {
        let answer = self.tree.stat(alloc, path);
        if !matches!(answer, StatAnswer::OutOfMemory) {
            note(&mut self.asked, "look ", path);
        }
        answer
    }

    fn read_dir(&mut self, alloc: Global, path: &str) -> DirAnswer {
        let answer = self.tree.read_dir(alloc, path);
        if !matches!(answer, DirAnswer::OutOfMemory) {
            note(&mut self.asked, "read ", path);
        }
        answer
    }

    fn open_file(&mut self, alloc: Global, path: &str, limit: u64) -> OpenAnswer<Found<OpenWorld>> {
        self.tree.open_file(alloc, path, limit)
    }

    fn read_at(&mut self, file: &mut Found<OpenWorld>, at: u64, room: &mut [u8]) -> RoomAnswer {
        self.tree.read_at(file, at, room)
    }
}
