//! What a read of an open file of the disk answers, where the file changed since it was opened.

ghost use Rattle.std.specs.Prelude.{◌≡◌};

use crate::folders::{below, folder_of, make_folder};
use dbgd_edges::RealTree;
use row_types::OpenWorld;
use std::fs::{self, File, Files};
use std::io;
use std::process::Abort;
use tree_trait::{OpenAnswer, RoomAnswer, Tree};

/// What becomes of a file that is open.
#[derive(Clone, Copy, PartialEq, Eq)]
enum Fate {
    Stays,
    Grows,
    Shrinks,
    GivesWay,
}

/// Lets it become so.
fn meet(files: &impl Files<File = File>, path: &str, fate: Fate) -> io::Result<()> {
    match fate {
        Fate::Stays => Ok(()),
        Fate::Grows => fs::write(files, path, "four and more"),
        Fate::Shrinks => fs::write(files, path, ""),
        Fate::GivesWay => {
            fs::remove_file(files, path)?;
            fs::write(files, path, "other")
        }
    }
}

/// What a read of the first byte of an open file of this size answers, in a word.
fn first_word<T: Tree<OpenWorld>>(tree: &mut T, file: &mut T::File, size: u64) -> &'static str
    requires size { (T.opened file.old).stamp.size ≡ size }
    ensures { T.opened file.new ≡ T.opened file.old }
{
    let mut room = [0];
    if size == 0 {
        return "empty";
    }
    match tree.read_at(file, 0, &mut room[..]) {
        RoomAnswer::Filled if room[0] == b'f' => "f",
        RoomAnswer::Filled => "other",
        RoomAnswer::Failed => "failed",
    }
}

/// Opens the file at a path, lets it become so, and says what a read of its first byte answers then.
fn word_behind<R, T>(rt: &R, tree: &mut T, path: &str, fate: Fate) -> &'static str
where
    R: Files<File = File> + AllocGlobal + Abort,
    T: Tree<OpenWorld>,
{
    match tree.open_file(rt.alloc(), path, 100) {
        OpenAnswer::Opened { file, stamp } => {
            let mut file = file;
            meet(rt, path, fate).expect(rt, "a change");
            first_word(tree, &mut file, stamp.size)
        }
        _ => "not opened",
    }
}

/// What becomes of the open file, a name for a folder, what the read answers, and how often the tree
/// has failed then. A file that another one stands for at its path is read all the same.
static CASES: [(Fate, &str, &str, u64); 4] = [
    (Fate::Stays, "open-stays", "f", 0),
    (Fate::Grows, "open-grows", "failed", 1),
    (Fate::Shrinks, "open-shrinks", "failed", 1),
    (Fate::GivesWay, "open-gives-way", "f", 0),
];

#[test]
fn an_open_file_is_read_as_long_as_it_stays(rt: HostRuntime) {
    for (fate, name, want, count) in &CASES {
        let folder = folder_of(&rt, name).expect(&rt, "a path");
        make_folder(&rt, folder.as_str());
        let path = below(&rt, rt.alloc(), folder.as_str(), "/own");
        let mut tree = RealTree::new(rt);
        let word = word_behind(&rt, &mut tree, path.as_str(), *fate);
        assert!(rt; word == *want, "{name}: {word}");
        assert!(rt; tree.count() == *count, "faults of {name}");
        fs::remove_dir_all(&rt, folder.as_str()).expect(&rt, "its removal");
    }
}
