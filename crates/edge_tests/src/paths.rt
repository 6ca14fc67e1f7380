//! Looks, loads and reads of folders where nothing is refused.

use crate::asking::{Question, ask, ask_all};
use crate::folders::{below, folder_of, make_folder};
use crate::refusing::Refusing;
use dbgd_edges::RealTree;
use std::alloc::Global;
use std::fs::{self, Files};
use std::process::Abort;

/// A path behind the test's folder, and what a look, a load of at most four bytes and a read of a
/// folder answer.
type Case = (&'static str, &'static str);

const FILE: &str = "file 4 100 7 | four | gone";

const INNER: &str = "folder | gone | five file, round other, 0 skipped";

const GONE: &str = "gone | gone | gone";

static PATHS: [Case; 10] = [
    (
        "",
        "folder | gone | a file, inner folder, link other, own file, 0 skipped",
    ),
    ("/a", FILE),
    ("/own", FILE),
    ("/inner", INNER),
    ("/inner/round", GONE),
    // A link on the way is resolved, and so is one before a last slash.
    ("/inner/round/../a", FILE),
    ("/inner/round/", INNER),
    ("/link", GONE),
    ("/b", GONE),
    ("/a/b", GONE),
];

/// The file of five bytes, behind the test's folder.
const FIVE: &str = "/inner/five";

/// Makes the file of five bytes.
fn make_five<R: Files + AllocGlobal + Abort>(rt: &R, folder: &str) {
    let path = below(rt, rt.alloc(), folder, FIVE);
    fs::write(rt, path.as_str(), "five!").expect(rt, "a file");
}

/// Asks about a path behind a folder, and compares.
fn compare_all(
    rt: &impl Abort,
    alloc: Global,
    tree: &mut RealTree<Refusing>,
    folder: &str,
    case: &Case,
) {
    let (end, want) = case;
    let path = below(rt, alloc, folder, end);
    let text = ask_all(rt, alloc, tree, path.as_str());
    assert!(rt; text.as_str() == *want, "{end}: {text}");
}

/// Asks one question, and compares.
fn compare(
    rt: &impl Abort,
    alloc: Global,
    tree: &mut RealTree<Refusing>,
    what: Question,
    path: &str,
    want: &str,
) {
    let text = ask(rt, alloc, tree, what, path, 4);
    assert!(rt; text.as_str() == want, "{path}: {text}");
}

/// Asks about each path of the table, a file that is too large, and one that is no regular file.
fn compare_paths(rt: &impl Abort, alloc: Global, files: Refusing, folder: &str) {
    let mut tree = RealTree::new(files);
    for case in &PATHS {
        compare_all(rt, alloc, &mut tree, folder, case);
    }
    let five = below(rt, alloc, folder, FIVE);
    compare(
        rt,
        alloc,
        &mut tree,
        Question::Load,
        five.as_str(),
        "too large",
    );
    compare(rt, alloc, &mut tree, Question::Stat, "/dev/null", "other");
    assert!(rt; tree.count() == 0, "faults");
}

#[test]
fn only_what_stands_there_itself_is_seen(rt: HostRuntime) {
    let folder = folder_of(&rt, "paths").expect(&rt, "a path");
    let folder = folder.as_str();
    make_folder(&rt, folder);
    make_five(&rt, folder);
    compare_paths(&rt, rt.alloc(), Refusing::nothing(rt), folder);
    fs::remove_dir_all(&rt, folder).expect(&rt, "its removal");
}
