//! What the real tree answers of a file that changes just before it is opened.

use crate::asking::{Question, ask};
use crate::folders::{below, folder_of, make_folder};
use crate::refusing::{Change, Refusing};
use dbgd_edges::RealTree;
use std::alloc::Global;
use std::fs;
use std::process::Abort;

/// What becomes of the file, a name for a folder, what a look is to answer, what a second one is
/// after a load that failed, and how often the tree has failed then.
type Case = (Change, &'static str, &'static str, &'static str, u64);

/// A look and a load are tried four times.
static CASES: [Case; 2] = [
    (Change::Grows, "grows", "file 5 100 7", "file 10 100 7", 1),
    (Change::GivesWay, "gives-way", "failed", "failed", 3),
];

/// Asks about a file that changes, and compares.
fn compare(rt: &impl Abort, alloc: Global, files: Refusing, path: &str, case: &Case) {
    let (_, name, first, second, count) = case;
    let mut tree = RealTree::new(files);
    for (what, want) in [
        (Question::Stat, *first),
        (Question::Load, "failed"),
        (Question::Stat, *second),
    ] {
        let text = ask(rt, alloc, &mut tree, what, path, 100);
        let what = what.name();
        assert!(rt; text.as_str() == want, "{what} where it {name}: {text}");
    }
    assert!(rt; tree.count() == *count, "faults where it {name}");
}

#[test]
fn a_file_that_grows_is_seen_and_one_that_gives_way_is_not(rt: HostRuntime) {
    for case in &CASES {
        let folder = folder_of(&rt, case.1).expect(&rt, "a path");
        make_folder(&rt, folder.as_str());
        let mut files = Refusing::nothing(rt);
        files.change = Some(case.0);
        let path = below(&rt, rt.alloc(), folder.as_str(), "/own");
        compare(&rt, rt.alloc(), files, path.as_str(), case);
        fs::remove_dir_all(&rt, folder.as_str()).expect(&rt, "its removal");
    }
}
