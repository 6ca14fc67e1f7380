//! What the real tree answers of what this user may not read, of links that lead round, and of long
//! names.

use crate::asking::ask_all;
use crate::folders::{below, folder_of, make_dir, make_file, make_folder, make_link, set_mode};
use crate::refusing::Refusing;
use dbgd_edges::RealTree;
use std::alloc::Global;
use std::fs::{self, File, Files};
use std::process::Abort;

/// A path behind the test's folder, and what a look, a load and a read of a folder answer to a user
/// who may read all, as the superuser may, and to any other.
type Case = (&'static str, &'static str, &'static str);

/// What nothing leads to.
const GONE: &str = "gone | gone | gone";

/// The file, and a folder with it, to one who may read all.
const FILE: &str = "file 4 100 7 | four | gone";

const LISTED: &str = "folder | gone | in file, 0 skipped";

static CLOSED: [Case; 4] = [
    ("/shut", FILE, "gone | failed | gone"),
    ("/closed", LISTED, "gone | gone | 1 skipped"),
    ("/closed/in", FILE, "gone | failed | 1 skipped"),
    ("/unsearched", LISTED, "gone | gone | 1 skipped"),
];

/// The folders of the test, and their modes. The second may be read and not searched.
static MODES: [(&str, u32); 2] = [("/closed", 0), ("/unsearched", 0o444)];

/// Gives what stands there this mode.
fn set_mode_below<R: Files + AllocGlobal + Abort>(rt: &R, folder: &str, end: &str, mode: u32) {
    let path = below(rt, rt.alloc(), folder, end);
    set_mode(rt, path.as_str(), mode).expect(rt, "a mode");
}

/// Makes a file that may not be read, and two folders with a file `in`.
fn make_closed<R: Files<File = File> + AllocGlobal + Abort>(rt: &R, folder: &str) {
    make_folder(rt, folder);
    make_file(rt, folder, "/shut", 0);
    for (end, _) in &MODES {
        make_dir(rt, folder, end);
    }
    make_file(rt, folder, "/closed/in", 0o644);
    make_file(rt, folder, "/unsearched/in", 0o644);
    for (end, mode) in &MODES {
        set_mode_below(rt, folder, end, *mode);
    }
}

/// Whether this user may read all.
fn reads_all<R: Files + AllocGlobal + Abort>(rt: &R, folder: &str) -> bool {
    let shut = below(rt, rt.alloc(), folder, "/shut");
    fs::read_to_string(rt, shut.as_str()).is_ok()
}

/// Asks about a path behind a folder, and compares.
fn compare(
    rt: &impl Abort,
    alloc: Global,
    tree: &mut RealTree<Refusing>,
    folder: &str,
    end: &str,
    want: &str,
) {
    let path = below(rt, alloc, folder, end);
    let text = ask_all(rt, alloc, tree, path.as_str());
    assert!(rt; text.as_str() == want, "{end}: {text}");
}

/// Asks about each path of the table, and compares.
fn compare_closed(rt: &impl Abort, alloc: Global, files: Refusing, folder: &str, reads_all: bool) {
    let mut tree = RealTree::new(files);
    for (end, open, refused) in &CLOSED {
        let want = if reads_all { *open } else { *refused };
        compare(rt, alloc, &mut tree, folder, end, want);
    }
    let count = if reads_all { 0 } else { 9 };
    assert!(rt; tree.count() == count, "faults");
}

#[test]
fn what_may_not_be_read_is_gone_to_a_look(rt: HostRuntime) {
    let folder = folder_of(&rt, "closed").expect(&rt, "a path");
    let folder = folder.as_str();
    make_closed(&rt, folder);
    let reads_all = reads_all(&rt, folder);
    compare_closed(&rt, rt.alloc(), Refusing::nothing(rt), folder, reads_all);
    for (end, _) in &MODES {
        set_mode_below(&rt, folder, end, 0o700);
    }
    fs::remove_dir_all(&rt, folder).expect(&rt, "its removal");
}

/// What no way leads to, behind the test's folder, and how often the tree has failed then.
static GONE_PATHS: [(&str, u64); 2] = [("/around", 0), ("/around/in", 3)];

/// Asks about each path of the table, and about a name that is too long.
fn compare_gone(rt: &impl Abort, alloc: Global, files: Refusing, folder: &str) {
    let mut tree = RealTree::new(files);
    for (end, count) in &GONE_PATHS {
        compare(rt, alloc, &mut tree, folder, end, GONE);
        assert!(rt; tree.count() == *count, "faults after {end}");
    }
    // Linux takes names of 255 bytes.
    let long = format!(in alloc; "/{:>256}", "n").expect(rt, "memory");
    compare(rt, alloc, &mut tree, folder, long.as_str(), GONE);
    assert!(rt; tree.count() == 6, "faults after a long name");
}

#[test]
fn what_no_way_leads_to_is_gone(rt: HostRuntime) {
    let folder = folder_of(&rt, "round").expect(&rt, "a path");
    let folder = folder.as_str();
    make_folder(&rt, folder);
    make_link(&rt, folder, "/around", "around");
    compare_gone(&rt, rt.alloc(), Refusing::nothing(rt), folder);
    fs::remove_dir_all(&rt, folder).expect(&rt, "its removal");
}
