//! What the real tree answers where the system refuses.

use crate::asking::Question::{self, Load, ReadDir, Stat};
use crate::asking::{ask, ask_all};
use crate::folders::{below, folder_of, make_folder};
use crate::refusing::Call::{self, Enter, List, Look, Open};
use crate::refusing::{Refusal, Refusing};
use dbgd_edges::RealTree;
use std::alloc::Global;
use std::fs;
use std::process::Abort;

// Numbers of Linux (asm-generic/errno-base.h and errno.h).
const EPERM: i32 = 1;

const ENOENT: i32 = 2;

const ESRCH: i32 = 3;

const EIO: i32 = 5;

const ENOMEM: i32 = 12;

const EACCES: i32 = 13;

const ENOTDIR: i32 = 20;

const EINVAL: i32 = 22;

const ENAMETOOLONG: i32 = 36;

const ELOOP: i32 = 40;

const ESTALE: i32 = 116;

/// The names that a folder lists. `n\xff` isn't UTF-8, and nothing stands at `away`.
const NAMES: &[u8] = b".\0a\0..\0inner\0n\xff\0away\0";

/// The files of this machine, but for what is refused, and for what each folder lists.
fn refusing(rt: &HostRuntime, refusal: Refusal) -> Refusing {
    let mut files = Refusing::nothing(*rt);
    files.refusal = Some(refusal);
    files.names = Some(NAMES);
    files
}

/// The number of an error of the first look at a folder, what a look, a load and a read of it
/// answer then, how often they have failed, and what a read of the folder above answers.
type Refused = (i32, &'static str, u64, &'static str);

/// What nothing leads to, and what may not be read.
const GONE: &str = "gone | gone | gone";

const DENIED: &str = "gone | failed | 1 skipped";

static REFUSED: [Refused; 11] = [
    (ENOENT, GONE, 0, "a file, 1 skipped"),
    (ENOTDIR, GONE, 0, "a file, 1 skipped"),
    (EACCES, DENIED, 3, "a file, 2 skipped"),
    (EPERM, DENIED, 3, "a file, 2 skipped"),
    (ESRCH, GONE, 3, "a file, 2 skipped"),
    (ELOOP, GONE, 3, "a file, 2 skipped"),
    (ENAMETOOLONG, GONE, 3, "a file, 2 skipped"),
    (ESTALE, GONE, 3, "a file, 2 skipped"),
    (
        ENOMEM,
        "out of memory | out of memory | out of memory",
        0,
        "out of memory",
    ),
    (EINVAL, "failed | failed | failed", 3, "failed"),
    (EIO, "failed | failed | failed", 3, "failed"),
];

/// Asks about a folder and the one above, and compares.
fn compare_refused(
    rt: &impl Abort,
    alloc: Global,
    tree: &mut RealTree<Refusing>,
    folder: &str,
    case: &Refused,
) {
    let (number, wanted, count, above) = case;
    let path = below(rt, alloc, folder, "/inner");
    let text = ask_all(rt, alloc, tree, path.as_str());
    assert!(rt; text.as_str() == *wanted, "error {number}: {text}");
    assert!(rt; tree.count() == *count, "faults by error {number}");
    let text = ask(rt, alloc, tree, ReadDir, folder, 4);
    assert!(rt; text.as_str() == *above, "above error {number}: {text}");
    let count = count.saturating_add(count / 3);
    assert!(rt; tree.count() == count, "faults above error {number}");
}

#[test]
fn each_error_has_its_answers(rt: HostRuntime) {
    let folder = folder_of(&rt, "errors").expect(&rt, "a path");
    let folder = folder.as_str();
    make_folder(&rt, folder);
    for case in &REFUSED {
        let mut tree = RealTree::new(refusing(&rt, Refusal(Look, "/inner", case.0)));
        compare_refused(&rt, rt.alloc(), &mut tree, folder, case);
    }
    fs::remove_dir_all(&rt, folder).expect(&rt, "its removal");
}

/// A call that is refused on the paths with this end, with the error of this number, a question at
/// that path, its answer, and how often the tree has failed then.
type Case = (Call, &'static str, i32, Question, &'static str, u64);

static LATER: [Case; 17] = [
    // A file that everyone may read isn't opened by a look.
    (Open, "/a", EACCES, Stat, "file 4 100 7", 0),
    (Open, "/a", EACCES, Load, "failed", 1),
    (Open, "/a", ENOENT, Load, "gone", 0),
    (Open, "/a", ELOOP, Load, "gone", 1),
    (Open, "/own", EACCES, Stat, "gone", 1),
    (Open, "/own", ESRCH, Stat, "gone", 1),
    (Open, "/own", ENOENT, Stat, "gone", 0),
    (Open, "/own", EIO, Stat, "failed", 1),
    // A look enters a folder by the way to itself.
    (Enter, "/inner/.", EACCES, Stat, "gone", 1),
    (Enter, "/inner/.", EIO, Stat, "failed", 1),
    (Enter, "/inner/", EACCES, Stat, "folder", 0),
    (Enter, "/inner/", EACCES, ReadDir, "1 skipped", 1),
    (Enter, "/inner/", ESRCH, ReadDir, "gone", 1),
    (Enter, "/inner/", ENOMEM, ReadDir, "out of memory", 0),
    (List, "/inner/", EINVAL, ReadDir, "gone", 1),
    (List, "/inner/", ESRCH, ReadDir, "gone", 1),
    (List, "/inner/", EIO, ReadDir, "failed", 1),
];

/// Asks at the path of a case, and compares.
fn compare_later(
    rt: &impl Abort,
    alloc: Global,
    tree: &mut RealTree<Refusing>,
    folder: &str,
    case: &Case,
) {
    let (call, end, number, what, want, count) = case;
    let path = below(
        rt,
        alloc,
        folder,
        end.trim_end_matches('.').trim_end_matches('/'),
    );
    let text = ask(rt, alloc, tree, *what, path.as_str(), 4);
    let (call, what) = (call.name(), what.name());
    assert!(rt;
        text.as_str() == *want,
        "{what} after {call} {end} {number}: {text}"
    );
    assert!(rt;
        tree.count() == *count,
        "faults of {what} after {call} {end} {number}"
    );
}

#[test]
fn an_error_after_the_look_has_its_answer(rt: HostRuntime) {
    let folder = folder_of(&rt, "later").expect(&rt, "a path");
    let folder = folder.as_str();
    make_folder(&rt, folder);
    for case in &LATER {
        let mut tree = RealTree::new(refusing(&rt, Refusal(case.0, case.1, case.2)));
        compare_later(&rt, rt.alloc(), &mut tree, folder, case);
    }
    fs::remove_dir_all(&rt, folder).expect(&rt, "its removal");
}
