//! What a folder as a cache answers, by what stands there, and what stands there then.

use crate::caching::Thing::{self, File, Folder, Link, Zeros};
use crate::caching::{Answers, FAILS, FRESH, NAME, compare_at, compare_left, make_all};
use crate::folders::{below, folder_of};
use crate::refusing::Refusing;
use std::fs;
use std::process::Abort;

/// What stands behind the test's folder, the cache's folder, the answers, and what the folder has then.
struct Case {
    says: &'static str,
    stands: &'static [Thing],
    folder: &'static str,
    answers: Answers,
    left: &'static str,
}

const ENTRY: &str = "ab-executable file, 0 skipped";

static CASES: [Case; 11] = [
    Case {
        says: "no folder",
        stands: &[],
        folder: "/cache",
        answers: FRESH,
        left: ENTRY,
    },
    Case {
        says: "no parent",
        stands: &[],
        folder: "/a/b/cache",
        answers: FRESH,
        left: ENTRY,
    },
    Case {
        says: "another value",
        stands: &[Folder("/cache"), File("/cache/ab-executable", "other")],
        folder: "/cache",
        answers: ("other", "done", "four", 0),
        left: ENTRY,
    },
    Case {
        says: "a value that was cut",
        stands: &[Folder("/cache"), File("/cache/ab-executable", "fo")],
        folder: "/cache",
        answers: ("fo", "done", "four", 0),
        left: ENTRY,
    },
    Case {
        says: "an empty value",
        stands: &[Folder("/cache"), File("/cache/ab-executable", "")],
        folder: "/cache/",
        answers: ("", "done", "four", 0),
        left: ENTRY,
    },
    Case {
        says: "a value of more than 2^30 bytes",
        stands: &[Folder("/cache"), Zeros("/cache/ab-executable", 1073741825)],
        folder: "/cache",
        answers: FRESH,
        left: ENTRY,
    },
    Case {
        says: "a folder in its place",
        stands: &[Folder("/cache"), Folder("/cache/ab-executable")],
        folder: "/cache",
        answers: FAILS,
        left: "ab-executable folder, 0 skipped",
    },
    Case {
        says: "a link in its place",
        stands: &[
            Folder("/cache"),
            File("/cache/four", "four"),
            Link("/cache/ab-executable", "four"),
        ],
        folder: "/cache",
        answers: ("failed", "done", "four", 1),
        left: "ab-executable file, four file, 0 skipped",
    },
    Case {
        says: "a new file of a process that died",
        stands: &[Folder("/cache"), File("/cache/.ab-executable.7-0", "fo")],
        folder: "/cache",
        answers: FRESH,
        left: ".ab-executable.7-0 file, ab-executable file, 0 skipped",
    },
    Case {
        says: "a file in the folder's place",
        stands: &[File("/cache", "other")],
        folder: "/cache",
        answers: FAILS,
        left: "gone",
    },
    Case {
        says: "a file in a parent's place",
        stands: &[File("/a", "other")],
        folder: "/a/cache",
        answers: FAILS,
        left: "gone",
    },
];

/// Compares a case over the files of this machine.
fn compare_case(rt: &impl Abort, files: Refusing, folder: &str, case: &Case) {
    let path = below(rt, files.alloc(), folder, case.folder);
    compare_at(rt, files, path.as_str(), NAME, &case.answers, case.says);
    compare_left(rt, files, path.as_str(), case.left, case.says);
}

#[test]
fn an_entry_is_a_file_of_the_folder(rt: HostRuntime) {
    for case in &CASES {
        let folder = folder_of(&rt, "caches").expect(&rt, "a path");
        make_all(&rt, folder.as_str(), case.stands);
        compare_case(&rt, Refusing::nothing(rt), folder.as_str(), case);
        fs::remove_dir_all(&rt, folder.as_str()).expect(&rt, "its removal");
    }
}

/// Names that are no entry's.
static NAMES: [&str; 4] = ["", ".", "..", "a/ab-executable"];

#[test]
fn what_has_no_place_fails(rt: HostRuntime) {
    let files = Refusing::nothing(rt);
    compare_at(&rt, files, "", NAME, &FAILS, "no name");
    let folder = folder_of(&rt, "placeless").expect(&rt, "a path");
    make_all(&rt, folder.as_str(), &[Folder("/a")]);
    for name in &NAMES {
        compare_at(&rt, files, folder.as_str(), name, &FAILS, name);
    }
    compare_left(&rt, files, folder.as_str(), "a folder, 0 skipped", "names");
    fs::remove_dir_all(&rt, folder.as_str()).expect(&rt, "its removal");
}
