//! What a folder as a cache answers where the system refuses, where an entry changes, and where names are
//! taken; and who may read what it makes.

use crate::caching::Thing::{File, Folder};
use crate::caching::{Answers, FAILS, FRESH, NAME, compare_at, compare_left, make_all};
use crate::folders::{below, folder_of, set_mode};
use crate::refusing::Call::{self, Look, Move, Open};
use crate::refusing::{Change, Refusal, Refusing};
use dbgd_edges::FolderCache;
use find_client::{Cache, CacheAnswer};
use std::alloc::Global;
use std::fs::{self, Files};
use std::os::unix::fs::MetadataExt;
use std::process::Abort;

// Numbers of Linux (asm-generic/errno-base.h and errno.h).
const ENOENT: i32 = 2;

const EIO: i32 = 5;

const ENOMEM: i32 = 12;

const EACCES: i32 = 13;

const EEXIST: i32 = 17;

const ENOTDIR: i32 = 20;

const ENOSPC: i32 = 28;

const ELOOP: i32 = 40;

/// A call that is refused on the paths with this end, with the error of this number, and the answers
/// where another value stands.
type Case = (Call, &'static str, i32, Answers);

const UNREAD: Answers = ("failed", "done", "failed", 2);

const UNKEPT: Answers = ("other", "failed", "other", 1);

static REFUSED: [Case; 13] = [
    (Look, NAME, ENOENT, ("absent", "done", "absent", 0)),
    (Look, NAME, ENOTDIR, UNREAD),
    (Look, NAME, EACCES, UNREAD),
    (Look, NAME, ELOOP, UNREAD),
    (Look, NAME, EIO, UNREAD),
    (
        Look,
        NAME,
        ENOMEM,
        ("out of memory", "done", "out of memory", 0),
    ),
    // It is seen, and gone as it is opened, each time.
    (Open, NAME, ENOENT, UNREAD),
    (Open, NAME, EACCES, UNREAD),
    (
        Open,
        NAME,
        ENOMEM,
        ("out of memory", "done", "out of memory", 0),
    ),
    (Open, ".7-0", ENOSPC, UNKEPT),
    (Open, ".7-0", ENOMEM, ("other", "out of memory", "other", 0)),
    (Open, ".7-0", EEXIST, ("other", "done", "four", 0)),
    (Move, NAME, ENOSPC, UNKEPT),
];

/// Compares over files of which one call is refused.
fn compare_refused(rt: &impl Abort, rest: Refusing, folder: &str, case: &Case) {
    let (call, end, number, answers) = case;
    let mut files = rest;
    files.refusal = Some(Refusal(*call, end, *number));
    compare_at(rt, files, folder, NAME, answers, call.name());
    compare_left(
        rt,
        rest,
        folder,
        "ab-executable file, 0 skipped",
        call.name(),
    );
}

#[test]
fn each_refusal_has_its_answers(rt: HostRuntime) {
    for case in &REFUSED {
        let folder = folder_of(&rt, "refused").expect(&rt, "a path");
        make_all(&rt, folder.as_str(), &[File("/ab-executable", "other")]);
        compare_refused(&rt, Refusing::nothing(rt), folder.as_str(), case);
        fs::remove_dir_all(&rt, folder.as_str()).expect(&rt, "its removal");
    }
}

/// Whether a question fails over these files, in which the entry changes each time it is opened.
fn fails_once<R: Files + Drop>(alloc: Global, cache: &mut FolderCache<R>) -> bool {
    matches!(cache.get(alloc, NAME), CacheAnswer::Failed) && cache.count() == 1
}

#[test]
fn an_entry_that_changes_all_the_time_fails(rt: HostRuntime) {
    for change in [Change::Grows, Change::GivesWay] {
        let folder = folder_of(&rt, "changing").expect(&rt, "a path");
        make_all(&rt, folder.as_str(), &[File("/ab-executable", "four")]);
        let mut files = Refusing::nothing(rt);
        files.change = Some(change);
        let path = below(&rt, rt.alloc(), folder.as_str(), "");
        let failed = fails_once(rt.alloc(), &mut FolderCache::new(files, path, 7));
        assert!(rt; failed, "a question");
        fs::remove_dir_all(&rt, folder.as_str()).expect(&rt, "its removal");
    }
}

/// Takes the name of a new file.
fn take_name(rt: &impl Abort, files: Refusing, folder: &str, number: u32) {
    let path = format!(in files.alloc(); "{folder}/.{NAME}.7-{number}").expect(rt, "memory");
    fs::write(&files, path.as_str(), "fo").expect(rt, "a file");
}

#[test]
fn sixty_four_names_are_tried(rt: HostRuntime) {
    let files = Refusing::nothing(rt);
    let folder = folder_of(&rt, "taken").expect(&rt, "a path");
    let folder = folder.as_str();
    make_all(&rt, folder, &[]);
    for number in 0..63 {
        take_name(&rt, files, folder, number);
    }
    compare_at(&rt, files, folder, NAME, &FRESH, "63 are taken");
    take_name(&rt, files, folder, 63);
    let answers = ("four", "failed", "four", 1);
    compare_at(&rt, files, folder, NAME, &answers, "64 are taken");
    fs::remove_dir_all(&rt, folder).expect(&rt, "its removal");
}

/// The permissions of what stands somewhere behind a folder.
fn mode_below(rt: &impl Abort, files: Refusing, folder: &str, end: &str) -> u32 {
    let path = below(rt, files.alloc(), folder, end);
    let seen = fs::symlink_metadata(&files, path.as_str()).expect(rt, "a look");
    seen.mode() & 0o7777
}

/// What a put makes, and its permissions.
static MADE: [(&str, u32); 3] = [
    ("/a", 0o700),
    ("/a/cache", 0o700),
    ("/a/cache/ab-executable", 0o400),
];

#[test]
fn what_a_put_makes_is_its_owners(rt: HostRuntime) {
    let files = Refusing::nothing(rt);
    let folder = folder_of(&rt, "made").expect(&rt, "a path");
    make_all(&rt, folder.as_str(), &[]);
    let path = below(&rt, rt.alloc(), folder.as_str(), "/a/cache");
    compare_at(&rt, files, path.as_str(), NAME, &FRESH, "no parent");
    for (end, mode) in &MADE {
        let made = mode_below(&rt, files, folder.as_str(), end);
        assert!(rt; made == *mode, "{end}: {made:o}");
    }
    fs::remove_dir_all(&rt, folder.as_str()).expect(&rt, "its removal");
}

/// What has these permissions, and the answers where another value stands, to a user who may read and
/// write all, as the superuser may, and to any other.
static CLOSED: [(&str, u32, Answers, Answers); 3] = [
    (
        "/cache/ab-executable",
        0,
        ("other", "done", "four", 0),
        ("failed", "done", "four", 1),
    ),
    ("/cache", 0o500, ("other", "done", "four", 0), UNKEPT),
    ("/cache", 0, ("other", "done", "four", 0), FAILS),
];

/// Gives what stands somewhere behind a folder these permissions.
fn set_mode_below(rt: &impl Abort, files: Refusing, folder: &str, end: &str, mode: u32) {
    let path = below(rt, files.alloc(), folder, end);
    set_mode(&files.rt, path.as_str(), mode).expect(rt, "a mode");
}

/// Whether this user may read all.
fn reads_all(rt: &impl Abort, files: Refusing, folder: &str) -> bool {
    set_mode_below(rt, files, folder, "/shut", 0);
    let shut = below(rt, files.alloc(), folder, "/shut");
    fs::read_to_string(&files, shut.as_str()).is_ok()
}

/// Compares where something is closed.
fn compare_closed(
    rt: &impl Abort,
    files: Refusing,
    folder: &str,
    case: &(&'static str, u32, Answers, Answers),
) {
    let (end, mode, open, refused) = case;
    let answers = if reads_all(rt, files, folder) {
        open
    } else {
        refused
    };
    set_mode_below(rt, files, folder, end, *mode);
    let path = below(rt, files.alloc(), folder, "/cache");
    compare_at(rt, files, path.as_str(), NAME, answers, end);
    set_mode_below(rt, files, folder, "/cache", 0o700);
}

#[test]
fn what_is_closed_fails(rt: HostRuntime) {
    for case in &CLOSED {
        let folder = folder_of(&rt, "closed-cache").expect(&rt, "a path");
        make_all(
            &rt,
            folder.as_str(),
            &[
                Folder("/cache"),
                File("/cache/ab-executable", "other"),
                File("/shut", "fo"),
            ],
        );
        compare_closed(&rt, Refusing::nothing(rt), folder.as_str(), case);
        fs::remove_dir_all(&rt, folder.as_str()).expect(&rt, "its removal");
    }
}
