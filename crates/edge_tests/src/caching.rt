//! Questions and puts to a cache, with its answers as texts, and what stands in its folder before.

use crate::asking::{Question, ask};
use crate::folders::{below, make_dir, make_link};
use crate::refusing::Refusing;
use dbgd_edges::{FolderCache, RealTree};
use find_client::{Cache, CacheAnswer, CachePut};
use std::alloc::Global;
use std::fs::{self, File, Files};
use std::io;
use std::process::Abort;

/// The name of the entry that is asked for.
pub const NAME: &str = "ab-executable";

/// What a question, a put of four bytes and another question are answered, and how often the cache has
/// failed then.
pub type Answers = (&'static str, &'static str, &'static str, u64);

/// Nothing is held before.
pub const FRESH: Answers = ("absent", "done", "four", 0);

pub const FAILS: Answers = ("failed", "failed", "failed", 3);

/// What is put, and what stands in files.
static VALUES: [&str; 4] = ["", "fo", "four", "other"];

/// The value that these bytes are.
fn told(bytes: &[u8]) -> &'static str {
    for value in &VALUES {
        if value.as_bytes() == bytes {
            return value;
        }
    }
    "bytes that nobody wrote"
}

/// What a question is answered.
fn got<H: Cache>(cache: &mut H, alloc: Global, name: &str) -> &'static str {
    match cache.get(alloc, name) {
        CacheAnswer::Held(bytes) => told(bytes.as_slice()),
        CacheAnswer::Absent => "absent",
        CacheAnswer::Failed => "failed",
        CacheAnswer::OutOfMemory => "out of memory",
    }
}

/// What a put of four bytes is answered.
fn put<H: Cache>(cache: &mut H, alloc: Global, name: &str) -> &'static str {
    match cache.put(alloc, name, b"four") {
        CachePut::Done => "done",
        CachePut::Failed => "failed",
        CachePut::OutOfMemory => "out of memory",
    }
}

/// Asks a cache for an entry, puts it, and asks again, and compares.
fn compare<R: Files + Drop>(
    rt: &impl Abort,
    alloc: Global,
    cache: &mut FolderCache<R>,
    name: &str,
    answers: &Answers,
    says: &str,
) {
    let (first, kept, then, count) = answers;
    let text = got(cache, alloc, name);
    assert!(rt; text == *first, "before a put, {says}: {text}");
    let text = put(cache, alloc, name);
    assert!(rt; text == *kept, "a put, {says}: {text}");
    let text = got(cache, alloc, name);
    assert!(rt; text == *then, "behind a put, {says}: {text}");
    let text = cache.count();
    assert!(rt; text == *count, "faults, {says}: {text}");
}

/// Compares over the folder at a path.
pub fn compare_at(
    rt: &impl Abort,
    files: Refusing,
    path: &str,
    name: &str,
    answers: &Answers,
    says: &str,
) {
    let alloc = files.alloc();
    let path = String::from_str(alloc, path).expect(rt, "memory");
    let mut cache = FolderCache::new(files, path, 7);
    compare(rt, alloc, &mut cache, name, answers, says);
}

/// Compares what a folder has.
pub fn compare_left(rt: &impl Abort, files: Refusing, path: &str, left: &str, says: &str) {
    let mut tree = RealTree::new(files);
    let text = ask(rt, files.alloc(), &mut tree, Question::ReadDir, path, 4);
    assert!(rt; text.as_str() == left, "left, {says}: {text}");
}

/// What stands somewhere behind the test's folder.
pub enum Thing {
    Folder(&'static str),
    /// A file of this text.
    File(&'static str, &'static str),
    /// A link that leads there.
    Link(&'static str, &'static str),
    /// A file of so many zeros, for which the disk needs no room.
    Zeros(&'static str, u64),
}

/// Makes a file of zeros.
fn make_zeros(files: &impl Files<File = File>, path: &str, size: u64) -> io::Result<()> {
    File::create(files, path)?.set_len(size)
}

/// Makes what is to stand behind a folder.
fn make<R: Files<File = File> + AllocGlobal + Abort>(rt: &R, folder: &str, thing: &Thing) {
    match thing {
        Thing::Folder(end) => make_dir(rt, folder, end),
        Thing::Link(end, to) => make_link(rt, folder, end, to),
        Thing::File(end, text) => {
            let path = below(rt, rt.alloc(), folder, end);
            fs::write(rt, path.as_str(), *text).expect(rt, "a file");
        }
        Thing::Zeros(end, size) => {
            let path = below(rt, rt.alloc(), folder, end);
            make_zeros(rt, path.as_str(), *size).expect(rt, "a file");
        }
    }
}

/// Makes a test's folder, with what is to stand there.
pub fn make_all<R: Files<File = File> + AllocGlobal + Abort>(
    rt: &R,
    folder: &str,
    things: &[Thing],
) {
    make_dir(rt, folder, "");
    for thing in things {
        make(rt, folder, thing);
    }
}
