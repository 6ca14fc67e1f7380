//! Questions to a tree, with its answers as texts.

use crate::refusing::Refusing;
use dbgd_edges::RealTree;
use row_types::{OpenWorld, Stamp};
use std::alloc::Global;
use std::process::Abort;
use tree_trait::{DirAnswer, Entry, EntryKind, LoadAnswer, StatAnswer, Tree};

/// A question to a tree.
#[derive(Clone, Copy)]
pub enum Question {
    Stat,
    Load,
    ReadDir,
}

impl Question {
    /// Its name.
    pub fn name(self) -> &'static str {
        match self {
            Question::Stat => "a look",
            Question::Load => "a load",
            Question::ReadDir => "a read of a folder",
        }
    }
}

/// The stamp of a file, as a text.
fn stamp_text(rt: &impl Abort, alloc: Global, stamp: Stamp) -> String {
    let (size, secs, nanos) = (stamp.size, stamp.secs, stamp.nanos);
    format!(in alloc; "file {size} {secs} {nanos}").expect(rt, "memory")
}

/// What stands at a path, as a text.
fn stat_text(rt: &impl Abort, alloc: Global, answer: StatAnswer) -> String {
    let text = match answer {
        StatAnswer::Folder => "folder",
        StatAnswer::File(stamp) => return stamp_text(rt, alloc, stamp),
        StatAnswer::Other => "other",
        StatAnswer::Gone => "gone",
        StatAnswer::Failed => "failed",
        StatAnswer::OutOfMemory => "out of memory",
    };
    String::from_str(alloc, text).expect(rt, "memory")
}

/// An entry as a text.
fn entry_text(rt: &impl Abort, alloc: Global, entry: &Entry) -> String {
    let name = entry.name();
    let kind = match entry.kind {
        EntryKind::Folder => "folder",
        EntryKind::File => "file",
        EntryKind::Other => "other",
    };
    format!(in alloc; "{name} {kind}, ").expect(rt, "memory")
}

/// The entries of a folder, by name.
fn entry_texts(rt: &impl Abort, alloc: Global, entries: &[Entry]) -> Vec<String> {
    let mut texts = Vec::new(alloc);
    for entry in entries {
        texts
            .push(entry_text(rt, alloc, entry))
            .expect(rt, "memory");
    }
    texts.sort().expect(rt, "memory");
    texts
}

/// The entries of a folder, by name, and how many were passed over.
fn listed_text(rt: &impl Abort, alloc: Global, entries: &[Entry], skipped: u64) -> String {
    let mut text = String::new(alloc);
    for entry in &entry_texts(rt, alloc, entries) {
        text.push_str(entry.as_str()).expect(rt, "memory");
    }
    format!(in alloc; "{text}{skipped} skipped").expect(rt, "memory")
}

/// What a folder has, as a text.
fn dir_text(rt: &impl Abort, alloc: Global, answer: &DirAnswer) -> String {
    let text = match answer {
        DirAnswer::Listed { entries, skipped } => {
            return listed_text(rt, alloc, entries.as_slice(), *skipped);
        }
        DirAnswer::Gone => "gone",
        DirAnswer::Failed => "failed",
        DirAnswer::OutOfMemory => "out of memory",
    };
    String::from_str(alloc, text).expect(rt, "memory")
}

/// What a load answered, as a text: the bytes that were found, or a word.
fn load_text(rt: &impl Abort, alloc: Global, answer: &LoadAnswer<OpenWorld>) -> String {
    let text = match answer {
        LoadAnswer::Found(found) => std::str::from_utf8(found.bytes.as_slice()).expect(rt, "UTF-8"),
        LoadAnswer::TooLarge { .. } => "too large",
        LoadAnswer::Gone => "gone",
        LoadAnswer::Failed => "failed",
        LoadAnswer::OutOfMemory => "out of memory",
    };
    String::from_str(alloc, text).expect(rt, "memory")
}

/// Asks a tree, a load with this limit.
pub fn ask(
    rt: &impl Abort,
    alloc: Global,
    tree: &mut RealTree<Refusing>,
    what: Question,
    path: &str,
    limit: u64,
) -> String {
    match what {
        Question::Stat => stat_text(rt, alloc, tree.stat(alloc, path)),
        Question::Load => load_text(rt, alloc, &tree.load(alloc, path, limit)),
        Question::ReadDir => dir_text(rt, alloc, &tree.read_dir(alloc, path)),
    }
}

/// A look at a path, its load of at most four bytes and the read of it as a folder, as one text.
pub fn ask_all(
    rt: &impl Abort,
    alloc: Global,
    tree: &mut RealTree<Refusing>,
    path: &str,
) -> String {
    let mut text = ask(rt, alloc, tree, Question::Stat, path, 4);
    for what in [Question::Load, Question::ReadDir] {
        text.push_str(" | ").expect(rt, "memory");
        text.push_str(ask(rt, alloc, tree, what, path, 4).as_str())
            .expect(rt, "memory");
    }
    text
}
