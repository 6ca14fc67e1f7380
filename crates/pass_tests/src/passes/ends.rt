//! The ends of passes, in words.

use pass_runner::{PassEnd, Summary};
use sample_index::missed_text;
use scan_queue::Miss;
use std::alloc::Global;
use std::process::Abort;
use tree_walk::WalkFault;

/// The end, in words.
pub fn end_text(rt: &impl Abort, alloc: Global, end: &PassEnd) -> String {
    match end {
        PassEnd::Whole(summary) => summary_text(rt, alloc, summary),
        PassEnd::Missed(miss) => miss_text(rt, alloc, miss),
        PassEnd::Walk(fault) => walk_text(rt, alloc, fault),
        PassEnd::Broken => text_of(rt, alloc, "broken"),
        PassEnd::KeeperFault => text_of(rt, alloc, "the store failed"),
        PassEnd::LogFull => text_of(rt, alloc, "no room"),
        PassEnd::OutOfMemory => text_of(rt, alloc, "no memory"),
    }
}

/// The text, owned.
fn text_of(rt: &impl Abort, alloc: Global, text: &str) -> String {
    String::from_str(alloc, text).expect(rt, "memory")
}

/// The numbers, in their order.
fn summary_text(rt: &impl Abort, alloc: Global, numbers: &Summary) -> String {
    let Summary {
        files,
        added,
        replaced,
        dropped,
        kept,
        executables,
        debuginfo,
    } = numbers;
    format!(in alloc;
        "{files} {added} {replaced} {dropped} {kept} {executables} {debuginfo}"
    ).expect(rt, "memory")
}

/// The name that was missed, and why, in words.
fn miss_text(rt: &impl Abort, alloc: Global, miss: &Miss) -> String {
    let name = missed_text(alloc, miss).expect(rt, "memory");
    format!(in alloc; "missed {name}").expect(rt, "memory")
}

/// Why the folders could not be walked, in words.
fn walk_text(rt: &impl Abort, alloc: Global, fault: &WalkFault) -> String {
    match fault {
        WalkFault::Failed => text_of(rt, alloc, "a call of the walk failed"),
        WalkFault::RootGone(path) => {
            format!(in alloc; "{} is gone", path.text()).expect(rt, "memory")
        }
        WalkFault::TooMany | WalkFault::TooManyEntries => text_of(rt, alloc, "too many"),
        WalkFault::OutOfMemory => text_of(rt, alloc, "no memory for the walk"),
    }
}
