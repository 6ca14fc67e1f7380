//! What the reading of one name gives, call by call.

use crate::rig::{Version, changing_tree, second_stamp, version_name};
use elf_reading::ElfReader;
use file_formats::Why;
use row_types::Reading;
use scan_queue::Seen;
use scan_worker::{NameRead, read_name};
use std::alloc::Global;
use std::process::Abort;
use tree_trait::{MemTree, TwoWorld};

/// The tree of `x` at `/w/a`, of `yy` from call 2 on, and empty from call 4 on; call 3 fails.
fn tree(rt: &impl Abort, alloc: Global) -> MemTree<TwoWorld> {
    let versions = [Some(Version::First), Some(Version::Second), None];
    changing_tree(rt, alloc, versions, &[2, 4], &[3])
}

/// What a read gives, in a word.
fn word_of(read: &NameRead<TwoWorld>) -> &'static str {
    match read {
        NameRead::Row(row) => match &row.row().reading {
            Reading::Plain(Why::NotElf) => "not ELF",
            _ => "another row",
        },
        NameRead::Altered(Seen::File(stamp)) if *stamp == second_stamp() => "the second",
        NameRead::Altered(Seen::Gone) => "gone",
        NameRead::Altered(_) => "another",
        NameRead::Failed => "failed",
        NameRead::OutOfMemory => "out of memory",
    }
}

/// Reads the first version's name once more, and says what that gives.
fn next_word(rt: &impl Abort, alloc: Global, tree: &mut MemTree<TwoWorld>) -> &'static str {
    let name = version_name(rt, alloc, Version::First);
    let read = read_name(alloc, tree, &ElfReader, &name);
    word_of(&read)
}

/// Reads the first version's name again and again, and compares what that gives.
fn compare(rt: &impl Abort, alloc: Global, mut tree: MemTree<TwoWorld>, wanted: &[&str]) {
    for word in wanted {
        let found = next_word(rt, alloc, &mut tree);
        assert!(rt; found == *word, "{word}: {found}");
    }
}

// The file is opened, and its one part is read; another one is opened alone. In the second tree the
// read behind the first opening fails, and another file stands there as the second is read.
#[test]
fn a_name_is_read_call_by_call(rt: HostRuntime) {
    let words = ["not ELF", "the second", "failed", "gone"];
    compare(&rt, rt.alloc(), tree(&rt, rt.alloc()), &words);
    let second = Some(Version::Second);
    let versions = [Some(Version::First), second, second];
    let tree = changing_tree(&rt, rt.alloc(), versions, &[3], &[1]);
    compare(&rt, rt.alloc(), tree, &["failed", "not ELF", "the second"]);
}
