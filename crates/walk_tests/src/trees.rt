//! What no clause says: that memory suffices, and what a script answers, call by call.

ghost use Rattle.std.specs.Prelude.{◌≡◌, IsTrue};
ghost use Rattle.tree_trait.specs.Script.{is_stage};

mod gates;

use row_types::{OpenWorld, Stamp};
use std::alloc::Global;
use std::process::Abort;
use tree_trait::{
    DirAnswer, Entry, EntryKind, Found, LoadAnswer, MemTree, OpenAnswer, RoomAnswer, Script,
    StatAnswer, Tree, TwoWorld,
};

/// A stage of one file, `yy` at `/w/a`.
fn stage_of(rt: &impl Abort, alloc: Global) -> Vec<Found<TwoWorld>>
    ensures { IsTrue (is_stage result.items) }
{
    let stamp = Stamp {
        size: 2,
        secs: 2,
        nanos: 0,
    };
    let path = String::from_str(alloc, "/w/a").expect(rt, "memory");
    let bytes = Vec::from_slice(alloc, b"yy").expect(rt, "memory");
    vec![in alloc; Found::new(path, stamp, bytes)].expect(rt, "memory")
}

/// The tree of `yy` at `/w/a`, whose call 2 fails, and which is empty from call 3 on.
pub fn changing_tree(rt: &impl Abort, alloc: Global) -> MemTree<TwoWorld> {
    let stage = stage_of(rt, alloc);
    let script = Script {
        stages: vec![in alloc; stage, Vec::new(alloc)].expect(rt, "memory"),
        moves: vec![in alloc; 3, 4].expect(rt, "memory"),
        bad_calls: vec![in alloc; 2].expect(rt, "memory"),
    };
    MemTree::new(alloc, script)
}

/// What a load of `/w/a` answers, in a word.
fn load_word(alloc: Global, tree: &mut MemTree<TwoWorld>, limit: u64) -> &'static str {
    match tree.load(alloc, "/w/a", limit) {
        LoadAnswer::Found(found) if found.bytes.as_slice() == b"yy".as_slice() => "yy",
        LoadAnswer::Found(_) => "found",
        LoadAnswer::TooLarge { .. } => "too large",
        LoadAnswer::Gone => "gone",
        LoadAnswer::Failed => "failed",
        LoadAnswer::OutOfMemory => "out of memory",
    }
}

/// The limits of the calls of a load, and what they answer.
static LOADS: [(u64, &str); 5] = [
    (2, "yy"),
    (1, "too large"),
    (2, "failed"),
    (2, "gone"),
    (2, "gone"),
];

#[test]
fn a_script_is_answered_call_by_call(rt: HostRuntime) {
    let alloc = rt.alloc();
    let mut tree = changing_tree(&rt, alloc);
    for (limit, word) in &LOADS {
        assert!(rt;
            load_word(alloc, &mut tree, *limit) == *word,
            "{limit} {word}"
        );
    }
}

/// What a read of one byte of an open file answers, in a word.
fn byte_word(tree: &mut MemTree<TwoWorld>, file: &mut Found<TwoWorld>, at: u64) -> &'static str {
    let mut room = [0];
    if at >= file.stamp.size {
        return "beyond";
    }
    match tree.read_at(file, at, &mut room[..]) {
        RoomAnswer::Filled if room[0] == b'y' => "y",
        RoomAnswer::Filled => "other",
        RoomAnswer::Failed => "failed",
    }
}

/// The places of the reads behind the opening, of which the second fails and the third finds that
/// the file is gone from its path, and what they answer.
static READS: [(u64, &str); 4] = [(0, "y"), (1, "failed"), (1, "y"), (2, "beyond")];

#[test]
fn an_open_file_keeps_its_bytes(rt: HostRuntime) {
    let alloc = rt.alloc();
    let mut tree = changing_tree(&rt, alloc);
    match tree.open_file(alloc, "/w/a", 2) {
        OpenAnswer::Opened { file, .. } => {
            let mut file = file;
            for (at, word) in &READS {
                assert!(rt;
                    byte_word(&mut tree, &mut file, *at) == *word,
                    "{at} {word}"
                );
            }
        }
        _ => assert!(rt; false, "not opened"),
    }
}

/// An empty file.
fn empty_file(rt: &impl Abort, alloc: Global, path: &str) -> Found<OpenWorld>
    ensures { result.path ≡ path.now }
{
    let stamp = Stamp {
        size: 0,
        secs: 1,
        nanos: 0,
    };
    let path = String::from_str(alloc, path).expect(rt, "memory");
    Found::new(path, stamp, Vec::new(alloc))
}

/// The tree of three files under `/srv`, whose call 4 fails.
fn folder_tree(rt: &impl Abort, alloc: Global) -> MemTree<OpenWorld> {
    let first = empty_file(rt, alloc, "/srv/a");
    let second = empty_file(rt, alloc, "/srv/sub/b");
    let third = empty_file(rt, alloc, "/srv/sub/c");
    let files = vec![in alloc; first, second, third].expect(rt, "memory");
    let script = Script {
        stages: vec![in alloc; files].expect(rt, "memory"),
        moves: Vec::new(alloc),
        bad_calls: vec![in alloc; 4].expect(rt, "memory"),
    };
    MemTree::new(alloc, script)
}

/// What a look answers, in a word.
fn stat_word(answer: StatAnswer) -> &'static str {
    match answer {
        StatAnswer::Folder => "folder",
        StatAnswer::File(_) => "file",
        StatAnswer::Gone => "gone",
        _ => "other",
    }
}

/// The entries of a folder, in a word.
fn entries_word(entries: &[Entry]) -> &'static str {
    let file = entries
        .iter()
        .any(|e| e.name() == "a" && e.kind == EntryKind::File);
    let folder = entries
        .iter()
        .any(|e| e.name() == "sub" && e.kind == EntryKind::Folder);
    if file && folder && entries.len() == 2 {
        "a and sub"
    } else {
        "others"
    }
}

/// What the reading of a folder answers, in a word.
fn dir_word(alloc: Global, tree: &mut MemTree<OpenWorld>, path: &str) -> &'static str {
    match tree.read_dir(alloc, path) {
        DirAnswer::Listed {
            entries,
            skipped: 0,
        } => entries_word(entries.as_slice()),
        DirAnswer::Listed { .. } => "others",
        DirAnswer::Gone => "gone",
        DirAnswer::Failed => "failed",
        DirAnswer::OutOfMemory => "out of memory",
    }
}

/// The paths of the looks, and what they answer.
static LOOKS: [(&str, &str); 3] = [
    ("/srv/sub", "folder"),
    ("/srv/a", "file"),
    ("/srv/s", "gone"),
];

/// The folders that are read, and what is answered.
static READINGS: [(&str, &str); 3] = [
    ("/srv", "a and sub"),
    ("/srv", "failed"),
    ("/srv/a", "gone"),
];

#[test]
fn a_folder_is_looked_at_and_listed(rt: HostRuntime) {
    let alloc = rt.alloc();
    let mut tree = folder_tree(&rt, alloc);
    for (path, word) in &LOOKS {
        assert!(rt; stat_word(tree.stat(alloc, path)) == *word, "{path}");
    }
    for (path, word) in &READINGS {
        assert!(rt; dir_word(alloc, &mut tree, path) == *word, "{path}");
    }
}
