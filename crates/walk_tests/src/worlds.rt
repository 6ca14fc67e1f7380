//! What no clause says: that memory suffices, and that the samples are the files that are meant.

use row_types::Stamp;
use sample_files::{ID_A, ID_B, ID_BIG, ID_C};
use sample_world::{REFERENCE_TREE, Sample, SampleWorld, reference_script};
use std::alloc::Global;
use std::process::Abort;
use tree_trait::{LoadAnswer, MemTree, StatAnswer, Tree};

/// A path of the reference tree and the number of its file's bytes.
type Size = (&'static str, u64);

static SIZES: [Size; 12] = [
    ("/srv/bin/empty", 0),
    ("/srv/bin/libx.so", 488),
    ("/srv/bin/liby.so", 408),
    ("/srv/bin/prog", 1016),
    ("/srv/bin/run.sh", 10),
    ("/srv/bin/tool", 408),
    ("/srv/debug/notes.txt", 0),
    ("/srv/debug/ppc.debug", 324),
    ("/srv/debug/tool.debug", 584),
    ("/w/README", 0),
    ("/w/src/inc/util.h", 0),
    ("/w/src/main.c", 26),
];

/// Where the note of a sample's build-id stands, and the id.
type Id = (Sample, usize, &'static [u8]);

/// The reference tree, whose calls of these numbers fail.
fn reference_tree(rt: &impl Abort, alloc: Global, bad_calls: &[u64]) -> MemTree<SampleWorld> {
    let bad_calls = Vec::from_slice(alloc, bad_calls).expect(rt, "memory");
    let script = reference_script(alloc, bad_calls).expect(rt, "memory");
    MemTree::new(alloc, script)
}

/// The stamp that a look finds.
fn stamp_at(alloc: Global, tree: &mut MemTree<SampleWorld>, path: &str) -> Option<Stamp> {
    match tree.stat(alloc, path) {
        StatAnswer::File(stamp) => Some(stamp),
        _ => None,
    }
}

/// A load of at most so many bytes finds these.
fn finds(
    alloc: Global,
    tree: &mut MemTree<SampleWorld>,
    path: &str,
    limit: u64,
    bytes: &[u8],
) -> bool {
    match tree.load(alloc, path, limit) {
        LoadAnswer::Found(found) => found.bytes.as_slice() == bytes,
        _ => false,
    }
}

#[test]
fn each_file_has_its_path_and_its_stamp(rt: HostRuntime) {
    let alloc = rt.alloc();
    let mut tree = reference_tree(&rt, alloc, &[]);
    for (path, size) in &SIZES {
        let stamp = stamp_at(alloc, &mut tree, path).expect(&rt, "a file");
        assert!(rt; stamp.size == *size, "size of {path}");
        assert!(rt; stamp.secs == 100, "time of {path}");
        assert!(rt; stamp.nanos == 0, "time of {path}");
    }
}

#[test]
fn each_file_is_loaded_whole(rt: HostRuntime) {
    let alloc = rt.alloc();
    let mut tree = reference_tree(&rt, alloc, &[]);
    for (sample, (path, size)) in REFERENCE_TREE.into_iter().zip(&SIZES) {
        let bytes = sample.bytes(alloc).expect(&rt, "memory");
        let found = finds(alloc, &mut tree, path, *size, bytes.as_slice());
        assert!(rt; found, "{path}");
    }
}

/// The note follows the header, in `liby.so` behind another note of 32 bytes.
static IDS: [Id; 6] = [
    (Sample::FirstLibrary, 64, &ID_A),
    (Sample::SecondLibrary, 96, &[0xab, 0xcd, 0xef]),
    (Sample::Program, 64, &ID_B),
    (Sample::Tool, 64, &ID_C),
    (Sample::ToolDebug, 64, &ID_C),
    (Sample::OtherMachine, 52, &ID_BIG),
];

#[test]
fn each_elf_file_has_its_id(rt: HostRuntime) {
    for (sample, place, id) in &IDS {
        let bytes = sample.bytes(rt.alloc()).expect(&rt, "memory");
        let note = bytes.get(*place..).expect(&rt, "a note");
        let owner = note.get(12..16).expect(&rt, "an owner");
        assert!(rt; owner == b"GNU\0".as_slice(), "owner in {sample:?}");
        let descriptor = note.get(16..).expect(&rt, "a descriptor");
        assert!(rt; descriptor.starts_with(id), "id of {sample:?}");
    }
}
