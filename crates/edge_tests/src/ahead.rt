//! What is read of an open file ahead.

ghost use Rattle.std.specs.Prelude.{◌≡◌};

use crate::folders::{below, folder_of, make_dir};
use dbgd_edges::RealTree;
use row_types::OpenWorld;
use std::alloc::Global;
use std::fs::{self, File, Files};
use std::process::Abort;
use tree_trait::{OpenAnswer, RoomAnswer, Tree};

/// A place, and how many bytes are read there.
type Read = (u64, usize);

/// The byte of a file at a place.
fn byte_at(at: u64) -> u8 {
    (at % 251) as u8
}

/// A file of so many bytes.
fn make_pattern<R: Files<File = File> + AllocGlobal + Abort>(rt: &R, path: &str, size: usize) {
    let mut bytes = vec![in rt.alloc(); 0u8; size].expect(rt, "memory");
    for (at, byte) in bytes.iter_mut().enumerate() {
        *byte = byte_at(at as u64);
    }
    fs::write(rt, path, bytes.as_slice()).expect(rt, "a file");
}

/// Whether bytes are those of a file from a place on.
fn are_from(bytes: &[u8], at: u64) -> bool {
    let mut place = at;
    for byte in bytes {
        if *byte != byte_at(place) {
            return false;
        }
        place = place.saturating_add(1);
    }
    true
}

/// What a read of an open file of this size gives, in a word.
fn word_of<T: Tree<OpenWorld>>(
    tree: &mut T,
    file: &mut T::File,
    size: u64,
    read: Read,
    room: &mut [u8],
) -> &'static str
    requires size { (T.opened file.old).stamp.size ≡ size }
    ensures { T.opened file.new ≡ T.opened file.old }
{
    let (at, len) = read;
    let Some(room) = room.get_mut(..len) else {
        return "no room";
    };
    if len == 0 || at > size || len as u64 > size - at {
        return "beyond";
    }
    match tree.read_at(file, at, &mut *room) {
        RoomAnswer::Filled if are_from(room, at) => "same",
        RoomAnswer::Filled => "other",
        RoomAnswer::Failed => "failed",
    }
}

/// How many of the reads of an open file of this size give what isn't wanted.
fn differing<T: Tree<OpenWorld>>(
    tree: &mut T,
    file: &mut T::File,
    size: u64,
    room: &mut [u8],
    reads: &[(u64, usize, &'static str)],
) -> u64
    requires size { (T.opened file.old).stamp.size ≡ size }
    ensures { T.opened file.new ≡ T.opened file.old }
{
    let mut count: u64 = 0;
    for (at, len, wanted) in reads {
        let word = word_of(tree, file, size, (*at, *len), room);
        let is_beyond = word == "beyond" && (*at).saturating_add(*len as u64) > size;
        if word != *wanted && !is_beyond {
            count = count.saturating_add(1);
        }
    }
    count
}

/// Reads of a file; those beyond its end aren't made.
static READS: [(u64, usize, &str); 13] = [
    (0, 1, "same"),
    (0, 64, "same"),
    (20_000, 100, "same"),
    (32_700, 67, "same"),
    (32_700, 69, "same"),
    (24_000, 8_000, "same"),
    (8_150, 100, "same"),
    (0, 64, "same"),
    (8_150, 100, "same"),
    (8_200, 30_000, "same"),
    (40_917, 2, "same"),
    (0, 32_768, "same"),
    (1, 65_536, "same"),
];

/// Opens a file, lets what is at its path become other, and counts how many reads behind that differ.
fn differing_behind<R, T>(
    rt: &R,
    tree: &mut T,
    path: &str,
    room: &mut [u8],
    reads: &[(u64, usize, &'static str)],
    then: Option<usize>,
) -> u64
where
    R: Files<File = File> + AllocGlobal + Abort,
    T: Tree<OpenWorld>,
{
    match tree.open_file(rt.alloc(), path, 1_000_000) {
        OpenAnswer::Opened { file, stamp } => {
            let mut file = file;
            if let Some(size) = then {
                let first = differing(tree, &mut file, stamp.size, &mut *room, &[(0, 64, "same")]);
                assert!(rt; first == 0, "the first read");
                let zeros = vec![in rt.alloc(); 0u8; size].expect(rt, "memory");
                fs::write(rt, path, zeros.as_slice()).expect(rt, "a change");
            }
            differing(tree, &mut file, stamp.size, room, reads)
        }
        _ => u64::MAX,
    }
}

/// A place for reads.
fn room_of(rt: &impl Abort, alloc: Global) -> Vec<u8> {
    vec![in alloc; 0u8; 65_536].expect(rt, "memory")
}

#[test]
fn a_file_is_read_as_it_stands(rt: HostRuntime) {
    let folder = folder_of(&rt, "ahead").expect(&rt, "a path");
    make_dir(&rt, folder.as_str(), "");
    let path = below(&rt, rt.alloc(), folder.as_str(), "/file");
    let mut room = room_of(&rt, rt.alloc());
    for size in [0usize, 1, 1000, 32_767, 32_768, 32_769, 70_000] {
        make_pattern(&rt, path.as_str(), size);
        let mut tree = RealTree::new(rt);
        let count = differing_behind(
            &rt,
            &mut tree,
            path.as_str(),
            room.as_mut_slice(),
            &READS,
            None,
        );
        assert!(rt; count == 0, "{count} reads of {size} bytes");
        assert!(rt; tree.count() == 0, "faults of {size} bytes");
    }
    fs::remove_dir_all(&rt, folder.as_str()).expect(&rt, "its removal");
}

/// What was read ahead is given as it was, and what wasn't is not.
static SMALL: [(u64, usize, &str); 2] = [(100, 50, "same"), (900, 100, "same")];

static LARGE: [(u64, usize, &str); 3] = [
    (100, 50, "same"),
    (8_150, 100, "failed"),
    (20_000, 1, "failed"),
];

#[test]
fn what_was_read_ahead_is_given_as_it_was(rt: HostRuntime) {
    let folder = folder_of(&rt, "ahead-as-it-was").expect(&rt, "a path");
    make_dir(&rt, folder.as_str(), "");
    let path = below(&rt, rt.alloc(), folder.as_str(), "/file");
    let mut room = room_of(&rt, rt.alloc());
    for (size, then, is_small) in [
        (1000usize, 1000usize, true),
        (1000, 10, true),
        (40_000, 10, false),
    ] {
        make_pattern(&rt, path.as_str(), size);
        let mut tree = RealTree::new(rt);
        let reads = if is_small {
            SMALL.as_slice()
        } else {
            LARGE.as_slice()
        };
        let count = differing_behind(
            &rt,
            &mut tree,
            path.as_str(),
            room.as_mut_slice(),
            reads,
            Some(then),
        );
        assert!(rt; count == 0, "{count} reads of {size} bytes, {then} then");
        let faults = if is_small { 0 } else { 2 };
        assert!(rt;
            tree.count() == faults,
            "faults of {size} bytes, {then} then"
        );
    }
    fs::remove_dir_all(&rt, folder.as_str()).expect(&rt, "its removal");
}
