//! What no clause says: that memory suffices, and whole files beside those that another program
//! made from the description of the format.

use elf_forge::{FILES_LIMIT, ForgeTree, forge};
use row_types::OpenWorld;
use sha2::{Digest, Sha256};
use std::alloc::Global;
use std::process::Abort;
use tree_trait::{Found, LoadAnswer, OpenAnswer, RoomAnswer, Tree};

/// Seeds and numbers, with the size and the SHA-256 of the file that python's hashlib and struct
/// made of them.
static FILES: [(u64, u64, usize, &str); 8] = [
    (
        7,
        0,
        1024,
        "67f576891082290787746fb253981a5765fedc91c7a97644ca46258ddbac9442",
    ),
    (
        7,
        1,
        408,
        "1fb0bd405637f6a92b423011928287937151115168ebc5bb5efff688025fbe69",
    ),
    (
        7,
        2,
        584,
        "0559a77d4b75303febe8c2e76f6b52832364546f52dd7b793cb1776acfdfd936",
    ),
    (
        7,
        3,
        12,
        "16a0f2410f3c74070e070ebadc73ad012d47eb7aa168961cef14875242590f86",
    ),
    (
        1,
        123_456,
        1024,
        "a26dc9e34fc3882e0fddd2cebc371358d87439d9ed3ac1401eb2321660d245f3",
    ),
    (
        1,
        999_997,
        408,
        "d092c9a55304e67f6e91d479ae4767ba0eb08ac16f772133a487c51829cf70e7",
    ),
    (
        u64::MAX,
        999_998,
        584,
        "d44215513a282440cadc8195e828a8cc29d6a22ee7842a393e346b77e27d8020",
    ),
    (
        0,
        999_999,
        12,
        "55986d38961329e112c8d2ec31a4cb72b6e6ca82d1b8a1987bc0b2b9aa112128",
    ),
];

#[test]
fn files_are_those_of_another_program(rt: HostRuntime) {
    let alloc = rt.alloc();
    for (seed, k, size, digest) in &FILES {
        assert!(rt; *k < FILES_LIMIT, "a number above the last");
        let bytes = forge(alloc, *seed, *k).expect(&rt, "memory");
        assert!(rt; bytes.len() == *size, "{seed}, {k}");
        let found = hex::encode(alloc, Sha256::digest(bytes.as_slice()).as_slice());
        assert!(rt;
            found.expect(&rt, "memory").as_str() == *digest,
            "{seed}, {k}"
        );
    }
}

/// An owned copy of the text.
fn text(rt: &impl Abort, alloc: Global, text: &str) -> String {
    String::from_str(alloc, text).expect(rt, "memory")
}

/// What a load answers: a file's bytes, or a word.
fn load_text(rt: &impl Abort, alloc: Global, answer: &LoadAnswer<OpenWorld>) -> String {
    match answer {
        LoadAnswer::Found(found) => {
            hex::encode(alloc, found.bytes.as_slice()).expect(rt, "memory")
        }
        LoadAnswer::TooLarge { stamp } => {
            format!(in alloc; "above {}", stamp.size).expect(rt, "memory")
        }
        LoadAnswer::Gone => text(rt, alloc, "gone"),
        _ => text(rt, alloc, "other"),
    }
}

/// Whether a load from the tree answers so.
fn loads_as(
    rt: &impl Abort,
    alloc: Global,
    tree: &mut ForgeTree,
    asked: (&str, u64),
    want: &str,
) -> bool {
    let answer = tree.load(alloc, asked.0, asked.1);
    load_text(rt, alloc, &answer).as_str() == want
}

/// Paths and limits, and what a load answers. The bytes are `text 000003` and a line feed.
static LOADS: [(&str, u64, &str); 4] = [
    ("/t/f/000003", 12, "74657874203030303030330a"),
    ("/t/f/000003", 11, "above 12"),
    ("/t/f/000006", 4096, "gone"),
    ("/t/f", 4096, "gone"),
];

#[test]
fn a_file_is_made_when_it_is_loaded(rt: HostRuntime) {
    let alloc = rt.alloc();
    let mut tree = ForgeTree::new(alloc, 7, 6);
    for (path, limit, want) in &LOADS {
        assert!(rt;
            loads_as(&rt, alloc, &mut tree, (path, *limit), want),
            "{path}"
        );
    }
}

/// Whether this is the byte at a place of an open file.
fn has_byte(tree: &mut ForgeTree, file: &mut Found<OpenWorld>, at: u64, byte: u8) -> bool {
    let mut room = [0];
    if at >= file.stamp.size {
        return false;
    }
    match tree.read_at(file, at, &mut room[..]) {
        RoomAnswer::Filled => room[0] == byte,
        RoomAnswer::Failed => false,
    }
}

/// Whether an open file has these bytes.
fn has_bytes(tree: &mut ForgeTree, file: &mut Found<OpenWorld>, bytes: &[u8]) -> bool {
    let mut at = 0;
    for byte in bytes {
        if !has_byte(tree, file, at, *byte) {
            return false;
        }
        at = at.saturating_add(1);
    }
    true
}

#[test]
fn an_open_file_has_its_forged_bytes(rt: HostRuntime) {
    let alloc = rt.alloc();
    let mut tree = ForgeTree::new(alloc, 7, 6);
    let bytes = forge(alloc, 7, 3).expect(&rt, "memory");
    match tree.open_file(alloc, "/t/f/000003", 100) {
        OpenAnswer::Opened { file, .. } => {
            let mut file = file;
            assert!(rt; has_bytes(&mut tree, &mut file, bytes.as_slice()));
        }
        _ => assert!(rt; false, "not opened"),
    }
    assert!(rt;
        matches!(
            tree.open_file(alloc, "/t/f/000003", 11),
            OpenAnswer::TooLarge { .. }
        )
    );
    assert!(rt; matches!(tree.open_file(alloc, "/t/f/000006", 100), OpenAnswer::Gone));
}
