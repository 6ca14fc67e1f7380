//! The hands of the tests.

ghost use Rattle.std.specs.Prelude.{◌≡◌, IsTrue};
ghost use Rattle.tree_trait.specs.Script.{is_stage};

use row_types::{OpenWorld, Stamp};
use sample_files::{
    ID_A, ID_B, big_endian_debug, both_classes, chosen_ids, debug_companion, dwarf_five,
    eight_aligned_notes, executable, extended_counts,
};
use sample_world::open_script;
use std::alloc::Global;
use std::process::Abort;
use tree_trait::{Found, MemTree, Script};

/// What a file holds.
#[derive(Clone, Copy)]
pub enum File {
    Empty,
    /// `hello` and the end of the line.
    Text,
    /// The first line of a shell script.
    Script,
    /// That text, one byte longer.
    LongText,
    /// An ELF header that is one byte short.
    Cut,
    Both,
    EightAligned,
    /// Two notes with ids, of which the first id is too short.
    SecondId,
    TwoIds,
    LongestId,
    TooLongId,
    BigEndian,
    Extended,
    Executable,
    Companion,
    /// Debug information of DWARF 5.
    DwarfFive,
    /// The same with a line table of 2 to the power of 63 directories.
    ManyDirectories,
    /// The same with a line table whose header ends a byte early.
    EarlyEnd,
}

/// The files of a hand of the open world.
#[derive(Clone, Copy)]
pub enum Files {
    /// `/w/a`.
    One(File),
    /// `/srv/a` of both classes and `/srv/b`, a text.
    Two,
    /// `/srv/run.sh`, a script.
    Alone,
    /// That script, and `/srv/tool`, code.
    WithTool,
    /// `/srv/b`, a text, `/srv/c` without bytes, and `/srv/lib` of both classes.
    Early,
    /// Of these `/srv/b` is longer by now, `/srv/c` is gone, and `/srv/a`, code, came.
    Late,
}

/// A file's bytes.
fn bytes_of(rt: &impl Abort, alloc: Global, file: &File) -> Vec<u8> {
    let bytes = match file {
        File::Empty => Ok(Vec::new(alloc)),
        File::Text => Vec::from_slice(alloc, b"hello\n"),
        File::Script => Vec::from_slice(alloc, b"#!/bin/sh\n"),
        File::LongText => Vec::from_slice(alloc, b"hello!\n"),
        File::Cut => Ok(cut_header(rt, alloc)),
        File::Both => both_classes(alloc),
        File::EightAligned => eight_aligned_notes(alloc),
        File::SecondId => chosen_ids(alloc, &[&[0x99], &[0xbe, 0xef]]),
        File::TwoIds => chosen_ids(alloc, &[&ID_A, &ID_B]),
        File::LongestId => chosen_ids(alloc, &[&[0x11; 64]]),
        File::TooLongId => chosen_ids(alloc, &[&[0x11; 65]]),
        File::BigEndian => big_endian_debug(alloc),
        File::Extended => extended_counts(alloc),
        File::Executable => executable(alloc),
        File::Companion => debug_companion(alloc),
        File::DwarfFive => dwarf_five(alloc),
        File::ManyDirectories => {
            let count = b"\0\x80\x80\x80\x80\x80\x80\x80\x80\x80\x01";
            Ok(changed(rt, alloc, 177, count))
        }
        File::EarlyEnd => Ok(changed(rt, alloc, 155, b"\x38")),
    };
    bytes.expect(rt, "memory")
}

/// The sample with DWARF 5, with other bytes at a place. Its section .debug_line begins at 147.
fn changed(rt: &impl Abort, alloc: Global, place: usize, bytes: &[u8]) -> Vec<u8> {
    let mut file = dwarf_five(alloc).expect(rt, "memory");
    for (byte, other) in file.iter_mut().skip(place).zip(bytes) {
        *byte = *other;
    }
    file
}

/// 51 bytes that begin as a 32-bit header, which has 52.
fn cut_header(rt: &impl Abort, alloc: Global) -> Vec<u8> {
    let mut bytes = Vec::from_slice(alloc, b"\x7fELF\x01\x01\x01").expect(rt, "memory");
    bytes.extend_from_slice(&[0; 44]).expect(rt, "memory");
    bytes
}

/// A file that holds this.
fn found(rt: &impl Abort, alloc: Global, path: &str, file: &File) -> Found<OpenWorld>
    ensures { result.path ≡ path.now }
{
    let bytes = bytes_of(rt, alloc, file);
    let stamp = Stamp {
        size: bytes.len() as u64,
        secs: 100,
        nanos: 0,
    };
    let path = String::from_str(alloc, path).expect(rt, "memory");
    Found::new(path, stamp, bytes)
}

/// The files of a hand.
fn files_of(rt: &impl Abort, alloc: Global, files: &Files) -> Vec<Found<OpenWorld>>
    ensures { IsTrue (is_stage result.items) }
{
    match files {
        Files::One(file) => { vec![in alloc; found(rt, alloc, "/w/a", file)].expect(rt, "memory") }
        Files::Two => vec![in alloc;
            found(rt, alloc, "/srv/a", &File::Both),
            found(rt, alloc, "/srv/b", &File::Text),
        ]
        .expect(rt, "memory"),
        Files::Alone => {
            vec![in alloc; found(rt, alloc, "/srv/run.sh", &File::Script)].expect(rt, "memory")
        }
        Files::WithTool => vec![in alloc;
            found(rt, alloc, "/srv/run.sh", &File::Script),
            found(rt, alloc, "/srv/tool", &File::Executable),
        ]
        .expect(rt, "memory"),
        Files::Early => vec![in alloc;
            found(rt, alloc, "/srv/b", &File::Text),
            found(rt, alloc, "/srv/c", &File::Empty),
            found(rt, alloc, "/srv/lib", &File::Both),
        ]
        .expect(rt, "memory"),
        Files::Late => vec![in alloc;
            found(rt, alloc, "/srv/a", &File::Executable),
            found(rt, alloc, "/srv/b", &File::LongText),
            found(rt, alloc, "/srv/lib", &File::Both),
        ]
        .expect(rt, "memory"),
    }
}

/// A hand that has these files, and fails at these calls.
pub fn hand_of(rt: &impl Abort, alloc: Global, files: &Files, bad: &[u64]) -> MemTree<OpenWorld> {
    let files = files_of(rt, alloc, files);
    let script = Script {
        stages: vec![in alloc; files].expect(rt, "memory"),
        moves: Vec::new(alloc),
        bad_calls: Vec::from_slice(alloc, bad).expect(rt, "memory"),
    };
    MemTree::new(alloc, script)
}

/// A hand that has the first files, the next ones from the call of one number on, and the last ones
/// from that of the other.
pub fn turning(
    rt: &impl Abort,
    alloc: Global,
    files: &[Files; 3],
    calls: &[u64; 2],
) -> MemTree<OpenWorld> {
    let [first, next, last] = files;
    let first = files_of(rt, alloc, first);
    let next = files_of(rt, alloc, next);
    let last = files_of(rt, alloc, last);
    let script = Script {
        stages: vec![in alloc; first, next, last].expect(rt, "memory"),
        moves: Vec::from_slice(alloc, calls).expect(rt, "memory"),
        bad_calls: Vec::new(alloc),
    };
    MemTree::new(alloc, script)
}

/// A hand of the open world that has the reference tree.
pub fn reference(rt: &impl Abort, alloc: Global) -> MemTree<OpenWorld> {
    MemTree::new(alloc, open_script(alloc).expect(rt, "memory"))
}
