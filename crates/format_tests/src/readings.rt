//! What no clause says: that memory suffices, and what the samples are read as.

ghost use Rattle.std.specs.Prelude.{◌≡◌, codes, pos};

use crate::identities::changed;
use elf_reading::{ElfReader, file_sources};
use file_formats::Why;
use row_types::{CanonPath, Name, OpenWorld, Reading, Sources, Stamp, TrueRow};
use sample_files::{ID_B, dwarf_five};
use std::alloc::Global;
use std::process::Abort;
use tree_trait::{Found, Reader, TwoWorld};

/// The sources of the sample with DWARF 5, whose section .debug_line begins at 147.
pub static SOURCES: [&str; 2] = ["/w/src/inc/util.h", "/w/src/main.c"];

/// Checks that these are the paths.
pub fn are(rt: &impl Abort, what: &str, found: &Sources, expected: &[&str]) {
    let mut texts = expected.iter();
    for path in found.paths() {
        assert!(rt; texts.next().copied() == Some(path.text()), "{what}");
    }
    assert!(rt; texts.next().is_none(), "{what}");
}

/// Checks that these are the paths of the file's sources.
fn lead_to(rt: &impl Abort, alloc: Global, what: &str, bytes: &[u8], expected: &[&str]) {
    let found = file_sources(alloc, bytes).expect(rt, "memory");
    are(rt, what, &found, expected);
}

/// The sample with other bytes at a place.
fn changed_sample(rt: &impl Abort, alloc: Global, place: usize, bytes: &[u8]) -> Vec<u8> {
    let file = dwarf_five(alloc).expect(rt, "memory");
    changed(rt, alloc, file.as_slice(), place, bytes)
}

// A count of 2 to the power of 63 directories, a header that ends a byte early, and a file that the
// linker has still to put together (e_type 1).
static CHANGES: [(usize, &[u8]); 3] = [
    (177, b"\0\x80\x80\x80\x80\x80\x80\x80\x80\x80\x01"),
    (155, b"\x38"),
    (16, b"\x01"),
];

#[test]
fn a_damaged_line_table_or_a_relocatable_file_has_no_sources(rt: HostRuntime) {
    let alloc = rt.alloc();
    for (place, bytes) in &CHANGES {
        let file = changed_sample(&rt, alloc, *place, bytes);
        assert!(rt; file.len() == 1016, "{place}");
        lead_to(&rt, alloc, "changed", file.as_slice(), &[]);
    }
    lead_to(&rt, alloc, "empty", &[], &[]);
    let whole = dwarf_five(alloc).expect(&rt, "memory");
    lead_to(&rt, alloc, "whole", whole.as_slice(), &SOURCES);
}

/// The name of a file of so many bytes at `/w/a`.
pub fn name_of(rt: &impl Abort, alloc: Global, size: usize) -> Name
    ensures path { result.path ≡ codes "/w/a" }
    ensures stamp { result.stamp ≡ record { size = size; secs = pos 1; nanos = 0 } }
{
    let text = String::from_str(alloc, "/w/a").expect(rt, "memory");
    let Ok(path) = CanonPath::check(text) else {
        panic!(rt; "a path");
    };
    let stamp = Stamp {
        size: size as u64,
        secs: 1,
        nanos: 0,
    };
    Name { path, stamp }
}

/// The row of a file of these bytes.
pub fn row_of(rt: &impl Abort, alloc: Global, bytes: Vec<u8>) -> TrueRow<OpenWorld> {
    let name = name_of(rt, alloc, bytes.len());
    let path = String::from_str(alloc, name.path.text()).expect(rt, "memory");
    let found: Found<OpenWorld> = Found::new(path, name.stamp, bytes);
    ElfReader.read(alloc, name, &found).expect(rt, "memory")
}

/// Checks that this is the sample's identity and that its sources are these.
fn is_of_sample(rt: &impl Abort, reading: &Reading) {
    match reading {
        Reading::Elf { ident, sources } => {
            assert!(rt; ident.id.bytes() == ID_B.as_slice());
            assert!(rt; ident.exec && ident.debug);
            are(rt, "row", sources, &SOURCES);
        }
        Reading::Plain(_) => panic!(rt; "the sample has an identity"),
    }
}

#[test]
fn the_row_of_the_sample_has_its_identity_and_its_sources(rt: HostRuntime) {
    let file = dwarf_five(rt.alloc()).expect(&rt, "memory");
    let row = row_of(&rt, rt.alloc(), file);
    assert!(rt; row.row().edition == 2);
    assert!(rt; row.row().name.path.text() == "/w/a");
    assert!(rt; row.row().name.stamp.size == 1016);
    is_of_sample(&rt, &row.row().reading);
}

/// The row of a file of a told world, in which `/w/a` is `x` at one second.
fn told_row(rt: &impl Abort, alloc: Global) -> TrueRow<TwoWorld> {
    let stamp = Stamp {
        size: 1,
        secs: 1,
        nanos: 0,
    };
    let path = String::from_str(alloc, "/w/a").expect(rt, "memory");
    let bytes = vec![in alloc; b'x'].expect(rt, "memory");
    let found: Found<TwoWorld> = Found::new(path, stamp, bytes);
    let text = String::from_str(alloc, found.path.as_str()).expect(rt, "memory");
    let Ok(path) = CanonPath::check(text) else {
        panic!(rt; "a path");
    };
    ElfReader
        .read(alloc, Name { path, stamp }, &found)
        .expect(rt, "memory")
}

#[test]
fn the_row_of_a_told_file_is_read(rt: HostRuntime) {
    let row = told_row(&rt, rt.alloc());
    assert!(rt; matches!(&row.row().reading, Reading::Plain(Why::NotElf)));
}
