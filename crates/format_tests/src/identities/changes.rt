//! What one change of a file makes of it.

use super::identity;
use elf_classify::ident;
use row_types::{Ident, Why};
use sample_files::{ID_A, big_endian_debug, both_classes, extended_counts};
use std::alloc::{AllocError, Global};
use std::process::Abort;

/// A change and the reason that it leads to: what it is, where the changed bytes begin in the file,
/// and the bytes.
type Change = (&'static str, usize, &'static [u8], Why);

/// The file with other bytes at a place.
pub fn changed(rt: &impl Abort, alloc: Global, file: &[u8], place: usize, bytes: &[u8]) -> Vec<u8> {
    let before = file.get(..place).expect(rt, "the place is in the file");
    let rest = file.get(place..).expect(rt, "the place is in the file");
    let after = rest
        .get(bytes.len()..)
        .expect(rt, "the change ends in the file");
    let mut copy = Vec::from_slice(alloc, before).expect(rt, "memory");
    copy.extend_from_slice(bytes).expect(rt, "memory");
    copy.extend_from_slice(after).expect(rt, "memory");
    copy
}

/// The identity of the file with other bytes at a place.
fn changed_ident(
    rt: &impl Abort,
    alloc: Global,
    file: &[u8],
    place: usize,
    bytes: &[u8],
) -> Result<Ident, Why> {
    ident(&changed(rt, alloc, file, place, bytes))
}

/// The sample of both classes has its section table at 168: the header of its notes stands at 232,
/// that of its names' section at 424.
static WIDE: [Change; 16] = [
    ("another beginning", 0, &[0x7e], Why::NotElf),
    ("an unknown class", 4, &[3], Why::BadElf),
    ("an unknown order", 5, &[0], Why::BadElf),
    ("an unknown version", 6, &[2], Why::BadElf),
    ("no section table", 40, &[0], Why::NoSections),
    (
        "a table at the end of all places",
        40,
        &[0xff; 8],
        Why::BadElf,
    ),
    ("entries of another size", 58, &[40], Why::BadElf),
    ("a table past the end", 60, &[6], Why::BadElf),
    ("no section of names", 62, &[5], Why::BadElf),
    ("names without contents", 428, &[8], Why::BadElf),
    ("names of type NULL", 428, &[0], Why::BadElf),
    ("a core image", 16, &[4], Why::Core),
    ("notes of another type", 236, &[1], Why::NoBuildId),
    ("notes without contents", 236, &[8], Why::NoBuildId),
    ("compressed notes", 240, &[2, 8], Why::NoBuildId),
    ("notes past the end", 256, &[0xff], Why::NoBuildId),
];

/// The sample 32-bit big-endian file has its section table at 124: the header of its notes stands
/// at 164, that of its names' section at 284.
static NARROW: [Change; 10] = [
    ("an unknown order", 5, &[3], Why::BadElf),
    ("an unknown version", 6, &[0], Why::BadElf),
    ("no section table", 35, &[0], Why::NoSections),
    ("entries of another size", 47, &[64], Why::BadElf),
    ("a table past the end", 49, &[6], Why::BadElf),
    ("no section of names", 51, &[5], Why::BadElf),
    ("names without contents", 291, &[8], Why::BadElf),
    ("names of type NULL", 291, &[0], Why::BadElf),
    ("a core image", 17, &[4], Why::Core),
    ("compressed notes", 174, &[8, 2], Why::NoBuildId),
];

/// In the sample with extended counts section 0's size stands at 200, its link at 208.
static EXTENDED: [Change; 5] = [
    ("section 0 past the end", 40, &[0xa9, 1], Why::BadElf),
    ("a count of 0", 200, &[0], Why::NoSections),
    ("a table past the end", 200, &[6], Why::BadElf),
    ("no section of names", 208, &[5], Why::BadElf),
    ("names without contents", 428, &[8], Why::BadElf),
];

/// Checks that each change of the file leads to its reason.
fn leads_to_reasons(
    rt: &impl Abort,
    alloc: Global,
    file: Result<Vec<u8>, AllocError>,
    changes: &[Change],
) {
    let file = file.expect(rt, "memory");
    for (what, place, bytes, why) in changes {
        let found = changed_ident(rt, alloc, &file, *place, bytes);
        assert!(rt; found == Err(*why), "{what}");
    }
}

#[test]
fn each_change_has_its_reason(rt: HostRuntime) {
    let alloc = rt.alloc();
    leads_to_reasons(&rt, alloc, both_classes(alloc), &WIDE);
    leads_to_reasons(&rt, alloc, big_endian_debug(alloc), &NARROW);
    leads_to_reasons(&rt, alloc, extended_counts(alloc), &EXTENDED);
}

#[test]
fn a_file_without_names_has_no_debug_information(rt: HostRuntime) {
    let file = both_classes(rt.alloc()).expect(&rt, "memory");
    let found = changed_ident(&rt, rt.alloc(), &file, 62, &[0]);
    assert!(rt; found == Ok(identity(&rt, &ID_A, true, false)));
}

/// The sample of both classes whose section 0 has the header of its notes, too.
fn notes_in_zero(rt: &impl Abort, alloc: Global) -> Vec<u8> {
    let file = both_classes(alloc).expect(rt, "memory");
    let notes = file.get(232..296).expect(rt, "the file has 488 bytes");
    changed(rt, alloc, &file, 168, notes)
}

#[test]
fn section_zero_is_never_looked_at(rt: HostRuntime) {
    let in_both = notes_in_zero(&rt, rt.alloc());
    assert!(rt; ident(&in_both) == Ok(identity(&rt, &ID_A, true, true)));
    let in_zero_alone = changed_ident(&rt, rt.alloc(), &in_both, 236, &[0]);
    assert!(rt; in_zero_alone == Err(Why::NoBuildId));
}
