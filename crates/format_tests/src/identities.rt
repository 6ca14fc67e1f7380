//! That the definitions mean what the format's text says. The expected values are those of the
//! sample files' description; `readelf -hSn` shows the same ids, types and flags.

mod changes;
mod parts;
mod sections;
mod views;
pub mod windows;

pub use changes::changed;
use elf_classify::ident;
use row_types::{BuildId, Ident, Why};
use sample_files::{
    ID_A, ID_B, ID_BIG, ID_C, big_endian_debug, both_classes, chosen_ids, code_of_flags,
    eight_aligned_notes, extended_counts, narrow_eight_aligned_notes, narrow_extended_counts,
    null_debug,
};
use std::alloc::AllocError;
use std::process::Abort;

/// An identity from its parts.
fn identity(rt: &impl Abort, id: &[u8], exec: bool, debug: bool) -> Ident {
    let id = BuildId::new(id).expect(rt, "an id has 2 to 64 bytes");
    Ident { id, exec, debug }
}

/// Checks that the file has this id, and is a program and a debug file or not.
fn has(
    rt: &impl Abort,
    what: &str,
    file: Result<Vec<u8>, AllocError>,
    id: &[u8],
    classes: (bool, bool),
) {
    let (exec, debug) = classes;
    let file = file.expect(rt, "memory");
    assert!(rt; ident(&file) == Ok(identity(rt, id, exec, debug)), "{what}");
}

#[test]
fn each_sample_has_its_identity(rt: HostRuntime) {
    let alloc = rt.alloc();
    let both = (true, true);
    let program = (true, false);
    let debug = (false, true);
    has(&rt, "both classes", both_classes(alloc), &ID_A, both);
    has(&rt, "big endian", big_endian_debug(alloc), &ID_BIG, debug);
    has(&rt, "extended", extended_counts(alloc), &ID_A, both);
    let narrow = narrow_extended_counts(alloc);
    has(&rt, "32-bit, extended", narrow, &ID_BIG, debug);
    let id = [0xab, 0xcd, 0xef];
    has(&rt, "8-aligned", eight_aligned_notes(alloc), &id, program);
    let narrow = narrow_eight_aligned_notes(alloc);
    has(&rt, "32-bit, 8-aligned", narrow, &id, program);
}

// ELF gABI, chapter 4, "Sections": SHT_NULL is 0, and "the header is inactive"; SHF_ALLOC is 2 and
// SHF_EXECINSTR 4.
#[test]
fn sections_are_code_and_debug_information_by_type_and_flag(rt: HostRuntime) {
    let alloc = rt.alloc();
    let program = (true, false);
    let neither = (false, false);
    has(&rt, "flag 2", code_of_flags(alloc, 2), &ID_C, program);
    has(&rt, "flag 4", code_of_flags(alloc, 4), &ID_C, neither);
    has(&rt, "type 0", null_debug(alloc), &ID_C, neither);
}

/// What it is, the ids that notes have, and the one that is the file's.
static IDS: [(&str, &[&[u8]], &[u8]); 4] = [
    ("after one byte", &[&[0x99], &[0xbe, 0xef]], &[0xbe, 0xef]),
    ("two ids", &[&ID_A, &ID_B], &ID_A),
    ("64 bytes", &[&[0x11; 64]], &[0x11; 64]),
    ("after 65 bytes", &[&[0x11; 65], &ID_B], &ID_B),
];

/// What it is, and the one id that a note has.
static NO_IDS: [(&str, &[u8]); 2] = [("one byte", &[0x99]), ("65 bytes", &[0x11; 65])];

#[test]
fn the_first_note_of_2_to_64_bytes_is_the_build_id(rt: HostRuntime) {
    let alloc = rt.alloc();
    for (what, notes, id) in &IDS {
        has(&rt, what, chosen_ids(alloc, notes), id, (true, false));
    }
    for (what, id) in &NO_IDS {
        let file = chosen_ids(alloc, &[id]).expect(&rt, "memory");
        assert!(rt; ident(&file) == Err(Why::NoBuildId), "{what}");
    }
}

#[test]
fn a_cut_header_is_bad_and_an_empty_file_is_no_elf(rt: HostRuntime) {
    assert!(rt; ident(&[]) == Err(Why::NotElf));
    let mut cut = [0; 51];
    cut[..7].copy_from_slice(b"\x7fELF\x01\x01\x01");
    assert!(rt; ident(&cut) == Err(Why::BadElf));
}
