//! That the sample files are the files that are meant, and that memory suffices.

use sample_files::{
    ID_A, ID_B, Order, big_endian_debug, both_classes, chosen_ids, code_of_flags, debug_companion,
    debug_companion_of, dwarf_five, dwarf_five_of, eight_aligned_notes, executable, executable_of,
    extended_counts, narrow_eight_aligned_notes, narrow_extended_counts, note, null_debug,
};
use std::alloc::AllocError;
use std::process::Abort;

/// Where bytes of a file begin, and the bytes.
type Part<'a> = (usize, &'a [u8]);

/// Checks that the file has so many bytes, and these among them.
fn holds(
    rt: &impl Abort,
    what: &str,
    file: Result<Vec<u8>, AllocError>,
    size: usize,
    parts: &[Part<'_>],
) {
    let file = file.expect(rt, "memory");
    assert!(rt; file.len() == size, "{what}");
    for (place, bytes) in parts {
        let rest = file.get(*place..).expect(rt, "a place in the file");
        assert!(rt; rest.starts_with(bytes), "{what} at {place}");
    }
}

#[test]
fn each_sample_has_its_length(rt: HostRuntime) {
    let alloc = rt.alloc();
    holds(&rt, "both classes", both_classes(alloc), 488, &[]);
    let big = big_endian_debug(alloc);
    holds(&rt, "32-bit big-endian debug file", big, 324, &[]);
    holds(&rt, "8-aligned notes", eight_aligned_notes(alloc), 408, &[]);
    let narrow = narrow_eight_aligned_notes(alloc);
    holds(&rt, "32-bit 8-aligned notes", narrow, 296, &[]);
    holds(&rt, "extended counts", extended_counts(alloc), 488, &[]);
    let narrow = narrow_extended_counts(alloc);
    holds(&rt, "32-bit extended counts", narrow, 324, &[]);
    holds(&rt, "DWARF 5", dwarf_five(alloc), 1016, &[]);
    holds(&rt, "executable", executable(alloc), 408, &[]);
    holds(&rt, "debug companion", debug_companion(alloc), 584, &[]);
    holds(&rt, "debug bytes of type NULL", null_debug(alloc), 400, &[]);
    holds(&rt, "code of flags", code_of_flags(alloc, 2), 408, &[]);
}

/// Parts of the sample of both classes.
static BOTH_CLASSES: [Part<'static>; 7] = [
    // e_shoff, e_shentsize, e_shnum, e_shstrndx.
    (40, &[168, 0, 0, 0, 0, 0, 0, 0]),
    (58, &[64, 0, 5, 0, 4, 0]),
    (64, b"\x04\0\0\0\x14\0\0\0\x03\0\0\0GNU\0"),
    (80, &ID_A),
    (100, b"\0\0\0\0\0\0\0\0\0\0\0\0\xc3"),
    (
        113,
        b"\0.note.gnu.build-id\0.text\0.debug_info\0.shstrtab\0",
    ),
    (161, &[0; 71]),
];

#[test]
fn the_parts_stand_at_their_places(rt: HostRuntime) {
    let file = both_classes(rt.alloc());
    holds(&rt, "both classes", file, 488, &BOTH_CLASSES);
}

/// Parts of the 32-bit file that spells numbers with their highest byte first.
static BIG_ENDIAN: [Part<'static>; 5] = [
    (0, b"\x7fELF\x01\x02\x01"),
    // e_type, e_machine, e_version; then e_shoff.
    (16, &[0, 2, 0, 20, 0, 0, 0, 1]),
    (32, &[0, 0, 0, 124]),
    (
        52,
        b"\0\0\0\x04\0\0\0\x08\0\0\0\x03GNU\0\xa0\xa1\xa2\xa3\xa4\xa5\xa6\xa7",
    ),
    // sh_name to sh_size of .text, which takes no bytes.
    (
        204,
        &[
            0, 0, 0, 20, 0, 0, 0, 8, 0, 0, 0, 6, 0, 0, 0, 0, 0, 0, 0, 76, 0, 0, 0, 64,
        ],
    ),
];

#[test]
fn a_big_endian_file_has_the_highest_byte_first(rt: HostRuntime) {
    let file = big_endian_debug(rt.alloc());
    holds(&rt, "big endian", file, 324, &BIG_ENDIAN);
}

/// Two notes that are aligned to 8 bytes.
static NOTES: [Part<'static>; 3] = [
    (64, b"\x04\0\0\0\x0c\0\0\0\x05\0\0\0GNU\0"),
    (80, &[0; 16]),
    (96, b"\x04\0\0\0\x03\0\0\0\x03\0\0\0GNU\0\xab\xcd\xef"),
];

#[test]
fn a_note_is_padded_to_the_alignment_and_the_last_is_not(rt: HostRuntime) {
    let file = eight_aligned_notes(rt.alloc());
    holds(&rt, "8-aligned notes", file, 408, &NOTES);
}

/// e_shnum and e_shstrndx, then section 0's size and link.
static WIDE_COUNTS: [Part<'static>; 2] = [
    (60, &[0, 0, 0xff, 0xff]),
    (200, &[5, 0, 0, 0, 0, 0, 0, 0, 4, 0, 0, 0]),
];

/// The table begins at 124: section 0's size at 144, its link at 148.
static NARROW_COUNTS: [Part<'static>; 2] = [
    (48, &[0, 0, 0xff, 0xff]),
    (144, &[0, 0, 0, 5, 0, 0, 0, 4]),
];

#[test]
fn extended_counts_stand_in_section_zero(rt: HostRuntime) {
    holds(&rt, "wide", extended_counts(rt.alloc()), 488, &WIDE_COUNTS);
    let narrow = narrow_extended_counts(rt.alloc());
    holds(&rt, "narrow", narrow, 324, &NARROW_COUNTS);
}

// The bytes are those that binutils' readelf reads as one unit of /w/src with the files main.c and
// inc/util.h.
static DEBUG_SECTIONS: [Part<'static>; 8] = [
    // The abbreviations.
    (113, b"\x01\x11\0\x1b\x25\x72\x17\x10\x17\0\0\0"),
    // The unit.
    (
        125,
        b"\x12\0\0\0\x05\0\x01\x08\0\0\0\0\x01\0\x08\0\0\0\0\0\0\0",
    ),
    // The line table's parameters, opcode lengths, directories and files.
    (
        147,
        b"\x41\0\0\0\x05\0\x08\0\x39\0\0\0\x01\x01\x01\xfb\x0e\x0d\0",
    ),
    (166, b"\x01\x01\x01\x01\0\0\0\x01\0\0\x01"),
    (177, b"\x01\x01\x1f\x02\0\0\0\0\x02\0\0\0"),
    (
        189,
        b"\x03\x01\x1f\x02\x0b\x81\x40\x1f\x02\x06\0\0\0\0\0\0\0\0\x0d\0\0\0\x01\0\0\0\0",
    ),
    // The texts and their places.
    (216, b"/w/src\0.\0inc\0main.c\0util.h\0"),
    (243, &[8, 0, 0, 0, 5, 0, 0, 0, 0, 0, 0, 0]),
];

#[test]
fn the_debug_sections_are_a_unit_of_two_sources(rt: HostRuntime) {
    holds(
        &rt,
        "DWARF 5",
        dwarf_five(rt.alloc()),
        1016,
        &DEBUG_SECTIONS,
    );
}

/// A note of one byte and one of two.
static CHOSEN: [Part<'static>; 2] = [
    (64, b"\x04\0\0\0\x01\0\0\0\x03\0\0\0GNU\0\x99\0\0\0"),
    (84, b"\x04\0\0\0\x02\0\0\0\x03\0\0\0GNU\0\xbe\xef\0\0"),
];

#[test]
fn chosen_ids_have_a_note_each(rt: HostRuntime) {
    let file = chosen_ids(rt.alloc(), &[&[0x99], &[0xbe, 0xef]]);
    holds(&rt, "chosen ids", file, 392, &CHOSEN);
}

#[test]
fn the_calls_of_an_id_take_another(rt: HostRuntime) {
    let alloc = rt.alloc();
    let id = [0xab, 0xcd];
    let note = note(alloc, Order::Little, &id).expect(&rt, "memory");
    assert!(rt; note.len() == 18);
    let file = executable_of(alloc, &id);
    holds(&rt, "executable", file, 392, &[(64, note.as_slice())]);
    let file = debug_companion_of(alloc, &id);
    holds(&rt, "debug companion", file, 568, &[]);
    let file = dwarf_five_of(alloc, &ID_B, "/t/000000");
    holds(&rt, "DWARF 5", file, 1024, &[(216, b"/t/000000\0")]);
}
