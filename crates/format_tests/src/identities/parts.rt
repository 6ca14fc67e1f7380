//! The sections of debug information. The expected bytes are those of the sample files' description.

use super::changed;
use elf_classify::{DebugParts, debug_parts};
use file_formats::Order;
use sample_files::{big_endian_debug, dwarf_five};
use std::alloc::Global;
use std::process::Abort;

/// The bytes of .debug_abbrev: one abbreviation with three attributes.
static ABBREV: [u8; 12] = [1, 0x11, 0, 0x1b, 0x25, 0x72, 0x17, 0x10, 0x17, 0, 0, 0];

/// The bytes of .debug_info: one unit of version 5.
static INFO: [u8; 22] = [
    0x12, 0, 0, 0, 5, 0, 1, 8, 0, 0, 0, 0, 1, 0, 8, 0, 0, 0, 0, 0, 0, 0,
];

/// The place of e_type in the header.
const E_TYPE: usize = 16;

/// Checks that these are the debug sections of the sample.
fn are_those(rt: &impl Abort, parts: &DebugParts<'_>) {
    assert!(rt; parts.info == INFO.as_slice());
    assert!(rt; parts.abbrev == ABBREV.as_slice());
    assert!(rt; parts.line.len() == 69);
    assert!(rt; parts.str == b"/w/src\0".as_slice());
    assert!(rt; parts.line_str == b".\0inc\0main.c\0util.h\0".as_slice());
    assert!(rt; parts.str_offsets == [8, 0, 0, 0, 5, 0, 0, 0, 0, 0, 0, 0].as_slice());
    assert!(rt; parts.order == Order::Little);
}

#[test]
fn debug_sections_are_those_of_their_names(rt: HostRuntime) {
    let file = dwarf_five(rt.alloc()).expect(&rt, "memory");
    let parts = debug_parts(file.as_slice()).expect(&rt, "the file has sections");
    are_those(&rt, &parts);
}

/// Whether the sample has debug sections where e_type is this number.
fn has_parts(rt: &impl Abort, alloc: Global, e_type: u8) -> bool {
    let file = dwarf_five(alloc).expect(rt, "memory");
    let other = changed(rt, alloc, file.as_slice(), E_TYPE, &[e_type]);
    debug_parts(other.as_slice()).is_some()
}

// ELF gABI, chapter 4, "ELF Header": ET_REL is 1, ET_EXEC 2 and ET_CORE 4.
#[test]
fn a_relocatable_file_has_no_debug_sections(rt: HostRuntime) {
    assert!(rt; !has_parts(&rt, rt.alloc(), 1));
    assert!(rt; has_parts(&rt, rt.alloc(), 2));
    assert!(rt; has_parts(&rt, rt.alloc(), 4));
    assert!(rt; debug_parts(b"\x7fELF").is_none());
    let big = big_endian_debug(rt.alloc()).expect(&rt, "memory");
    let parts = debug_parts(big.as_slice()).expect(&rt, "the file has sections");
    assert!(rt; (parts.info.len(), parts.line.len()) == (0, 0));
}
