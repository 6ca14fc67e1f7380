//! Whether the clauses say what the standard means.

mod older;

use byte_read::Order;
use dwarf_forms::DebugParts;
use dwarf_units::{Unit, UnitReader, Units, unit_die, units};
use std::alloc::Global;
use std::process::Abort;

/// The sections of a small file with these abbreviations: its text 0 is /w/src.
fn parts(abbrev: &[u8]) -> DebugParts<'_> {
    DebugParts {
        info: &[],
        abbrev,
        line: &[],
        str: b"/w/src\0",
        line_str: b".\0inc\0",
        str_offsets: b"\x08\0\0\0\x05\0\0\0\0\0\0\0",
        order: Order::Little,
    }
}

/// What a first entry says: its line table's place, its folder, and its base.
type Answer<'a> = (Option<u64>, Option<&'a [u8]>, Option<u64>);

/// The first entry of a narrow unit of these bytes.
fn narrow<'a>(bytes: &'a [u8], abbrev: &'a [u8]) -> Option<Answer<'a>> {
    let die = unit_die(&Unit { bytes, wide: false }, &parts(abbrev))?;
    let folder = match die.comp_dir {
        Some(text) => text.within(6),
        None => None,
    };
    Some((die.stmt_list, folder, die.base))
}

/// A file's units: comp_dir by strx1, then str_offsets_base and stmt_list by sec_offset.
static ABBREV: &[u8] = b"\x01\x11\0\x1b\x25\x72\x17\x10\x17\0\0\0";

/// Version 5, compile, addresses of 8 bytes, abbreviations at 0; code 1, text 0, base 8, line table
/// 0x30.
static COMPILE: &[u8] = b"\x05\0\x01\x08\0\0\0\0\x01\0\x08\0\0\0\x30\0\0\0";

/// What that unit says.
static SAID: Answer<'static> = (Some(0x30), Some(b"/w/src"), Some(8));

#[test]
fn the_first_entry_leads_to_the_sources(rt: HostRuntime) {
    assert!(rt; narrow(COMPILE, ABBREV) == Some(SAID));
}

// DWARF 5, sections 7.5.1.1 to 7.5.1.3, and table 7.2: what each type adds to the header. A unit's
// bytes, whether it is of the 64-bit format, and whether its first entry can be read.
static TYPES: [(&[u8], bool, bool); 9] = [
    (b"\x05\0\x01\x08\0\0\0\0\x01\x07", false, true),
    (b"\x05\0\x03\x08\0\0\0\0\x01\x07", false, true),
    (b"\x05\0\x04\x08\0\0\0\0........\x01\x07", false, true),
    (b"\x05\0\x05\x08\0\0\0\0........\x01\x07", false, true),
    (b"\x05\0\x02\x08\0\0\0\0............\x01\x07", false, true),
    (b"\x05\0\x06\x08\0\0\0\0............\x01\x07", false, true),
    (
        b"\x05\0\x02\x08\0\0\0\0\0\0\0\0................\x01\x07",
        true,
        true,
    ),
    (b"\x05\0\x07\x08\0\0\0\0\x01\x07", false, false),
    (b"\x05\0\x80\x08\0\0\0\0\x01\x07", false, false),
];

#[test]
fn each_unit_type_adds_its_bytes(rt: HostRuntime) {
    for &(bytes, wide, read) in &TYPES {
        let die = unit_die(&Unit { bytes, wide }, &parts(b"\x01\x11\0\x10\x0b\0\0\0"));
        assert!(rt; die.is_some() == read, "type {:?}", bytes.get(2));
    }
}

/// Writes one text and another behind it.
fn put(to: &mut [u8; 24], head: &[u8], tail: &[u8]) {
    for (byte, from) in to.iter_mut().zip(head.iter().chain(tail)) {
        *byte = *from;
    }
}

/// What a unit with these attributes and values says of its line table's place.
fn stmt_list(pairs: &[u8], values: &[u8]) -> Option<Option<u64>> {
    let mut bytes = [0; 24];
    let mut abbrev = [0; 24];
    put(&mut bytes, b"\x05\0\x01\x08\0\0\0\0\x01", values);
    put(&mut abbrev, b"\x01\x11\0", pairs);
    let said = narrow(&bytes, &abbrev)?;
    Some(said.0)
}

// A number of form data1 is no place, so stmt_list is absent; of a repeated one the first counts.
// Attributes, their values, and stmt_list.
static REPEATED: [(&[u8], &[u8], Option<u64>); 5] = [
    (b"\x10\x06\x10\x06\0\0", b"\x01\0\0\0\x02\0\0\0", Some(1)),
    (b"\x10\x0b\x10\x06\0\0", b"\x07\x02\0\0\0", None),
    (b"\x10\x16\0\0", b"\x06\x09\0\0\0", Some(9)),
    (b"\0\x0b\x10\x06\0\0", b"\x07\x02\0\0\0", Some(2)),
    (b"\x03\x21\x7f\x10\x06\0\0", b"\x02\0\0\0", Some(2)),
];

#[test]
fn the_first_of_a_repeated_attribute_counts(rt: HostRuntime) {
    for (pairs, values, place) in &REPEATED {
        assert!(rt; stmt_list(pairs, values) == Some(*place), "{pairs:?}");
    }
}

/// Abbreviations, and whether the unit says what it says by its own.
static ABBREVIATIONS: [(&[u8], bool); 6] = [
    (
        b"\x02\x2e\0\x03\x08\0\0\x01\x11\0\x1b\x25\x72\x17\x10\x17\0\0\0",
        true,
    ),
    (
        b"\x01\x11\0\x1b\x25\x72\x17\x10\x17\0\0\x01\x11\0\x1b",
        true,
    ),
    (b"\x01\x11\0\x1b\x25\x72\x17\x10\x17\0\0\x81", true),
    (
        b"\x02\x2e\0\x03\x08\0\0\0\x01\x11\0\x1b\x25\x72\x17\x10\x17\0\0\0",
        false,
    ),
    (b"\x02\x2e\0\x03", false),
    (b"\x01\x11\0\x1b\x25\x72\x17\x10\x17", false),
];

#[test]
fn the_first_abbreviation_of_the_code_counts(rt: HostRuntime) {
    for (abbrev, read) in &ABBREVIATIONS {
        let expected = if *read { Some(SAID) } else { None };
        assert!(rt; narrow(COMPILE, abbrev) == expected, "{abbrev:?}");
    }
}

/// The bytes of units, and abbreviations.
static FAULTY: [(&[u8], &[u8]); 7] = [
    (
        b"\x04\0\x01\x08\0\0\0\0\x01\x07",
        b"\x01\x11\0\x10\x0b\0\0\0",
    ),
    (b"\x05\0\x01\x08\0\0\0", b"\x01\x11\0\x10\x0b\0\0\0"),
    (b"\x05\0\x01\x08\0\0\0\0\0\x07", b"\0\x11\0\x10\x0b\0\0\0"),
    (b"\x05\0\x01\x08\0\0\0\0\x80", b"\x01\x11\0\x10\x0b\0\0\0"),
    (b"\x05\0\x01\x08\0\0\0\0\x01", b"\x01\x11\0\x10\x0b\0\0\0"),
    (b"\x05\0\x01\x08\0\0\0\0\x01\x07", b"\x01\x11\0\x10\0\0\0\0"),
    (
        b"\x05\0\x01\x08\xff\0\0\0\x01\x07",
        b"\x01\x11\0\x10\x0b\0\0\0",
    ),
];

#[test]
fn a_unit_that_is_faulty_has_no_entry(rt: HostRuntime) {
    for (bytes, abbrev) in &FAULTY {
        assert!(rt; narrow(bytes, abbrev).is_none(), "{bytes:?}");
    }
}

/// The next unit's bytes, and whether it is of the 64-bit format.
fn next_unit<'a>(list: &mut Units<'a>) -> Option<(&'a [u8], bool)> {
    let unit = list.next()?;
    Some((unit.bytes, unit.wide))
}

// DWARF 5, section 7.4: a unit without bytes, a narrow one, a wide one, a length past the end.
static INFO: &[u8] = b"\0\0\0\0\x01\0\0\0a\xff\xff\xff\xff\x02\0\0\0\0\0\0\0bc\x09\0\0\0d";

/// Their bytes, and whether they are of the 64-bit format; then there are no more.
static UNITS: [Option<(&[u8], bool)>; 5] = [
    Some((b"", false)),
    Some((b"a", false)),
    Some((b"bc", true)),
    None,
    None,
];

#[test]
fn units_stand_one_behind_the_other(rt: HostRuntime) {
    let mut list = units(INFO, Order::Little);
    for expected in &UNITS {
        assert!(rt; next_unit(&mut list) == *expected);
    }
}

/// Two tables: at 0 codes 1 and 2, at 15 code 2 alone, whose stmt_list is data4 and not data8.
static TABLES: &[u8] = b"\x01\x11\0\x10\x06\0\0\x02\x11\0\x10\x07\0\0\0\
    \x02\x11\0\x10\x06\0\0\0";

// DWARF 5, section 7.5.3. Units in the order in which they are read: the table, the code, and what
// stands behind it; and the place of the line table, None where the unit has no entry.
static IN_TURN: [(&[u8], Option<u64>); 7] = [
    (
        b"\x05\0\x01\x08\0\0\0\0\x02\x01\x02\x03\x04\x05\x06\x07\x08",
        Some(0x0807_0605_0403_0201),
    ),
    (
        b"\x05\0\x01\x08\0\0\0\0\x01\x01\x02\x03\x04",
        Some(0x0403_0201),
    ),
    (b"\x05\0\x01\x08\0\0\0\0\x03\x01\x02\x03\x04", None),
    (
        b"\x05\0\x01\x04\0\0\0\0\x01\x01\x02\x03\x04",
        Some(0x0403_0201),
    ),
    (
        b"\x05\0\x01\x08\x0f\0\0\0\x02\x01\x02\x03\x04",
        Some(0x0403_0201),
    ),
    (b"\x05\0\x01\x08\x0f\0\0\0\x01\x01\x02\x03\x04", None),
    (b"\x05\0\x01\x08\0\0\0\0\x02\x01\x02\x03\x04", None),
];

/// The place of the line table that the next unit names.
fn next_place<'a>(
    rt: &impl Abort,
    alloc: Global,
    reader: &mut UnitReader<'a>,
    bytes: &'a [u8],
) -> Option<u64> {
    let unit = Unit { bytes, wide: false };
    match reader.first_entry(alloc, &unit).expect(rt, "memory") {
        Some(die) => die.stmt_list,
        None => None,
    }
}

#[test]
fn a_reader_tells_of_each_unit(rt: HostRuntime) {
    let alloc = rt.alloc();
    let mut reader = UnitReader::new(alloc, &parts(TABLES));
    for (bytes, place) in &IN_TURN {
        assert!(rt;
            next_place(&rt, alloc, &mut reader, bytes) == *place,
            "{bytes:?}"
        );
    }
}
