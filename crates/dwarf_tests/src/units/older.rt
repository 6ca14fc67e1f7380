//! Units of versions 2 to 4.

use super::next_place;
use byte_read::Order;
use dwarf_forms::DebugParts;
use dwarf_units::{Unit, UnitReader, unit_die};

/// The sections of a file with these abbreviations.
fn parts(abbrev: &[u8], order: Order) -> DebugParts<'_> {
    DebugParts {
        info: &[],
        abbrev,
        line: &[],
        str: &[],
        line_str: &[],
        str_offsets: &[],
        order,
    }
}

/// What a unit's first entry says: the places of its line table and of its part of
/// .debug_str_offsets.
fn places(unit: &Unit<'_>, abbrev: &[u8], order: Order) -> Option<(Option<u64>, Option<u64>)> {
    let die = unit_die(unit, &parts(abbrev, order))?;
    Some((die.stmt_list, die.base))
}

/// What it says of its line table.
fn stmt_list(bytes: &[u8], wide: bool, abbrev: &[u8], order: Order) -> Option<u64> {
    places(&Unit { bytes, wide }, abbrev, order)?.0
}

/// No abbreviations at 0; at 1 code 1, with stmt_list by data4.
static ABBREV: &[u8] = b"\0\x01\x11\0\x10\x06\0\0\0";

// DWARF 2, 3 and 4, section 7.5.1: version, debug_abbrev_offset, address_size. A unit's bytes, whether it
// is of the 64-bit format, and its order.
static HEADERS: [(&[u8], bool, Order); 8] = [
    (b"\x02\0\x01\0\0\0\x08\x01\x30\0\0\0", false, Order::Little),
    (b"\x03\0\x01\0\0\0\x08\x01\x30\0\0\0", false, Order::Little),
    (b"\x04\0\x01\0\0\0\x04\x01\x30\0\0\0", false, Order::Little),
    (
        b"\x02\0\x01\0\0\0\0\0\0\0\x08\x01\x30\0\0\0",
        true,
        Order::Little,
    ),
    (
        b"\x04\0\x01\0\0\0\0\0\0\0\x08\x01\x30\0\0\0",
        true,
        Order::Little,
    ),
    (b"\0\x03\0\0\0\x01\x04\x01\0\0\0\x30", false, Order::Big),
    (b"\0\x04\0\0\0\x01\x08\x01\0\0\0\x30", false, Order::Big),
    (
        b"\0\x03\0\0\0\0\0\0\0\x01\x08\x01\0\0\0\x30",
        true,
        Order::Big,
    ),
];

#[test]
fn a_unit_before_version_5_has_no_type(rt: HostRuntime) {
    for &(bytes, wide, order) in &HEADERS {
        assert!(rt;
            stmt_list(bytes, wide, ABBREV, order) == Some(0x30),
            "{bytes:?}"
        );
    }
}

/// Units of other versions, and units whose header or whose code is cut.
static UNREAD: [(&[u8], bool); 12] = [
    (b"\0\0\x01\0\0\0\x08\x01\x30\0\0\0", false),
    (b"\x01\0\x01\0\0\0\x08\x01\x30\0\0\0", false),
    (b"\x06\0\x01\0\0\0\x08\x01\x30\0\0\0", false),
    (b"\x04\x01\x01\0\0\0\x08\x01\x30\0\0\0", false),
    (b"\x04\0\x01\0\0\0\x08\x01\x30\0\0", false),
    (b"\x04\0\x01\0\0\0\x08", false),
    (b"\x04\0\x01\0\0\0", false),
    (b"\x04\0\x01\0\0", false),
    (b"\x04\0", false),
    (b"\x04", false),
    (b"", false),
    (b"\x04\0\x01\0\0\0\0\0\0\0", true),
];

#[test]
fn a_unit_of_another_version_has_no_entry(rt: HostRuntime) {
    for &(bytes, wide) in &UNREAD {
        let unit = Unit { bytes, wide };
        assert!(rt; places(&unit, ABBREV, Order::Little).is_none(), "{bytes:?}");
    }
}

/// At 0 code 1, with type by ref_addr and stmt_list by data4.
static REFERENCE: &[u8] = b"\x01\x11\0\x49\x10\x10\x06\0\0\0";

// DWARF 2, section 7.5.4: ref_addr has the size of an address. DWARF 3 to 5, the same section: that of an
// offset, which the format tells. A unit's bytes and whether it is of the 64-bit format.
static REFERENCES: [(&[u8], bool); 8] = [
    (b"\x02\0\0\0\0\0\x08\x01abcdefgh\x30\0\0\0", false),
    (b"\x02\0\0\0\0\0\x04\x01abcd\x30\0\0\0", false),
    (b"\x02\0\0\0\0\0\0\0\0\0\x04\x01abcd\x30\0\0\0", true),
    (b"\x02\0\0\0\0\0\x01\x01a\x30\0\0\0", false),
    (b"\x03\0\0\0\0\0\x08\x01abcd\x30\0\0\0", false),
    (b"\x03\0\0\0\0\0\0\0\0\0\x04\x01abcdefgh\x30\0\0\0", true),
    (b"\x04\0\0\0\0\0\x08\x01abcd\x30\0\0\0", false),
    (b"\x05\0\x01\x08\0\0\0\0\x01abcd\x30\0\0\0", false),
];

#[test]
fn a_reference_has_the_size_of_an_address_in_version_2(rt: HostRuntime) {
    for &(bytes, wide) in &REFERENCES {
        let place = stmt_list(bytes, wide, REFERENCE, Order::Little);
        assert!(rt; place == Some(0x30), "{bytes:?}");
    }
    let cut: &[u8] = b"\x02\0\0\0\0\0\x08\x01abcd\x30\0\0";
    let unit = Unit {
        bytes: cut,
        wide: false,
    };
    assert!(rt; places(&unit, REFERENCE, Order::Little).is_none());
}

// Units over one table of abbreviations, read in this order by one reader: what one of version 2 says of
// its reference counts for no other.
static IN_TURN: [&[u8]; 4] = [
    b"\x02\0\0\0\0\0\x08\x01abcdefgh\x30\0\0\0",
    b"\x03\0\0\0\0\0\x08\x01abcd\x30\0\0\0",
    b"\x02\0\0\0\0\0\x08\x01abcdefgh\x30\0\0\0",
    b"\x05\0\x01\x08\0\0\0\0\x01abcd\x30\0\0\0",
];

#[test]
fn each_unit_is_read_by_its_own_version(rt: HostRuntime) {
    let alloc = rt.alloc();
    let mut reader = UnitReader::new(alloc, &parts(REFERENCE, Order::Little));
    for bytes in &IN_TURN {
        let place = next_place(&rt, alloc, &mut reader, bytes);
        assert!(rt; place == Some(0x30), "{bytes:?}");
    }
}

// str_offsets_base by sec_offset counts in a unit of any version. The forms that GNU's tools add in
// version 4, 0x1f01 and 0x1f21, are unknown. An abbreviation's pairs, a unit's bytes, and the places.
static FORMS: [(&[u8], &[u8], Option<(Option<u64>, Option<u64>)>); 4] = [
    (
        b"\x01\x11\0\x72\x17\x10\x17\0\0\0",
        b"\x04\0\0\0\0\0\x08\x01\x08\0\0\0\x30\0\0\0",
        Some((Some(0x30), Some(8))),
    ),
    (
        b"\x01\x11\0\x10\x07\0\0\0",
        b"\x03\0\0\0\0\0\x08\x01\x30\0\0\0\0\0\0\0",
        Some((Some(0x30), None)),
    ),
    (
        b"\x01\x11\0\x10\x06\x03\x81\x3e\0\0\0",
        b"\x04\0\0\0\0\0\x08\x01\x30\0\0\0\0\0\0\0",
        None,
    ),
    (
        b"\x01\x11\0\x10\x06\x03\xa1\x3e\0\0\0",
        b"\x04\0\0\0\0\0\x08\x01\x30\0\0\0\0\0\0\0",
        None,
    ),
];

#[test]
fn an_older_entry_has_the_same_forms(rt: HostRuntime) {
    for &(abbrev, bytes, expected) in &FORMS {
        let unit = Unit { bytes, wide: false };
        assert!(rt;
            places(&unit, abbrev, Order::Little) == expected,
            "{abbrev:?}"
        );
    }
}
