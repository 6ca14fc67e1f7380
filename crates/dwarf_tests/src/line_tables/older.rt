//! Line tables of versions 2 to 4.

use super::tables::{Said, Told, is_indexed, older_table, table_said};
use super::{Damage, is_read, of_one};
use byte_read::Order;

/// The line table of a unit of /w/src/main.c (DWARF 4, section 6.2.4): its length 50, version 4, header
/// length 44, twelve opcode lengths; one include directory; two files, the second in that directory.
static LINE: [u8; 54] = [
    0x32, 0x00, 0x00, 0x00, 0x04, 0x00, 0x2c, 0x00, 0x00, 0x00, 0x01, 0x01, 0x01, 0xfb, 0x0e, 0x0d,
    0x00, 0x01, 0x01, 0x01, 0x01, 0x00, 0x00, 0x00, 0x01, 0x00, 0x00, 0x01, 0x69, 0x6e, 0x63, 0x00,
    0x00, 0x6d, 0x61, 0x69, 0x6e, 0x2e, 0x63, 0x00, 0x00, 0x00, 0x00, 0x75, 0x74, 0x69, 0x6c, 0x2e,
    0x68, 0x00, 0x01, 0x00, 0x00, 0x00,
];

#[test]
fn an_older_table_lists_its_directories_and_files(rt: HostRuntime) {
    let expected = Told {
        counts: (1, 2),
        dirs: [Some(Some(b"inc")), None],
        files: [
            Some((Some(b"main.c"), Some(0))),
            Some((Some(b"util.h"), Some(1))),
        ],
    };
    assert!(rt; table_said(&rt, rt.alloc(), &LINE, 0, Order::Little) == Some(expected));
}

// A byte of the table, what it becomes, and whether the table can be read then: length, version (as one of
// version 2 or 3 it has the same lists, since the line parameters are one less and opcode_base is one
// more), header_length, opcode_base, the ends of both lists, the numbers of a file. A header_length past
// the table's end is no fault by itself, and neither are lists that end before it.
static DAMAGES: [Damage; 19] = [
    (0, 0x33, false),
    (0, 0x31, false),
    (4, 0x03, true),
    (4, 0x02, true),
    (4, 0x01, false),
    (4, 0x00, false),
    (4, 0x06, false),
    (5, 0x01, false),
    (6, 0x2b, false),
    (6, 0x2d, true),
    (6, 0x00, false),
    (9, 0xff, true),
    (15, 0x00, false),
    (15, 0x0c, true),
    (15, 0xff, false),
    (32, 0x61, true),
    (53, 0x61, false),
    (52, 0x80, false),
    (40, 0x80, true),
];

#[test]
fn a_damaged_older_table_lists_nothing(rt: HostRuntime) {
    for (place, byte, expected) in &DAMAGES {
        let mut line = LINE;
        if let Some(changed) = line.get_mut(*place) {
            *changed = *byte;
        }
        assert!(rt;
            is_read(&rt, rt.alloc(), &line) == *expected,
            "byte {place}"
        );
    }
}

// A table of fewer bytes has no end of its files, or no whole header.
#[test]
fn a_cut_older_table_lists_nothing(rt: HostRuntime) {
    let mut line = LINE;
    for size in 0..50u8 {
        line[0] = size;
        assert!(rt; !is_read(&rt, rt.alloc(), &line), "{size} bytes");
    }
}

// One directory w and one file a in it, with a time and a size. DWARF 2 and 3, section 6.2.4: no
// maximum_operations_per_instruction; DWARF 4, the same section: one. A table's bytes and its order.
static VERSIONS: [(&[u8], Order); 6] = [
    (
        b"\x14\0\0\0\x02\0\x0e\0\0\0\x01\x01\xfb\x0e\x01w\0\0a\0\x01\x02\x03\0",
        Order::Little,
    ),
    (
        b"\xff\xff\xff\xff\x18\0\0\0\0\0\0\0\x03\0\x0e\0\0\0\0\0\0\0\x01\x01\xfb\x0e\x01\
        w\0\0a\0\x01\x02\x03\0",
        Order::Little,
    ),
    (
        b"\x15\0\0\0\x04\0\x0f\0\0\0\x01\x01\x01\xfb\x0e\x01w\0\0a\0\x01\x02\x03\0",
        Order::Little,
    ),
    (
        b"\xff\xff\xff\xff\x19\0\0\0\0\0\0\0\x04\0\x0f\0\0\0\0\0\0\0\x01\x01\x01\xfb\x0e\x01\
        w\0\0a\0\x01\x02\x03\0",
        Order::Little,
    ),
    (
        b"\0\0\0\x14\0\x03\0\0\0\x0e\x01\x01\xfb\x0e\x01w\0\0a\0\x01\x02\x03\0",
        Order::Big,
    ),
    (
        b"\xff\xff\xff\xff\0\0\0\0\0\0\0\x19\0\x04\0\0\0\0\0\0\0\x0f\x01\x01\x01\xfb\x0e\x01\
        w\0\0a\0\x01\x02\x03\0",
        Order::Big,
    ),
];

#[test]
fn an_older_table_has_a_version_a_format_and_an_order(rt: HostRuntime) {
    let expected = of_one(b"w", (Some(b"a"), Some(1)));
    for &(line, order) in &VERSIONS {
        assert!(rt;
            table_said(&rt, rt.alloc(), line, 0, order) == Some(expected),
            "{line:?}"
        );
    }
}

/// The numbers of directories and of files, and what the first file says.
type Lists = ((usize, usize), Option<Said<'static>>);

// The lists of a table of version 4, None where they can't be read. An empty text ends a list and is no
// item; a number takes up to 64 bits, in however many bytes.
static LISTS: [(&[u8], Option<Lists>); 14] = [
    (b"\0\0", Some(((0, 0), None))),
    (b"\0\0more", Some(((0, 0), None))),
    (
        b"\0a\0\0\0\0\0",
        Some(((0, 1), Some((Some(b"a"), Some(0))))),
    ),
    (b"a\0b\0\0\0", Some(((2, 0), None))),
    (
        b"\0a\0\x82\x80\0\0\0b\0\0\0\0\0",
        Some(((0, 2), Some((Some(b"a"), Some(2))))),
    ),
    (
        b"\0a\0\xff\xff\xff\xff\xff\xff\xff\xff\xff\x01\0\0\0",
        Some(((0, 1), Some((Some(b"a"), Some(u64::MAX))))),
    ),
    (b"\0a\0\x80\x80\x80\x80\x80\x80\x80\x80\x80\x02\0\0\0", None),
    (b"\0a\0\0\x80\x80\x80\x80\x80\x80\x80\x80\x80\x02\0\0", None),
    (b"\0a\0\0\0\x80\x80\x80\x80\x80\x80\x80\x80\x80\x02\0", None),
    (b"\0", None),
    (b"", None),
    (b"a\0b\0", None),
    (b"\0a\0\0\0\0", None),
    (b"\0a\0\0\0\0b", None),
];

#[test]
fn a_list_ends_before_an_empty_text(rt: HostRuntime) {
    for (lists, expected) in &LISTS {
        let line = older_table(&rt, rt.alloc(), 4, lists);
        let found = match table_said(&rt, rt.alloc(), line.as_slice(), 0, Order::Little) {
            Some(told) => Some((told.counts, told.files[0])),
            None => None,
        };
        assert!(rt; found == *expected, "{lists:?}");
    }
}

// The lists of version 4 name no texts by their places.
#[test]
fn an_older_table_has_no_indexes(rt: HostRuntime) {
    let line = older_table(&rt, rt.alloc(), 4, b"w\0\0a\0\x01\0\0\0");
    assert!(rt; !is_indexed(&rt, rt.alloc(), line.as_slice()));
}
