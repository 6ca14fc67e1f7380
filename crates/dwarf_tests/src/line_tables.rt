//! Whether the clauses say what the standard means, and that memory suffices.

mod older;
pub mod tables;

use byte_read::Order;
use std::alloc::Global;
use std::process::Abort;
use tables::{Said, Told, has_indexes, table, table_said};

/// The line table of a unit of /w/src/main.c (section 6.2.4): its length 65, version 5, addresses of
/// 8 bytes, header length 57, twelve opcode lengths; two directories by line_strp; two files by
/// line_strp, a directory's index by data1, and a content type 0x2001 by line_strp.
static LINE: [u8; 69] = [
    0x41, 0x00, 0x00, 0x00, 0x05, 0x00, 0x08, 0x00, 0x39, 0x00, 0x00, 0x00, 0x01, 0x01, 0x01, 0xfb,
    0x0e, 0x0d, 0x00, 0x01, 0x01, 0x01, 0x01, 0x00, 0x00, 0x00, 0x01, 0x00, 0x00, 0x01, 0x01, 0x01,
    0x1f, 0x02, 0x00, 0x00, 0x00, 0x00, 0x02, 0x00, 0x00, 0x00, 0x03, 0x01, 0x1f, 0x02, 0x0b, 0x81,
    0x40, 0x1f, 0x02, 0x06, 0x00, 0x00, 0x00, 0x00, 0x00, 0x00, 0x00, 0x00, 0x0d, 0x00, 0x00, 0x00,
    0x01, 0x00, 0x00, 0x00, 0x00,
];

#[test]
fn a_table_lists_its_directories_and_files(rt: HostRuntime) {
    let expected = Told {
        counts: (2, 2),
        dirs: [Some(Some(b".")), Some(Some(b"inc"))],
        files: [
            Some((Some(b"main.c"), Some(0))),
            Some((Some(b"util.h"), Some(1))),
        ],
    };
    assert!(rt; table_said(&rt, rt.alloc(), &LINE, 0, Order::Little) == Some(expected));
}

/// A byte of a table, what it becomes, and whether the table can be read then.
type Damage = (usize, u8, bool);

// A byte of the table, what it becomes, and whether the table can be read then: length, version,
// header_length, opcode_base, the numbers of formats and of entries. A header_length past the
// table's end is no fault by itself.
static DAMAGES: [Damage; 14] = [
    (0, 0x42, false),
    (0, 0x40, false),
    (4, 0x04, false),
    (4, 0x06, false),
    (5, 0x01, false),
    (8, 0x38, false),
    (8, 0x3a, true),
    (11, 0xff, true),
    (17, 0x00, false),
    (17, 0xff, false),
    (33, 0x03, false),
    (50, 0x01, true),
    (50, 0x03, false),
    (68, 0xff, true),
];

/// Whether the table can be read.
fn is_read(rt: &impl Abort, alloc: Global, line: &[u8]) -> bool {
    table_said(rt, alloc, line, 0, Order::Little).is_some()
}

#[test]
fn a_damaged_table_lists_nothing(rt: HostRuntime) {
    for (place, byte, expected) in &DAMAGES {
        let mut line = LINE;
        if let Some(changed) = line.get_mut(*place) {
            *changed = *byte;
        }
        assert!(rt;
            is_read(&rt, rt.alloc(), &line) == *expected,
            "byte {place}"
        );
    }
    // No directory formats, and 2 to the power of 63 directories.
    let mut line = LINE;
    line[30..41].copy_from_slice(b"\0\x80\x80\x80\x80\x80\x80\x80\x80\x80\x01");
    assert!(rt; !is_read(&rt, rt.alloc(), &line));
}

/// The first byte of the first file's path, and its directory's index.
type First = (Option<u8>, Option<u64>);

fn first_of(said: Said<'_>) -> First {
    match said.0 {
        Some(path) => (path.first().copied(), said.1),
        None => (None, said.1),
    }
}

/// What the table of these lists says of its first file, None where it can't be read or has none.
fn first_file(rt: &impl Abort, alloc: Global, lists: &[&[u8]]) -> Option<First> {
    let line = table(rt, alloc, lists);
    match table_said(rt, alloc, line.as_slice(), 0, Order::Little) {
        Some(told) => told.files[0].map(first_of),
        None => None,
    }
}

/// The file a in the directory of index 0.
const AT_0: Option<First> = Some((Some(b'a'), Some(0)));

// DWARF 5, section 6.2.4.1, and this project's rules: no directories, and one file of these fields.
static FIELDS: [(&[u8], Option<First>); 17] = [
    (b"\x01\x01\x08\x01a\0", AT_0),
    (b"\x02\x01\x08\x01\x08\x01a\0b\0", AT_0),
    (b"\x02\x01\x08\x01\x0b\x01a\0b", AT_0),
    (b"\x02\x01\x0b\x01\x08\x01ba\0", None),
    (b"\x02\x01\x08\x01\x16\x01a\0\x0bb", None),
    (b"\x02\x01\x08\x02\x16\x01a\0\x0b\x01", None),
    (b"\x02\x01\x08\x02\x21\x01a\0", None),
    (b"\x01\x01\x02\x01a\0", None),
    (b"\x01\x02\x0f\x01\x01", None),
    (b"\x02\x01\x08\x02\x0d\x01a\0\x05", Some((Some(b'a'), None))),
    (
        b"\x03\x01\x08\x02\x0d\x02\x0f\x01a\0\x05\x06",
        Some((Some(b'a'), None)),
    ),
    (
        b"\x03\x02\x0f\x01\x08\x02\x0f\x01\x05a\0\x06",
        Some((Some(b'a'), Some(5))),
    ),
    (
        b"\x02\x01\x08\x02\x05\x01a\0\x00\xff",
        Some((Some(b'a'), Some(0xff00))),
    ),
    (b"\x02\x01\x08\x05\x1e\x01a\0................", AT_0),
    (b"\x02\x01\x08\x03\x01\x01a\0....", AT_0),
    (b"\x01\x01\x1f\x01\x16\0\0\0", Some((None, Some(0)))),
    (b"\x01\x01\x1d\x01\0\0\0\0", Some((None, Some(0)))),
];

#[test]
fn the_first_field_of_a_content_type_counts(rt: HostRuntime) {
    for (fields, expected) in &FIELDS {
        let first = first_file(&rt, rt.alloc(), &[b"\0\0", fields]);
        assert!(rt; first == *expected, "{fields:?}");
    }
}

/// How many files the table of these lists has, None where it can't be read.
fn count_of_files(rt: &impl Abort, alloc: Global, lists: &[&[u8]]) -> Option<usize> {
    let line = table(rt, alloc, lists);
    match table_said(rt, alloc, line.as_slice(), 0, Order::Little) {
        Some(told) => Some(told.counts.1),
        None => None,
    }
}

// An entry of one empty text takes one byte; the table has 100 of them.
static COUNTS: [(&[u8], Option<usize>); 5] = [
    (b"\0", Some(0)),
    (b"\x63", Some(99)),
    (b"\x64", Some(100)),
    (b"\x65", None),
    (b"\xff\xff\xff\xff\xff\xff\xff\xff\xff\x01", None),
];

#[test]
fn a_count_is_of_entries_that_stand_there(rt: HostRuntime) {
    for (count, expected) in &COUNTS {
        let lists: [&[u8]; 3] = [b"\0\0\x01\x01\x08", count, &[0; 100]];
        let found = count_of_files(&rt, rt.alloc(), &lists);
        assert!(rt; found == *expected, "{count:?}");
    }
}

// In a list of no entries no form refuses; the numbers of its formats are read all the same.
static WITHOUT_ENTRIES: [(&[u8], bool); 7] = [
    (b"\0\0\0\0", true),
    (b"\x02\x01\x16\x02\x21\0\x01\x01\x02\0", true),
    (b"\x01\x02\x0b\0\0\0", true),
    (b"\x01\x01", false),
    (b"\0\0\0", false),
    (
        b"\x01\xff\xff\xff\xff\xff\xff\xff\xff\xff\x02\x08\0\0\0",
        false,
    ),
    (b"\0\xff\xff\xff\xff\xff\xff\xff\xff\xff\x02\0\0", false),
];

#[test]
fn a_list_without_entries_has_any_forms(rt: HostRuntime) {
    for (lists, expected) in &WITHOUT_ENTRIES {
        let found = count_of_files(&rt, rt.alloc(), &[lists]);
        assert!(rt; found.is_some() == *expected, "{lists:?}");
    }
}

/// A table of the 64-bit format behind three other bytes: its length 35, header length 23, one
/// directory by strx1, one file by line_strp.
static WIDE: &[u8] = b"xyz\xff\xff\xff\xff\x23\0\0\0\0\0\0\0\x05\0\x08\0\x17\0\0\0\0\0\0\0\
    \x01\x01\x01\xfb\x0e\x01\x01\x01\x25\x01\x01\x01\x01\x1f\x01\x06\0\0\0\0\0\0\0";

/// A table whose numbers have the most significant byte first: one directory by strp, one file by
/// line_strp and data2.
static BIG: &[u8] = b"xyz\0\0\0\x22\0\x05\x08\0\0\0\0\x1a\x01\x01\x01\xfb\x0e\x01\
    \x01\x01\x0e\x01\0\0\0\x01\x02\x01\x1f\x02\x05\x01\0\0\0\x02\x01\x02";

/// What a table of one directory and one file says.
fn of_one<'a>(folder: &'a [u8], file: Said<'a>) -> Told<'a> {
    Told {
        counts: (1, 1),
        dirs: [Some(Some(folder)), None],
        files: [Some(file), None],
    }
}

/// Checks that the table behind three bytes says this, and that none begins a byte on or past the
/// end.
fn stands_at_3(rt: &impl Abort, alloc: Global, line: &[u8], order: Order, expected: Told<'_>) {
    assert!(rt; table_said(rt, alloc, line, 3, order) == Some(expected));
    assert!(rt; table_said(rt, alloc, line, 4, order).is_none());
    assert!(rt; table_said(rt, alloc, line, u64::MAX, order).is_none());
}

#[test]
fn a_table_has_a_format_and_an_order(rt: HostRuntime) {
    let wide = of_one(b"/w", (Some(b"main.c"), Some(0)));
    stands_at_3(&rt, rt.alloc(), WIDE, Order::Little, wide);
    let big = of_one(b"w", (Some(b"inc"), Some(0x102)));
    stands_at_3(&rt, rt.alloc(), BIG, Order::Big, big);
}

// DWARF 5, section 7.5.6, table 7.6: the forms of class string, strx and strx1 to strx4 by indexes. The
// first list has the form or the second one, and no entries.
static INDEXED: [(&[u8], bool); 8] = [
    (b"\x01\x01\x08\0\0\0", false),
    (b"\x01\x01\x1f\0\x01\x01\x0e\0", false),
    (b"\x01\x01\x1a\0\0\0", true),
    (b"\0\0\x01\x01\x1a\0", true),
    (b"\0\0\x02\x02\x0b\x01\x25\0", true),
    (b"\0\0\x01\x01\x26\0", true),
    (b"\0\0\x01\x01\x27\0", true),
    (b"\0\0\x01\x01\x28\0", true),
];

#[test]
fn a_table_tells_whether_it_has_indexes(rt: HostRuntime) {
    for (lists, expected) in &INDEXED {
        assert!(rt;
            has_indexes(&rt, rt.alloc(), lists) == *expected,
            "{lists:?}"
        );
    }
}
