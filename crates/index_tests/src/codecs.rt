//! What no clause says: that memory suffices, and that the numbers of the format are those of its
//! table.

use row_codec::{CodecFault, read_row, write_row};
use row_types::{EDITION, Name, Reading, Row, Stamp, Why};
use sample_rows::{elf, path, row};
use std::alloc::Global;
use std::process::Abort;

/// The row bytes of `/a`, empty, changed at second 100, no ELF file, by the second edition.
static EXAMPLE: [u8; 29] = [
    2, 2, 0, 0, 0, 0x2f, 0x61, 0, 0, 0, 0, 0, 0, 0, 0, 0x64, 0, 0, 0, 0, 0, 0, 0, 0, 0, 0, 0, 0, 1,
];

/// What Python's `struct` packs, by the format's table, of `/b`, 258 bytes, changed 3 nanoseconds
/// after the second before 1970, with code and debug information, the id `abcd` and the sources `/s`
/// and `/t`.
static WITH_IDENTITY: [u8; 48] = [
    2, 2, 0, 0, 0, 0x2f, 0x62, 2, 1, 0, 0, 0, 0, 0, 0, 0xff, 0xff, 0xff, 0xff, 0xff, 0xff, 0xff,
    0xff, 3, 0, 0, 0, 1, 3, 2, 0xab, 0xcd, 2, 0, 0, 0, 2, 0, 0, 0, 0x2f, 0x73, 2, 0, 0, 0, 0x2f,
    0x74,
];

/// The row bytes of `/a`, empty, changed at second 100, which has no identity for this reason.
fn plain_bytes(rt: &impl Abort, alloc: Global, why: Why) -> Vec<u8> {
    let row = row(alloc, "/a", 0, Reading::Plain(why)).expect(rt, "a row");
    write_row(alloc, row.row()).expect(rt, "memory")
}

/// The numbers of the reasons, which are those of the format's table.
static REASONS: [(Why, u8); 6] = [
    (Why::NotElf, 1),
    (Why::BadElf, 2),
    (Why::NoSections, 3),
    (Why::Core, 4),
    (Why::NoBuildId, 5),
    (Why::TooLarge, 6),
];

// The first is the example.
#[test]
fn a_small_row_has_the_bytes_of_the_format_and_the_number_of_its_reason(rt: HostRuntime) {
    for (why, number) in &REASONS {
        let bytes = plain_bytes(&rt, rt.alloc(), *why);
        assert!(rt; bytes.len() == 29, "{number}");
        assert!(rt; bytes.as_slice().starts_with(&EXAMPLE[..28]), "{number}");
        assert!(rt; bytes.as_slice().last() == Some(number), "{number}");
    }
}

/// The row whose bytes stand in `WITH_IDENTITY`.
fn with_identity(rt: &impl Abort, alloc: Global) -> Row {
    let name = Name {
        path: path(alloc, "/b").expect(rt, "a path"),
        stamp: Stamp::new(258, -1, 3).expect(rt, "a stamp"),
    };
    let reading = elf(alloc, &[0xab, 0xcd], true, true, &["/s", "/t"]).expect(rt, "a reading");
    Row::new(name, EDITION, reading)
}

#[test]
fn an_identity_and_its_sources_stand_behind_their_tag(rt: HostRuntime) {
    let row = with_identity(&rt, rt.alloc());
    let bytes = write_row(rt.alloc(), &row).expect(&rt, "memory");
    assert!(rt; bytes.as_slice() == WITH_IDENTITY.as_slice());
}

/// The row of these bytes.
fn row_of(rt: &impl Abort, alloc: Global, bytes: &[u8]) -> Row {
    read_row(alloc, bytes).expect(rt, "row bytes")
}

/// The bytes of the row that these bytes are read as.
fn written_again(rt: &impl Abort, alloc: Global, bytes: &[u8]) -> Vec<u8> {
    let row = row_of(rt, alloc, bytes);
    write_row(alloc, &row).expect(rt, "memory")
}

#[test]
fn what_was_written_is_read(rt: HostRuntime) {
    for bytes in [EXAMPLE.as_slice(), WITH_IDENTITY.as_slice()] {
        let again = written_again(&rt, rt.alloc(), bytes);
        assert!(rt; again.as_slice() == bytes);
    }
}

/// The bytes with another byte at a place, or with that byte behind them.
fn changed(rt: &impl Abort, alloc: Global, bytes: &[u8], at: usize, byte: u8) -> Vec<u8> {
    let mut changed = Vec::from_slice(alloc, bytes).expect(rt, "memory");
    if at < changed.len() {
        changed[at] = byte;
    } else {
        changed.push(byte).expect(rt, "memory");
    }
    changed
}

/// A change of row bytes: the place, the byte that stands there instead, and the fault of the
/// changed bytes.
type Damage = (usize, u8, CodecFault);

// Places in both: 0 the edition, 1 the path's length, 5 the path, 23 the nanoseconds, 27 the tag; in
// the first 28 the reason; in the second 28 the flags, 29 the id's length, 36 the first source's
// length and 40 that source, 46 the second one. Each source stands behind the one before it, and a
// text that is none is told first.

/// Changes of `EXAMPLE`.
static IN_EXAMPLE: [Damage; 11] = [
    (0, 0, CodecFault::BadTag),
    (2, 1, CodecFault::Short),
    (5, 0x78, CodecFault::BadText),
    (6, 0x2e, CodecFault::BadText),
    (6, 0xff, CodecFault::BadText),
    (26, 0x3c, CodecFault::BadTag),
    (27, 2, CodecFault::BadTag),
    (28, 0, CodecFault::BadTag),
    (28, 7, CodecFault::BadTag),
    (28, 9, CodecFault::BadTag),
    (29, 0, CodecFault::Trailing),
];

/// Changes of `WITH_IDENTITY`.
static IN_IDENTITY: [Damage; 11] = [
    (28, 4, CodecFault::BadTag),
    (29, 1, CodecFault::BadTag),
    (29, 65, CodecFault::BadTag),
    (29, 64, CodecFault::Short),
    (37, 1, CodecFault::Short),
    (40, 0x78, CodecFault::BadText),
    (41, 0xff, CodecFault::BadText),
    (41, 0x74, CodecFault::BadOrder),
    (46, 0x2e, CodecFault::BadText),
    (47, 0x72, CodecFault::BadOrder),
    (48, 0, CodecFault::Trailing),
];

/// Makes each change alone, and compares the fault.
fn compare(rt: &impl Abort, alloc: Global, bytes: &[u8], changes: &[Damage]) {
    for (at, byte, fault) in changes {
        let bytes = changed(rt, alloc, bytes, *at, *byte);
        let found = read_row(alloc, bytes.as_slice()).err();
        assert!(rt; found == Some(*fault), "{at} {byte}");
    }
}

#[test]
fn each_part_has_its_fault(rt: HostRuntime) {
    let cut = read_row(rt.alloc(), &EXAMPLE[..28]).err();
    assert!(rt; cut == Some(CodecFault::Short));
    compare(&rt, rt.alloc(), EXAMPLE.as_slice(), IN_EXAMPLE.as_slice());
    compare(
        &rt,
        rt.alloc(),
        WITH_IDENTITY.as_slice(),
        IN_IDENTITY.as_slice(),
    );
}
