//! Whether the clauses say what the standards mean.

use byte_read::{Cursor, Fault, Order};

// DWARF 5, section 7.6, table 7.7.
static UNSIGNED: [(&[u8], u64); 5] = [
    (&[2], 2),
    (&[127], 127),
    (&[0x80, 1], 128),
    (&[1 + 0x80, 1], 129),
    (&[57 + 0x80, 100], 12857),
];

#[test]
fn unsigned_numbers_are_the_standards_examples(rt: HostRuntime) {
    for (bytes, number) in &UNSIGNED {
        let mut cursor = Cursor::new(bytes, Order::Little);
        assert!(rt; cursor.uleb() == Ok(*number), "{number}");
        assert!(rt; cursor.at() == bytes.len(), "after {number}");
    }
}

// DWARF 5, section 7.6, table 7.8.
static SIGNED: [(&[u8], i64); 8] = [
    (&[2], 2),
    (&[0x7e], -2),
    (&[127 + 0x80, 0], 127),
    (&[1 + 0x80, 0x7f], -127),
    (&[0x80, 1], 128),
    (&[0x80, 0x7f], -128),
    (&[1 + 0x80, 1], 129),
    (&[0x7f + 0x80, 0x7e], -129),
];

#[test]
fn signed_numbers_are_the_standards_examples(rt: HostRuntime) {
    for (bytes, number) in &SIGNED {
        let mut cursor = Cursor::new(bytes, Order::Little);
        assert!(rt; cursor.sleb() == Ok(*number), "{number}");
        assert!(rt; cursor.at() == bytes.len(), "after {number}");
    }
}

/// Ten bytes whose value no 64 bits hold without a sign.
const WIDE: &[u8] = b"\xff\xff\xff\xff\xff\xff\xff\xff\xff\x7f";

static LENGTHS: [(&[u8], Result<u64, Fault>); 4] = [
    (&[0x81, 0x40], Ok(8193)),
    (WIDE, Err(Fault::Wide { at: 0 })),
    (&[0x80], Err(Fault::Short { at: 0 })),
    (&[0x80, 0x80, 0x00], Ok(0)),
];

#[test]
fn a_number_has_any_length_that_ends(rt: HostRuntime) {
    for (bytes, answer) in &LENGTHS {
        assert!(rt;
            Cursor::new(bytes, Order::Big).uleb() == *answer,
            "{bytes:?}"
        );
    }
    assert!(rt; Cursor::new(WIDE, Order::Big).sleb() == Ok(-1));
}

// ELF gABI, chapter 4, "Data Representation": the most significant byte comes first.
#[test]
fn each_read_in_big_order_goes_on_behind_the_one_before(rt: HostRuntime) {
    let bytes = b"\x01\x02\x03\x04\x05\x06\x07\x08\x09\x0a\x0b\x0c\x0d\x0e\x0f\x10\x11\x12";
    let mut cursor = Cursor::new(bytes, Order::Big);
    assert!(rt; cursor.read_u8() == Ok(0x01));
    assert!(rt; cursor.read_u16() == Ok(0x0203));
    assert!(rt; cursor.read_u24() == Ok(0x04_0506));
    assert!(rt; cursor.read_u32() == Ok(0x0708_090a));
    assert!(rt; cursor.read_u64() == Ok(0x0b0c_0d0e_0f10_1112));
    assert!(rt; cursor.read_u8() == Err(Fault::Short { at: 18 }));
}

// The same section: the least significant byte comes first.
#[test]
fn numbers_in_little_order_begin_with_their_low_byte(rt: HostRuntime) {
    let bytes = b"\x02\x03\x04\x05\x06\x07\x08\x09\x0a\x0b\x0c\x0d\x0e\x0f\x10\x11\x12";
    let mut cursor = Cursor::new(bytes, Order::Little);
    assert!(rt; cursor.read_u16() == Ok(0x0302));
    assert!(rt; cursor.read_u24() == Ok(0x06_0504));
    assert!(rt; cursor.read_u32() == Ok(0x0a09_0807));
    assert!(rt; cursor.read_u64() == Ok(0x1211_100f_0e0d_0c0b));
}

#[test]
fn a_text_ends_before_its_zero(rt: HostRuntime) {
    let mut cursor = Cursor::new(b"text\0rest", Order::Little);
    assert!(rt; cursor.cstr() == Ok(b"text".as_slice()));
    assert!(rt; cursor.rest() == b"rest".as_slice());
    assert!(rt; cursor.take(u64::MAX) == Err(Fault::Short { at: 5 }));
    assert!(rt; cursor.take(4) == Ok(b"rest".as_slice()));
}
