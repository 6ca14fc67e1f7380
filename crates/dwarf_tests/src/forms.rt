//! Whether the clauses say what the standard means.

use byte_read::{Cursor, Order};
use dwarf_forms::{FormFault, RawValue, Sense, Strings, Value, piece_at, read_form};

/// Texts of a small file: .debug_str_offsets has 8 bytes of head, and its places are 4 and 0.
fn strings(base: Option<u64>, wide: bool) -> Strings<'static> {
    Strings {
        str: b"one\0two\0end",
        line_str: b"a.c\0",
        offsets: b"\x14\0\0\0\x05\0\0\0\x04\0\0\0\0\0\0\0",
        base,
        wide,
        order: Order::Little,
    }
}

/// What a value says, a text by its bytes.
#[derive(Clone, Copy, PartialEq, Eq)]
enum Told<'a> {
    Number(u64),
    Text(Option<&'a [u8]>),
    Other,
}

fn value_told(value: Value<'_>) -> Told<'_> {
    match value {
        Value::Number(number) => Told::Number(number),
        Value::Text(Some(text)) => Told::Text(text.within(8)),
        Value::Text(None) => Told::Text(None),
        Value::Other => Told::Other,
    }
}

/// What the value of a form says that these bytes spell.
fn said<'a>(
    form: u64,
    bytes: &'a [u8],
    order: Order,
    constant: Option<i64>,
    base: Option<u64>,
) -> Result<Told<'a>, FormFault> {
    let mut cursor = Cursor::new(bytes, order);
    let value = read_form(&mut cursor, form, constant, 8, 5, &strings(base, false))?;
    Ok(value_told(value))
}

/// How many bytes the value of a form takes in BYTES, None where it can't be read.
fn size_of(form: u64, wide: bool) -> Option<usize> {
    let mut cursor = Cursor::new(BYTES, Order::Little);
    match read_form(&mut cursor, form, None, 8, 5, &strings(None, wide)) {
        Ok(_) => Some(cursor.at()),
        Err(_) => None,
    }
}

// DWARF 5, section 7.5.6, table 7.6, and section 7.5.5: a form, and how many bytes the value takes
// that begins with a byte 3 and goes on with bytes 0, in the 32-bit and in the 64-bit format.
static SIZES: [(u64, usize, usize); 41] = [
    (0x01, 8, 8),
    (0x03, 5, 5),
    (0x04, 7, 7),
    (0x05, 2, 2),
    (0x06, 4, 4),
    (0x07, 8, 8),
    (0x08, 2, 2),
    (0x09, 4, 4),
    (0x0a, 4, 4),
    (0x0b, 1, 1),
    (0x0c, 1, 1),
    (0x0d, 1, 1),
    (0x0e, 4, 8),
    (0x0f, 1, 1),
    (0x10, 4, 8),
    (0x11, 1, 1),
    (0x12, 2, 2),
    (0x13, 4, 4),
    (0x14, 8, 8),
    (0x15, 1, 1),
    (0x17, 4, 8),
    (0x18, 4, 4),
    (0x19, 0, 0),
    (0x1a, 1, 1),
    (0x1b, 1, 1),
    (0x1c, 4, 4),
    (0x1d, 4, 8),
    (0x1e, 16, 16),
    (0x1f, 4, 8),
    (0x20, 8, 8),
    (0x22, 1, 1),
    (0x23, 1, 1),
    (0x24, 8, 8),
    (0x25, 1, 1),
    (0x26, 2, 2),
    (0x27, 3, 3),
    (0x28, 4, 4),
    (0x29, 1, 1),
    (0x2a, 2, 2),
    (0x2b, 3, 3),
    (0x2c, 4, 4),
];

static BYTES: &[u8] = b"\x03\0\0\0\0\0\0\0\0\0\0\0\0\0\0\0\0";

#[test]
fn each_form_takes_its_bytes(rt: HostRuntime) {
    for (form, narrow, wide) in &SIZES {
        assert!(rt; size_of(*form, false) == Some(*narrow), "form {form}");
        assert!(rt; size_of(*form, true) == Some(*wide), "wide form {form}");
    }
}

/// How many bytes a value of form ref_addr takes.
fn size_of_reference(version: u16, address_size: u8, wide: bool) -> Option<usize> {
    let mut cursor = Cursor::new(BYTES, Order::Little);
    match read_form(
        &mut cursor,
        0x10,
        None,
        address_size,
        version,
        &strings(None, wide),
    ) {
        Ok(_) => Some(cursor.at()),
        Err(_) => None,
    }
}

// DWARF 2, section 7.5.4: the size of an address. DWARF 3 to 5, the same section: 4 bytes in the 32-bit
// format and 8 in the 64-bit one. The version, the size of an address, the format, and the size.
static REFERENCES: [(u16, u8, bool, usize); 9] = [
    (2, 8, false, 8),
    (2, 4, false, 4),
    (2, 4, true, 4),
    (2, 1, true, 1),
    (3, 8, false, 4),
    (3, 4, true, 8),
    (4, 8, false, 4),
    (4, 4, true, 8),
    (5, 8, false, 4),
];

#[test]
fn a_reference_has_an_address_size_in_version_2_alone(rt: HostRuntime) {
    for &(version, address_size, wide, size) in &REFERENCES {
        let found = size_of_reference(version, address_size, wide);
        assert!(rt; found == Some(size), "version {version}");
    }
}

/// What BYTES say in a form.
fn bytes_said(form: u64) -> Result<Told<'static>, FormFault> {
    said(form, BYTES, Order::Little, None, None)
}

// data1, data2, data4, data8, udata and sec_offset; sdata, flag, ref4 and addrx are no numbers.
static NUMBERS: [u64; 6] = [0x0b, 0x05, 0x06, 0x07, 0x0f, 0x17];

static NO_NUMBERS: [u64; 4] = [0x0d, 0x0c, 0x13, 0x1b];

#[test]
fn six_forms_give_numbers(rt: HostRuntime) {
    for form in &NUMBERS {
        assert!(rt; bytes_said(*form) == Ok(Told::Number(3)), "form {form}");
    }
    for form in &NO_NUMBERS {
        assert!(rt; bytes_said(*form) == Ok(Told::Other), "form {form}");
    }
}

/// A form, the value's bytes, the place of the texts' numbers, and the text.
type TextCase = (u64, &'static [u8], Option<u64>, Option<&'static [u8]>);

static TEXTS: [TextCase; 11] = [
    (0x08, b"in\0", None, Some(b"in")),
    (0x0e, b"\x04\0\0\0", None, Some(b"two")),
    (0x1f, b"\x02\0\0\0", None, Some(b"c")),
    (0x1d, b"\0\0\0\0", None, None),
    (0x1a, b"\0", Some(8), Some(b"two")),
    (0x25, b"\x01", Some(8), Some(b"one")),
    (0x25, b"\x01", None, None),
    (0x25, b"\x02", Some(8), None),
    (0x25, b"\x01", Some(0xffff_ffff_ffff_fffc), None),
    (0x0e, b"\x08\0\0\0", None, None),
    (0x0e, b"\x0b\0\0\0", None, None),
];

#[test]
fn texts_are_there_or_absent(rt: HostRuntime) {
    for (form, bytes, base, text) in &TEXTS {
        let told = said(*form, bytes, Order::Little, None, *base);
        assert!(rt; told == Ok(Told::Text(*text)), "form {form}");
    }
}

// A text is given where it has no more bytes than are asked for, whether the section ends with a 0
// or not: the section, the text's place, how many bytes are asked for, and what is given.
static LIMITS: [(&[u8], u64, usize, Option<&[u8]>); 9] = [
    (b"abc\0de\0", 0, 2, None),
    (b"abc\0de\0", 0, 3, Some(b"abc")),
    (b"abc\0de\0", 1, usize::MAX, Some(b"bc")),
    (b"abc\0de\0", 3, 0, Some(b"")),
    (b"abc\0de\0", 4, 1, None),
    (b"abc\0de", 0, 2, None),
    (b"abc\0de", 0, 3, Some(b"abc")),
    (b"abc\0de", 3, 0, Some(b"")),
    (b"abc\0de", 4, 9, None),
];

/// The text of at most so many bytes at a place of a section.
fn text_within(str: &[u8], place: u64, limit: usize) -> Option<&[u8]> {
    let strings = Strings {
        str,
        ..strings(None, false)
    };
    match strings.value(RawValue::Numbered(Sense::Str, place)) {
        Value::Text(Some(text)) => text.within(limit),
        _ => None,
    }
}

#[test]
fn a_text_has_so_many_bytes_at_most(rt: HostRuntime) {
    for (str, place, limit, expected) in &LIMITS {
        let found = text_within(str, *place, *limit);
        assert!(rt; found == *expected, "place {place}, limit {limit}");
    }
}

/// A form, the value's bytes, the abbreviation's constant, and what the value says.
type ChainCase = (
    u64,
    &'static [u8],
    Option<i64>,
    Result<Told<'static>, FormFault>,
);

// Indirect forms lead through one another; implicit_const has its constant from the abbreviation.
static CHAINS: [ChainCase; 10] = [
    (0x16, b"\x0b\x07", None, Ok(Told::Number(7))),
    (0x16, b"\x16\x16\x0f\x07", None, Ok(Told::Number(7))),
    (0x16, b"\x16\x16", None, Err(FormFault::Short)),
    (0x16, b"\x21", Some(1), Err(FormFault::UnknownForm(0x21))),
    (0x16, b"\x02", None, Err(FormFault::UnknownForm(2))),
    (0x21, b"", Some(-1), Ok(Told::Other)),
    (0x21, b"\0", None, Err(FormFault::UnknownForm(0x21))),
    (
        0x1f20,
        b"\0\0\0\0",
        None,
        Err(FormFault::UnknownForm(0x1f20)),
    ),
    (0x09, b"\x03\0\0", None, Err(FormFault::Short)),
    (
        0x0f,
        b"\x80\x80\x80\x80\x80\x80\x80\x80\x80\x02",
        None,
        Err(FormFault::Wide),
    ),
];

#[test]
fn a_chain_of_indirect_forms_leads_to_one(rt: HostRuntime) {
    for (form, bytes, constant, answer) in &CHAINS {
        let told = said(*form, bytes, Order::Big, *constant, None);
        assert!(rt; told == *answer, "form {form}");
    }
}

/// A piece's bytes, whether it is of the 64-bit format, and where the next one begins.
type Cut<'a> = (&'a [u8], bool, u64);

// DWARF 5, section 7.4: four bytes below 0xfffffff0, or 0xffffffff and eight bytes; section 7.2.2.
static LENGTHS: [(&[u8], Option<Cut<'static>>); 7] = [
    (b"\x02\0\0\0abc", Some((b"ab", false, 6))),
    (b"\0\0\0\0", Some((b"", false, 4))),
    (
        b"\xff\xff\xff\xff\x01\0\0\0\0\0\0\0ab",
        Some((b"a", true, 13)),
    ),
    (b"\xf0\xff\xff\xffab", None),
    (b"\xfe\xff\xff\xffab", None),
    (b"\x03\0\0\0ab", None),
    (b"\x03\0\0", None),
];

/// The first piece of these bytes.
fn first_piece(bytes: &[u8]) -> Option<Cut<'_>> {
    let piece = piece_at(bytes, 0, Order::Little)?;
    Some((piece.bytes, piece.wide, piece.next))
}

#[test]
fn an_initial_length_is_narrow_or_wide(rt: HostRuntime) {
    for (bytes, answer) in &LENGTHS {
        assert!(rt; first_piece(bytes) == *answer, "{bytes:?}");
    }
}
