//! Line tables, and what is read from them.

use byte_read::Order;
use dwarf_forms::{Strings, Text};
use dwarf_lines::{LineTable, line_table, read_table};
use std::alloc::Global;
use std::process::Abort;

/// The texts of a file's units: text 1 by 4 bytes is w, and by 8 bytes /w.
fn strings(order: Order) -> Strings<'static> {
    Strings {
        str: b"/w\0",
        line_str: b".\0inc\0main.c\0util.h\0end",
        offsets: b"\x14\0\0\0\x05\0\0\0\x01\0\0\0\x01\0\0\0\0\0\0\0\0\0\0\0",
        base: Some(8),
        wide: false,
        order,
    }
}

/// A table of these lists, of the 32-bit format, with addresses of 4 bytes and no opcodes.
pub fn table(rt: &impl Abort, alloc: Global, lists: &[&[u8]]) -> Vec<u8> {
    let mut size: u32 = 0;
    for part in lists {
        size = size.wrapping_add(u32::try_from(part.len()).unwrap_or(0));
    }
    let mut bytes = Vec::new(alloc);
    push(rt, &mut bytes, &size.wrapping_add(14).to_le_bytes());
    push(rt, &mut bytes, b"\x05\0\x04\0");
    push(rt, &mut bytes, &size.wrapping_add(6).to_le_bytes());
    push(rt, &mut bytes, b"\x01\x01\x01\xfb\x0e\x01");
    for part in lists {
        push(rt, &mut bytes, part);
    }
    bytes
}

/// A table of a version from 2 to 4 with these lists, of the 32-bit format and without opcodes.
pub fn older_table(rt: &impl Abort, alloc: Global, version: u8, lists: &[u8]) -> Vec<u8> {
    let parameters: &[u8] = if version < 4 {
        b"\x01\x01\xfb\x0e\x01"
    } else {
        b"\x01\x01\x01\xfb\x0e\x01"
    };
    let size = u32::try_from(parameters.len() + lists.len()).unwrap_or(0);
    let mut bytes = Vec::new(alloc);
    push(rt, &mut bytes, &size.wrapping_add(6).to_le_bytes());
    push(rt, &mut bytes, &[version, 0]);
    push(rt, &mut bytes, &size.to_le_bytes());
    push(rt, &mut bytes, parameters);
    push(rt, &mut bytes, lists);
    bytes
}

/// Writes a part behind the others.
fn push(rt: &impl Abort, bytes: &mut Vec<u8>, part: &[u8]) {
    bytes.extend_from_slice(part).expect(rt, "memory");
}

/// What a file says: its path, and its directory's index.
pub type Said<'a> = (Option<&'a [u8]>, Option<u64>);

/// What a table says: its numbers of directories and of files, and the first two of each.
#[derive(Clone, Copy, PartialEq, Eq)]
pub struct Told<'a> {
    pub counts: (usize, usize),
    pub dirs: [Option<Option<&'a [u8]>>; 2],
    pub files: [Option<Said<'a>>; 2],
}

/// A text of no more than 8 bytes.
fn words(text: Option<Text<'_>>) -> Option<&[u8]> {
    match text {
        Some(text) => text.within(8),
        None => None,
    }
}

/// What a table's directory of an index says.
fn dir<'a>(table: &LineTable<'a>, index: usize) -> Option<Option<&'a [u8]>> {
    Some(words(*table.dirs.get(index)?))
}

/// What a table's file of an index says.
fn file<'a>(table: &LineTable<'a>, index: usize) -> Option<Said<'a>> {
    let file = table.files.get(index)?;
    Some((words(file.path), file.dir))
}

/// What the table at a place says, None where it can't be read.
pub fn table_said<'a>(
    rt: &impl Abort,
    alloc: Global,
    line: &'a [u8],
    place: u64,
    order: Order,
) -> Option<Told<'a>> {
    match line_table(alloc, line, place, &strings(order)).expect(rt, "memory") {
        Some(table) => Some(Told {
            counts: (table.dirs.len(), table.files.len()),
            dirs: [dir(&table, 0), dir(&table, 1)],
            files: [file(&table, 0), file(&table, 1)],
        }),
        None => None,
    }
}

/// Whether the table may be another one for another place in .debug_str_offsets.
pub fn is_indexed(rt: &impl Abort, alloc: Global, line: &[u8]) -> bool {
    read_table(alloc, line, 0, &strings(Order::Little))
        .expect(rt, "memory")
        .indexed
}

/// Whether a form in the table of these lists names texts by indexes.
pub fn has_indexes(rt: &impl Abort, alloc: Global, lists: &[u8]) -> bool {
    let line = table(rt, alloc, &[lists]);
    is_indexed(rt, alloc, line.as_slice())
}
