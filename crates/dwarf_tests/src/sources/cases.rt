//! Units and line tables, and the paths that they lead to.

use dwarf_forms::DebugParts;
use file_formats::Order;
use row_types::CanonPath;
use source_paths::sources;
use std::alloc::Global;
use std::process::Abort;

/// Code 1 has comp_dir by string and stmt_list by data4, code 2 has stmt_list alone.
pub static ABBREV: &[u8] = b"\x01\x11\0\x1b\x08\x10\x06\0\0\x02\x11\0\x10\x06\0\0\0";

/// Writes a part behind the others.
pub fn push(rt: &impl Abort, bytes: &mut Vec<u8>, part: &[u8]) {
    bytes.extend_from_slice(part).expect(rt, "memory");
}

/// A unit of this directory whose line table begins at 0.
pub fn push_unit(rt: &impl Abort, info: &mut Vec<u8>, directory: Option<&[u8]>) {
    let size = directory.map_or(0, |text| u32::try_from(text.len()).unwrap_or(0));
    let size = size.wrapping_add(if directory.is_some() { 14 } else { 13 });
    push(rt, info, &size.to_le_bytes());
    push(rt, info, b"\x05\0\x01\x08\0\0\0\0");
    match directory {
        Some(text) => {
            push(rt, info, b"\x01");
            push(rt, info, text);
            push(rt, info, b"\0");
        }
        None => push(rt, info, b"\x02"),
    }
    push(rt, info, &[0; 4]);
}

/// The lists of these directories and files, each with its directory's index.
pub fn lists_of(rt: &impl Abort, alloc: Global, dirs: &[&[u8]], files: &[(&[u8], u8)]) -> Vec<u8> {
    let mut lists = Vec::new(alloc);
    push(rt, &mut lists, b"\x01\x01\x08");
    push(rt, &mut lists, &[u8::try_from(dirs.len()).unwrap_or(0)]);
    for dir in dirs {
        push(rt, &mut lists, dir);
        push(rt, &mut lists, b"\0");
    }
    push(rt, &mut lists, b"\x02\x01\x08\x02\x0b");
    push(rt, &mut lists, &[u8::try_from(files.len()).unwrap_or(0)]);
    for (path, dir) in files {
        push(rt, &mut lists, path);
        push(rt, &mut lists, &[0, *dir]);
    }
    lists
}

/// A line table of these lists.
pub fn with_header(rt: &impl Abort, alloc: Global, lists: &[u8]) -> Vec<u8> {
    let size = u32::try_from(lists.len()).unwrap_or(0);
    let mut line = Vec::new(alloc);
    push(rt, &mut line, &size.wrapping_add(14).to_le_bytes());
    push(rt, &mut line, b"\x05\0\x04\0");
    push(rt, &mut line, &size.wrapping_add(6).to_le_bytes());
    push(rt, &mut line, b"\x01\x01\x01\xfb\x0e\x01");
    push(rt, &mut line, lists);
    line
}

/// Units of these directories, which all name this line table, whose texts stand in this section.
#[derive(Clone, Copy)]
pub struct Units<'a> {
    pub dirs: &'a [Option<&'a [u8]>],
    pub line: &'a [u8],
    pub line_str: &'a [u8],
}

/// Whether these are the texts of the paths.
fn are(paths: &[CanonPath], texts: &[&str]) -> bool {
    let mut texts = texts.iter();
    for path in paths {
        if texts.next().copied() != Some(path.text()) {
            return false;
        }
    }
    texts.next().is_none()
}

/// Checks that these are the paths of the sources.
pub fn lead_to(rt: &impl Abort, alloc: Global, what: &str, parts: &DebugParts<'_>, paths: &[&str]) {
    let found = sources(alloc, parts).expect(rt, "memory");
    assert!(rt; are(found.paths(), paths), "{what}");
}

/// Checks that these are the paths of the units' sources.
pub fn units_lead_to(
    rt: &impl Abort,
    alloc: Global,
    what: &str,
    units: &Units<'_>,
    paths: &[&str],
) {
    let mut info = Vec::new(alloc);
    for directory in units.dirs {
        push_unit(rt, &mut info, *directory);
    }
    let parts = DebugParts {
        info: info.as_slice(),
        abbrev: ABBREV,
        line: units.line,
        str: &[],
        line_str: units.line_str,
        str_offsets: &[],
        order: Order::Little,
    };
    lead_to(rt, alloc, what, &parts, paths);
}

/// Units of these directories, whose line table has these directories and files, and the paths of
/// their sources.
#[derive(Clone, Copy)]
pub struct Case<'a> {
    pub what: &'a str,
    pub units: &'a [Option<&'a [u8]>],
    pub dirs: &'a [&'a [u8]],
    pub files: &'a [(&'a [u8], u8)],
    pub paths: &'a [&'a str],
}

/// Checks that the paths are those of the sources.
pub fn holds(rt: &impl Abort, alloc: Global, case: &Case<'_>) {
    let lists = lists_of(rt, alloc, case.dirs, case.files);
    let line = with_header(rt, alloc, lists.as_slice());
    let units = Units {
        dirs: case.units,
        line: line.as_slice(),
        line_str: &[],
    };
    units_lead_to(rt, alloc, case.what, &units, case.paths);
}
