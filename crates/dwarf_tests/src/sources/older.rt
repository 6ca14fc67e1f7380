//! Units and line tables of versions 2 to 4, and the paths that they lead to.

use super::cases::{ABBREV, Case, lead_to, lists_of, push, push_unit, with_header};
use super::changed;
use crate::line_tables::tables::older_table;
use dwarf_forms::DebugParts;
use elf_classify::debug_parts;
use file_formats::Order;
use sample_files::dwarf_four;
use std::alloc::Global;
use std::process::Abort;

// The directories and files by which the sample was made: /w/src and inc; main.c in the unit's directory
// and util.h in inc. Then a header that ends a byte before its lists.
#[test]
fn the_sample_with_dwarf_4_has_two_sources(rt: HostRuntime) {
    let alloc = rt.alloc();
    let file = dwarf_four(alloc).expect(&rt, "memory");
    let parts = debug_parts(file.as_slice()).expect(&rt, "debug sections");
    let paths = ["/w/src/inc/util.h", "/w/src/main.c"];
    lead_to(&rt, alloc, "whole", &parts, &paths);
    assert!(rt; parts.line.get(6) == Some(&44));
    let line = changed(&rt, alloc, parts.line, 6, &[43]);
    let damaged = DebugParts {
        line: line.as_slice(),
        ..parts
    };
    lead_to(&rt, alloc, "header_length 43", &damaged, &[]);
}

/// A unit of version 4 of this directory whose line table begins at 0.
fn push_older_unit(rt: &impl Abort, info: &mut Vec<u8>, directory: Option<&[u8]>) {
    let size = directory.map_or(0, |text| u32::try_from(text.len()).unwrap_or(0));
    let size = size.wrapping_add(if directory.is_some() { 13 } else { 12 });
    push(rt, info, &size.to_le_bytes());
    push(rt, info, b"\x04\0\0\0\0\0\x08");
    match directory {
        Some(text) => {
            push(rt, info, b"\x01");
            push(rt, info, text);
            push(rt, info, b"\0");
        }
        None => push(rt, info, b"\x02"),
    }
    push(rt, info, &[0; 4]);
}

/// The lists of versions 2 to 4 of these directories and files, each with its directory's index.
fn older_lists(rt: &impl Abort, alloc: Global, dirs: &[&[u8]], files: &[(&[u8], u8)]) -> Vec<u8> {
    let mut lists = Vec::new(alloc);
    for dir in dirs {
        push(rt, &mut lists, dir);
        push(rt, &mut lists, b"\0");
    }
    push(rt, &mut lists, b"\0");
    for (path, dir) in files {
        push(rt, &mut lists, path);
        push(rt, &mut lists, &[0, *dir, 0, 0]);
    }
    push(rt, &mut lists, b"\0");
    lists
}

/// Checks that these are the paths of units over a line table.
fn these_lead_to(rt: &impl Abort, alloc: Global, what: &str, sections: [&[u8]; 2], paths: &[&str]) {
    let [info, line] = sections;
    let parts = DebugParts {
        info,
        abbrev: ABBREV,
        line,
        str: &[],
        line_str: &[],
        str_offsets: &[],
        order: Order::Little,
    };
    lead_to(rt, alloc, what, &parts, paths);
}

/// Checks that the paths are those of the sources, in units and a line table of this version.
fn holds(rt: &impl Abort, alloc: Global, version: u8, case: &Case<'_>) {
    let mut info = Vec::new(alloc);
    for directory in case.units {
        push_older_unit(rt, &mut info, *directory);
    }
    let lists = older_lists(rt, alloc, case.dirs, case.files);
    let line = older_table(rt, alloc, version, lists.as_slice());
    these_lead_to(
        rt,
        alloc,
        case.what,
        [info.as_slice(), line.as_slice()],
        case.paths,
    );
}

// DWARF 2 to 4, section 6.2.4, and this project's rules on what isn't there: index 0 is the unit's
// directory, and the include directories count from 1.
static CASES: [Case<'static>; 7] = [
    Case {
        what: "each index",
        units: &[Some(b"/w")],
        dirs: &[b"src", b"inc", b"/usr"],
        files: &[
            (b"a.c", 0),
            (b"b.h", 1),
            (b"c.h", 2),
            (b"d.h", 3),
            (b"/e.h", 9),
        ],
        paths: &["/e.h", "/usr/d.h", "/w/a.c", "/w/inc/c.h", "/w/src/b.h"],
    },
    Case {
        what: "no directories",
        units: &[Some(b"/w")],
        dirs: &[],
        files: &[(b"a.c", 0), (b"b.c", 1)],
        paths: &["/w/a.c"],
    },
    Case {
        what: "the last index, and one above",
        units: &[Some(b"/w")],
        dirs: &[b"src"],
        files: &[(b"a.c", 1), (b"b.c", 2), (b"/c.c", 2)],
        paths: &["/c.c", "/w/src/a.c"],
    },
    Case {
        what: "no unit directory",
        units: &[None],
        dirs: &[b"/top", b"x"],
        files: &[(b"a", 0), (b"b", 1), (b"c", 2), (b"/d", 0)],
        paths: &["/d", "/top/b"],
    },
    Case {
        what: "a relative unit directory",
        units: &[Some(b"w")],
        dirs: &[b"src", b"/x"],
        files: &[(b"a", 0), (b"b", 1), (b"c", 2)],
        paths: &["/x/c"],
    },
    Case {
        what: "one canonical path",
        units: &[Some(b"/w")],
        dirs: &[b".."],
        files: &[(b"x/../a.c", 1), (b"a.c", 1), (b"//a.c", 0)],
        paths: &["/a.c"],
    },
    Case {
        what: "shared",
        units: &[Some(b"/w"), Some(b"/w"), None, Some(b"/v"), Some(b"/w")],
        dirs: &[],
        files: &[(b"a.c", 0), (b"/b.c", 0)],
        paths: &["/b.c", "/v/a.c", "/w/a.c"],
    },
];

#[test]
fn a_file_is_in_the_include_directory_of_its_index(rt: HostRuntime) {
    for case in &CASES {
        for version in 2..5 {
            holds(&rt, rt.alloc(), version, case);
        }
    }
}

/// The directories of both tables.
static DIRS: [&[u8]; 2] = [b"src", b"inc"];

/// The files of both tables.
static FILES: [(&[u8], u8); 2] = [(b"a.c", 0), (b"b.c", 1)];

// The table's version tells where its files are, and not the unit's.
#[test]
fn a_unit_may_name_a_table_of_another_version(rt: HostRuntime) {
    let alloc = rt.alloc();
    let mut older = Vec::new(alloc);
    push_older_unit(&rt, &mut older, Some(b"/w"));
    let lists = lists_of(&rt, alloc, &DIRS, &FILES);
    let line = with_header(&rt, alloc, lists.as_slice());
    let five = [older.as_slice(), line.as_slice()];
    these_lead_to(
        &rt,
        alloc,
        "a table of version 5",
        five,
        &["/w/src/a.c", "/w/src/inc/b.c"],
    );
    let mut newer = Vec::new(alloc);
    push_unit(&rt, &mut newer, Some(b"/w"));
    let lists = older_lists(&rt, alloc, &DIRS, &FILES);
    let line = older_table(&rt, alloc, 3, lists.as_slice());
    let three = [newer.as_slice(), line.as_slice()];
    these_lead_to(
        &rt,
        alloc,
        "a table of version 3",
        three,
        &["/w/a.c", "/w/src/b.c"],
    );
}
