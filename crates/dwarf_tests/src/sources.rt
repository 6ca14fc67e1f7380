//! Whether the clauses say what the rules mean, and that memory suffices.

mod cases;
mod older;

use cases::{Case, Units, holds, lead_to, push, units_lead_to, with_header};
use dwarf_forms::DebugParts;
use elf_classify::debug_parts;
use file_formats::Order;
use sample_files::dwarf_five;
use std::alloc::Global;
use std::process::Abort;

/// The bytes with others at a place.
fn changed(rt: &impl Abort, alloc: Global, bytes: &[u8], place: usize, other: &[u8]) -> Vec<u8> {
    let mut copy = Vec::new(alloc);
    push(rt, &mut copy, bytes.get(..place).expect(rt, "place"));
    push(rt, &mut copy, other);
    let rest = bytes.get(copy.len()..).expect(rt, "rest");
    push(rt, &mut copy, rest);
    copy
}

/// Checks that no source is found where the line table has other bytes at a place.
fn damaged_has_none(
    rt: &impl Abort,
    alloc: Global,
    parts: &DebugParts<'_>,
    place: usize,
    other: &[u8],
) {
    let line = changed(rt, alloc, parts.line, place, other);
    assert!(rt; line.len() == 69);
    let damaged = DebugParts {
        line: line.as_slice(),
        ..*parts
    };
    lead_to(rt, alloc, "damaged", &damaged, &[]);
}

// The directories and files by which the sample was made: /w/src, `.` and inc; main.c in directory
// 0 and util.h in directory 1. Then 2 to the power of 63 directories, and a header that ends early.
#[test]
fn the_sample_has_two_sources(rt: HostRuntime) {
    let alloc = rt.alloc();
    let file = dwarf_five(alloc).expect(&rt, "memory");
    let parts = debug_parts(file.as_slice()).expect(&rt, "debug sections");
    let paths = ["/w/src/inc/util.h", "/w/src/main.c"];
    lead_to(&rt, alloc, "whole", &parts, &paths);
    let many = b"\0\x80\x80\x80\x80\x80\x80\x80\x80\x80\x01";
    damaged_has_none(&rt, alloc, &parts, 30, many);
    damaged_has_none(&rt, alloc, &parts, 8, b"\x38");
}

// DWARF 5, sections 3.1.1 and 6.2.4, and this project's rules on what isn't there.
static CASES: [Case<'static>; 8] = [
    Case {
        what: "each index",
        units: &[Some(b"/w")],
        dirs: &[b"src", b"inc", b"/usr"],
        files: &[(b"a.c", 0), (b"b.h", 1), (b"c.h", 2), (b"/d.h", 3)],
        paths: &["/d.h", "/usr/c.h", "/w/src/a.c", "/w/src/inc/b.h"],
    },
    Case {
        what: "no directories",
        units: &[Some(b"/w")],
        dirs: &[],
        files: &[(b"a.c", 0), (b"b.c", 1)],
        paths: &["/w/a.c"],
    },
    Case {
        what: "an index at their number",
        units: &[Some(b"/w")],
        dirs: &[b"src"],
        files: &[(b"a.c", 1), (b"/b.c", 1)],
        paths: &["/b.c"],
    },
    Case {
        what: "no unit directory",
        units: &[None],
        dirs: &[b"/top", b"x"],
        files: &[(b"a", 0), (b"b", 1)],
        paths: &["/top/a", "/top/x/b"],
    },
    Case {
        what: "a directory that needs it",
        units: &[None],
        dirs: &[b"top", b"/x"],
        files: &[(b"a", 0), (b"b", 1), (b"/c", 0)],
        paths: &["/c", "/x/b"],
    },
    Case {
        what: "a relative unit directory",
        units: &[Some(b"w")],
        dirs: &[b"src", b"/x"],
        files: &[(b"a", 0), (b"b", 1)],
        paths: &["/x/b"],
    },
    Case {
        what: "no UTF-8",
        units: &[Some(b"/w")],
        dirs: &[],
        files: &[(b"\xff.c", 0), (b"\xc3\xa9.c", 0)],
        paths: &["/w/\u{e9}.c"],
    },
    Case {
        what: "one canonical path",
        units: &[Some(b"/w")],
        dirs: &[b".."],
        files: &[(b"x/../a.c", 0), (b"a.c", 0), (b"//a.c", 0)],
        paths: &["/a.c"],
    },
];

#[test]
fn a_file_is_in_the_directory_of_its_index(rt: HostRuntime) {
    for case in &CASES {
        holds(&rt, rt.alloc(), case);
    }
}

/// A part so many times, and a part behind them.
fn repeated(rt: &impl Abort, alloc: Global, part: &[u8], count: usize, end: &[u8]) -> Vec<u8> {
    let mut bytes = Vec::new(alloc);
    for _ in 0..count {
        push(rt, &mut bytes, part);
    }
    push(rt, &mut bytes, end);
    bytes
}

/// Checks that a file of `./` 2046 times and this end, in /w, leads to these paths.
fn joined_leads_to(rt: &impl Abort, alloc: Global, end: &[u8], paths: &[&str]) {
    let path = repeated(rt, alloc, b"./", 2046, end);
    let case = Case {
        what: "joined",
        units: &[Some(b"/w")],
        dirs: &[],
        files: &[(path.as_slice(), 0)],
        paths,
    };
    holds(rt, alloc, &case);
}

// 4096 bytes are the longest path, before it is made canonical: a slash, w, and a slash, then 2046
// times `./`, and one byte or two.
#[test]
fn the_joined_text_has_at_most_4096_bytes(rt: HostRuntime) {
    joined_leads_to(&rt, rt.alloc(), b"a", &["/w/a"]);
    joined_leads_to(&rt, rt.alloc(), b"ab", &[]);
}

/// One line table, of many units and of none.
static SHARED: [Case<'static>; 2] = [
    Case {
        what: "shared",
        units: &[Some(b"/w"), Some(b"/w"), None, Some(b"/v"), Some(b"/w")],
        dirs: &[],
        files: &[(b"a.c", 0), (b"/b.c", 0)],
        paths: &["/b.c", "/v/a.c", "/w/a.c"],
    },
    Case {
        what: "none",
        units: &[],
        dirs: &[],
        files: &[(b"a.c", 0), (b"/b.c", 0)],
        paths: &[],
    },
];

#[test]
fn units_share_a_table(rt: HostRuntime) {
    for case in &SHARED {
        holds(&rt, rt.alloc(), case);
    }
}

// A unit's folder and a directory of 4098 bytes hide only what lies in them.
#[test]
fn a_folder_may_be_too_long(rt: HostRuntime) {
    let alloc = rt.alloc();
    let long = repeated(&rt, alloc, b"/x", 2049, b"");
    let long = long.as_slice();
    let of_unit = Case {
        what: "unit",
        units: &[Some(long)],
        dirs: &[],
        files: &[(b"a.c", 0), (b"/b.c", 0), (long, 0)],
        paths: &["/b.c"],
    };
    holds(&rt, alloc, &of_unit);
    let of_table = Case {
        what: "directory",
        units: &[Some(b"/w")],
        dirs: &[b"src", long],
        files: &[(b"a.c", 1), (b"/b.c", 1), (b"c.c", 0)],
        paths: &["/b.c", "/w/src/c.c"],
    };
    holds(&rt, alloc, &of_table);
}

// Two files by line_strp, at 0 and at 5: a text is there where a 0 follows. The section of texts,
// and the paths.
static ENDS: [(&[u8], &[&str]); 4] = [
    (b"/a.c\0/b.c\0", &["/a.c", "/b.c"]),
    (b"/a.c\0/b.c", &["/a.c"]),
    (b"/a.c/b.c", &[]),
    (b"", &[]),
];

/// Checks that these are the paths of the two files whose texts stand in this section.
fn texts_lead_to(rt: &impl Abort, alloc: Global, line_str: &[u8], paths: &[&str]) {
    let line = with_header(rt, alloc, b"\0\0\x01\x01\x1f\x02\0\0\0\0\x05\0\0\0");
    let units = Units {
        dirs: &[None],
        line: line.as_slice(),
        line_str,
    };
    units_lead_to(rt, alloc, "ends", &units, paths);
}

#[test]
fn a_text_ends_with_a_0(rt: HostRuntime) {
    for (line_str, paths) in &ENDS {
        texts_lead_to(&rt, rt.alloc(), line_str, paths);
    }
}

/// Two units over the table at 0, with their parts of .debug_str_offsets at 4 and at 8.
static TWO_BASES: &[u8] = b"\x11\0\0\0\x05\0\x01\x08\0\0\0\0\x01\x04\0\0\0\0\0\0\0\
    \x11\0\0\0\x05\0\x01\x08\0\0\0\0\x01\x08\0\0\0\0\0\0\0";

// DWARF 5, section 7.26. The directory is /w; the file is index 0 of a unit's texts, or stands in place.
static BASED: [(&[u8], &[&str]); 2] = [
    (
        b"\x01\x01\x08\x01/w\0\x01\x01\x25\x01\0",
        &["/w/a.c", "/w/b.c"],
    ),
    (b"\x01\x01\x08\x01/w\0\x01\x01\x08\x01c.c\0", &["/w/c.c"]),
];

/// Checks that these are the paths of two units that share the table of these lists.
fn based_lead_to(rt: &impl Abort, alloc: Global, lists: &[u8], paths: &[&str]) {
    let line = with_header(rt, alloc, lists);
    let parts = DebugParts {
        info: TWO_BASES,
        abbrev: b"\x01\x11\0\x72\x17\x10\x17\0\0\0",
        line: line.as_slice(),
        str: b"a.c\0b.c\0",
        line_str: &[],
        str_offsets: b"....\0\0\0\0\x04\0\0\0",
        order: Order::Little,
    };
    lead_to(rt, alloc, "bases", &parts, paths);
}

#[test]
fn a_unit_has_its_own_texts(rt: HostRuntime) {
    for (lists, paths) in &BASED {
        based_lead_to(&rt, rt.alloc(), lists, paths);
    }
}
