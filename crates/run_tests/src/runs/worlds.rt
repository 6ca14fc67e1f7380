//! Runs over told worlds, and over trees of one answer.

use crate::runs::crowded::Crowded;
use crate::runs::rig::{Plan, Run, SOUND, run_all};
use crate::runs::told::{changed_file, told_reference};

const IDENT: &[&str] = &["ident", "/w/a"];

const SCAN: &[&str] = &["scan", "-d", "m", "/srv"];

/// The line of a scan of one file.
const ONE: &[u8] =
    b"scan: 1 files, 1 added, 0 replaced, 0 dropped, 0 kept, 0 executables, 0 debuginfo\n";

/// Runs over the reference tree. `/srv/bin/tool` has code of one byte.
static REFERENCE: [Run; 6] = [
    Run(
        &["ident", "/srv/debug/ppc.debug"],
        b"a0a1a2a3a4a5a6a7 debuginfo\n",
        "",
        0,
    ),
    Run(
        &["ident", "/w/README"],
        b"a0a1a2a3a4a5a6a7 debuginfo\nplain not-elf\n",
        "",
        3,
    ),
    Run(
        &["section", "/srv/bin/tool", ".text"],
        b"a0a1a2a3a4a5a6a7 debuginfo\nplain not-elf\n\xc3",
        "",
        0,
    ),
    Run(
        &["section", "/w/README", ".text"],
        b"a0a1a2a3a4a5a6a7 debuginfo\nplain not-elf\n\xc3",
        "dbgd: plain not-elf\n",
        3,
    ),
    Run(
        &["scan", "-d", "m", "/srv/bin", "/srv/debug", "/w"],
        b"a0a1a2a3a4a5a6a7 debuginfo\nplain not-elf\n\xc3scan: 12 files, 12 added, \
            0 replaced, 0 dropped, 0 kept, 4 executables, 4 debuginfo\n",
        "dbgd: plain not-elf\n",
        0,
    ),
    Run(
        &["sources", "/srv/bin/prog"],
        b"a0a1a2a3a4a5a6a7 debuginfo\nplain not-elf\n\xc3scan: 12 files, 12 added, \
            0 replaced, 0 dropped, 0 kept, 4 executables, 4 debuginfo\n\
            /w/src/inc/util.h\n/w/src/main.c\n",
        "dbgd: plain not-elf\n",
        0,
    ),
];

/// Scans of the files that a pattern selects, after one of all: the two that it excludes are dropped.
static EXCLUDED: [Run; 2] = [
    Run(
        &["scan", "-d", "m", "/srv/bin", "/srv/debug", "/w"],
        b"scan: 12 files, 12 added, 0 replaced, 0 dropped, 0 kept, 4 executables, 4 debuginfo\n",
        "",
        0,
    ),
    Run(
        &[
            "scan",
            "-d",
            "m",
            "-X",
            "\\.debug$",
            "/srv/bin",
            "/srv/debug",
            "/w",
        ],
        b"scan: 12 files, 12 added, 0 replaced, 0 dropped, 0 kept, 4 executables, 4 debuginfo\n\
            scan: 10 files, 0 added, 0 replaced, 2 dropped, 10 kept, 4 executables, 2 debuginfo\n",
        "",
        0,
    ),
];

/// Into a new store, by both patterns, and then by one in which each path has a match.
static INCLUDED: [Run; 2] = [
    Run(
        &[
            "scan",
            "-d",
            "m",
            "-I",
            "/srv/",
            "-X",
            "notes",
            "/srv/bin",
            "/srv/debug",
            "/w",
        ],
        b"scan: 8 files, 8 added, 0 replaced, 0 dropped, 0 kept, 4 executables, 4 debuginfo\n",
        "",
        0,
    ),
    Run(
        &[
            "scan",
            "-d",
            "m",
            "--exclude",
            "",
            "/srv/bin",
            "/srv/debug",
            "/w",
        ],
        b"scan: 8 files, 8 added, 0 replaced, 0 dropped, 0 kept, 4 executables, 4 debuginfo\n\
            scan: 0 files, 0 added, 0 replaced, 8 dropped, 0 kept, 0 executables, 0 debuginfo\n",
        "",
        0,
    ),
];

const ALTERED: &str = "dbgd: altered /srv/a listed 6:100:000000000 seen 7:101:000000000\n";

/// A scan of the file that changes, and another one after it.
static CHANGED: [Run; 2] = [Run(SCAN, b"", ALTERED, 4), Run(SCAN, ONE, ALTERED, 0)];

#[test]
fn the_sample_world_is_read_and_scanned(rt: HostRuntime) {
    let alloc = rt.alloc();
    run_all(
        &rt,
        alloc,
        told_reference(&rt, alloc, &[]),
        &SOUND,
        &REFERENCE,
    );
    run_all(
        &rt,
        alloc,
        told_reference(&rt, alloc, &[]),
        &SOUND,
        &EXCLUDED,
    );
    run_all(
        &rt,
        alloc,
        told_reference(&rt, alloc, &[]),
        &SOUND,
        &INCLUDED,
    );
    // The load comes after a look at the root, its entries, and a look at the file.
    run_all(&rt, alloc, changed_file(&rt, alloc, 3), &SOUND, &CHANGED);
}

const FIVE: &[&str] = &["scan", "-d", "m", "/srv/debug", "/w/src"];

/// The line of the scan after a stop at each call of the store: its opening, its rows, five puts.
static AFTER_STOP: [&[u8]; 7] = [
    b"scan: 5 files, 5 added, 0 replaced, 0 dropped, 0 kept, 0 executables, 2 debuginfo\n",
    b"scan: 5 files, 5 added, 0 replaced, 0 dropped, 0 kept, 0 executables, 2 debuginfo\n",
    b"scan: 5 files, 5 added, 0 replaced, 0 dropped, 0 kept, 0 executables, 2 debuginfo\n",
    b"scan: 5 files, 3 added, 0 replaced, 0 dropped, 2 kept, 0 executables, 2 debuginfo\n",
    b"scan: 5 files, 3 added, 0 replaced, 0 dropped, 2 kept, 0 executables, 2 debuginfo\n",
    b"scan: 5 files, 1 added, 0 replaced, 0 dropped, 4 kept, 0 executables, 2 debuginfo\n",
    b"scan: 5 files, 1 added, 0 replaced, 0 dropped, 4 kept, 0 executables, 2 debuginfo\n",
];

#[test]
fn a_scan_after_a_stop_at_each_store_call_has_the_five_rows(rt: HostRuntime) {
    let alloc = rt.alloc();
    for (number, line) in (0u64..).zip(&AFTER_STOP) {
        let plan = Plan {
            stop_at: Some(number),
            ..SOUND
        };
        let stopped = Run(FIVE, b"", "dbgd: fault store\n", 1);
        let mended = Run(FIVE, line, "dbgd: fault store\n", 0);
        run_all(
            &rt,
            alloc,
            told_reference(&rt, alloc, &[]),
            &plan,
            &[stopped, mended],
        );
    }
}

/// What is said of a file above the size limit.
static LARGE: [Run; 2] = [
    Run(IDENT, b"plain too-large\n", "", 3),
    Run(
        &["scan", "-d", "m", "/large"],
        b"plain too-large\nscan: 1 files, 1 added, 0 replaced, 0 dropped, 0 kept, \
            0 executables, 0 debuginfo\n",
        "",
        0,
    ),
];

/// What is said where there is no memory for any file.
static WANTS: [Run; 2] = [
    Run(IDENT, b"", "dbgd: out of memory\n", 6),
    Run(SCAN, b"", "dbgd: out of memory\ndbgd: out of memory\n", 6),
];

#[test]
fn a_file_that_is_too_large_and_want_of_memory_are_said(rt: HostRuntime) {
    let alloc = rt.alloc();
    run_all(&rt, alloc, Crowded::TooLarge, &SOUND, &LARGE);
    run_all(&rt, alloc, Crowded::NoMemory, &SOUND, &WANTS);
}
