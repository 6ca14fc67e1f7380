//! Scans into stores that hold rows.

use crate::runs::hands::Files::Two;
use crate::runs::hands::reference;
use crate::runs::rig::{Run, SOUND, run_kept, run_over};
use index_keeper::{Kept, MemStore};
use row_types::OpenWorld;
use std::alloc::Global;
use std::process::Abort;

const SCAN: &[&str] = &["scan", "-d", "m", "/srv"];

/// The row bytes of `/old/x`, of one byte and changed at second 1, no ELF file, by edition 2.
const OLD: &[u8] = b"\x02\x06\0\0\0/old/x\x01\0\0\0\0\0\0\0\x01\0\0\0\0\0\0\0\0\0\0\0\0\x01";

/// Those of `/srv/bin/run.sh`, of ten bytes and changed at second 100, by edition 9.
const STRAY: &[u8] =
    b"\x09\x0f\0\0\0/srv/bin/run.sh\x0a\0\0\0\0\0\0\0\x64\0\0\0\0\0\0\0\0\0\0\0\0\x01";

/// A store that keeps those two.
fn old_store(rt: &impl Abort, alloc: Global) -> MemStore<OpenWorld> {
    let first = Kept::of(alloc, "/old/x", OLD).expect(rt, "memory");
    let second = Kept::of(alloc, "/srv/bin/run.sh", STRAY).expect(rt, "memory");
    let kept = vec![in alloc; first, second].expect(rt, "memory");
    MemStore::new(alloc, kept, None, Vec::new(alloc))
}

/// The row of another edition is read anew, and the other one lies under no folder. A folder may be
/// named twice, or with one that it lies under.
static OVERLAPPING: [Run; 1] = [Run(
    &["scan", "-d", "m", "/srv/bin", "/srv", "/srv/bin"],
    b"scan: 9 files, 9 added, 0 replaced, 1 dropped, 0 kept, 4 executables, 4 debuginfo\n",
    "",
    0,
)];

/// The row bytes of `/b`, of ten bytes and changed at second 100, an executable with the id `abcd` and without
/// sources, by the first edition and by this one.
static FIRST: &[u8] =
    b"\x01\x02\0\0\0/b\x0a\0\0\0\0\0\0\0\x64\0\0\0\0\0\0\0\0\0\0\0\x01\x01\x02\xab\xcd\0\0\0\0";

static SECOND: &[u8] =
    b"\x02\x02\0\0\0/b\x0a\0\0\0\0\0\0\0\x64\0\0\0\0\0\0\0\0\0\0\0\x01\x01\x02\xab\xcd\0\0\0\0";

/// A store that keeps one of them.
fn store_with(rt: &impl Abort, alloc: Global, bytes: &[u8]) -> MemStore<OpenWorld> {
    let kept = Kept::of(alloc, "/b", bytes).expect(rt, "memory");
    let kept = vec![in alloc; kept].expect(rt, "memory");
    MemStore::new(alloc, kept, None, Vec::new(alloc))
}

const QUERY: &[&str] = &["query", "-d", "m", "abcd"];

/// A row of the first edition goes as the store is opened, so that nothing is found until a scan reads its
/// file anew.
static OF_FIRST: [Run; 1] = [Run(QUERY, b"", "dbgd: nothing found\n", 3)];

static OF_SECOND: [Run; 1] = [Run(QUERY, b"executable /b\n", "", 0)];

/// Both scans find a value that is no row. Where a pattern is refused the store isn't opened.
static BAD: [Run; 3] = [
    Run(SCAN, b"", "dbgd: bad row /a\n", 7),
    Run(SCAN, b"", "dbgd: bad row /a\ndbgd: bad row /a\n", 7),
    Run(
        &["scan", "-d", "m", "-X", "*", "/srv"],
        b"",
        "dbgd: bad row /a\ndbgd: bad row /a\nusage: dbgd ident FILE, sources FILE, section FILE NAME, \
            query -d DB ID, scan -d DB DIR, serve -d DB DIR, trial SEED FILES WORKERS\n",
        2,
    ),
];

#[test]
fn stores_that_hold_rows_are_opened(rt: HostRuntime) {
    let alloc = rt.alloc();
    let hands = vec![in alloc; reference(&rt, alloc)].expect(&rt, "memory");
    run_over(
        &rt,
        alloc,
        hands,
        old_store(&rt, alloc),
        &SOUND,
        &OVERLAPPING,
    );
    run_kept(&rt, alloc, &Two, &[0], &BAD);
}

#[test]
fn a_row_of_the_first_edition_is_found_no_more(rt: HostRuntime) {
    let alloc = rt.alloc();
    for (bytes, runs) in [(FIRST, &OF_FIRST), (SECOND, &OF_SECOND)] {
        let hands = vec![in alloc; reference(&rt, alloc)].expect(&rt, "memory");
        run_over(
            &rt,
            alloc,
            hands,
            store_with(&rt, alloc, bytes),
            &SOUND,
            runs,
        );
    }
}
