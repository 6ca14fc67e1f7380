//! What `query` says, by what the store holds.

use crate::runs::hands::reference;
use crate::runs::rig::{Run, SOUND, run_all};
use crate::runs::told::told_reference;

const SCAN: &[&str] = &["scan", "-d", "m", "-c", "2", "/srv/bin", "/srv/debug", "/w"];

/// The id of an executable and its companion.
const QUERY: &[&str] = &[
    "query",
    "-d",
    "m",
    "404142434445464748494a4b4c4d4e4f50515253",
];

const NONE: &[&str] = &["query", "-d", "m", "ffff"];

const NOTHING: &str = "dbgd: nothing found\n";

/// A scan of the reference tree, and then two queries.
static REFERENCE: [Run; 3] = [
    Run(
        SCAN,
        b"scan: 12 files, 12 added, 0 replaced, 0 dropped, 0 kept, 4 executables, 4 debuginfo\n",
        "",
        0,
    ),
    Run(
        QUERY,
        b"scan: 12 files, 12 added, 0 replaced, 0 dropped, 0 kept, 4 executables, 4 debuginfo\n\
            executable /srv/bin/tool\ndebuginfo /srv/debug/tool.debug\n",
        "",
        0,
    ),
    Run(
        NONE,
        b"scan: 12 files, 12 added, 0 replaced, 0 dropped, 0 kept, 4 executables, 4 debuginfo\n\
            executable /srv/bin/tool\ndebuginfo /srv/debug/tool.debug\n",
        NOTHING,
        3,
    ),
];

#[test]
fn the_rows_of_an_id_are_printed_by_path(rt: HostRuntime) {
    let alloc = rt.alloc();
    run_all(
        &rt,
        alloc,
        told_reference(&rt, alloc, &[]),
        &SOUND,
        &REFERENCE,
    );
}
