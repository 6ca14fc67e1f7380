//! Scans by several workers.

use crate::runs::hands::reference;
use crate::runs::rig::{Run, SOUND, empty_store, run_over};
use row_types::OpenWorld;
use std::alloc::Global;
use std::process::Abort;
use tree_trait::MemTree;

/// What the first scan of the reference tree prints, and what one that finds nothing new prints behind
/// it. The lines are those of the worked row of this tree.
static LINES: [&[u8]; 2] = [
    b"scan: 12 files, 12 added, 0 replaced, 0 dropped, 0 kept, 4 executables, 4 debuginfo\n",
    b"scan: 12 files, 12 added, 0 replaced, 0 dropped, 0 kept, 4 executables, 4 debuginfo\n\
        scan: 12 files, 0 added, 0 replaced, 0 dropped, 12 kept, 4 executables, 4 debuginfo\n",
];

/// So many hands, each of which has the reference tree.
pub fn references(rt: &impl Abort, alloc: Global, count: u64) -> Vec<MemTree<OpenWorld>> {
    let mut hands = Vec::new(alloc);
    for _ in 0..count {
        hands.push(reference(rt, alloc)).expect(rt, "memory");
    }
    hands
}

/// Scans of the reference tree by numbers of workers, and numbers of hands: two, and one for each of
/// the workers, or fewer, or more.
static SCANS: [(&[&str], u64); 6] = [
    (
        &["scan", "-d", "m", "-c", "1", "/srv/bin", "/srv/debug", "/w"],
        3,
    ),
    (
        &["scan", "-d", "m", "-c", "2", "/srv/bin", "/srv/debug", "/w"],
        4,
    ),
    (
        &["scan", "-d", "m", "-c", "7", "/srv/bin", "/srv/debug", "/w"],
        9,
    ),
    (
        &[
            "scan",
            "-d",
            "m",
            "-c",
            "64",
            "/srv/bin",
            "/srv/debug",
            "/w",
        ],
        66,
    ),
    (
        &[
            "scan",
            "-d",
            "m",
            "-c",
            "64",
            "/srv/bin",
            "/srv/debug",
            "/w",
        ],
        5,
    ),
    (
        &["scan", "-d", "m", "-c", "1", "/srv/bin", "/srv/debug", "/w"],
        9,
    ),
];

#[test]
fn any_number_of_workers_says_the_same(rt: HostRuntime) {
    let alloc = rt.alloc();
    let [first, both] = LINES;
    for (words, count) in &SCANS {
        run_over(
            &rt,
            alloc,
            references(&rt, alloc, *count),
            empty_store(&rt, alloc, &SOUND),
            &SOUND,
            &[Run(*words, first, "", 0), Run(*words, both, "", 0)],
        );
    }
}
