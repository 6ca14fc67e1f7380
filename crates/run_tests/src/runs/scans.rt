//! What `scan` does and says, by what the hand and the store answer.

use crate::runs::hands::Files::Two;
use crate::runs::rig::{Case, Plan, Run, SOUND, run_cases};

const SCAN: &[&str] = &["scan", "-d", "m", "/srv"];

const NOWHERE: &[&str] = &["scan", "-d", "m", "/none"];

/// The same folders in other words.
const LONG_WAY: &[&str] = &["scan", "-d", "m", "//srv/./b/..", "/../srv/"];

const LONG_WAY_NOWHERE: &[&str] = &["scan", "-d", "m", "/srv/../none/."];

/// The line of a scan of the two files.
const TWO: &[u8] =
    b"scan: 2 files, 2 added, 0 replaced, 0 dropped, 0 kept, 1 executables, 1 debuginfo\n";

/// That line, and then the line of a second scan of them.
const TWICE: &[u8] =
    b"scan: 2 files, 2 added, 0 replaced, 0 dropped, 0 kept, 1 executables, 1 debuginfo\n\
    scan: 2 files, 0 added, 0 replaced, 0 dropped, 2 kept, 1 executables, 1 debuginfo\n";

const GONE: &str = "dbgd: gone /none\n";

const FOLDER_FAULT: &str = "dbgd: fault folder\n";

const FILE_FAULT: &str = "dbgd: fault file\n";

const OUTPUT_FAULT: &str = "dbgd: fault output\n";

const BAD_OUT: Plan = Plan {
    bad_out: &[0],
    ..SOUND
};

const NARROW_CUT: Plan = Plan {
    width: 3,
    bad_out: &[4],
    ..SOUND
};

/// Scans of two files. Two looks at the files follow the call of number 1, which reads the folder,
/// and then come the first opening and the first read of its file.
static TWO_FILES: [Case; 10] = [
    Case(Two, &[], SOUND, &[Run(SCAN, TWO, "", 0)]),
    Case(Two, &[], SOUND, &[Run(NOWHERE, b"", GONE, 3)]),
    Case(Two, &[], SOUND, &[Run(LONG_WAY, TWO, "", 0)]),
    Case(Two, &[], SOUND, &[Run(LONG_WAY_NOWHERE, b"", GONE, 3)]),
    Case(Two, &[1], SOUND, &[Run(SCAN, b"", FOLDER_FAULT, 1)]),
    Case(Two, &[4], SOUND, &[Run(SCAN, b"", FILE_FAULT, 1)]),
    Case(Two, &[5], SOUND, &[Run(SCAN, b"", FILE_FAULT, 1)]),
    Case(Two, &[], BAD_OUT, &[Run(SCAN, b"", OUTPUT_FAULT, 1)]),
    Case(
        Two,
        &[],
        NARROW_CUT,
        &[Run(SCAN, b"scan: 2 file", OUTPUT_FAULT, 1)],
    ),
    Case(
        Two,
        &[],
        SOUND,
        &[Run(SCAN, TWO, "", 0), Run(SCAN, TWICE, "", 0)],
    ),
];

#[test]
fn a_scan_of_two_files_ends_as_it_is_met(rt: HostRuntime) {
    run_cases(&rt, rt.alloc(), &TWO_FILES);
}
