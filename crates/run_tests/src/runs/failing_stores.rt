//! Scans of five files in which one call of the store fails, and the scans behind them.

use crate::runs::rig::{Plan, Run, SOUND, run_all};
use crate::runs::told::told_reference;

const FIVE: &[&str] = &["scan", "-d", "m", "/srv/debug", "/w/src"];

const STORE_FAULT: &str = "dbgd: fault store\n";

/// The scan that meets the failure.
const FAILED: Run<'static> = Run(FIVE, b"", STORE_FAULT, 1);

/// The line of a scan that finds no row.
const NEW: &[u8] =
    b"scan: 5 files, 5 added, 0 replaced, 0 dropped, 0 kept, 0 executables, 2 debuginfo\n";

/// The scans over a store that fails at its first call, at its second one, and so on: its opening,
/// its rows, five puts. Of the next scan as many rows are kept as were put. The last store has made
/// its calls.
static CASES: [&[Run]; 8] = [
    &[FAILED, Run(FIVE, NEW, STORE_FAULT, 0)],
    &[FAILED, Run(FIVE, NEW, STORE_FAULT, 0)],
    &[FAILED, Run(FIVE, NEW, STORE_FAULT, 0)],
    &[
        FAILED,
        Run(
            FIVE,
            b"scan: 5 files, 4 added, 0 replaced, 0 dropped, 1 kept, 0 executables, 2 debuginfo\n",
            STORE_FAULT,
            0,
        ),
    ],
    &[
        FAILED,
        Run(
            FIVE,
            b"scan: 5 files, 3 added, 0 replaced, 0 dropped, 2 kept, 0 executables, 2 debuginfo\n",
            STORE_FAULT,
            0,
        ),
    ],
    &[
        FAILED,
        Run(
            FIVE,
            b"scan: 5 files, 2 added, 0 replaced, 0 dropped, 3 kept, 0 executables, 2 debuginfo\n",
            STORE_FAULT,
            0,
        ),
    ],
    &[
        FAILED,
        Run(
            FIVE,
            b"scan: 5 files, 1 added, 0 replaced, 0 dropped, 4 kept, 0 executables, 2 debuginfo\n",
            STORE_FAULT,
            0,
        ),
    ],
    &[Run(FIVE, NEW, "", 0)],
];

#[test]
fn a_failing_call_of_the_store_ends_the_scan_and_the_next_is_whole(rt: HostRuntime) {
    for (number, runs) in (0u64..).zip(&CASES) {
        let plan = Plan {
            bad_calls: &[number],
            ..SOUND
        };
        let hand = told_reference(&rt, rt.alloc(), &[]);
        run_all(&rt, rt.alloc(), hand, &plan, runs);
    }
}
