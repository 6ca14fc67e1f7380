//! What `trial` says. The sums are those that an independent program gave.

use crate::runs::hands::{File, Files, hand_of};
use crate::runs::rig::{Run, SOUND, run_all};

/// The line of the 40 files of seed 7.
static FORTY: &[u8] = b"trial: 40 files, 20 executables, 20 debuginfo, 20 sources, \
    index 1d67394e737c8736f98a34978d6ca95b8ac131a37c52c0bbe7579f5a4188394b\n";

/// The line of one file of the largest seed, which has code, debug information and two sources.
static ONE: &[u8] = b"trial: 1 files, 1 executables, 1 debuginfo, 2 sources, \
    index 2758544e0494c9fbff37b3e321015d5a0d1b98c62fc747253c3b9860db171cb2\n";

/// Numbers of workers, those at both ends of the range among them.
static WORKERS: [&str; 5] = ["1", "3", "8", "0000000064", "2"];

#[test]
fn trials_of_40_files_and_of_one(rt: HostRuntime) {
    let alloc = rt.alloc();
    for workers in &WORKERS {
        let words = ["trial", "7", "40", *workers];
        let hand = hand_of(&rt, alloc, &Files::One(File::Empty), &[]);
        run_all(&rt, alloc, hand, &SOUND, &[Run(&words, FORTY, "", 0)]);
    }
    let words = ["trial", "18446744073709551615", "1", "1"];
    let hand = hand_of(&rt, alloc, &Files::One(File::Empty), &[]);
    run_all(&rt, alloc, hand, &SOUND, &[Run(&words, ONE, "", 0)]);
}
