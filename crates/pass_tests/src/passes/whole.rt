//! Passes over the reference tree as it changes.

use crate::passes::passes::{Holds, Pass, run_passes};
use crate::rig::Files;

/// The rows of the reference tree under `/srv/bin`.
pub const BIN: &str =
    "/srv/bin/empty 0, /srv/bin/libx.so 488, /srv/bin/liby.so 408, /srv/bin/prog 1016, ";

/// Those behind them.
pub const TOOLS: &str = "/srv/bin/run.sh 10, /srv/bin/tool 408, ";

/// Those under `/srv/debug`.
pub const DEBUG: &str =
    "/srv/debug/notes.txt 0, /srv/debug/ppc.debug 324, /srv/debug/tool.debug 584, ";

/// Those of the sources.
pub const SOURCES: &str = "/w/src/inc/util.h 0, /w/src/main.c 26, ";

/// A walk of the three folders makes 20 calls: a look at each root, a reading of each of them and of
/// two below them, and a look at each of the twelve files. Reading all of them makes 44 more: each is
/// opened, and five of them have four parts each, one has ten, two have one each, and four are
/// empty.
pub static WHOLE: [Pass; 7] = [
    Pass {
        shows: "the first pass reads all files",
        hands: &[Holds {
            files: Files::Reference,
            later: None,
            bad_calls: &[64],
        }],
        roots: &["/srv/bin", "/srv/debug", "/w"],
        end: "12 12 0 0 0 4 4",
        rows: &[BIN, TOOLS, DEBUG, "/w/README 0, ", SOURCES],
    },
    Pass {
        shows: "the second one loads nothing",
        hands: &[Holds {
            files: Files::Reference,
            later: None,
            bad_calls: &[20],
        }],
        roots: &["/srv/bin", "/srv/debug", "/w"],
        end: "12 0 0 0 12 4 4",
        rows: &[BIN, TOOLS, DEBUG, "/w/README 0, ", SOURCES],
    },
    Pass {
        shows: "the row of a file that went is dropped after one look",
        hands: &[Holds {
            files: Files::NoReadme,
            later: None,
            bad_calls: &[20],
        }],
        roots: &["/srv/bin", "/srv/debug", "/w"],
        end: "11 0 0 1 11 4 4",
        rows: &[BIN, TOOLS, DEBUG, SOURCES],
    },
    Pass {
        shows: "a file that came is loaded, and no other",
        hands: &[Holds {
            files: Files::Reference,
            later: None,
            bad_calls: &[21],
        }],
        roots: &["/srv/bin", "/srv/debug", "/w"],
        end: "12 1 0 0 11 4 4",
        rows: &[BIN, TOOLS, DEBUG, "/w/README 0, ", SOURCES],
    },
    Pass {
        shows: "rows under no root any more are dropped without a look",
        hands: &[Holds {
            files: Files::Reference,
            later: None,
            bad_calls: &[13],
        }],
        roots: &["/srv/bin", "/srv/debug"],
        end: "9 0 0 3 9 4 4",
        rows: &[BIN, TOOLS, DEBUG],
    },
    Pass {
        shows: "a root that is gone leaves all rows",
        hands: &[Holds {
            files: Files::Script,
            later: None,
            bad_calls: &[],
        }],
        roots: &["/srv/bin", "/srv/debug"],
        end: "/srv/debug is gone",
        rows: &[BIN, TOOLS, DEBUG],
    },
    Pass {
        shows: "so does a walk that fails",
        hands: &[Holds {
            files: Files::Reference,
            later: None,
            bad_calls: &[12],
        }],
        roots: &["/srv/bin", "/srv/debug"],
        end: "a call of the walk failed",
        rows: &[BIN, TOOLS, DEBUG],
    },
];

// The numbers are those of the worked rows of the scan of this tree. One hand does all; then one looks
// for files and none reads, and then one, two, seven and 64 read twelve files.
#[test]
fn any_number_of_hands_does_the_same(rt: HostRuntime) {
    for others in [0, 1, 2, 3, 8, 65] {
        run_passes(&rt, rt.alloc(), &WHOLE, others);
    }
}
