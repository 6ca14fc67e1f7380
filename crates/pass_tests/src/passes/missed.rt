//! Passes in which a file isn't as it was listed.

use crate::passes::passes::{Holds, Pass};
use crate::rig::Files;

/// A walk of `/srv` with one file makes three calls, and the reading of the file two: it is opened,
/// and its one part is read.
pub static MISSED: [Pass; 8] = [
    Pass {
        shows: "a file is read",
        hands: &[Holds {
            files: Files::Before,
            later: None,
            bad_calls: &[5],
        }],
        roots: &["/srv"],
        end: "1 1 0 0 0 0 0",
        rows: &["/srv/a 6, "],
    },
    Pass {
        shows: "a file that changed is read again",
        hands: &[Holds {
            files: Files::After,
            later: None,
            bad_calls: &[6],
        }],
        roots: &["/srv"],
        end: "1 0 1 0 0 0 0",
        rows: &["/srv/a 7, "],
    },
    Pass {
        shows: "of two missed names of one path the listed one is told",
        hands: &[Holds {
            files: Files::Before,
            later: Some((3, Files::After)),
            bad_calls: &[],
        }],
        roots: &["/srv"],
        end: "missed /srv/a 6, another file",
        rows: &["/srv/a 7, "],
    },
    Pass {
        shows: "a file that can't be read is missed, though the row of another is dropped",
        hands: &[Holds {
            files: Files::Before,
            later: None,
            bad_calls: &[3],
        }],
        roots: &["/srv"],
        end: "missed /srv/a 6, can't be read",
        rows: &[],
    },
    Pass {
        shows: "a file that is gone as it is read is missed",
        hands: &[Holds {
            files: Files::Before,
            later: Some((3, Files::Nothing)),
            bad_calls: &[],
        }],
        roots: &["/srv"],
        end: "missed /srv/a 6, gone",
        rows: &[],
    },
    Pass {
        shows: "it is read once it is there again",
        hands: &[Holds {
            files: Files::After,
            later: None,
            bad_calls: &[5],
        }],
        roots: &["/srv"],
        end: "1 1 0 0 0 0 0",
        rows: &["/srv/a 7, "],
    },
    Pass {
        shows: "a row whose file appeared after the walk stays",
        hands: &[Holds {
            files: Files::Script,
            later: Some((4, Files::ScriptAndAfter)),
            bad_calls: &[],
        }],
        roots: &["/srv"],
        end: "missed /srv/a 7, stands there",
        rows: &["/srv/a 7, ", "/srv/bin/run.sh 10, "],
    },
    Pass {
        shows: "and goes when it is gone",
        hands: &[Holds {
            files: Files::Script,
            later: None,
            bad_calls: &[5],
        }],
        roots: &["/srv"],
        end: "1 0 0 1 1 0 0",
        rows: &["/srv/bin/run.sh 10, "],
    },
];
