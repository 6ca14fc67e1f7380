//! What is said of the ends of a scan that no small tree leads to.

use crate::runs::rig::compare;
use dbgd_run::{ScanEnd, say_end};
use http_wire::MemSink;
use index_state::OpenFault;
use pass_runner::PassEnd;
use row_types::{CanonPath, Name, Stamp};
use scan_queue::{Cause, Miss, Seen};
use std::alloc::Global;
use std::process::Abort;
use tree_walk::WalkFault;

/// Says an end, and compares what the standard error got and the status.
fn says(rt: &impl Abort, alloc: Global, end: &ScanEnd, line: &str, status: u8) {
    let mut out = MemSink::new(alloc, Vec::new(alloc));
    let mut err = MemSink::new(alloc, Vec::new(alloc));
    let said = say_end(alloc, end, &mut out, &mut err).code();
    compare(rt, &out, b"", "out", &[line]);
    compare(rt, &err, line.as_bytes(), "err", &[line]);
    assert!(rt; said == status, "status of {line}");
}

#[test]
fn each_limit_has_its_line(rt: HostRuntime) {
    let alloc = rt.alloc();
    let files = ScanEnd::Passed(PassEnd::Walk(WalkFault::TooMany));
    says(&rt, alloc, &files, "dbgd: limit files\n", 5);
    let entries = ScanEnd::Passed(PassEnd::Walk(WalkFault::TooManyEntries));
    says(&rt, alloc, &entries, "dbgd: limit entries\n", 5);
    let rows = ScanEnd::Refused(OpenFault::LogFull);
    says(&rt, alloc, &rows, "dbgd: limit changes\n", 5);
    let changes = ScanEnd::Passed(PassEnd::LogFull);
    says(&rt, alloc, &changes, "dbgd: limit changes\n", 5);
}

/// The end at a file that was missed by this cause: its name has one second and one nanosecond before
/// 1970.
fn missed(rt: &impl Abort, alloc: Global, cause: Cause) -> ScanEnd {
    let text = String::from_str(alloc, "/srv/a").expect(rt, "memory");
    let path = CanonPath::check(text).ok().expect(rt, "a path");
    let stamp = Stamp {
        size: 0,
        secs: -2,
        nanos: 999_999_999,
    };
    ScanEnd::Passed(PassEnd::Missed(Miss {
        name: Name { path, stamp },
        cause,
    }))
}

/// The largest stamp of a file, seven nanoseconds after 1970.
const LARGEST: Stamp = Stamp {
    size: 18_446_744_073_709_551_615,
    secs: 0,
    nanos: 7,
};

#[test]
fn what_stands_in_a_file_s_place_is_said(rt: HostRuntime) {
    let alloc = rt.alloc();
    let gone = missed(&rt, alloc, Cause::Altered { seen: Seen::Gone });
    says(
        &rt,
        alloc,
        &gone,
        "dbgd: altered /srv/a listed 0:-2:999999999 seen gone\n",
        4,
    );
    let other = missed(&rt, alloc, Cause::Altered { seen: Seen::Other });
    says(
        &rt,
        alloc,
        &other,
        "dbgd: altered /srv/a listed 0:-2:999999999 seen other\n",
        4,
    );
    let largest = missed(
        &rt,
        alloc,
        Cause::Altered {
            seen: Seen::File(LARGEST),
        },
    );
    says(
        &rt,
        alloc,
        &largest,
        "dbgd: altered /srv/a listed 0:-2:999999999 \
        seen 18446744073709551615:0:000000007\n",
        4,
    );
    let stands = missed(&rt, alloc, Cause::Appeared);
    says(
        &rt,
        alloc,
        &stands,
        "dbgd: appeared /srv/a 0:-2:999999999\n",
        4,
    );
}
