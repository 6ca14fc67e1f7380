//! Scans into a database in memory, which tells its tables and stops at one of its calls.

use crate::rig::{after, kept_paths};
use crate::scans::{Around, around, compare, goes_on};
use crate::stopping::StoppingStore;
use std::alloc::Global;
use std::process::Abort;
use std::sync::Wait;
use std::thread::Threads;

/// The store of a database that these statements made, which stops at the call of this number.
fn store(rt: &impl Abort, alloc: Global, sql: &str, stop_at: u64) -> StoppingStore {
    StoppingStore::new(after(rt, alloc, sql), stop_at)
}

/// What is around such a store.
fn stopping_at(rt: &impl Abort, alloc: Global, sql: &str, stop_at: u64) -> Around<StoppingStore> {
    around(rt, alloc, store(rt, alloc, sql, stop_at))
}

/// Two rows of the first edition, which isn't this program's.
static STALE: &str = "CREATE TABLE kept(path TEXT PRIMARY KEY NOT NULL, body BLOB NOT NULL) STRICT;
    INSERT INTO kept VALUES
    ('/a', x'01020000002f6100000000000000006400000000000000000000000001'),
    ('/b', x'01020000002f6200000000000000006400000000000000000000000001')";

/// The paths of the changes that a scan makes, in order: such rows are removed as the index opens,
/// and then the row of each file is put.
static CHANGES: [&str; 7] = [
    "/a",
    "/b",
    "/srv/debug/notes.txt",
    "/srv/debug/ppc.debug",
    "/srv/debug/tool.debug",
    "/w/src/inc/util.h",
    "/w/src/main.c",
];

/// How many of them are removals.
const REMOVALS: usize = 2;

/// The paths that are kept once the first changes were made, so many, each with a space behind it.
fn left(rt: &impl Abort, alloc: Global, made: usize) -> String {
    let mut text = String::new(alloc);
    let paths = CHANGES
        .as_slice()
        .get(made.min(REMOVALS)..made.max(REMOVALS))
        .expect(rt, "so many changes");
    for path in paths {
        text.push_str(*path).expect(rt, "memory");
        text.push_str(" ").expect(rt, "memory");
    }
    text
}

/// A scan that stops behind the first changes, so many; one that goes on from what they left; and
/// one that finds all five rows.
fn stops_and_goes_on<Rt: Threads + Wait + Sync + Abort>(
    rt: &Rt,
    alloc: Global,
    outside: &mut Around<StoppingStore>,
    made: usize,
) {
    compare(rt, alloc, outside, "", "dbgd: fault store\n", 1);
    let paths = kept_paths(rt, alloc, &mut outside.store);
    assert!(rt;
        paths.as_str() == left(rt, alloc, made).as_str(),
        "{made}: {paths}"
    );
    goes_on(rt, alloc, outside, made.saturating_sub(REMOVALS) as u64);
    goes_on(rt, alloc, outside, 5);
}

/// Scans of a database that these statements made, one for each call: its opening, the reading of
/// its rows, and the changes from this one on. Then one that doesn't stop.
fn stops_at_each_call<Rt: Threads + Wait + Sync + Abort>(
    rt: &Rt,
    alloc: Global,
    sql: &str,
    first: usize,
) {
    let calls = CHANGES.len().saturating_sub(first).saturating_add(2);
    for stop_at in 0..calls {
        let made = first.saturating_add(stop_at.saturating_sub(2));
        let mut outside = stopping_at(rt, alloc, sql, stop_at as u64);
        stops_and_goes_on(rt, alloc, &mut outside, made);
    }
    let mut outside = stopping_at(rt, alloc, sql, calls as u64);
    goes_on(rt, alloc, &mut outside, 0);
}

#[test]
fn a_scan_goes_on_where_the_database_stopped(rt: HostRuntime) {
    stops_at_each_call(&rt, rt.alloc(), "", REMOVALS);
}

#[test]
fn an_opening_goes_on_where_the_database_stopped(rt: HostRuntime) {
    stops_at_each_call(&rt, rt.alloc(), STALE, 0);
}
