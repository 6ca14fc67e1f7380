//! A file of the system, which is opened again by another store.

use crate::rig::{Call, is_refused, make_calls, opened, session};
use index_keeper::{KeepAnswer, Keeper, Store};
use row_types::OpenWorld;
use sqlite_keeper::SqliteStore;
use std::alloc::Global;
use std::process::Abort;
use std::{env, fs, process};

/// A path in the folder of temporary files, where nothing is.
fn free_path(files: &HostRuntime, rt: &impl Abort) -> String {
    let alloc = files.alloc();
    let name = format!(in alloc; "dbgd-store-{}", process::id(files.process())).expect(
        rt, "memory",
    );
    let folder = env::temp_dir(files).expect(rt, "a folder");
    let path = folder.join(alloc, name.as_str()).expect(rt, "memory");
    String::from_str(alloc, path.as_path().as_str()).expect(rt, "memory")
}

/// What is done at the first opening: a row is put, one is replaced, and one is removed.
static WRITE: [Call<'static>; 5] = [
    Call::Put("/b", 1, KeepAnswer::Done),
    Call::Put("/a", 2, KeepAnswer::Done),
    Call::Put("/b", 3, KeepAnswer::Done),
    Call::Remove("/a", KeepAnswer::Done),
    Call::Put("/d", 4, KeepAnswer::Done),
];

/// What is found at the second opening.
static READ: [Call<'static>; 3] = [
    Call::Rows(&[(b'b', 3), (b'd', 4)]),
    Call::Remove("/b", KeepAnswer::Done),
    Call::Rows(&[(b'd', 4)]),
];

/// Writes the file by one store, while the other can't have it.
fn write<S: Store<OpenWorld>>(
    rt: &impl Abort,
    alloc: Global,
    store: &mut S,
    other: &mut S,
    path: &str,
) {
    let mut keeper = opened(rt, alloc, store, path);
    assert!(rt; keeper.epoch() == 1, "the number of the first opening");
    make_calls(rt, alloc, &mut keeper, WRITE.as_slice());
    assert!(rt; is_refused(alloc, other, path), "the file is in use");
    store.give_back(keeper);
}

/// Opens the file by one store and then by another.
fn write_and_read<S: Store<OpenWorld>>(
    rt: &impl Abort,
    alloc: Global,
    store: &mut S,
    other: &mut S,
    path: &str,
) {
    write(rt, alloc, store, other, path);
    session(rt, alloc, other, path, 2, READ.as_slice());
    // The first opening of another database has no greater number than the last one.
    assert!(rt; is_refused(alloc, other, ":memory:"), "the number fell");
}

/// Whether the file begins as sqlite3 has a database begin; `None` where it can't be read.
fn begins_as_sqlite_does(files: &HostRuntime, path: &str) -> Option<bool> {
    match fs::read(files, path) {
        Ok(bytes) => Some(bytes.starts_with(b"SQLite format 3\0")),
        Err(_) => None,
    }
}

#[test]
fn a_file_keeps_its_rows(rt: HostRuntime) {
    let path = free_path(&rt, &rt);
    let log = format!(in rt.alloc(); "{path}-wal").expect(&rt, "memory");
    let mut store = SqliteStore::new(rt);
    let mut other = SqliteStore::new(rt);
    write_and_read(&rt, rt.alloc(), &mut store, &mut other, path.as_str());
    let begun = begins_as_sqlite_does(&rt, path.as_str());
    let _ = fs::remove_file(&rt, log.as_str());
    let _ = fs::remove_file(&rt, path.as_str());
    assert!(rt; begun == Some(true));
}
