//! What the tests share: connections, calls of a keeper with what they are to answer, the bytes of
//! rows, and what a store keeps.

use index_keeper::{KeepAnswer, Keeper, Kept, KeptAnswer, Store, StoreAnswer};
use row_codec::write_row;
use row_types::OpenWorld;
use sample_rows::plain;
use sqlite::{Alter, Connection, MemStore};
use sqlite_keeper::{AdoptAnswer, HeldStore, SqliteKeeper};
use std::alloc::Global;
use std::process::Abort;

/// A call of a keeper, and what it is to answer. The rows are those of files that are no ELF files,
/// changed at second 100.
#[derive(Clone, Copy)]
pub enum Call<'a> {
    /// The row of this path and size is put.
    Put(&'a str, u8, KeepAnswer),
    /// What is kept under this path is removed.
    Remove(&'a str, KeepAnswer),
    /// The rows are those of these letters and sizes, at the path of a slash and the letter.
    Rows(&'a [(u8, u8)]),
    /// Whether the rows can be read.
    Reads(bool),
}

/// A connection in memory on which these statements were run.
pub fn after(rt: &impl Abort, alloc: Global, sql: &str) -> Connection<MemStore> {
    let mut connection = Connection::open_in_memory(alloc).expect(rt, "memory");
    connection.execute_batch(sql).expect(rt, "statements");
    connection
}

/// The number that a query gives.
pub fn number<S: Alter>(rt: &impl Abort, connection: &mut Connection<S>, sql: &str) -> i64 {
    let row = connection.query_row(sql, &[]).expect(rt, "a row");
    row.get(0).expect(rt, "a number")
}

/// The bytes of such a row by the format: edition, path with its length, size, second and
/// nanoseconds, then that it is no ELF file.
fn spelled(letter: u8, size: u8) -> [u8; 29] {
    [
        2, 2, 0, 0, 0, 0x2f, letter, size, 0, 0, 0, 0, 0, 0, 0, 0x64, 0, 0, 0, 0, 0, 0, 0, 0, 0, 0,
        0, 0, 1,
    ]
}

/// Keeps the row of this path and size.
fn put<K: Keeper<OpenWorld>>(
    rt: &impl Abort,
    alloc: Global,
    keeper: &mut K,
    path: &str,
    size: u8,
) -> KeepAnswer {
    let row = plain(alloc, path, u64::from(size))
        .expect(rt, "a row")
        .into_row();
    let bytes = write_row(alloc, &row).expect(rt, "memory");
    keeper.put(alloc, row.name.path.text(), bytes.as_slice())
}

/// Compares rows with those of these letters and sizes.
fn compare(rt: &impl Abort, rows: &[Kept], want: &[(u8, u8)]) {
    assert!(rt; rows.len() == want.len(), "the number of rows");
    for (row, (letter, size)) in rows.iter().zip(want) {
        assert!(rt; row.path.as_bytes() == [b'/', *letter].as_slice());
        assert!(rt; row.bytes.as_slice() == spelled(*letter, *size).as_slice());
    }
}

/// Whether the rows of a keeper can be read.
fn reads<K: Keeper<OpenWorld>>(rt: &impl Abort, alloc: Global, keeper: &mut K) -> bool {
    match keeper.rows(alloc) {
        KeptAnswer::All(_) => true,
        KeptAnswer::Failed => false,
        KeptAnswer::OutOfMemory => panic!(rt; "no memory"),
    }
}

/// Compares all rows of a keeper with those of these letters and sizes.
fn compare_all<K: Keeper<OpenWorld>>(
    rt: &impl Abort,
    alloc: Global,
    keeper: &mut K,
    want: &[(u8, u8)],
) {
    match keeper.rows(alloc) {
        KeptAnswer::All(rows) => compare(rt, rows.as_slice(), want),
        _ => panic!(rt; "the rows can't be read"),
    }
}

/// Makes a call, and looks at what is answered.
pub fn make_call<K: Keeper<OpenWorld>>(
    rt: &impl Abort,
    alloc: Global,
    keeper: &mut K,
    call: Call<'_>,
) {
    match call {
        Call::Put(path, size, want) => {
            assert!(rt; put(rt, alloc, keeper, path, size) == want, "put of {path}")
        }
        Call::Remove(path, want) => {
            assert!(rt; keeper.remove(alloc, path) == want, "removal of {path}")
        }
        Call::Rows(want) => compare_all(rt, alloc, keeper, want),
        Call::Reads(want) => assert!(rt; reads(rt, alloc, keeper) == want, "all rows"),
    }
}

/// Makes the calls, one after the other.
pub fn make_calls<K: Keeper<OpenWorld>>(
    rt: &impl Abort,
    alloc: Global,
    keeper: &mut K,
    calls: &[Call<'_>],
) {
    for call in calls {
        make_call(rt, alloc, keeper, *call);
    }
}

/// The keeper of a store that opens.
pub fn opened<S: Store<OpenWorld>>(
    rt: &impl Abort,
    alloc: Global,
    store: &mut S,
    path: &str,
) -> S::K {
    match store.open_store(alloc, path) {
        StoreAnswer::Opened(keeper) => keeper,
        _ => panic!(rt; "the store doesn't open"),
    }
}

/// Whether the store doesn't open.
pub fn is_refused<S: Store<OpenWorld>>(alloc: Global, store: &mut S, path: &str) -> bool {
    matches!(store.open_store(alloc, path), StoreAnswer::Failed)
}

/// The connection that a refused adoption gives back.
pub fn not_adopted(rt: &impl Abort, connection: Connection<MemStore>) -> Connection<MemStore> {
    match SqliteKeeper::adopt(connection) {
        AdoptAnswer::Failed(connection) => connection,
        _ => panic!(rt; "the connection was taken over"),
    }
}

/// The connection of a store that could not be opened.
pub fn not_opened(
    rt: &impl Abort,
    alloc: Global,
    connection: Connection<MemStore>,
) -> Connection<MemStore> {
    let mut store = HeldStore::new(connection);
    assert!(rt; is_refused(alloc, &mut store, "m"), "the store opens");
    store.into_connection().expect(rt, "a connection")
}

/// Makes the calls on a keeper of the store, whose opening is to have this number, and gives it
/// back.
pub fn session<S: Store<OpenWorld>>(
    rt: &impl Abort,
    alloc: Global,
    store: &mut S,
    path: &str,
    epoch: u64,
    calls: &[Call<'_>],
) {
    let mut keeper = opened(rt, alloc, store, path);
    assert!(rt; keeper.epoch() == epoch, "the number of the opening");
    make_calls(rt, alloc, &mut keeper, calls);
    store.give_back(keeper);
}

/// The paths of these rows, in order, each with a space behind it.
fn paths_text(rt: &impl Abort, alloc: Global, answer: KeptAnswer) -> String {
    let mut text = String::new(alloc);
    if let KeptAnswer::All(rows) = answer {
        for row in &rows {
            text.push_str(row.path.as_str()).expect(rt, "memory");
            text.push_str(" ").expect(rt, "memory");
        }
    } else {
        text.push_str("unread").expect(rt, "memory");
    }
    text
}

/// The paths that a store keeps, in order, each with a space behind it.
pub fn kept_paths<S: Store<OpenWorld>>(rt: &impl Abort, alloc: Global, store: &mut S) -> String {
    let mut keeper = opened(rt, alloc, store, "m");
    let answer = keeper.rows(alloc);
    store.give_back(keeper);
    paths_text(rt, alloc, answer)
}
