//! Rows that are put, replaced, removed and read again.

use crate::rig::{Call, after, number, session};
use index_keeper::KeepAnswer;
use sqlite_keeper::HeldStore;

/// The calls on a store that holds nothing.
static FIRST: [Call<'static>; 10] = [
    Call::Rows(&[]),
    Call::Put("/b", 1, KeepAnswer::Done),
    Call::Put("/a", 2, KeepAnswer::Done),
    Call::Rows(&[(b'a', 2), (b'b', 1)]),
    Call::Put("/b", 3, KeepAnswer::Done),
    Call::Rows(&[(b'a', 2), (b'b', 3)]),
    Call::Remove("/c", KeepAnswer::Done),
    Call::Remove("/a", KeepAnswer::Done),
    Call::Put("/d", 4, KeepAnswer::Done),
    Call::Rows(&[(b'b', 3), (b'd', 4)]),
];

/// The calls on the same store, later.
static LATER: [Call<'static>; 3] = [
    Call::Rows(&[(b'b', 3), (b'd', 4)]),
    Call::Remove("/b", KeepAnswer::Done),
    Call::Rows(&[(b'd', 4)]),
];

#[test]
fn rows_come_back_by_path(rt: HostRuntime) {
    let alloc = rt.alloc();
    let mut store = HeldStore::new(after(&rt, alloc, ""));
    session(&rt, alloc, &mut store, "m", 1, FIRST.as_slice());
    session(&rt, alloc, &mut store, "m", 2, LATER.as_slice());
    let mut connection = store.into_connection().expect(&rt, "a connection");
    // The tables are those of the format, in its order.
    assert!(rt; number(&rt, &mut connection, "SELECT count(*) FROM kept") == 1);
    assert!(rt; number(&rt, &mut connection, "SELECT n FROM epoch") == 2);
}
