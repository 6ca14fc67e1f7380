//! What no clause says: that memory suffices for the calls of a store and of its keeper.

use index_keeper::{KeepAnswer, Keeper, KeptAnswer, MemKeeper, MemStore, Store, StoreAnswer};
use row_codec::write_row;
use row_types::OpenWorld;
use sample_rows::plain;
use std::alloc::Global;
use std::process::Abort;

/// The keeper of a store that opens.
fn opened(rt: &impl Abort, alloc: Global, store: &mut MemStore<OpenWorld>) -> MemKeeper<OpenWorld> {
    match store.open_store(alloc, "m") {
        StoreAnswer::Opened(keeper) => keeper,
        _ => panic!(rt; "the store doesn't open"),
    }
}

/// The paths that a keeper keeps, in order, each with a space behind it.
fn kept_paths<K: Keeper<OpenWorld>>(rt: &impl Abort, alloc: Global, keeper: &mut K) -> String {
    let KeptAnswer::All(rows) = keeper.rows(alloc) else {
        panic!(rt; "the rows can't be read")
    };
    let mut text = String::new(alloc);
    for row in &rows {
        text.push_str(row.path.as_str()).expect(rt, "memory");
        text.push_str(" ").expect(rt, "memory");
    }
    text
}

/// Keeps the row of an empty file of this path, which is no ELF file.
fn put<K: Keeper<OpenWorld>>(rt: &impl Abort, alloc: Global, keeper: &mut K, path: &str) {
    let row = plain(alloc, path, 0).expect(rt, "a row").into_row();
    let bytes = write_row(alloc, &row).expect(rt, "memory");
    let answer = keeper.put(alloc, row.name.path.text(), bytes.as_slice());
    assert!(rt; answer == KeepAnswer::Done, "put of {path}");
}

/// Puts two rows, one of them twice, and removes one.
fn change<K: Keeper<OpenWorld>>(rt: &impl Abort, alloc: Global, keeper: &mut K) {
    for path in ["/b", "/a", "/b"] {
        put(rt, alloc, keeper, path);
    }
    assert!(rt; kept_paths(rt, alloc, keeper).as_str() == "/a /b ");
    assert!(rt; keeper.remove(alloc, "/a") == KeepAnswer::Done);
}

#[test]
fn rows_come_back_by_path(rt: HostRuntime) {
    let alloc = rt.alloc();
    let mut store: MemStore<OpenWorld> = MemStore::new(
        alloc,
        Vec::new(alloc),
        None,
        Vec::new(alloc),
    );
    let mut keeper = opened(&rt, alloc, &mut store);
    change(&rt, alloc, &mut keeper);
    store.give_back(keeper);
    let mut keeper = opened(&rt, alloc, &mut store);
    assert!(rt; kept_paths(&rt, alloc, &mut keeper).as_str() == "/b ");
    store.give_back(keeper);
}
