//! Openings of stores that hold rows.

use crate::states::helpers::{NOTHING, ended};
use index_keeper::{Keeper, Kept, KeptAnswer, MemStore, Store, StoreAnswer};
use index_state::Standing;
use row_types::OpenWorld;
use sample_index::opened;
use std::alloc::Global;
use std::process::Abort;

/// The row bytes of an empty file, changed at second 100, no ELF file, by this edition; its path is
/// `/` and this letter.
const fn row_bytes(edition: u8, letter: u8) -> [u8; 29] {
    [
        edition, 2, 0, 0, 0, 0x2f, letter, 0, 0, 0, 0, 0, 0, 0, 0, 0x64, 0, 0, 0, 0, 0, 0, 0, 0, 0,
        0, 0, 0, 1,
    ]
}

/// The store that keeps rows of these editions under `/a`, `/b` and `/c`.
fn store_of(rt: &impl Abort, alloc: Global, editions: [u8; 3]) -> MemStore<OpenWorld> {
    let [a, b, c] = editions;
    let first = Kept::of(alloc, "/a", &row_bytes(a, b'a')).expect(rt, "memory");
    let second = Kept::of(alloc, "/b", &row_bytes(b, b'b')).expect(rt, "memory");
    let third = Kept::of(alloc, "/c", &row_bytes(c, b'c')).expect(rt, "memory");
    let kept = vec![in alloc; first, second, third].expect(rt, "memory");
    MemStore::new(alloc, kept, None, Vec::new(alloc))
}

/// The paths of these rows, in order, each with a space behind it.
fn paths_text(rt: &impl Abort, alloc: Global, answer: KeptAnswer) -> String {
    let mut text = String::new(alloc);
    if let KeptAnswer::All(rows) = answer {
        for row in &rows {
            text.push_str(row.path.as_str()).expect(rt, "memory");
            text.push_str(" ").expect(rt, "memory");
        }
    }
    text
}

/// The paths that the store keeps.
fn kept_paths(rt: &impl Abort, alloc: Global, store: &mut MemStore<OpenWorld>) -> String {
    let StoreAnswer::Opened(mut keeper) = store.open_store(alloc, "m") else {
        panic!(rt; "the store opens")
    };
    let answer = keeper.rows(alloc);
    store.give_back(keeper);
    paths_text(rt, alloc, answer)
}

/// Opens the index, and compares its rows, so many, and how it stands.
fn opens_with(
    rt: &impl Abort,
    alloc: Global,
    store: &mut MemStore<OpenWorld>,
    want: &str,
    count: u64,
) {
    let index = opened(alloc, store).ok().expect(rt, "an index opens");
    let (rows, standing) = ended(rt, alloc, store, index);
    assert!(rt; rows.as_str() == want);
    let stands = Standing {
        log: count,
        rows: count,
        ..NOTHING
    };
    assert!(rt; standing == stands);
}

#[test]
fn an_index_opens_with_the_rows_of_its_edition(rt: HostRuntime) {
    let alloc = rt.alloc();
    let mut store = store_of(&rt, alloc, [2, 3, 2]);
    opens_with(&rt, alloc, &mut store, "/a 0, /c 0, ", 2);
    assert!(rt; kept_paths(&rt, alloc, &mut store).as_str() == "/a /c ");
    opens_with(&rt, alloc, &mut store, "/a 0, /c 0, ", 2);
}

#[test]
fn rows_of_the_first_edition_and_of_a_later_one_go_at_the_first_opening(rt: HostRuntime) {
    let alloc = rt.alloc();
    let mut store = store_of(&rt, alloc, [1, 2, 9]);
    opens_with(&rt, alloc, &mut store, "/b 0, ", 1);
    assert!(rt; kept_paths(&rt, alloc, &mut store).as_str() == "/b ");
    let mut first = store_of(&rt, alloc, [1, 1, 1]);
    opens_with(&rt, alloc, &mut first, "", 0);
    assert!(rt; kept_paths(&rt, alloc, &mut first).as_str() == "");
}
