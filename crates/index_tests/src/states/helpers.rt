//! What the tests share: stores, listings, and what an index is to answer.

use index_keeper::{MemStore, Store};
use index_state::{Plan, Standing};
use row_types::{Name, Truth};
use sample_index::Index;
use sample_rows::{name_text, names, rows_text};
use scan_queue::Listing;
use std::alloc::Global;
use std::process::Abort;

/// The listing of files of these paths and sizes.
pub fn listing(rt: &impl Abort, alloc: Global, files: &[(&str, u64)]) -> Listing {
    let names = names(alloc, files).expect(rt, "names");
    Listing::new(names).ok().expect(rt, "names by path")
}

/// The listing of this name alone.
pub fn listing_of(rt: &impl Abort, alloc: Global, name: Name) -> Listing {
    let names = vec![in alloc; name].expect(rt, "memory");
    Listing::new(names).ok().expect(rt, "one name is by path")
}

/// The rows of the index, and how it stands. Its keeper is given back.
pub fn ended<W: Truth + Send>(
    rt: &impl Abort,
    alloc: Global,
    store: &mut MemStore<W>,
    index: Index<W>,
) -> (String, Standing) {
    let rows = rows_text(alloc, index.rows()).expect(rt, "memory");
    let standing = index.standing();
    store.give_back(index.into_keeper());
    (rows, standing)
}

/// The path and the size of the name that is handed out, or nothing.
pub fn taken_text(rt: &impl Abort, alloc: Global, taken: Option<Name>) -> String {
    match taken {
        Some(name) => name_text(alloc, &name).expect(rt, "memory"),
        None => String::new(alloc),
    }
}

/// The plan of a pass that has nothing to do.
pub const NO_PLAN: Plan = Plan {
    files: 0,
    add: 0,
    replace: 0,
    drop: 0,
    keep: 0,
};

/// The standing of an index that isn't broken, and has nothing.
pub const NOTHING: Standing = Standing {
    todo: 0,
    out: 0,
    groom: 0,
    missed: 0,
    log: 0,
    rows: 0,
    broken: false,
};
