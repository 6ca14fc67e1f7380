//! What the tests share: indexes with rows, the work of one groomer, and what it comes to.

use groomer::{GroomReport, groom};
use index_state::Published;
use row_types::{OpenWorld, Truth};
use sample_index::{Index, Outcome, Shared, begin, empty_index, outcome_of, put_behind, taken};
use sample_rows::{names, plain};
use std::alloc::Global;
use std::process::Abort;
use std::sync::Wait;
use tree_trait::{MemTree, NoGate};

/// The index with the rows of these files, which stand by path, on a store that stops at this call.
pub fn index_of(
    rt: &impl Abort,
    alloc: Global,
    stop_at: Option<u64>,
    files: &[(&str, u64)],
) -> Index<OpenWorld> {
    let mut index = empty_index(alloc, stop_at).expect(rt, "an index");
    let listed = names(alloc, files).expect(rt, "names");
    begin(alloc, &mut index, listed, "/").expect(rt, "a pass begins");
    for (path, size) in files {
        let row = plain(alloc, path, *size).expect(rt, "a row");
        let said = index.publish(alloc, row);
        assert!(rt; said == Published::Added, "a row is added");
    }
    index
}

/// What the work of one groomer with this hand comes to.
pub fn outcome_of_one<R: Abort + Wait + Sync>(
    rt: &R,
    alloc: Global,
    index: Index<OpenWorld>,
    hand: MemTree<OpenWorld>,
) -> Outcome<GroomReport> {
    let Shared { lock, seat } = put_behind(alloc, index).expect(rt, "memory");
    let (seat, _, report) = groom(rt, alloc, &lock, seat, hand, &NoGate);
    outcome_of(alloc, taken(rt, Shared { lock, seat }), report).expect(rt, "memory")
}
