//! Statements that the database refuses.

use crate::rig::{Call, after, make_call, opened};
use index_keeper::{KeepAnswer, Keeper, Store};
use sqlite::MemStore;
use sqlite_keeper::HeldStore;
use std::alloc::Global;
use std::process::Abort;

/// A call, and how often a call has failed since the opening, once it is answered.
type Step = (Call<'static>, u64);

/// Makes the calls on a keeper of the store, whose opening is to have this number, looks at its
/// count behind each, and gives it back.
fn count(
    rt: &impl Abort,
    alloc: Global,
    store: &mut HeldStore<MemStore>,
    epoch: u64,
    steps: &[Step],
) {
    let mut keeper = opened(rt, alloc, store, "m");
    assert!(rt; keeper.faults().count() == 0, "the count of a new keeper");
    assert!(rt; keeper.epoch() == epoch, "the number of the opening");
    for (call, faults) in steps {
        make_call(rt, alloc, &mut keeper, *call);
        assert!(rt;
            keeper.faults().count() == *faults,
            "the count is to be {faults}"
        );
    }
    store.give_back(keeper);
}

/// Four rows can't be read where a statement may take four steps; one row can.
static REFUSED: [Step; 9] = [
    (Call::Put("/a", 9, KeepAnswer::Done), 0),
    (Call::Put("/b", 10, KeepAnswer::Done), 0),
    (Call::Put("/c", 11, KeepAnswer::Done), 0),
    (Call::Put("/d", 12, KeepAnswer::Done), 0),
    (Call::Reads(false), 1),
    (Call::Remove("/b", KeepAnswer::Done), 1),
    (Call::Remove("/c", KeepAnswer::Done), 1),
    (Call::Remove("/d", KeepAnswer::Done), 1),
    (Call::Rows(&[(b'a', 9)]), 1),
];

#[test]
fn a_refused_statement_counts_and_changes_nothing(rt: HostRuntime) {
    let alloc = rt.alloc();
    let mut connection = after(&rt, alloc, "");
    connection.set_step_limit(Some(4));
    let mut store = HeldStore::new(connection);
    count(&rt, alloc, &mut store, 1, REFUSED.as_slice());
    count(&rt, alloc, &mut store, 2, &[]);
}
