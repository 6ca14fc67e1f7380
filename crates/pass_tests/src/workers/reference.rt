//! The work on the reference tree in a told world, by a hand that tells what it has.

use crate::rig::{Files, ROWS, sample_tree};
use crate::workers::helpers::{outcome_of_one, outcome_of_two, report};
use index_desk::WorkEnd;
use sample_index::{Index, names_of, passing};
use sample_world::{REFERENCE_TREE, SampleWorld};
use std::alloc::Global;
use std::process::Abort;
use tree_trait::{MemTree, NoGate};

/// The index in a pass over the reference tree, on a store that stops at this call.
fn index_of(rt: &impl Abort, alloc: Global, stop_at: Option<u64>) -> Index<SampleWorld> {
    let names = names_of(alloc, &REFERENCE_TREE).expect(rt, "names");
    passing(alloc, stop_at, names, "/").expect(rt, "a pass begins")
}

/// The reference tree.
fn tree(rt: &impl Abort, alloc: Global) -> MemTree<SampleWorld> {
    sample_tree(rt, alloc, Files::Reference, None, &[])
}

#[test]
fn one_worker_reads_the_reference_tree(rt: HostRuntime) {
    let alloc = rt.alloc();
    let index = index_of(&rt, alloc, None);
    let outcome = outcome_of_one(&rt, alloc, index, tree(&rt, alloc), &NoGate);
    assert!(rt; outcome.report == report(12, 12, 0, WorkEnd::Empty));
    assert!(rt; outcome.rows.as_str() == ROWS);
    let standing = outcome.standing;
    assert!(rt; (standing.todo, standing.out, standing.log) == (0, 0, 12));
}

/// The first worker meets the failure of the store at its first row. The next one finds the index
/// broken as it hands in the second, and no name is given back.
#[test]
fn a_store_that_fails_ends_each_worker(rt: HostRuntime) {
    let alloc = rt.alloc();
    let index = index_of(&rt, alloc, Some(2));
    let hands = (tree(&rt, alloc), tree(&rt, alloc));
    let outcome = outcome_of_two(&rt, alloc, index, hands);
    assert!(rt; outcome.report.0 == report(1, 0, 0, WorkEnd::KeeperFault));
    assert!(rt; outcome.report.1 == report(1, 0, 0, WorkEnd::Broken));
    let standing = outcome.standing;
    assert!(rt; (standing.todo, standing.out, standing.rows) == (10, 2, 0));
    assert!(rt; standing.broken);
}
