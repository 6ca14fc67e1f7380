//! The hands of told worlds.

use sample_world::{SampleWorld, changed_file_script, reference_script};
use std::alloc::Global;
use std::process::Abort;
use tree_trait::MemTree;

/// A hand of the told world that has the reference tree, and fails at these calls.
pub fn told_reference(rt: &impl Abort, alloc: Global, bad: &[u64]) -> MemTree<SampleWorld> {
    let bad_calls = Vec::from_slice(alloc, bad).expect(rt, "memory");
    let script = reference_script(alloc, bad_calls).expect(rt, "memory");
    MemTree::new(alloc, script)
}

/// A hand of the told world that has the file which changes before this call.
pub fn changed_file(rt: &impl Abort, alloc: Global, call: u64) -> MemTree<SampleWorld> {
    MemTree::new(alloc, changed_file_script(alloc, call).expect(rt, "memory"))
}
