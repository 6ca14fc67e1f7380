//! What a connection is served with.

use row_types::CanonPath;
use std::alloc::Global;
use std::sync::Wait;
use tree_trait::Gate;

/// What stays for all the requests of a connection.
#[derive(Drop)]
pub(crate) struct Service<'a, G: Gate, R: Wait + Sync> {
    pub rt: &'a R,
    pub alloc: Global,
    /// The folders of sources.
    pub folders: &'a [CanonPath],
    /// The connection's number, under which the gate is passed.
    pub number: u64,
    pub gate: &'a G,
}
