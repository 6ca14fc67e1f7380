//! What a server is made with.

use dbgd_commands::Kinds;
use row_types::CanonPath;
use std::alloc::Global;
use tree_trait::Gate;

/// What a server's words ask, and what stays while it runs.
#[derive(Drop)]
pub(crate) struct Site<'a, G: Gate, Rt> {
    pub(crate) rt: &'a Rt,
    pub(crate) alloc: Global,
    /// The path of the store.
    pub(crate) path: &'a str,
    /// The first line.
    pub(crate) line: &'a str,
    /// The folders that are scanned.
    pub(crate) roots: &'a [CanonPath],
    /// The folders of sources: those that are scanned, and those for sources alone.
    pub(crate) folders: &'a [CanonPath],
    /// Seconds from one pass to the next. With none there is one pass.
    pub(crate) secs: u64,
    /// The number of doors.
    pub(crate) doors: u64,
    pub(crate) gate: &'a G,
}

/// The same of these kinds.
pub(crate) type SiteOf<'a, X, Rt> = Site<'a, <X as Kinds>::G, Rt>;
