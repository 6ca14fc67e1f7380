//! How a pass ends.

use crate::summary::Summary;
use scan_queue::Miss;
use tree_walk::WalkFault;

/// How a pass ends.
#[derive(Drop)]
pub enum PassEnd {
    /// The index is one scan of what the walk listed.
    Whole(Summary),
    /// The first name that was missed, by path; of two with one path the listed one.
    Missed(Miss),
    /// The folders could not be walked.
    Walk(WalkFault),
    /// The index was broken before the pass began.
    Broken,
    /// The keeper failed, and the index is broken from now on.
    KeeperFault,
    /// The log has no room.
    LogFull,
    /// Memory was refused.
    OutOfMemory,
}
