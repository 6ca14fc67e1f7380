//! How the work on a pass ends.

/// How the work on a pass ends.
#[derive(Clone, Copy, PartialEq, Eq)]
pub enum WorkEnd {
    /// No name is left to be handed out.
    Empty,
    /// The index was broken.
    Broken,
    /// The keeper failed, and the index is broken from now on.
    KeeperFault,
    /// The log has no room.
    LogFull,
    /// Memory was refused.
    OutOfMemory,
}
