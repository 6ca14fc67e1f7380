//! What is counted.
use crate::number::RouteName;

/// What happened.
#[derive(Clone, Copy, PartialEq, Eq)]
pub enum Count {
    /// A reply was written whole.
    Request {
        route: RouteName,
        /// One of `STATUSES`.
        status: u16,
        /// Bytes of the body that was written.
        bytes: u64,
    },
    /// A pass was made whole, with so many rows added, replaced and dropped.
    Pass {
        added: u64,
        replaced: u64,
        dropped: u64,
    },
}

/// Whether it was counted.
#[derive(Clone, Copy, PartialEq, Eq)]
pub enum Counted {
    /// It was.
    Done,
    /// One of the share's numbers would have passed 2^64 - 1, so nothing was counted.
    Full,
}
