//! What a store and a keeper answer.

use crate::kept::Kept;

/// What came of a change.
#[derive(Clone, Copy, PartialEq, Eq)]
pub enum KeepAnswer {
    /// The tables have the change.
    Done,
    /// The store failed; the tables may have the change or not.
    Failed,
    /// There was not enough memory, and nothing changed.
    OutOfMemory,
}

/// What a keeper keeps.
#[derive(Drop)]
pub enum KeptAnswer {
    /// All that is kept, by path.
    All(Vec<Kept>),
    /// The store failed.
    Failed,
    /// There was not enough memory.
    OutOfMemory,
}

/// What came of an opening.
#[derive(Drop)]
pub enum StoreAnswer<K> {
    /// The store is open.
    Opened(K),
    /// The store failed.
    Failed,
    /// There was not enough memory.
    OutOfMemory,
}
