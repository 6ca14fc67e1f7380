//! What a tree answers.

ghost use Rattle.std.specs.Prelude.{◌≡◌, IfOk};
ghost use Rattle.tree_trait.specs.Load.{load_facts};

use crate::found::Found;
use row_types::{Stamp, Truth};
use std::alloc::{AllocError, Global};

/// What the load of a file answers.
#[derive(Drop)]
pub enum LoadAnswer<W: Truth> {
    /// The file with its bytes.
    Found(Found<W>),
    /// The file is there and larger than the limit.
    TooLarge {
        /// The stamp that the file had.
        stamp: Stamp,
    },
    /// No regular file is there.
    Gone,
    /// Reading failed, and the tree's count of faults rose.
    Failed,
    /// Memory was refused, and the tree is as it was.
    OutOfMemory,
}

impl<W: Truth> LoadAnswer<W> {
    /// A copy.
    pub fn copy(&self, alloc: Global) -> Result<LoadAnswer<W>, AllocError>
        ensures { IfOk result (λ answer. load_facts answer ≡ load_facts self.now) }
    {
        Ok(match self {
            LoadAnswer::Found(found) => LoadAnswer::Found(found.copy(alloc)?),
            LoadAnswer::TooLarge { stamp } => LoadAnswer::TooLarge { stamp: *stamp },
            LoadAnswer::Gone => LoadAnswer::Gone,
            LoadAnswer::Failed => LoadAnswer::Failed,
            LoadAnswer::OutOfMemory => LoadAnswer::OutOfMemory,
        })
    }
}
