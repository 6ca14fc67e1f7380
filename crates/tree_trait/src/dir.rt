//! What a tree answers of a folder.

ghost use Rattle.std.specs.Prelude.{◌≡◌, IfOk};
ghost use Rattle.tree_trait.specs.Dir.{dir_facts};

use crate::entry::Entry;
use std::alloc::{AllocError, Global};

/// What a folder has.
#[derive(Drop)]
pub enum DirAnswer {
    /// The folder's entries.
    Listed {
        /// The entries that could be read, in no order that is promised.
        entries: Vec<Entry>,
        /// How many entries were passed over.
        skipped: u64,
    },
    /// No folder is there.
    Gone,
    /// Reading failed, and the tree's count of faults rose.
    Failed,
    /// Memory was refused, and the tree is as it was.
    OutOfMemory,
}

impl DirAnswer {
    /// A copy.
    pub fn copy(&self, alloc: Global) -> Result<DirAnswer, AllocError>
        ensures { IfOk result (λ answer. dir_facts answer ≡ dir_facts self.now) }
    {
        Ok(match self {
            DirAnswer::Listed { entries, skipped } => DirAnswer::Listed {
                entries: copy_entries(alloc, entries.as_slice())?,
                skipped: *skipped,
            },
            DirAnswer::Gone => DirAnswer::Gone,
            DirAnswer::Failed => DirAnswer::Failed,
            DirAnswer::OutOfMemory => DirAnswer::OutOfMemory,
        })
    }
}

/// Copies of the entries.
fn copy_entries(alloc: Global, entries: &[Entry]) -> Result<Vec<Entry>, AllocError>
    ensures { IfOk result (λ copies. copies.items ≡ entries.now) }
{
    let mut copies = Vec::with_capacity(alloc, entries.len())?;
    for entry in entries {
        copies.push(copy_entry(alloc, entry)?)?;
    }
    Ok(copies)
}

/// A copy of an entry.
fn copy_entry(alloc: Global, entry: &Entry) -> Result<Entry, AllocError>
    ensures { IfOk result (λ copy. copy ≡ entry.now) }
{
    Ok(Entry {
        name: String::from_str(alloc, entry.name.as_str())?,
        kind: entry.kind,
    })
}
