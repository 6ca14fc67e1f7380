//! What a tree answers of a path.

use row_types::Stamp;

/// What stands at a path.
#[derive(Clone, Copy, PartialEq, Eq)]
pub enum StatAnswer {
    /// A folder.
    Folder,
    /// A regular file with this stamp.
    File(Stamp),
    /// Something else, as a link.
    Other,
    /// Nothing is there.
    Gone,
    /// The look failed, and the tree's count of faults rose.
    Failed,
    /// Memory was refused, and the tree is as it was.
    OutOfMemory,
}
