//! What a tree answers of a file that is opened and read in parts.

ghost use Rattle.std.specs.Prelude.{◌≡◌, ℕ, List};
ghost use Rattle.row_types.specs.Name.{NameFacts};
ghost use Rattle.tree_trait.specs.Heard.{read_at, call_failed};
ghost use Rattle.tree_trait.specs.Open.{open_facts, room_facts};

use row_types::Stamp;

/// What the opening of a file answers.
#[derive(Drop)]
pub enum OpenAnswer<F: Drop> {
    /// The open file.
    Opened {
        /// The file, which is read in parts.
        file: F,
        /// The stamp that the file has.
        stamp: Stamp,
    },
    /// The file is there and larger than the limit.
    TooLarge {
        /// The stamp that the file has.
        stamp: Stamp,
    },
    /// No regular file is there.
    Gone,
    /// Opening failed, and the tree's count of faults rose.
    Failed,
    /// Memory was refused, and the tree is as it was.
    OutOfMemory,
}

impl<F: Drop> OpenAnswer<F> {
    /// The answer without the file.
    pub fn said(&self) -> OpenAnswer<()>
        ensures { open_facts result ≡ open_facts self.now }
    {
        match self {
            OpenAnswer::Opened { stamp, .. } => OpenAnswer::Opened {
                file: (),
                stamp: *stamp,
            },
            OpenAnswer::TooLarge { stamp } => OpenAnswer::TooLarge { stamp: *stamp },
            OpenAnswer::Gone => OpenAnswer::Gone,
            OpenAnswer::Failed => OpenAnswer::Failed,
            OpenAnswer::OutOfMemory => OpenAnswer::OutOfMemory,
        }
    }
}

/// What a read of an open file answers.
#[derive(Clone, Copy, PartialEq, Eq)]
pub enum RoomAnswer {
    /// The room is filled with the file's bytes.
    Filled,
    /// Reading failed, as where the file ends early, and the tree's count of faults rose. What
    /// stands in the room is not said.
    Failed,
}

impl RoomAnswer {
    /// Whether the read failed.
    pub fn has_failed(self) -> bool
        ensures { (name : NameFacts) (at : ℕ) (bytes : List ℕ)
            → result ≡ call_failed (read_at name at (room_facts self bytes)) }
    {
        matches!(self, RoomAnswer::Failed)
    }
}
