//! A tree that has one large file at every path, or no memory.

use row_types::{OpenWorld, Stamp};
use std::alloc::Global;
use tree_trait::{DirAnswer, LoadAnswer, OpenAnswer, RoomAnswer, StatAnswer, Tree};

/// The stamp of a file of one byte more than 64 GiB.
const LARGE: Stamp = Stamp {
    size: 68_719_476_737,
    secs: 100,
    nanos: 0,
};

/// A tree that has one file above the size limit, at every path, or no memory for any.
#[derive(Drop)]
pub enum Crowded {
    TooLarge,
    NoMemory,
}

impl Tree<OpenWorld> for Crowded {
    ghost use Rattle.std.specs.Prelude.{false, None, [], pos};

    type File = ();

    ghost told = { false };

    ghost shows = { λ _. record { present = []; Still = ⊥; heard = None; faults = 0 } };

    ghost opened = { λ _. record { path = []; stamp = record { size = 1; secs = pos 0; nanos = 0 } } };

    fn load(&mut self, _alloc: Global, _path: &str, limit: u64) -> LoadAnswer<OpenWorld> {
        match self {
            Crowded::NoMemory => LoadAnswer::OutOfMemory,
            Crowded::TooLarge if limit < LARGE.size => LoadAnswer::TooLarge { stamp: LARGE },
            Crowded::TooLarge => LoadAnswer::Gone,
        }
    }

    fn stat(&mut self, _alloc: Global, _path: &str) -> StatAnswer {
        match self {
            Crowded::NoMemory => StatAnswer::OutOfMemory,
            Crowded::TooLarge => StatAnswer::File(LARGE),
        }
    }

    fn read_dir(&mut self, _alloc: Global, _path: &str) -> DirAnswer {
        match self {
            Crowded::NoMemory => DirAnswer::OutOfMemory,
            Crowded::TooLarge => DirAnswer::Gone,
        }
    }

    fn open_file(&mut self, _alloc: Global, _path: &str, limit: u64) -> OpenAnswer<()> {
        match self {
            Crowded::NoMemory => OpenAnswer::OutOfMemory,
            Crowded::TooLarge if limit < LARGE.size => OpenAnswer::TooLarge { stamp: LARGE },
            Crowded::TooLarge => OpenAnswer::Gone,
        }
    }

    // No file is opened here. A read leaves the room as it is, which a world that isn't told allows.
    fn read_at(&mut self, _file: &mut (), _at: u64, _room: &mut [u8]) -> RoomAnswer {
        RoomAnswer::Filled
    }
}
