//! What a tree in memory was asked.

ghost use Rattle.std.specs.Prelude.{◌≡◌, IfOk, IfSome};
ghost use Rattle.tree_trait.specs.Dir.{dir_facts};
ghost use Rattle.tree_trait.specs.Found.{found_name};
ghost use Rattle.tree_trait.specs.Heard.{load, stat, read_dir, open_file, read_at, call_failed};
ghost use Rattle.tree_trait.specs.HeardCalls.{heard_facts, IsListedAs};
ghost use Rattle.tree_trait.specs.Load.{load_facts};
ghost use Rattle.tree_trait.specs.Open.{open_facts, room_facts};

use crate::answer::LoadAnswer;
use crate::dir::DirAnswer;
use crate::found::Found;
use crate::opening::{OpenAnswer, RoomAnswer};
use crate::stat::StatAnswer;
use row_types::{Stamp, Truth};
use std::alloc::{AllocError, Global};

/// A question with a copy of its answer.
#[derive(Drop)]
pub enum HeardCall<W: Truth> {
    /// The load of a file.
    Load {
        /// The path that was asked.
        path: String,
        /// The limit that was given.
        limit: u64,
        /// What was answered.
        answer: LoadAnswer<W>,
    },
    /// A look at a path.
    Stat {
        /// The path that was asked.
        path: String,
        /// What was answered.
        answer: StatAnswer,
    },
    /// The reading of a folder.
    ReadDir {
        /// The path that was asked.
        path: String,
        /// What was answered.
        answer: DirAnswer,
    },
    /// The opening of a file.
    Open {
        /// The path that was asked.
        path: String,
        /// The limit that was given.
        limit: u64,
        /// What was answered, without the file.
        answer: OpenAnswer<()>,
    },
    /// A read of an open file that filled the room.
    Filled {
        /// The path with which the file was opened.
        path: String,
        /// The stamp with which it was opened.
        stamp: Stamp,
        /// The place of the first byte.
        at: u64,
        /// The bytes.
        bytes: Vec<u8>,
    },
    /// A read of an open file that failed.
    Unread {
        /// The path with which the file was opened.
        path: String,
        /// The stamp with which it was opened.
        stamp: Stamp,
        /// The place of the first byte.
        at: u64,
        /// How many bytes were asked for.
        len: usize,
    },
}

impl<W: Truth> HeardCall<W> {
    /// Whether the call failed.
    pub fn has_failed(&self) -> bool
        ensures { result ≡ call_failed (heard_facts self.now) }
    {
        matches!(
            self,
            HeardCall::Load {
                answer: LoadAnswer::Failed,
                ..
            } | HeardCall::Stat {
                answer: StatAnswer::Failed,
                ..
            } | HeardCall::ReadDir {
                answer: DirAnswer::Failed,
                ..
            } | HeardCall::Open {
                answer: OpenAnswer::Failed,
                ..
            } | HeardCall::Unread { .. }
        )
    }
}

/// The load of a file as it is listed, which it isn't if memory was refused.
pub fn heard_load<W: Truth>(
    alloc: Global,
    path: &str,
    limit: u64,
    answer: &LoadAnswer<W>,
) -> Option<HeardCall<W>>
    ensures { IfSome result (λ call.
        IsListedAs (load path.now limit (load_facts answer.now)) (heard_facts call)) }
{
    if matches!(answer, LoadAnswer::OutOfMemory) {
        return None;
    }
    Some(HeardCall::Load {
        path: String::from_str(alloc, path).ok()?,
        limit,
        answer: answer.copy(alloc).ok()?,
    })
}

/// A look at a path as it is listed, which it isn't if memory was refused.
pub fn heard_stat<W: Truth>(alloc: Global, path: &str, answer: &StatAnswer) -> Option<HeardCall<W>>
    ensures { IfSome result (λ call. IsListedAs (stat path.now answer.now) (heard_facts call)) }
{
    if matches!(answer, StatAnswer::OutOfMemory) {
        return None;
    }
    Some(HeardCall::Stat {
        path: String::from_str(alloc, path).ok()?,
        answer: *answer,
    })
}

/// The reading of a folder as it is listed, which it isn't if memory was refused.
pub fn heard_read_dir<W: Truth>(
    alloc: Global,
    path: &str,
    answer: &DirAnswer,
) -> Option<HeardCall<W>>
    ensures { IfSome result (λ call.
        IsListedAs (read_dir path.now (dir_facts answer.now)) (heard_facts call)) }
{
    if matches!(answer, DirAnswer::OutOfMemory) {
        return None;
    }
    Some(HeardCall::ReadDir {
        path: String::from_str(alloc, path).ok()?,
        answer: answer.copy(alloc).ok()?,
    })
}

/// The opening of a file as it is listed, which it isn't if memory was refused.
pub fn heard_open<W: Truth, F: Drop>(
    alloc: Global,
    path: &str,
    limit: u64,
    answer: &OpenAnswer<F>,
) -> Option<HeardCall<W>>
    ensures { IfSome result (λ call.
        IsListedAs (open_file path.now limit (open_facts answer.now)) (heard_facts call)) }
{
    if matches!(answer, OpenAnswer::OutOfMemory) {
        return None;
    }
    Some(HeardCall::Open {
        path: String::from_str(alloc, path).ok()?,
        limit,
        answer: answer.said(),
    })
}

/// A read of an open file as it is listed, by the room that it left.
pub fn heard_read<W: Truth>(
    alloc: Global,
    file: &Found<W>,
    at: u64,
    answer: RoomAnswer,
    room: &[u8],
) -> Result<HeardCall<W>, AllocError>
    ensures { IfOk result (λ call. heard_facts call
        ≡ read_at (found_name file.now) at (room_facts answer room.now)) }
{
    let path = String::from_str(alloc, file.path.as_str())?;
    let stamp = file.stamp;
    Ok(match answer {
        RoomAnswer::Filled => HeardCall::Filled {
            path,
            stamp,
            at,
            bytes: Vec::from_slice(alloc, room)?,
        },
        RoomAnswer::Failed => HeardCall::Unread {
            path,
            stamp,
            at,
            len: room.len(),
        },
    })
}
