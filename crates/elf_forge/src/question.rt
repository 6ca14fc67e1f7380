//! What a tree of generated files was asked.

ghost use Rattle.std.specs.Prelude.{◌≡◌, ℕ, IfOk};
ghost use Rattle.tree_trait.specs.Found.{found_name};
ghost use Rattle.tree_trait.specs.Heard.{load, stat, read_dir, open_file, read_at};
ghost use Rattle.tree_trait.specs.Open.{room_filled};
ghost use Rattle.elf_forge.specs.Tree.{dir_answer, heard_question, load_answer, open_answer};
ghost use Rattle.elf_forge.specs.Tree.{stat_answer};

use row_types::{OpenWorld, Stamp};
use std::alloc::{AllocError, Global};
use tree_trait::Found;

/// A question to a tree. Its answer follows from it, but for the bytes of a read.
#[derive(Drop)]
pub enum Question {
    /// The load of a file.
    Load {
        /// The path that was asked.
        path: String,
        /// The limit that was given, in bytes.
        limit: u64,
    },
    /// A look at a path.
    Stat {
        /// The path that was asked.
        path: String,
    },
    /// The reading of a folder.
    ReadDir {
        /// The path that was asked.
        path: String,
    },
    /// The opening of a file.
    Open {
        /// The path that was asked.
        path: String,
        /// The limit that was given, in bytes.
        limit: u64,
    },
    /// A read of an open file.
    Read {
        /// The path with which it was opened.
        path: String,
        /// The stamp with which it was opened.
        stamp: Stamp,
        /// The place of the first byte.
        at: u64,
        /// The bytes that were read.
        bytes: Vec<u8>,
    },
}

impl Question {
    /// The question of a load.
    pub fn load(alloc: Global, path: &str, limit: u64) -> Result<Question, AllocError>
        ensures { IfOk result (λ asked. (seed : ℕ) (files : ℕ) → heard_question seed files asked
            ≡ load path.now limit (load_answer seed files path.now limit)) }
    {
        let path = String::from_str(alloc, path)?;
        Ok(Question::Load { path, limit })
    }

    /// The question of a look.
    pub fn stat(alloc: Global, path: &str) -> Result<Question, AllocError>
        ensures { IfOk result (λ asked. (seed : ℕ) (files : ℕ) → heard_question seed files asked
            ≡ stat path.now (stat_answer seed files path.now)) }
    {
        let path = String::from_str(alloc, path)?;
        Ok(Question::Stat { path })
    }

    /// The question of a folder's reading.
    pub fn read_dir(alloc: Global, path: &str) -> Result<Question, AllocError>
        ensures { IfOk result (λ asked. (seed : ℕ) (files : ℕ) → heard_question seed files asked
            ≡ read_dir path.now (dir_answer files path.now)) }
    {
        let path = String::from_str(alloc, path)?;
        Ok(Question::ReadDir { path })
    }

    /// The question of an opening.
    pub fn open(alloc: Global, path: &str, limit: u64) -> Result<Question, AllocError>
        ensures { IfOk result (λ asked. (seed : ℕ) (files : ℕ) → heard_question seed files asked
            ≡ open_file path.now limit (open_answer seed files path.now limit)) }
    {
        let path = String::from_str(alloc, path)?;
        Ok(Question::Open { path, limit })
    }

    /// The question of a read that filled a room.
    pub fn read(
        alloc: Global,
        file: &Found<OpenWorld>,
        at: u64,
        room: &[u8],
    ) -> Result<Question, AllocError>
        ensures { IfOk result (λ asked. (seed : ℕ) (files : ℕ) → heard_question seed files asked
            ≡ read_at (found_name file.now) at (room_filled room.now)) }
    {
        let path = String::from_str(alloc, file.path.as_str())?;
        let bytes = Vec::from_slice(alloc, room)?;
        Ok(Question::Read {
            path,
            stamp: file.stamp,
            at,
            bytes,
        })
    }
}
