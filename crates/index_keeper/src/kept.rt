//! A row of the tables.

ghost use Rattle.std.specs.Prelude.{◌≡◌, IfOk};

use std::alloc::{AllocError, Global};
use std::marker::Model;

/// A path and the bytes that are kept under it. Contracts see it as a record of the two.
#[derive(Drop)]
pub struct Kept {
    /// The path.
    pub path: String,
    /// The bytes.
    pub bytes: Vec<u8>,
}

impl Model for Kept {
    ghost use Rattle.std.specs.String.{string_bytes};
    ghost use Rattle.index_keeper.specs.Tables.{KeptFacts};

    ghost Value = { KeptFacts };

    ghost view = { λ k. record { path = string_bytes k.path; bytes = k.bytes.items } };
}

impl Kept {
    /// The row of copies of a path and of bytes.
    pub fn of(alloc: Global, path: &str, bytes: &[u8]) -> Result<Kept, AllocError>
        ensures { IfOk result (λ kept. kept ≡ record { path = path.now; bytes = bytes.now }) }
    {
        Ok(Kept {
            path: String::from_str(alloc, path)?,
            bytes: Vec::from_slice(alloc, bytes)?,
        })
    }

    /// A copy.
    pub fn copy(&self, alloc: Global) -> Result<Kept, AllocError>
        ensures { IfOk result (λ kept. kept ≡ self.now) }
    {
        Kept::of(alloc, self.path.as_str(), self.bytes.as_slice())
    }
}
