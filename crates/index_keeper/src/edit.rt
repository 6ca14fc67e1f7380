//! A change of the tables.

ghost use Rattle.std.specs.Prelude.{◌≡◌, IfOk};
ghost use Rattle.index_keeper.specs.Tables.{put_bytes, removal_of};

use std::alloc::{AllocError, Global};
use std::marker::Model;

/// A path with the bytes that are kept under it from then on, or none. Contracts see it as a record
/// of the two.
#[derive(Drop)]
pub struct Edit {
    /// The path.
    pub path: String,
    /// The bytes. None: nothing is kept under the path.
    pub bytes: Option<Vec<u8>>,
}

impl Model for Edit {
    ghost use Rattle.std.specs.Prelude.{option_map};
    ghost use Rattle.std.specs.String.{string_bytes};
    ghost use Rattle.index_keeper.specs.Tables.{EditFacts};

    ghost Value = { EditFacts };

    ghost view = { λ e. record {
      path = string_bytes e.path;
      bytes = option_map
          (λ bytes. bytes.items) e.bytes;
    } };
}

impl Edit {
    /// The change that keeps copies of the bytes under a copy of the path.
    pub fn put(alloc: Global, path: &str, bytes: &[u8]) -> Result<Edit, AllocError>
        ensures { IfOk result (λ edit. edit ≡ put_bytes path.now bytes.now) }
    {
        Ok(Edit {
            path: String::from_str(alloc, path)?,
            bytes: Some(Vec::from_slice(alloc, bytes)?),
        })
    }

    /// The change after which nothing is kept under a copy of the path.
    pub fn removal(alloc: Global, path: &str) -> Result<Edit, AllocError>
        ensures { IfOk result (λ edit. edit ≡ removal_of path.now) }
    {
        Ok(Edit {
            path: String::from_str(alloc, path)?,
            bytes: None,
        })
    }
}
