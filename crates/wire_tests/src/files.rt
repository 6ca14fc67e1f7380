//! Files of trees in memory, in the open world.

ghost use Rattle.std.specs.Prelude.{◌≡◌};

use row_types::{OpenWorld, Stamp};
use std::alloc::Global;
use std::process::Abort;
use tree_trait::Found;

/// The file at a path with these bytes.
pub fn file_at(rt: &impl Abort, alloc: Global, path: &str, bytes: Vec<u8>) -> Found<OpenWorld>
    ensures { result.path ≡ path.now }
{
    let stamp = Stamp {
        size: bytes.len() as u64,
        secs: 1,
        nanos: 0,
    };
    let path = String::from_str(alloc, path).expect(rt, "memory");
    Found::new(path, stamp, bytes)
}
