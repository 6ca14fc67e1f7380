//! Trees that never change.

ghost use Rattle.std.specs.Prelude.{◌≡◌, IsTrue};
ghost use Rattle.tree_trait.specs.Script.{is_stage};

use row_types::{OpenWorld, Truth};
use sample_rows::stamp;
use std::alloc::Global;
use std::process::Abort;
use tree_trait::{Found, MemTree, Script};

/// The file of this size at a path.
pub fn file(rt: &impl Abort, alloc: Global, path: &str, size: usize) -> Found<OpenWorld>
    ensures { result.path ≡ path.now }
{
    let path = String::from_str(alloc, path).expect(rt, "memory");
    let bytes = vec![in alloc; b'x'; size].expect(rt, "memory");
    Found::new(path, stamp(size as u64), bytes)
}

/// The tree of these files, whose calls of these numbers fail.
pub fn still_tree<W: Truth>(
    rt: &impl Abort,
    alloc: Global,
    files: Vec<Found<W>>,
    bad_calls: &[u64],
) -> MemTree<W>
    requires { IsTrue (is_stage files.items) }
{
    let script = Script {
        stages: vec![in alloc; files].expect(rt, "memory"),
        moves: Vec::new(alloc),
        bad_calls: Vec::from_slice(alloc, bad_calls).expect(rt, "memory"),
    };
    MemTree::new(alloc, script)
}
