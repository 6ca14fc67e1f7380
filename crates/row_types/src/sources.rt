//! The source paths of a file.

ghost use Rattle.std.specs.Prelude.{◌≡◌, ◌↔◌, ◌<◌, [], IsTrue, IsOk, IfOk, IfErr};
ghost use Rattle.row_types.specs.Ascends.{Ascends, IsBefore};

use crate::path::CanonPath;
use std::alloc::{AllocError, Global};
use std::marker::Model;

/// Source paths in order, each once. Contracts see them as a list.
#[derive(Drop)]
pub struct Sources {
    paths: Vec<CanonPath>,
}

impl Model for Sources {
    ghost use Rattle.std.specs.Prelude.{List, ℕ};
    ghost use Rattle.row_types.specs.Ascends.{Ascends};

    ghost Value = { List (List ℕ) };

    ghost view = { λ s. s.paths.items };

    ghost invariant = { λ s. Ascends s.paths.items };
}

impl Sources {
    /// No sources.
    pub fn new(alloc: Global) -> Sources
        ensures { result ≡ [] }
    {
        Sources {
            paths: Vec::new(alloc),
        }
    }

    /// The sources of these paths, if they ascend, or the paths back. No memory is taken.
    pub fn check(paths: Vec<CanonPath>) -> Result<Sources, Vec<CanonPath>>
        ensures ok { IsOk result ↔ Ascends paths.items }
        ensures value { IfOk result (λ sources. sources ≡ paths.items) }
        ensures back { IfErr result (λ given. given ≡ paths) }
    {
        if ascends(paths.as_slice()) {
            Ok(Sources { paths })
        } else {
            Err(paths)
        }
    }

    /// The paths, in order.
    pub fn paths(&self) -> &[CanonPath]
        ensures value { result.now ≡ self.now }
        ensures ascends { Ascends self.now }
    {
        self.paths.as_slice()
    }

    /// The paths, given back. No memory is taken.
    pub fn into_paths(self) -> Vec<CanonPath>
        ensures value { result.items ≡ self }
        ensures ascends { Ascends self }
    {
        let Sources { paths } = self;
        paths
    }

    /// A copy.
    pub fn copy(&self, alloc: Global) -> Result<Sources, AllocError>
        ensures { IfOk result (λ sources. sources ≡ self.now) }
    {
        Ok(Sources {
            paths: copy_paths(alloc, self.paths.as_slice())?,
        })
    }
}

/// Copies of the paths.
fn copy_paths(alloc: Global, paths: &[CanonPath]) -> Result<Vec<CanonPath>, AllocError>
    ensures { IfOk result (λ copies. copies.items ≡ paths.now) }
{
    let mut copies = Vec::with_capacity(alloc, paths.len())?;
    for path in paths {
        copies.push(path.copy(alloc)?)?;
    }
    Ok(copies)
}

/// Whether each path stands before each later one.
fn ascends(paths: &[CanonPath]) -> bool
    ensures { IsTrue result ↔ Ascends paths.now }
{
    for i in 1..paths.len() {
        if !is_before(&paths[i - 1], &paths[i]) {
            return false;
        }
    }
    true
}

/// Whether the first path stands before the second.
fn is_before(path: &CanonPath, other: &CanonPath) -> bool
    ensures { IsTrue result ↔ IsBefore path.now other.now }
{
    path.cmp(other).is_lt()
}
