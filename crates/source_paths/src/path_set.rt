//! A set of paths whose texts take no more room than a list of source paths may.

ghost use Rattle.std.specs.Prelude.{◌≡◌, ◌≤◌, ℕ, List, [], true, OnOk};
ghost use Rattle.std.specs.BTreeSet.{Updates};
ghost use Rattle.std.specs.Cmp.Lexicographic.{slice_cmp};
ghost use Rattle.std.specs.Ordering.{nat_cmp};
ghost use Rattle.source_paths.specs.Adds.{Has};
ghost use Rattle.source_paths.specs.Room.{text_room, texts_room};

use crate::room::{SOURCES_LIMIT, TEXT_ROOM};
use row_types::CanonPath;
use std::alloc::{AllocError, Global};
use std::collections::BTreeSet;
use std::marker::Model;

/// A set of paths. Contracts see it as the set.
#[derive(Drop)]
pub(crate) struct PathSet {
    paths: BTreeSet<CanonPath>,
    /// How much room there is for further texts.
    left: u64,
}

impl Model for PathSet {
    ghost use Rattle.std.specs.Prelude.{◌+◌, ◌≤◌, List, ℕ};
    ghost use Rattle.std.specs.BTreeSet.{BTreeSet};
    ghost use Rattle.source_paths.specs.Room.{texts_room};
    ghost use Rattle.source_paths.specs.declared.room.TheConstants.{SOURCES_LIMIT};

    ghost Value = { BTreeSet (List ℕ) };

    ghost view = { λ s. s.paths };

    ghost invariant = { λ s. texts_room s.paths.keys + s.left ≤ SOURCES_LIMIT };
}

impl PathSet {
    /// No paths.
    pub(crate) fn new(alloc: Global) -> PathSet
        ensures { result.keys ≡ [] }
    {
        PathSet {
            paths: BTreeSet::new(alloc),
            left: SOURCES_LIMIT,
        }
    }

    /// The paths, given back.
    pub(crate) fn into_paths(self) -> BTreeSet<CanonPath>
        ensures same { result ≡ self }
        ensures small { texts_room result.keys ≤ SOURCES_LIMIT }
    {
        let PathSet { paths, left: _ } = self;
        paths
    }

    /// Adds a path. A path that isn't there, and for whose text there is no room, is given up.
    pub(crate) fn insert(&mut self, path: CanonPath) -> Result<(), AllocError>
        ensures updates { OnOk result (Updates (slice_cmp nat_cmp) self.old self.new path true) }
        ensures kept { (other : List ℕ) → Has self.old other → Has self.new other }
    {
        let room = room_of(&path);
        if self.left < room && !self.paths.contains(&path) {
            return Err(AllocError);
        }
        if self.paths.insert(path)? {
            self.left -= room;
        }
        Ok(())
    }
}

/// How much room a path's text takes.
fn room_of(path: &CanonPath) -> u64
    ensures { result ≡ text_room path.now }
{
    let size = path.text().len() as u64;
    size + size + size + TEXT_ROOM
}
