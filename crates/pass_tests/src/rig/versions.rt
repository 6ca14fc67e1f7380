//! The two versions of `/w/a`, and trees of them.

ghost use Rattle.std.specs.Prelude.{◌≡◌, IsTrue};
ghost use Rattle.tree_trait.specs.Script.{is_stage};
ghost use Rattle.tree_trait.specs.TwoWorld.{first_stamp, second_stamp};

use row_types::{Name, Stamp};
use sample_rows::path;
use std::alloc::Global;
use std::process::Abort;
use tree_trait::{Found, MemTree, Script, TwoWorld};

/// A version of `/w/a`.
#[derive(Clone, Copy)]
pub enum Version {
    /// `x`.
    First,
    /// `yy`.
    Second,
}

/// The stamp of `x`.
fn first_stamp() -> Stamp
    ensures { result ≡ first_stamp }
{
    Stamp {
        size: 1,
        secs: 1,
        nanos: 0,
    }
}

/// The stamp of `yy`.
pub fn second_stamp() -> Stamp
    ensures { result ≡ second_stamp }
{
    Stamp {
        size: 2,
        secs: 2,
        nanos: 0,
    }
}

/// The version, as a tree has it.
fn found_of(rt: &impl Abort, alloc: Global, version: Version) -> Found<TwoWorld> {
    let path = String::from_str(alloc, "/w/a").expect(rt, "memory");
    match version {
        Version::First => {
            let bytes = vec![in alloc; b'x'].expect(rt, "memory");
            Found::new(path, first_stamp(), bytes)
        }
        Version::Second => {
            let bytes = vec![in alloc; b'y', b'y'].expect(rt, "memory");
            Found::new(path, second_stamp(), bytes)
        }
    }
}

/// The version, or nothing, as a tree has it.
fn stage_of(rt: &impl Abort, alloc: Global, version: Option<Version>) -> Vec<Found<TwoWorld>>
    ensures { IsTrue (is_stage result.items) }
{
    match version {
        Some(version) => vec![in alloc; found_of(rt, alloc, version)].expect(rt, "memory"),
        None => Vec::new(alloc),
    }
}

/// The tree of a version, or of nothing, whose first call fails or not.
pub fn version_tree(
    rt: &impl Abort,
    alloc: Global,
    version: Option<Version>,
    fails: bool,
) -> MemTree<TwoWorld> {
    let bad_calls: &[u64] = if fails { &[0] } else { &[] };
    changing_tree(rt, alloc, [version, version, version], &[], bad_calls)
}

/// The tree that has the first of the three, then the others: the next one from each call of
/// `moves` on. The calls of `bad_calls` fail.
pub fn changing_tree(
    rt: &impl Abort,
    alloc: Global,
    versions: [Option<Version>; 3],
    moves: &[u64],
    bad_calls: &[u64],
) -> MemTree<TwoWorld> {
    let [one, two, three] = versions;
    let one = stage_of(rt, alloc, one);
    let two = stage_of(rt, alloc, two);
    let three = stage_of(rt, alloc, three);
    let script = Script {
        stages: vec![in alloc; one, two, three].expect(rt, "memory"),
        moves: Vec::from_slice(alloc, moves).expect(rt, "memory"),
        bad_calls: Vec::from_slice(alloc, bad_calls).expect(rt, "memory"),
    };
    MemTree::new(alloc, script)
}

/// The name of a version.
pub fn version_name(rt: &impl Abort, alloc: Global, version: Version) -> Name {
    let stamp = match version {
        Version::First => first_stamp(),
        Version::Second => second_stamp(),
    };
    Name {
        path: path(alloc, "/w/a").expect(rt, "a path"),
        stamp,
    }
}

/// The name of a version, or of nothing, as a walk lists it.
pub fn listed(rt: &impl Abort, alloc: Global, version: Option<Version>) -> Vec<Name> {
    match version {
        Some(version) => vec![in alloc; version_name(rt, alloc, version)].expect(rt, "memory"),
        None => Vec::new(alloc),
    }
}
