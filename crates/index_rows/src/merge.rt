//! Paths with their numbers, merged with more paths.

ghost use Rattle.std.specs.Prelude.{◌≡◌, ◌++◌, All, IsTrue, IfOk, OnOk, filter, map};
ghost use Rattle.row_types.specs.Ascends.{Ascends, AscendsBy, is_before};
ghost use Rattle.index_rows.specs.Tally.{HasPlace, fresh, merged, tallied_path};

use crate::tally::{Tallied, place_of};
use row_types::CanonPath;
use std::alloc::{AllocError, Global};
use std::cmp::Ordering;

/// A path that counts for nothing yet.
fn fresh(alloc: Global, path: &CanonPath) -> Result<Tallied, AllocError>
    ensures { IfOk result (λ tallied. tallied ≡ fresh path.now) }
{
    Ok(Tallied {
        path: path.copy(alloc)?,
        count: 0,
        number: 0,
    })
}

/// A copy.
fn copy(alloc: Global, tallied: &Tallied) -> Result<Tallied, AllocError>
    ensures { IfOk result (λ copy. copy ≡ tallied.now) }
{
    Ok(Tallied {
        path: tallied.path.copy(alloc)?,
        count: tallied.count,
        number: tallied.number,
    })
}

/// Whether each of the paths has a number.
pub(crate) fn have_places(entries: &[Tallied], paths: &[CanonPath]) -> bool
    requires { AscendsBy tallied_path entries.now }
    ensures { IsTrue result → All (λ path. HasPlace path entries.now) paths.now }
{
    for path in paths {
        match place_of(entries, path) {
            Ok(_) => {}
            Err(_) => return false,
        }
    }
    true
}

/// The entries, and the paths that have none, which count for nothing yet. Each list is gone through
/// once.
pub(crate) fn merged(
    alloc: Global,
    entries: &[Tallied],
    paths: &[CanonPath],
) -> Result<Vec<Tallied>, AllocError>
    requires { Ascends paths.now }
    ensures { IfOk result (λ all. all.items ≡ merged entries.now paths.now) }
{
    let mut all = Vec::with_capacity(alloc, entries.len().saturating_add(paths.len()))?;
    let mut left = paths;
    for entry in entries {
        left = add_before(alloc, &mut all, left, &entry.path)?;
        all.push(copy(alloc, entry)?)?;
    }
    add_all(alloc, &mut all, left)?;
    Ok(all)
}

/// Adds the paths that stand before an entry's, and gives those that stand behind it.
fn add_before<'a>(
    alloc: Global,
    all: &mut Vec<Tallied>,
    paths: &'a [CanonPath],
    own: &CanonPath,
) -> Result<&'a [CanonPath], AllocError>
    requires { Ascends paths.now }
    ensures added { OnOk result (all.new.items ≡ all.old.items
        ++ map fresh (filter (λ path. is_before path own.now) paths.now)) }
    ensures left { IfOk result (λ left. left.now ≡ filter (is_before own.now) paths.now) }
    ensures ascends { IfOk result (λ left. Ascends left.now) }
{
    let mut left = paths;
    while let Some((path, rest)) = left.split_first() {
        match path.cmp(own) {
            Ordering::Less => all.push(fresh(alloc, path)?)?,
            Ordering::Equal => return Ok(rest),
            Ordering::Greater => return Ok(left),
        }
        left = rest;
    }
    Ok(left)
}

/// Adds the paths.
fn add_all(alloc: Global, all: &mut Vec<Tallied>, paths: &[CanonPath]) -> Result<(), AllocError>
    ensures { OnOk result (all.new.items ≡ all.old.items ++ map fresh paths.now) }
{
    for path in paths {
        all.push(fresh(alloc, path)?)?;
    }
    Ok(())
}
