//! The folders of a scan or a server.

ghost use Rattle.std.specs.Prelude.{◌≡◌, true, map, IfOk};
ghost use Rattle.std.specs.List.{list_all};
ghost use Rattle.row_types.specs.Absolute.{is_absolute};
ghost use Rattle.row_types.specs.Canon.{canon};
ghost use Rattle.dbgd_words.specs.Words.{is_root};

use path_scope::{PathFault, canonical};
use row_types::{CanonPath, PATH_LIMIT, SEPARATOR};
use std::alloc::{AllocError, Global};

/// The paths of folders that have one, in order.
pub fn paths_of(alloc: Global, folders: &[&str]) -> Result<Vec<CanonPath>, AllocError>
    requires { list_all (λ folder. is_root folder.now) folders.now ≡ true }
    ensures { IfOk result (λ paths. paths.items ≡ map (λ folder. canon folder.now) folders.now) }
{
    let mut paths = Vec::with_capacity(alloc, folders.len())?;
    for folder in folders {
        paths.push(path_of(alloc, folder)?)?;
    }
    Ok(paths)
}

/// Whether each folder has a canonical path.
pub fn are_roots(folders: &[&str]) -> bool
    ensures { result ≡ list_all (λ folder. is_root folder.now) folders.now }
{
    folders.iter().all(|folder| is_root(folder))
}

/// Whether a folder has a canonical path.
pub fn is_root(folder: &str) -> bool
    ensures { result ≡ is_root folder.now }
{
    is_absolute(folder) && folder.len() <= PATH_LIMIT
}

/// Whether a text begins with a slash.
fn is_absolute(text: &str) -> bool
    ensures { result ≡ is_absolute text.now }
{
    match text.as_bytes() {
        [first, ..] => *first == SEPARATOR,
        [] => false,
    }
}

/// The path of a folder that has one.
pub fn path_of(alloc: Global, folder: &str) -> Result<CanonPath, AllocError>
    requires { is_root folder.now ≡ true }
    ensures { IfOk result (λ path. path ≡ canon folder.now) }
{
    match canonical(alloc, folder) {
        Ok(path) => Ok(path),
        Err(PathFault::OutOfMemory) => Err(AllocError),
        Err(PathFault::NotAbsolute | PathFault::TooLong) => unreachable!(),
    }
}
