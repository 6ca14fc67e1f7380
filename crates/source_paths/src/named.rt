//! The path that a text names.

ghost use Rattle.std.specs.Prelude.{ℕ, List, IfOk, OnOk};
ghost use Rattle.dwarf_forms.specs.Tells.{TellsOnly};
ghost use Rattle.dwarf_lines.specs.Finds.{as_it_is};
ghost use Rattle.row_types.specs.Sources.{Names};
ghost use Rattle.source_paths.specs.Adds.{AddsPaths, Has};

use crate::path_set::PathSet;
use path_scope::{PathFault, canonical};
use row_types::CanonPath;
use std::alloc::{AllocError, Global};

/// The path that a text names, which isn't its own canonical form.
fn canonical_path(alloc: Global, text: &str) -> Result<Option<CanonPath>, AllocError>
    ensures { IfOk result (TellsOnly as_it_is (Names text.now)) }
{
    match canonical(alloc, text) {
        Ok(path) => Ok(Some(path)),
        Err(PathFault::OutOfMemory) => Err(AllocError),
        Err(_) => Ok(None),
    }
}

/// The path that a text names.
fn path_named(alloc: Global, text: Vec<u8>) -> Result<Option<CanonPath>, AllocError>
    ensures { IfOk result (TellsOnly as_it_is (Names text.items)) }
{
    let Ok(text) = String::from_utf8(text) else {
        return Ok(None);
    };
    match CanonPath::check(text) {
        Ok(path) => Ok(Some(path)),
        Err(text) => canonical_path(alloc, text.as_str()),
    }
}

/// Adds the path that a text names.
pub(crate) fn add_named(alloc: Global, text: Vec<u8>, paths: &mut PathSet) -> Result<(), AllocError>
    ensures adds { OnOk result (AddsPaths (Names text.items) paths.old paths.new) }
    ensures kept { (path : List ℕ) → Has paths.old path → Has paths.new path }
{
    let Some(path) = path_named(alloc, text)? else {
        return Ok(());
    };
    paths.insert(path)
}
