//! The source paths of a file.

ghost use Rattle.std.specs.Prelude.{◌≡◌, ◌↔◌, ◌≤◌, ℕ, List, IfOk, Contains};
ghost use Rattle.dwarf_forms.specs.Parts.{sections_of};
ghost use Rattle.row_types.specs.Ascends.{Ascends};
ghost use Rattle.source_paths.specs.Adds.{Has};
ghost use Rattle.source_paths.specs.Room.{RoomLimits, texts_room};
ghost use Rattle.row_types.specs.Sources.{IsSource};

use crate::found::Found;
use crate::room::SOURCES_LIMIT;
use crate::tables::{Tables, add_unit};
use dwarf_forms::{DebugParts, texts_in};
use dwarf_units::{UnitReader, units};
use row_types::{CanonPath, Sources};
use std::alloc::{AllocError, Global};
use std::collections::BTreeSet;

/// The paths of all units.
fn all_paths(alloc: Global, parts: &DebugParts<'_>) -> Result<BTreeSet<CanonPath>, AllocError>
    ensures exact { IfOk result (λ paths. (path : List ℕ)
        → Has paths path ↔ IsSource (sections_of parts.now) path) }
    ensures small { IfOk result (λ paths. texts_room paths.keys ≤ SOURCES_LIMIT) }
{
    let mut reader = UnitReader::new(alloc, parts);
    let mut tables = Tables::new(alloc);
    let mut paths = Found::new(alloc)?;
    for unit in units(parts.info, parts.order) {
        add_unit(alloc, parts, &unit, &mut reader, &mut tables, &mut paths)?;
    }
    Ok(paths.into_paths())
}

/// The paths of a set, in order.
fn in_order(alloc: Global, paths: BTreeSet<CanonPath>) -> Result<Vec<CanonPath>, AllocError>
    ensures same { IfOk result (λ list. list.items ≡ paths.keys) }
    ensures ascends { IfOk result (λ list. Ascends list.items) }
{
    paths.into_iter().collect(alloc)
}

/// The source paths that a file's debug information names, in order by bytes, each once. Memory is
/// taken by the distinct paths and what units say of their tables. Where the paths' texts would take
/// more than [`SOURCES_LIMIT`], with what is reckoned for each, the answer is want of memory.
pub fn sources(alloc: Global, parts: &DebugParts<'_>) -> Result<Sources, AllocError>
    ensures exact { IfOk result (λ found. (path : List ℕ)
        → Contains found path ↔ IsSource (sections_of parts.now) path) }
    ensures ascends { IfOk result (λ found. Ascends found) }
    ensures small { IfOk result (λ found. texts_room found ≤ SOURCES_LIMIT) }
    ensures limits { RoomLimits }
{
    let ended = DebugParts {
        str: texts_in(parts.str),
        line_str: texts_in(parts.line_str),
        ..*parts
    };
    let paths = in_order(alloc, all_paths(alloc, &ended)?)?;
    match Sources::check(paths) {
        Ok(sources) => Ok(sources),
        Err(_) => unreachable!(),
    }
}
