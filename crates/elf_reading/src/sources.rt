//! The source paths of a file.

ghost use Rattle.std.specs.Prelude.{◌≤◌, ℕ, List, IfOk, option_map};
ghost use Rattle.dwarf_forms.specs.Parts.{sections_of};
ghost use Rattle.file_formats.specs.DwarfSections.{IsDebugAnswer};
ghost use Rattle.row_types.specs.Sources.{AreSourcesOf};
ghost use Rattle.source_paths.specs.Room.{texts_room};

use elf_classify::{DebugParts, debug_parts};
use row_types::Sources;
use source_paths::{SOURCES_LIMIT, sources};
use std::alloc::{AllocError, Global};

/// The source paths of each file that has these debug sections, in order by bytes, each once; none
/// for a file that has none to hand out.
pub fn sources_of(alloc: Global, parts: Option<DebugParts<'_>>) -> Result<Sources, AllocError>
    ensures sources { IfOk result (λ found. (bytes : List ℕ)
        → IsDebugAnswer bytes (option_map sections_of parts.entry) → AreSourcesOf bytes found) }
    ensures small { IfOk result (λ found. texts_room found ≤ SOURCES_LIMIT) }
{
    match parts {
        Some(parts) => sources(alloc, &parts),
        None => Ok(Sources::new(alloc)),
    }
}

/// The source paths that a file's debug information names, in order by bytes, each once. A file
/// without a section table, or one that the linker has still to put together, has none. Where their
/// texts would take more than [`SOURCES_LIMIT`], the answer is want of memory.
pub fn file_sources(alloc: Global, bytes: &[u8]) -> Result<Sources, AllocError>
    ensures sources { IfOk result (AreSourcesOf bytes.now) }
    ensures small { IfOk result (λ found. texts_room found ≤ SOURCES_LIMIT) }
{
    sources_of(alloc, debug_parts(bytes))
}
