//! How many entries of a line table are kept.

ghost use Rattle.std.specs.Prelude.{◌≡◌, ◌≤◌, ◌++◌, ◌∷◌, [], length, OnOk};
ghost use Rattle.dwarf_lines.specs.declared.room.TheConstants.{ENTRIES_LIMIT};

use std::alloc::AllocError;

/// How many directories a line table may have, and how many files: an entry takes a byte of the table at
/// least, and some thirty times that in memory. Where a table has more, the answer is want of memory.
pub const ENTRIES_LIMIT: usize = 0x100_0000;

/// Adds an entry to a list, unless it has as many as it may have.
pub(crate) fn push_entry<T: Drop>(entries: &mut Vec<T>, entry: T) -> Result<(), AllocError>
    ensures items { OnOk result (entries.new.items ≡ entries.old.items ++ entry ∷ []) }
    ensures small { OnOk result (length entries.new.items ≤ ENTRIES_LIMIT) }
{
    if entries.len() >= ENTRIES_LIMIT {
        return Err(AllocError);
    }
    entries.push(entry)?;
    Ok(())
}
