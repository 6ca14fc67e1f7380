//! The line tables that units name, each of which is read once.

ghost use Rattle.std.specs.Prelude.{◌≡◌, All, IfOk, IfSome, IsTrue, OnOk, false};
ghost use Rattle.file_formats.specs.DwarfUnits.{DebugSections};
ghost use Rattle.dwarf_forms.specs.Parts.{sections_of};
ghost use Rattle.dwarf_units.specs.UnitList.{unit_facts};
ghost use Rattle.source_paths.specs.Adds.{AddsPaths};
ghost use Rattle.source_paths.specs.Keys.{AreRead, HaveSameSources, IsFixed, IsLast, IsTableOf};
ghost use Rattle.source_paths.specs.Keys.{AreTablesUnread, KeepsFixed, key_entry};
ghost use Rattle.row_types.specs.Sources.{IsEntrySource, IsUnitSource};

use crate::files::add_files;
use crate::found::Found;
use crate::joined::short;
use dwarf_forms::{DebugParts, Strings};
use dwarf_lines::{ReadTable, read_table};
use dwarf_units::{Unit, UnitReader};
use std::alloc::{AllocError, Global};
use std::collections::BTreeSet;

/// What a unit says of its line table. Units that say the same have the same sources.
#[derive(Clone, Copy, PartialEq, Eq, PartialOrd, Ord)]
pub(crate) struct TableKey<'a> {
    /// Where the table begins in .debug_line, in bytes.
    pub(crate) offset: u64,
    /// Where the unit's part of .debug_str_offsets begins, in bytes.
    pub(crate) base: Option<u64>,
    /// The folder in which the unit was compiled, None where it is longer than a path may be.
    pub(crate) directory: Option<&'a [u8]>,
}

/// A line table, and for whom it was read.
#[derive(Drop)]
pub(crate) struct LastTable<'a> {
    /// Where the table begins in .debug_line, in bytes.
    pub(crate) offset: u64,
    /// Where the unit's part of .debug_str_offsets begins, in bytes.
    pub(crate) base: Option<u64>,
    pub(crate) read: ReadTable<'a>,
}

/// What is known of the line tables that units named.
#[derive(Drop)]
pub(crate) struct Tables<'a> {
    /// What units said of the tables whose paths were added.
    pub(crate) seen: BTreeSet<TableKey<'a>>,
    /// Where the tables begin that are the same for each place in .debug_str_offsets, in bytes.
    pub(crate) fixed: BTreeSet<u64>,
    /// The table that was read last.
    pub(crate) last: Option<LastTable<'a>>,
}

impl<'a> LastTable<'a> {
    /// Whether it is the table of a key.
    fn serves(&self, key: &TableKey<'_>) -> bool
        ensures { IsTrue result → (s : DebugSections) → IsLast s self.now
            → IsTableOf s key.now.offset key.now.base self.now.read }
    {
        self.offset == key.offset && (!self.read.indexed || self.base == key.base)
    }
}

impl<'a> Tables<'a> {
    /// No tables.
    pub(crate) fn new(alloc: Global) -> Tables<'a>
        ensures { AreTablesUnread result }
    {
        Tables {
            seen: BTreeSet::new(alloc),
            fixed: BTreeSet::new(alloc),
            last: None,
        }
    }
}

/// A key without the place in .debug_str_offsets, where its table is the same for each.
fn general<'a>(fixed: &BTreeSet<u64>, key: TableKey<'a>) -> TableKey<'a>
    ensures { (s : DebugSections) → All (IsFixed s) fixed.now.keys
        → HaveSameSources s (key_entry result) (key_entry key.entry) }
{
    if fixed.contains(&key.offset) {
        return TableKey { base: None, ..key };
    }
    key
}

/// Reads the line table of a key.
fn read_anew<'a>(
    alloc: Global,
    parts: &DebugParts<'a>,
    key: &TableKey<'_>,
) -> Result<LastTable<'a>, AllocError>
    ensures of { IfOk result (λ last. IsTableOf (sections_of parts.now)
        key.now.offset key.now.base last.read) }
    ensures last { IfOk result (IsLast (sections_of parts.now)) }
{
    let strings = Strings {
        str: parts.str,
        line_str: parts.line_str,
        offsets: parts.str_offsets,
        base: key.base,
        wide: false,
        order: parts.order,
    };
    Ok(LastTable {
        offset: key.offset,
        base: key.base,
        read: read_table(alloc, parts.line, key.offset, &strings)?,
    })
}

/// The line table of a key: the one that was read last, where it is that.
fn table_for<'a>(
    alloc: Global,
    parts: &DebugParts<'a>,
    key: &TableKey<'_>,
    last: Option<LastTable<'a>>,
) -> Result<LastTable<'a>, AllocError>
    requires { IfSome last (IsLast (sections_of parts.now)) }
    ensures of { IfOk result (λ last. IsTableOf (sections_of parts.now)
        key.now.offset key.now.base last.read) }
    ensures last { IfOk result (IsLast (sections_of parts.now)) }
{
    match last {
        Some(last) if last.serves(key) => Ok(last),
        _ => read_anew(alloc, parts, key),
    }
}

/// Adds the paths of a line table, where it can be read.
fn add_read(
    alloc: Global,
    parts: &DebugParts<'_>,
    key: &TableKey<'_>,
    read: &ReadTable<'_>,
    paths: &mut Found,
) -> Result<(), AllocError>
    requires { IsTableOf (sections_of parts.now) key.now.offset key.now.base read.now }
    ensures { OnOk result (AddsPaths
        (IsEntrySource (sections_of parts.now) false (key_entry key.now)) paths.old paths.new) }
{
    match &read.table {
        Some(table) => add_files(alloc, key.directory, table, paths),
        None => Ok(()),
    }
}

/// Adds the paths of a key's line table, which is then the one that was read last.
fn add_table<'a>(
    alloc: Global,
    parts: &DebugParts<'a>,
    key: &TableKey<'_>,
    last: Option<LastTable<'a>>,
    paths: &mut Found,
) -> Result<LastTable<'a>, AllocError>
    requires { IfSome last (IsLast (sections_of parts.now)) }
    ensures adds { OnOk result (AddsPaths
        (IsEntrySource (sections_of parts.now) false (key_entry key.now)) paths.old paths.new) }
    ensures last { IfOk result (IsLast (sections_of parts.now)) }
    ensures fixed { IfOk result (λ last. last.read.indexed ≡ false
        → IsFixed (sections_of parts.now) key.now.offset) }
{
    let last = table_for(alloc, parts, key, last)?;
    add_read(alloc, parts, key, &last.read, paths)?;
    Ok(last)
}

/// Keeps where a table begins, unless it has indexes.
fn keep_fixed(fixed: &mut BTreeSet<u64>, offset: u64, indexed: bool) -> Result<(), AllocError>
    ensures { OnOk result (KeepsFixed fixed.old offset indexed fixed.new) }
{
    if !indexed {
        fixed.insert(offset)?;
    }
    Ok(())
}

/// Adds the paths of a line table, unless they were added before.
fn add_new_table<'a>(
    alloc: Global,
    parts: &DebugParts<'a>,
    key: TableKey<'a>,
    tables: &mut Tables<'a>,
    paths: &mut Found,
) -> Result<(), AllocError>
    requires { AreRead (sections_of parts.now) tables.old paths.old }
    ensures adds { OnOk result (AddsPaths
        (IsEntrySource (sections_of parts.now) false (key_entry key.entry)) paths.old paths.new) }
    ensures read { OnOk result (AreRead (sections_of parts.now) tables.new paths.new) }
{
    if tables.seen.insert(key)? {
        let last = add_table(alloc, parts, &key, tables.last.take(), paths)?;
        let indexed = last.read.indexed;
        tables.last = Some(last);
        keep_fixed(&mut tables.fixed, key.offset, indexed)?;
    }
    Ok(())
}

/// Adds the paths of a unit.
pub(crate) fn add_unit<'a>(
    alloc: Global,
    parts: &DebugParts<'a>,
    unit: &Unit<'a>,
    reader: &mut UnitReader<'a>,
    tables: &mut Tables<'a>,
    paths: &mut Found,
) -> Result<(), AllocError>
    requires reader { reader.old ≡ sections_of parts.now }
    requires read { AreRead (sections_of parts.now) tables.old paths.old }
    ensures adds { OnOk result (AddsPaths
        (IsUnitSource (sections_of parts.now) (unit_facts unit.now)) paths.old paths.new) }
    ensures reader { reader.new ≡ reader.old }
    ensures read { OnOk result (AreRead (sections_of parts.now) tables.new paths.new) }
{
    let Some(entry) = reader.first_entry(alloc, unit)? else {
        return Ok(());
    };
    let Some(offset) = entry.stmt_list else {
        return Ok(());
    };
    let key = TableKey {
        offset,
        base: entry.base,
        directory: short(entry.comp_dir),
    };
    add_new_table(alloc, parts, general(&tables.fixed, key), tables, paths)
}
