//! The two lists of a line table of versions 2 to 4, each of which ends before an empty text. DWARF 2
//! to 4, section 6.2.4, include_directories and file_names.

ghost use Rattle.std.specs.Prelude.{◌≡◌, IfOk};
ghost use Rattle.std.specs.Option.{option_map};
ghost use Rattle.dwarf_forms.specs.FormAnswers.{input_of};
ghost use Rattle.dwarf_forms.specs.Tells.{TellsOnly};
ghost use Rattle.dwarf_lines.specs.Ended.{AreItems, FindsItems, directory_at, file_at, numbers_at, two_at};
ghost use Rattle.dwarf_lines.specs.Entries.{directories_facts, directory_said, file_said, files_facts};
ghost use Rattle.dwarf_lines.specs.Finds.{FindsPart, as_it_is};

use crate::entry::LineFile;
use crate::room::push_entry;
use crate::table::LineTable;
use byte_read::Cursor;
use dwarf_forms::{Format, Text, Width, read_number, read_text};
use std::alloc::{AllocError, Global};

/// Reads a directory, or the end of the list.
#[tactic(auto, unfolding(crate::specs::Ended::directory_at))]
fn read_directory<'a>(cursor: &mut Cursor<'a>, format: Format) -> Option<Option<Text<'a>>>
    ensures { FindsPart directory_said directory_at format cursor.old cursor.new result }
{
    let path = read_text(cursor, format).ok()?;
    if path.is_empty() {
        return Some(None);
    }
    Some(Some(path))
}

/// Reads the two numbers behind a file's directory: when it was changed, and its size.
#[tactic(auto, unfolding(crate::specs::Ended::two_at))]
fn read_two(cursor: &mut Cursor<'_>, format: Format) -> Option<u64>
    ensures { FindsPart as_it_is two_at format cursor.old cursor.new result }
{
    let time = read_number(cursor, Width::Leb, format).ok()?;
    read_number(cursor, Width::Leb, format).ok()?;
    Some(time)
}

/// Reads the three numbers behind a file's path, the first of which is the index of its directory.
#[tactic(auto, unfolding(crate::specs::Ended::numbers_at))]
fn read_numbers(cursor: &mut Cursor<'_>, format: Format) -> Option<u64>
    ensures { FindsPart as_it_is numbers_at format cursor.old cursor.new result }
{
    let index = read_number(cursor, Width::Leb, format).ok()?;
    read_two(cursor, format)?;
    Some(index)
}

/// Reads a file, or the end of the list.
#[tactic(auto, unfolding(crate::specs::Ended::file_at))]
fn read_file<'a>(cursor: &mut Cursor<'a>, format: Format) -> Option<Option<LineFile<'a>>>
    ensures { FindsPart file_said file_at format cursor.old cursor.new result }
{
    let name = read_text(cursor, format).ok()?;
    if name.is_empty() {
        return Some(None);
    }
    let index = read_numbers(cursor, format)?;
    Some(Some(LineFile {
        path: Some(name),
        dir: Some(index),
    }))
}

/// Reads the directories, to the end of their list.
fn read_directories<'a>(
    alloc: Global,
    cursor: &mut Cursor<'a>,
    format: Format,
) -> Result<Option<Vec<Option<Text<'a>>>>, AllocError>
    ensures { IfOk result (λ found. FindsItems directories_facts directory_at format
        cursor.old cursor.new found) }
{
    let mut directories = Vec::new(alloc);
    while let Some(item) = read_directory(cursor, format) {
        let Some(path) = item else {
            return Ok(Some(directories));
        };
        push_entry(&mut directories, Some(path))?;
    }
    Ok(None)
}

/// Reads the files, to the end of their list.
fn read_files<'a>(
    alloc: Global,
    cursor: &mut Cursor<'a>,
    format: Format,
) -> Result<Option<Vec<LineFile<'a>>>, AllocError>
    ensures { IfOk result (λ found. FindsItems files_facts file_at format
        cursor.old cursor.new found) }
{
    let mut files = Vec::new(alloc);
    while let Some(item) = read_file(cursor, format) {
        let Some(file) = item else {
            return Ok(Some(files));
        };
        push_entry(&mut files, file)?;
    }
    Ok(None)
}

/// Reads both lists at the cursor's place, None where one isn't there or they end behind a place.
pub(crate) fn read_ended<'a>(
    alloc: Global,
    cursor: &mut Cursor<'a>,
    format: Format,
    end: u128,
) -> Result<Option<LineTable<'a>>, AllocError>
    ensures { IfOk result (TellsOnly as_it_is (AreItems (input_of cursor.old format) cursor.old.place end)) }
{
    let Some(dirs) = read_directories(alloc, cursor, format)? else {
        return Ok(None);
    };
    let Some(files) = read_files(alloc, cursor, format)? else {
        return Ok(None);
    };
    if cursor.at() as u128 > end {
        return Ok(None);
    }
    Ok(Some(LineTable {
        version: format.version,
        dirs,
        files,
    }))
}
