//! The paths of a line table's files. DWARF 2 to 5, section 6.2.4.

ghost use Rattle.std.specs.Prelude.{map, OnOk};
ghost use Rattle.std.specs.Option.{option_copied};
ghost use Rattle.dwarf_forms.specs.TextBytes.{text_said};
ghost use Rattle.dwarf_lines.specs.Entries.{file_facts};
ghost use Rattle.source_paths.specs.Adds.{AddsPaths, IsFileFrom};
ghost use Rattle.row_types.specs.SourcePaths.{behind};
ghost use Rattle.row_types.specs.Sources.{IsFileSource, IsOfOne, MayName};

use crate::found::Found;
use crate::joined::{behind, first_directory, is_absolute, lent, listed, short, short_texts};
use dwarf_forms::Text;
use dwarf_lines::{LineFile, LineTable};
use std::alloc::{AllocError, Global};

/// Adds the path that a text behind a folder names.
fn add_text(
    alloc: Global,
    folder: Option<&[u8]>,
    text: Option<Text<'_>>,
    paths: &mut Found,
) -> Result<(), AllocError>
    ensures { OnOk result (AddsPaths
        (MayName (behind (option_copied folder.entry) (text_said text.entry)))
        paths.old paths.new) }
{
    paths.add(alloc, folder, short(text))
}

/// Adds the path of a file in a folder of this directory, where directory 0 has this path.
fn add_in_folder(
    alloc: Global,
    first: Option<&[u8]>,
    directory: Option<&[u8]>,
    text: Option<Text<'_>>,
    paths: &mut Found,
) -> Result<(), AllocError>
    ensures { OnOk result (AddsPaths (MayName (behind
        (behind (option_copied first.entry) (option_copied directory.entry))
        (text_said text.entry))) paths.old paths.new) }
{
    match directory {
        Some(folder) if is_absolute(folder) => add_text(alloc, Some(folder), text, paths),
        _ => {
            let folder = behind(alloc, first, directory)?;
            add_text(alloc, lent(&folder), text, paths)
        }
    }
}

/// Adds the path of a file of a table of this version, where directory 0 has this path.
fn add_file(
    alloc: Global,
    version: u16,
    first: Option<&[u8]>,
    dirs: &[Option<&[u8]>],
    file: &LineFile<'_>,
    paths: &mut Found,
) -> Result<(), AllocError>
    ensures { OnOk result (AddsPaths
        (IsFileFrom version (option_copied first.entry) (map option_copied dirs.now) (file_facts file.now))
        paths.old paths.new) }
{
    match file.dir {
        None => add_text(alloc, None, file.path, paths),
        Some(0) => add_text(alloc, first, file.path, paths),
        Some(index) => add_in_folder(alloc, first, listed(version, dirs, index), file.path, paths),
    }
}

/// Adds the paths of files of a table of this version, where directory 0 has this path.
fn add_each(
    alloc: Global,
    version: u16,
    first: Option<&[u8]>,
    dirs: &[Option<&[u8]>],
    files: &[LineFile<'_>],
    paths: &mut Found,
) -> Result<(), AllocError>
    ensures { OnOk result (AddsPaths
        (IsOfOne (IsFileFrom version (option_copied first.entry) (map option_copied dirs.now))
        (map file_facts files.now)) paths.old paths.new) }
{
    for file in files {
        add_file(alloc, version, first, dirs, file, paths)?;
    }
    Ok(())
}

/// Adds the paths of a table's files, in a unit of this directory. Directory 0 is joined once, and
/// each directory's text is read once.
pub(crate) fn add_files(
    alloc: Global,
    unit: Option<&[u8]>,
    table: &LineTable<'_>,
    paths: &mut Found,
) -> Result<(), AllocError>
    ensures { OnOk result (AddsPaths
        (IsOfOne (IsFileSource (option_copied unit.entry) table.now) table.now.files)
        paths.old paths.new) }
{
    let dirs = short_texts(alloc, table.dirs.as_slice())?;
    let first = first_directory(alloc, table.version, unit, dirs.as_slice())?;
    add_each(
        alloc,
        table.version,
        lent(&first),
        dirs.as_slice(),
        table.files.as_slice(),
        paths,
    )
}
