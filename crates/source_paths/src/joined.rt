//! Paths of files, joined from their parts. DWARF 5, section 6.2.4.1; DWARF 2 to 4, section 6.2.4.

ghost use Rattle.std.specs.Prelude.{◌≡◌, map, None, IfOk};
ghost use Rattle.std.specs.List.{slice_index_or};
ghost use Rattle.std.specs.Option.{option_copied, option_map};
ghost use Rattle.row_types.specs.Absolute.{is_absolute};
ghost use Rattle.row_types.specs.SourcePaths.{behind, directory_place, first_directory, listed_first, within};
ghost use Rattle.dwarf_forms.specs.TextBytes.{text_said};
ghost use Rattle.source_paths.specs.Adds.{short, where_short};

use dwarf_forms::Text;
use file_formats::dwarf_units::DWARF_VERSION;
use row_types::{PATH_LIMIT, SEPARATOR};
use std::alloc::{AllocError, Global};

/// Whether a text begins with a slash.
pub(crate) fn is_absolute(text: &[u8]) -> bool
    ensures { result ≡ is_absolute text.now }
{
    match text {
        [first, ..] => *first == SEPARATOR,
        [] => false,
    }
}

/// The bytes of a text, None where it is longer than a path may be.
pub(crate) fn short(text: Option<Text<'_>>) -> Option<&[u8]>
    ensures { option_copied result ≡ short (text_said text.entry) }
{
    text?.within(PATH_LIMIT)
}

/// The bytes of texts, None where one is longer than a path may be.
pub(crate) fn short_texts<'a>(
    alloc: Global,
    texts: &[Option<Text<'a>>],
) -> Result<Vec<Option<&'a [u8]>>, AllocError>
    ensures { IfOk result (λ found.
        map option_copied found.items ≡ map short (map text_said texts.now)) }
{
    let mut found = Vec::with_capacity(alloc, texts.len())?;
    for text in texts {
        found.push(short(*text))?;
    }
    Ok(found)
}

/// A copy of a text, None where it is longer than a path may be.
fn copied(alloc: Global, text: &[u8]) -> Result<Option<Vec<u8>>, AllocError>
    ensures { IfOk result (λ copy. option_map (λ v. v.items) copy ≡ where_short text.now) }
{
    if text.len() > PATH_LIMIT {
        return Ok(None);
    }
    Ok(Some(Vec::from_slice(alloc, text)?))
}

/// A text within a folder, None where it would be longer than a path may be.
fn joined(alloc: Global, folder: &[u8], text: &[u8]) -> Result<Option<Vec<u8>>, AllocError>
    ensures { IfOk result (λ path.
        option_map (λ v. v.items) path ≡ where_short (within text.now folder.now)) }
{
    if folder.len() >= PATH_LIMIT || text.len() > PATH_LIMIT - 1 - folder.len() {
        return Ok(None);
    }
    let mut path = Vec::with_capacity(alloc, folder.len() + 1 + text.len())?;
    path.extend_from_slice(folder)?;
    path.push(SEPARATOR)?;
    path.extend_from_slice(text)?;
    Ok(Some(path))
}

/// A text behind a folder, None where a part that is needed isn't there, or the path would be longer
/// than a path may be.
pub(crate) fn behind(
    alloc: Global,
    folder: Option<&[u8]>,
    text: Option<&[u8]>,
) -> Result<Option<Vec<u8>>, AllocError>
    ensures { IfOk result (λ path.
        option_map (λ v. v.items) path ≡ short (behind (option_copied folder.entry) (option_copied text.entry))) }
{
    let Some(text) = text else {
        return Ok(None);
    };
    if is_absolute(text) {
        return copied(alloc, text);
    }
    match folder {
        Some(folder) => joined(alloc, folder, text),
        None => Ok(None),
    }
}

/// The path of the first directory that a table lists, in a unit of this directory.
fn listed_first(
    alloc: Global,
    unit: Option<&[u8]>,
    dirs: &[Option<&[u8]>],
) -> Result<Option<Vec<u8>>, AllocError>
    ensures { IfOk result (λ path. option_map (λ v. v.items) path
        ≡ short (listed_first (option_copied unit.entry) (map option_copied dirs.now))) }
{
    match dirs {
        [] => unit.map_or(Ok(None), |unit| copied(alloc, unit)),
        [first, ..] => behind(alloc, unit, *first),
    }
}

/// The path of directory 0 of a table of this version, in a unit of this directory.
pub(crate) fn first_directory(
    alloc: Global,
    version: u16,
    unit: Option<&[u8]>,
    dirs: &[Option<&[u8]>],
) -> Result<Option<Vec<u8>>, AllocError>
    ensures { IfOk result (λ path. option_map (λ v. v.items) path
        ≡ short (first_directory version (option_copied unit.entry) (map option_copied dirs.now))) }
{
    if version == DWARF_VERSION {
        return listed_first(alloc, unit, dirs);
    }
    unit.map_or(Ok(None), |unit| copied(alloc, unit))
}

/// The place in its list of the directory of an index other than 0.
fn directory_place(version: u16, index: u64) -> u64
    ensures { result ≡ directory_place version index }
{
    if version == DWARF_VERSION {
        index
    } else {
        index.saturating_sub(1)
    }
}

/// The path that a table of this version lists for a directory other than directory 0, None where it
/// lists none.
pub(crate) fn listed<'a>(version: u16, dirs: &[Option<&'a [u8]>], index: u64) -> Option<&'a [u8]>
    ensures { option_copied result
        ≡ slice_index_or (map option_copied dirs.now) (directory_place version index) None }
{
    match dirs.get(directory_place(version, index) as usize) {
        Some(path) => *path,
        None => None,
    }
}

/// A text that is lent.
pub(crate) fn lent(text: &Option<Vec<u8>>) -> Option<&[u8]>
    ensures { option_copied result ≡ option_map (λ v. v.items) text.now }
{
    match text {
        Some(text) => Some(text.as_slice()),
        None => None,
    }
}
