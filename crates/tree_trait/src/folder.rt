//! The entries of a folder, from the paths of all files.

ghost use Rattle.std.specs.Prelude.{◌≡◌, ◌∷◌, ◌++◌, [], option_map, map, IfOk, OnOk};
ghost use Rattle.std.specs.List.{list_any};
ghost use Rattle.row_types.specs.declared.limits.TheConstants.{SEPARATOR};
ghost use Rattle.tree_trait.specs.Dir.{IsFolderListing};
ghost use Rattle.tree_trait.specs.Entry.{has_entry};
ghost use Rattle.tree_trait.specs.Folder.{IsRest, first_piece, piece_under};
ghost use Rattle.tree_trait.specs.Folder.{with_piece, with_pieces};
ghost use Rattle.tree_trait.specs.Found.{found_name};
ghost use Rattle.tree_trait.specs.Pieces.{entry_piece};
ghost use Rattle.row_types.specs.Under.{front_under, lies_under};
ghost use Rattle.tree_trait.specs.Present.{is_folder};

use crate::entry::{Entry, EntryKind, is_entry_name};
use crate::found::Found;
use row_types::Truth;
use std::alloc::{AllocError, Global};

/// A piece of a path, and whether more follows it.
#[derive(Clone, Copy)]
pub struct Piece<'a> {
    name: &'a str,
    kind: EntryKind,
}

/// Whether some file lies under a path.
pub fn is_folder<W: Truth>(files: &[Found<W>], path: &str) -> bool
    ensures { result ≡ is_folder (map found_name files.now) path.now }
{
    any_under(files, path)
}

/// Whether the path of some file lies under a path.
fn any_under<W: Truth>(files: &[Found<W>], path: &str) -> bool
    ensures { result ≡ list_any (λ file. lies_under path.now file.path) files.now }
{
    files
        .iter()
        .any(|file| lies_under(path, file.path.as_str()))
}

/// Whether a path lies under a folder.
fn lies_under(folder: &str, path: &str) -> bool
    ensures { result ≡ lies_under folder.now path.now }
{
    rest_under(folder, path).is_some() && !(path == folder)
}

/// What of a path follows a folder and the slash behind it.
fn rest_under<'a>(folder: &str, path: &'a str) -> Option<&'a str>
    ensures { IsRest (front_under folder.now) path.now result }
{
    match path.strip_prefix(parent(folder)) {
        Some(rest) => rest.strip_prefix('/'),
        None => None,
    }
}

/// A folder's path up to the slash behind it.
fn parent(folder: &str) -> &str
    ensures { result.now ++ SEPARATOR ∷ [] ≡ front_under folder.now }
{
    if folder == "/" { "" } else { folder }
}

/// The entries of a folder, each once.
pub fn entries_of<W: Truth>(
    alloc: Global,
    files: &[Found<W>],
    folder: &str,
) -> Result<Vec<Entry>, AllocError>
    ensures { IfOk result (λ entries.
        IsFolderListing (map found_name files.now) folder.now entries.items) }
{
    collected(alloc, files, folder)
}

/// The entries that the files' paths give.
fn collected<W: Truth>(
    alloc: Global,
    files: &[Found<W>],
    folder: &str,
) -> Result<Vec<Entry>, AllocError>
    ensures { IfOk result (λ entries.
        entries.items ≡ with_pieces folder.now [] (map found_name files.now)) }
{
    let mut entries = Vec::new(alloc);
    for file in files {
        let piece = piece_under(folder, file.path.as_str());
        add_piece(&mut entries, alloc, piece)?;
    }
    Ok(entries)
}

/// Adds an entry, if it is one and isn't there yet.
fn add_piece(
    entries: &mut Vec<Entry>,
    alloc: Global,
    piece: Option<Piece<'_>>,
) -> Result<(), AllocError>
    ensures { OnOk result (entries.new.items
        ≡ with_piece entries.old.items (option_map entry_piece piece.entry)) }
{
    if let Some(piece) = piece {
        if is_entry_name(piece.name) && !has_piece(entries.as_slice(), piece) {
            entries.push(Entry {
                name: String::from_str(alloc, piece.name)?,
                kind: piece.kind,
            })?;
        }
    }
    Ok(())
}

/// Whether an entry is there.
fn has_piece(entries: &[Entry], piece: Piece<'_>) -> bool
    ensures { result ≡ has_entry entries.now (entry_piece piece.entry) }
{
    entries.iter().any(|entry| piece.name == entry.name.as_str() && piece.kind == entry.kind)
}

/// The piece of a path that stands next behind a folder.
fn piece_under<'a>(folder: &str, path: &'a str) -> Option<Piece<'a>>
    ensures { option_map entry_piece result ≡ piece_under folder.now path.now }
{
    match rest_under(folder, path) {
        Some(rest) => Some(first_piece(rest)),
        None => None,
    }
}

/// The first piece of a text, and whether more follows it.
fn first_piece(rest: &str) -> Piece<'_>
    ensures { entry_piece result ≡ first_piece rest.now }
{
    match rest.split_once('/') {
        Some((name, _)) => Piece {
            name,
            kind: EntryKind::Folder,
        },
        None => Piece {
            name: rest,
            kind: EntryKind::File,
        },
    }
}
