//! The folders of generated files.

ghost use Rattle.std.specs.Prelude.{◌≡◌, ◌∷◌, [], true, map, IfOk};
ghost use Rattle.tree_trait.specs.Entry.{is_entry_name};
ghost use Rattle.tree_trait.specs.declared.entry.EntryKind.TheVariants as kind;
ghost use Rattle.elf_forge.specs.Place.{forged_entries, file_entry, folder_among, folder_at};
ghost use Rattle.elf_forge.specs.Place.{numbers_below};

use crate::digits::digits_text;
use std::alloc::{AllocError, Global};
use tree_trait::{Entry, EntryKind};

/// A folder with files below it.
#[derive(Clone, Copy, PartialEq, Eq)]
pub enum Folder {
    /// The root, `/`.
    Root,
    /// The folder `/t`.
    Top,
    /// The folder of the files, `/t/f`.
    Files,
}

/// The folder at a path, if files stand there.
fn folder_at(path: &str) -> Option<Folder>
    ensures { result ≡ folder_at path.now }
{
    if path == "" || path == "/" {
        Some(Folder::Root)
    } else if path == "/t" {
        Some(Folder::Top)
    } else if path == "/t/f" {
        Some(Folder::Files)
    } else {
        None
    }
}

/// The folder at a path, among so many files.
pub fn folder_among(files: u64, path: &str) -> Option<Folder>
    ensures { result ≡ folder_among files path.now }
{
    if files == 0 { None } else { folder_at(path) }
}

/// The one entry of a folder of a folder.
fn lone_entry(alloc: Global, name: &str) -> Result<Vec<Entry>, AllocError>
    requires { is_entry_name name.now ≡ true }
    ensures { IfOk result (λ entries.
        entries.items ≡ record { name = name.now; kind = kind.Folder } ∷ []) }
{
    let mut entries = Vec::new(alloc);
    entries.push(Entry {
        name: String::from_str(alloc, name)?,
        kind: EntryKind::Folder,
    })?;
    Ok(entries)
}

/// The entries of so many files.
fn file_entries(alloc: Global, files: u64) -> Result<Vec<Entry>, AllocError>
    ensures { IfOk result (λ entries. entries.items ≡ map file_entry (numbers_below files)) }
{
    let mut entries = Vec::new(alloc);
    for k in 0..files {
        entries.push(file_entry(alloc, k)?)?;
    }
    Ok(entries)
}

/// The entry of a file.
#[tactic(auto, using(crate::proofs::DigitLemmas::digits_name))]
fn file_entry(alloc: Global, k: u64) -> Result<Entry, AllocError>
    ensures { IfOk result (λ entry. entry ≡ file_entry k) }
{
    Ok(Entry {
        name: digits_text(alloc, k)?,
        kind: EntryKind::File,
    })
}

/// The entries of a folder, among so many files.
pub fn entries_of(alloc: Global, files: u64, folder: Folder) -> Result<Vec<Entry>, AllocError>
    ensures { IfOk result (λ entries. entries.items ≡ forged_entries files folder) }
{
    match folder {
        Folder::Root => lone_entry(alloc, "t"),
        Folder::Top => lone_entry(alloc, "f"),
        Folder::Files => file_entries(alloc, files),
    }
}
