//! Entries of folders.

ghost use Rattle.std.specs.Prelude.{◌≡◌, ◌↔◌, IsTrue, IsOk, IfOk, IfErr};
ghost use Rattle.std.specs.String.{string_bytes};
ghost use Rattle.row_types.specs.Canon.{stays};
ghost use Rattle.tree_trait.specs.Entry.{has_no_slash, is_entry_name};

use row_types::SEPARATOR;
use std::marker::Model;

/// What an entry of a folder is.
#[derive(Clone, Copy, PartialEq, Eq)]
pub enum EntryKind {
    /// A folder.
    Folder,
    /// A regular file.
    File,
    /// Something else, as a link.
    Other,
}

/// An entry of a folder. Its name isn't empty, isn't `.` or `..`, and has no slash. Contracts see
/// it as a record of its name's bytes and its kind.
#[derive(Drop)]
pub struct Entry {
    /// The last piece of its path.
    pub name: String,
    /// What it is.
    pub kind: EntryKind,
}

impl Model for Entry {
    ghost use Rattle.std.specs.Prelude.{IsTrue};
    ghost use Rattle.std.specs.String.{string_bytes};
    ghost use Rattle.tree_trait.specs.Entry.{EntryFacts, is_entry_name};

    ghost Value = { EntryFacts };

    ghost view = { λ e. record { name = string_bytes e.name; kind = e.kind } };

    ghost invariant = { λ e. IsTrue (is_entry_name (string_bytes e.name)) };
}

impl Entry {
    /// The entry of this name, or the name back. No memory is taken.
    pub fn check(name: String, kind: EntryKind) -> Result<Entry, String>
        ensures ok { IsOk result ↔ IsTrue (is_entry_name (string_bytes name)) }
        ensures value { IfOk result (λ entry.
            entry ≡ record { name = string_bytes name; kind = kind }) }
        ensures back { IfErr result (λ given. given ≡ name) }
    {
        if is_entry_name(name.as_str()) {
            Ok(Entry { name, kind })
        } else {
            Err(name)
        }
    }

    /// The entry's name.
    pub fn name(&self) -> &str
        ensures value { result.now ≡ self.now.name }
        ensures name { IsTrue (is_entry_name self.now.name) }
    {
        self.name.as_str()
    }
}

/// Whether a text is an entry's name.
pub fn is_entry_name(text: &str) -> bool
    ensures { result ≡ is_entry_name text.now }
{
    stays(text.as_bytes()) && has_no_slash(text.as_bytes())
}

/// Whether a piece of a path is kept in its canonical form.
fn stays(piece: &[u8]) -> bool
    ensures { result ≡ stays piece.now }
{
    !(piece.is_empty() || piece == b".".as_slice() || piece == b"..".as_slice())
}

/// Whether no byte is a slash.
fn has_no_slash(bytes: &[u8]) -> bool
    ensures { result ≡ has_no_slash bytes.now }
{
    bytes.iter().all(|b| !(*b == SEPARATOR))
}
