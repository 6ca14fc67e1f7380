//! The entries of a folder that is a cache, and how they are read.

ghost use Rattle.std.specs.Prelude.{◌≡◌, ◌≢◌, ◌≤◌, length, nat_le, None, Some, Ok, Err, if◌then◌else◌, IfOk, IfErr, IfSome};
ghost use Rattle.std.specs.Option.{option_map};
ghost use Rattle.std.specs.String.{string_bytes};
ghost use Rattle.std.specs.Fs.{IsFile, file_type, metadata_len};
ghost use Rattle.dbgd_edges.specs.FolderCaches.{entry_path, lost, unseen};

use crate::file_load::read_seen;
use crate::read_fault::ReadFault;
use crate::tries::settled;
use find_client::VALUE_LIMIT;
use std::alloc::{AllocError, Global};
use std::fs::{self, Files, Metadata};
use std::io::{self, ErrorKind};
use tree_trait::is_entry_name;

/// The path of an entry in a folder. `None`: the folder has no name, or it is no entry's name.
pub fn entry_path(alloc: Global, folder: &str, name: &str) -> Result<Option<String>, AllocError>
    ensures value { IfOk result (λ path. option_map string_bytes path ≡ entry_path folder.now name.now) }
    ensures none { entry_path folder.now name.now ≡ None → result ≡ Ok None }
{
    if folder.is_empty() || !is_entry_name(name) {
        return Ok(None);
    }
    Ok(Some(format!(in alloc; "{folder}/{name}")?))
}

/// What an error of the look at an entry's place means. `None`: nothing stands there.
fn unseen(error: io::Error) -> Result<Option<Metadata>, ReadFault>
    ensures { result ≡ unseen error }
{
    match error.kind() {
        ErrorKind::NotFound => Ok(None),
        ErrorKind::NotADirectory => Err(ReadFault::System),
        _ => Err(ReadFault::from(error)),
    }
}

/// The look at an entry's place, by what the system answered. `None`: nothing stands there, or more
/// than a value may have.
fn entry_seen(seen: io::Result<Metadata>) -> Result<Option<Metadata>, ReadFault>
    ensures file { IfOk seen (λ seen. IsFile (file_type seen)
        → result ≡ Ok (if nat_le (metadata_len seen) VALUE_LIMIT then Some seen else None)) }
    ensures other { IfOk seen (λ seen. ¬ IsFile (file_type seen) → result ≡ Err ReadFault.System) }
    ensures err { IfErr seen (λ error. result ≡ unseen error) }
{
    match seen {
        Ok(seen) => {
            if !seen.is_file() {
                return Err(ReadFault::System);
            }
            Ok(Some(seen).filter(|seen| seen.len() <= VALUE_LIMIT as u64))
        }
        Err(error) => unseen(error),
    }
}

/// The bytes of an entry of this size, by what was read of it.
fn all_of(read: Result<Vec<u8>, ReadFault>, size: u64) -> Result<Vec<u8>, ReadFault>
    ensures ok { IfOk read (λ bytes. length bytes.items ≡ size → result ≡ Ok bytes) }
    ensures changed { IfOk read (λ bytes. length bytes.items ≢ size → result ≡ Err ReadFault.Changed) }
    ensures err { IfErr read (λ fault. result ≡ Err (lost fault)) }
{
    match read {
        Ok(bytes) => {
            if bytes.len() as u64 == size {
                Ok(bytes)
            } else {
                Err(ReadFault::Changed)
            }
        }
        Err(ReadFault::Gone) => Err(ReadFault::Changed),
        Err(fault) => Err(fault),
    }
}

/// One try to read the entry at a path.
fn read_once<R: Files>(files: &R, alloc: Global, path: &str) -> Result<Option<Vec<u8>>, ReadFault>
    ensures { IfOk result (λ found. IfSome found (λ bytes. length bytes.items ≤ VALUE_LIMIT)) }
{
    match entry_seen(fs::symlink_metadata(files, path))? {
        Some(seen) => Ok(Some(all_of(read_seen(files, alloc, path, &seen), seen.len())?)),
        None => Ok(None),
    }
}

/// The bytes of the entry of this name. One that changed while it was read is read again. `None`: it
/// isn't there, or has more bytes than a value may have.
pub fn read_entry<R: Files>(
    files: &R,
    alloc: Global,
    folder: &str,
    name: &str,
) -> Result<Option<Vec<u8>>, ReadFault>
    ensures limit { IfOk result (λ found. IfSome found (λ bytes. length bytes.items ≤ VALUE_LIMIT)) }
    ensures placeless { entry_path folder.now name.now ≡ None → result ≡ Err ReadFault.System }
{
    let Some(path) = entry_path(alloc, folder, name)? else {
        return Err(ReadFault::System);
    };
    settled(|| read_once(files, alloc, path.as_str()))
}
