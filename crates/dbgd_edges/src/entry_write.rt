//! How the entries of a folder that is a cache are written: beside their place, and moved there.

ghost use Rattle.std.specs.Prelude.{◌≡◌, ◌≢◌, None, Some, Ok, Err, IfOk, IfErr};
ghost use Rattle.std.specs.IoError.{error_kind};
ghost use Rattle.std.specs.String.{string_bytes};
ghost use Rattle.dbgd_edges.specs.FolderCaches.{entry_path, keep_fault, path_beside};
ghost use Rattle.dbgd_edges.specs.Numbers.{ArePinnedEntries};

use crate::entry_read::entry_path;
use crate::keep_fault::KeepFault;
use std::alloc::{AllocError, Global};
use std::fs::{self, DirBuilder, Files, OpenFile, OpenOptions};
use std::io::{self, ErrorKind, Write};
use std::os::unix::fs::{DirBuilderExt, OpenOptionsExt};

/// How often a new file beside an entry is tried, each time with another number.
pub const NAME_TRIES: u32 = 64;

/// The mode of an entry: its owner may read it.
pub const ENTRY_MODE: u32 = 0o400;

/// The mode of a folder that is made: its owner may use it.
pub const FOLDER_MODE: u32 = 0o700;

/// Makes a folder, with its parents, where it isn't there.
fn make_folder<R: Files>(files: &R, folder: &str) -> io::Result<()>
    ensures { ArePinnedEntries }
{
    DirBuilder::new()
        .recursive(true)
        .mode(FOLDER_MODE)
        .create(files, folder)
}

/// Opens a new file.
fn open_new<R: Files>(files: &R, path: &str) -> io::Result<R::File> {
    OpenOptions::new()
        .write(true)
        .create_new(true)
        .mode(ENTRY_MODE)
        .open(files, path)
}

/// The path of a file that becomes an entry.
fn path_beside(
    alloc: Global,
    folder: &str,
    name: &str,
    process: u32,
    number: u32,
) -> Result<String, AllocError>
    ensures { IfOk result (λ path.
        string_bytes path ≡ path_beside folder.now name.now process number) }
{
    format!(in alloc; "{folder}/.{name}.{process}-{number}")
}

/// The new file that was opened, by what the system answered. `None`: one stands there.
fn if_new<F: Drop>(opened: io::Result<F>) -> Result<Option<F>, KeepFault>
    ensures ok { IfOk opened (λ file. result ≡ Ok (Some file)) }
    ensures taken { IfErr opened (λ error.
        error_kind error ≡ ErrorKind.AlreadyExists → result ≡ Ok None) }
    ensures err { IfErr opened (λ error.
        error_kind error ≢ ErrorKind.AlreadyExists → result ≡ Err (keep_fault error)) }
{
    match opened {
        Ok(file) => Ok(Some(file)),
        Err(error) if error.kind() == ErrorKind::AlreadyExists => Ok(None),
        Err(error) => Err(KeepFault::from(error)),
    }
}

/// A new file that becomes an entry, and its path. What stands under a name is left to whoever made it.
fn new_beside<R: Files>(
    files: &R,
    alloc: Global,
    folder: &str,
    name: &str,
    process: u32,
) -> Result<(String, R::File), KeepFault> {
    for number in 0..NAME_TRIES {
        let path = path_beside(alloc, folder, name, process, number)?;
        if let Some(file) = if_new(open_new(files, path.as_str()))? {
            return Ok((path, file));
        }
    }
    Err(KeepFault::Refused)
}

/// Writes bytes into a new file, and moves it into an entry's place once they are on the disk.
fn fill_and_move<R: Files>(
    files: &R,
    mut file: R::File,
    bytes: &[u8],
    from: &str,
    to: &str,
) -> io::Result<()> {
    file.write_all(bytes)?;
    file.sync_all()?;
    fs::rename(files, from, to)
}

/// Keeps bytes as the entry of this name, in place of what stands there. Where that fails, what
/// stands there stays.
pub fn write_entry<R: Files>(
    files: &R,
    alloc: Global,
    folder: &str,
    name: &str,
    process: u32,
    bytes: &[u8],
) -> Result<(), KeepFault>
    ensures placeless { entry_path folder.now name.now ≡ None → result ≡ Err KeepFault.Refused }
{
    let Some(path) = entry_path(alloc, folder, name)? else {
        return Err(KeepFault::Refused);
    };
    make_folder(files, folder)?;
    let (beside, file) = new_beside(files, alloc, folder, name, process)?;
    let moved = fill_and_move(files, file, bytes, beside.as_str(), path.as_str());
    if moved.is_err() {
        let _ = fs::remove_file(files, beside.as_str());
    }
    Ok(moved?)
}
