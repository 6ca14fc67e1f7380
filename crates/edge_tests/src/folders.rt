//! Files and folders to ask about.

use std::alloc::Global;
use std::fs::{File, Files, Permissions};
use std::io::{Error, ErrorKind};
use std::os::unix::fs::{PermissionsExt, symlink};
use std::process::Abort;
use std::time::{Duration, UNIX_EPOCH};
use std::{env, fs, io, process};

/// Gives a file the time of 100 seconds and 7 nanoseconds.
pub fn set_time(file: &File) -> io::Result<()> {
    match UNIX_EPOCH.checked_add(Duration::new(100, 7)) {
        Some(time) => file.set_modified(time),
        None => Err(Error::from(ErrorKind::Other)),
    }
}

/// Gives what stands at a path this mode.
pub fn set_mode(files: &impl Files, path: &str, mode: u32) -> io::Result<()> {
    fs::set_permissions(files, path, Permissions::from_mode(mode))
}

/// Writes a file of four bytes, of 100 seconds and 7 nanoseconds, with this mode.
fn write_four(files: &impl Files<File = File>, path: &str, mode: u32) -> io::Result<()> {
    fs::write(files, path, "four")?;
    set_time(&File::options().write(true).open(files, path)?)?;
    set_mode(files, path, mode)
}

/// The path with this end behind a folder's path.
pub fn below(rt: &impl Abort, alloc: Global, folder: &str, end: &str) -> String {
    format!(in alloc; "{folder}{end}").expect(rt, "memory")
}

/// Makes a file of four bytes, of 100 seconds and 7 nanoseconds, with this mode.
pub fn make_file<R>(rt: &R, folder: &str, end: &str, mode: u32)
where
    R: Files<File = File> + AllocGlobal + Abort,
{
    let path = below(rt, rt.alloc(), folder, end);
    write_four(rt, path.as_str(), mode).expect(rt, "a file");
}

/// Makes a folder.
pub fn make_dir<R: Files + AllocGlobal + Abort>(rt: &R, folder: &str, end: &str) {
    let path = below(rt, rt.alloc(), folder, end);
    fs::create_dir(rt, path.as_str()).expect(rt, "a folder");
}

/// Makes a link to what stands under this name.
pub fn make_link<R: Files + AllocGlobal + Abort>(rt: &R, folder: &str, end: &str, to: &str) {
    let path = below(rt, rt.alloc(), folder, end);
    symlink(rt, to, path.as_str()).expect(rt, "a link");
}

/// The path of a folder for the test of this name.
pub fn folder_of(rt: &HostRuntime, name: &str) -> io::Result<String> {
    let place = env::temp_dir(rt)?;
    let place = place.as_path().as_str();
    let number = process::id(rt.process());
    Ok(format!(in rt.alloc(); "{place}/dbgd-{name}-{number}")?)
}

/// Makes the folder with two files, `a`, which everyone may read, and `own`, which its owner may, a
/// link to `a`, and a folder with a link to itself.
pub fn make_folder<R>(rt: &R, folder: &str)
where
    R: Files<File = File> + AllocGlobal + Abort,
{
    make_dir(rt, folder, "");
    make_file(rt, folder, "/a", 0o644);
    make_file(rt, folder, "/own", 0o600);
    make_link(rt, folder, "/link", "a");
    make_dir(rt, folder, "/inner");
    make_link(rt, folder, "/inner/round", "../inner");
}
