//! A folder of files as a cache.

ghost use Rattle.std.specs.Prelude.{◌≡◌, None};
ghost use Rattle.std.specs.String.{string_bytes};
ghost use Rattle.find_client.specs.Cache.{AsksOfCache, PutsInCache, failed, said_by};
ghost use Rattle.dbgd_edges.specs.FolderCaches.{IsWithinLimit, entry_path, shown_folder};

use crate::entry_read::read_entry;
use crate::entry_write::write_entry;
use crate::keep_fault::KeepFault;
use crate::read_fault::ReadFault;
use find_client::{Cache, CacheAnswer, CachePut};
use row_types::Faults;
use std::alloc::Global;
use std::fs::Files;

/// A cache whose entries are the regular files of a folder, each of its entry's name. It doesn't tell
/// what it holds or was asked. The folder is made by the first put; one without a name can't be read
/// or written.
#[derive(Drop)]
pub struct FolderCache<R: Drop> {
    files: R,
    folder: String,
    process: u32,
    faults: Faults,
}

impl<R: Drop> FolderCache<R> {
    /// The cache in the folder at a path, which isn't looked at yet. By the process' number its new
    /// files have names of their own until they become entries.
    pub fn new(files: R, folder: String, process: u32) -> FolderCache<R>
        ensures files { result.files ≡ files }
        ensures folder { result.folder ≡ folder }
        ensures process { result.process ≡ process }
        ensures faults { result.faults ≡ 0 }
    {
        FolderCache {
            files,
            folder,
            process,
            faults: Faults::new(),
        }
    }

    /// How often the cache has failed.
    pub fn count(&self) -> u64
        ensures { result ≡ self.now.faults }
    {
        self.faults.count()
    }
}

impl<R: Files + Drop> Cache for FolderCache<R> {
    ghost shows = { λ c. shown_folder c.faults };

    fn get(&mut self, alloc: Global, name: &str) -> CacheAnswer
        ensures asks { AsksOfCache (shown_folder self.old.faults) name.now result (shown_folder self.new.faults) }
        ensures limit { IsWithinLimit (said_by result) }
        ensures placeless { entry_path (string_bytes self.old.folder) name.now ≡ None → said_by result ≡ failed }
        ensures same { (self.new.folder ≡ self.old.folder) × (self.new.process ≡ self.old.process) }
    {
        match read_entry(&self.files, alloc, self.folder.as_str(), name) {
            Ok(Some(bytes)) => CacheAnswer::Held(bytes),
            Ok(None) => CacheAnswer::Absent,
            Err(ReadFault::OutOfMemory) => CacheAnswer::OutOfMemory,
            Err(_) => {
                self.faults.raise();
                CacheAnswer::Failed
            }
        }
    }

    fn put(&mut self, alloc: Global, name: &str, bytes: &[u8]) -> CachePut
        ensures puts { PutsInCache (shown_folder self.old.faults) name.now bytes.now result
            (shown_folder self.new.faults) }
        ensures placeless { entry_path (string_bytes self.old.folder) name.now ≡ None → result ≡ CachePut.Failed }
        ensures same { (self.new.folder ≡ self.old.folder) × (self.new.process ≡ self.old.process) }
    {
        let folder = self.folder.as_str();
        match write_entry(&self.files, alloc, folder, name, self.process, bytes) {
            Ok(()) => CachePut::Done,
            Err(KeepFault::OutOfMemory) => CachePut::OutOfMemory,
            Err(KeepFault::Refused) => {
                self.faults.raise();
                CachePut::Failed
            }
        }
    }
}
