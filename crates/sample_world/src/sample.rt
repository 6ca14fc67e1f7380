//! The files of the sample world.

ghost use Rattle.std.specs.Prelude.{◌≡◌, IfOk};
ghost use Rattle.sample_world.specs.Samples.{sample_path, sample_secs, sample_bytes, sample_found};

use crate::world::SampleWorld;
use row_types::Stamp;
use sample_files::{
    big_endian_debug, both_classes, debug_companion, dwarf_five, eight_aligned_notes, executable,
};
use std::alloc::{AllocError, Global};
use tree_trait::Found;

/// A file at one time.
#[derive(Clone, Copy, Debug, PartialEq, Eq)]
pub enum Sample {
    /// `/srv/bin/empty`, without bytes.
    Empty,
    /// `/srv/bin/libx.so`, code and debug information under one id.
    FirstLibrary,
    /// `/srv/bin/liby.so`, code, with notes that are aligned to 8.
    SecondLibrary,
    /// `/srv/bin/prog`, code and debug information of DWARF 5.
    Program,
    /// `/srv/bin/run.sh`, a script.
    Script,
    /// `/srv/bin/tool`, code whose debug information is `/srv/debug/tool.debug`.
    Tool,
    /// `/srv/debug/notes.txt`, without bytes.
    Notes,
    /// `/srv/debug/ppc.debug`, debug information for a 32-bit big-endian machine.
    OtherMachine,
    /// `/srv/debug/tool.debug`, the debug information of `/srv/bin/tool`.
    ToolDebug,
    /// `/w/README`, without bytes.
    Readme,
    /// `/w/src/inc/util.h`, a source without bytes.
    Header,
    /// `/w/src/main.c`, a source.
    Source,
    /// `/srv/a` before it changes.
    Before,
    /// `/srv/a` after it changed.
    After,
}

/// The files of the reference tree, by path.
pub const REFERENCE_TREE: [Sample; 12] = [
    Sample::Empty,
    Sample::FirstLibrary,
    Sample::SecondLibrary,
    Sample::Program,
    Sample::Script,
    Sample::Tool,
    Sample::Notes,
    Sample::OtherMachine,
    Sample::ToolDebug,
    Sample::Readme,
    Sample::Header,
    Sample::Source,
];

impl Sample {
    /// The file's path.
    pub fn path(self) -> &'static str
        ensures { result.now ≡ sample_path self }
    {
        match self {
            Sample::Empty => "/srv/bin/empty",
            Sample::FirstLibrary => "/srv/bin/libx.so",
            Sample::SecondLibrary => "/srv/bin/liby.so",
            Sample::Program => "/srv/bin/prog",
            Sample::Script => "/srv/bin/run.sh",
            Sample::Tool => "/srv/bin/tool",
            Sample::Notes => "/srv/debug/notes.txt",
            Sample::OtherMachine => "/srv/debug/ppc.debug",
            Sample::ToolDebug => "/srv/debug/tool.debug",
            Sample::Readme => "/w/README",
            Sample::Header => "/w/src/inc/util.h",
            Sample::Source => "/w/src/main.c",
            Sample::Before | Sample::After => "/srv/a",
        }
    }

    /// When the file changed last, in seconds since the start of 1970.
    pub fn secs(self) -> i64
        ensures { result ≡ sample_secs self }
    {
        match self {
            Sample::After => 101,
            _ => 100,
        }
    }

    /// The file's bytes.
    pub fn bytes(self, alloc: Global) -> Result<Vec<u8>, AllocError>
        ensures { IfOk result (λ bytes. bytes.items ≡ sample_bytes self) }
    {
        match self {
            Sample::Program => dwarf_five(alloc),
            Sample::Tool => executable(alloc),
            Sample::FirstLibrary => both_classes(alloc),
            Sample::SecondLibrary => eight_aligned_notes(alloc),
            Sample::ToolDebug => debug_companion(alloc),
            Sample::OtherMachine => big_endian_debug(alloc),
            Sample::Script => Vec::from_slice(alloc, b"#!/bin/sh\n"),
            Sample::Source => Vec::from_slice(alloc, b"int main(void){return 0;}\n"),
            Sample::Before => Vec::from_slice(alloc, b"hello\n"),
            Sample::After => Vec::from_slice(alloc, b"hello!\n"),
            Sample::Empty | Sample::Notes | Sample::Readme | Sample::Header => Ok(Vec::new(alloc)),
        }
    }

    /// The file, as a tree of this world finds it.
    pub fn found(self, alloc: Global) -> Result<Found<SampleWorld>, AllocError>
        ensures { IfOk result (λ found. found ≡ sample_found self) }
    {
        let bytes = self.bytes(alloc)?;
        let path = String::from_str(alloc, self.path())?;
        let stamp = Stamp {
            size: bytes.len() as u64,
            secs: self.secs(),
            nanos: 0,
        };
        Ok(Found::new(path, stamp, bytes))
    }
}
