//! A section before it has a place.

ghost use Rattle.std.specs.Prelude.{◌≡◌, ◌+◌, ◌<◌, ◌≤◌, ◌^◌, ◌++◌, length, replicate, OnOk};
ghost use Rattle.sample_files.specs.Parts.{section, section_without_bytes};
ghost use Rattle.sample_files.specs.Layout as layout;

use crate::codes::SHT_NOBITS;
use crate::fields::{Field, push_zeros};
use std::alloc::AllocError;
use std::marker::Model;

/// A section to lay out. Contracts see it as a record of its name, type, flags and alignment, its
/// bytes in the file and its stated size.
#[derive(Drop)]
pub struct Section<'a> {
    name: &'a str,
    sh_type: u32,
    flags: u32,
    alignment: u32,
    contents: &'a [u8],
    size: u32,
}

impl<'a> Model for Section<'a> {
    ghost use Rattle.std.specs.Prelude.{◌<◌};
    ghost use Rattle.sample_files.specs.Parts.{Part};

    ghost Value = { Part };

    ghost view = { λ s. record {
      name = s.name.now;
      sh_type = s.sh_type;
      flags = s.flags;
      alignment = s.alignment;
      contents = s.contents.now;
      size = s.size;
    } };

    ghost invariant = { λ s. 0 < s.alignment };
}

/// How far a place is from the next multiple of an alignment.
pub(crate) fn padding(alignment: usize, place: usize) -> usize
    requires { 0 < alignment }
    ensures value { result ≡ layout.padding alignment place }
    ensures bound { result < alignment }
{
    (alignment - place % alignment) % alignment
}

impl<'a> Section<'a> {
    /// A section with bytes in the file.
    pub fn new(name: &'a str, sh_type: u32, flags: u32, alignment: u32, contents: &'a [u8]) -> Self
        requires aligned { 0 < alignment }
        requires fits { length contents.now < 2 ^ 32 }
        ensures { result ≡ section name.now sh_type flags alignment contents.now }
    {
        Section {
            name,
            sh_type,
            flags,
            alignment,
            contents,
            size: contents.len() as u32,
        }
    }

    /// A NOBITS section: it states a size and takes no bytes in the file.
    pub fn without_bytes(name: &'a str, flags: u32, alignment: u32, size: u32) -> Self
        requires { 0 < alignment }
        ensures { result ≡ section_without_bytes name.now flags alignment size }
    {
        Section {
            name,
            sh_type: SHT_NOBITS,
            flags,
            alignment,
            contents: &[],
            size,
        }
    }

    /// Where the section starts that comes behind a place.
    pub(crate) fn start(&self, place: usize) -> usize
        requires { place < 2 ^ 32 }
        ensures value { result ≡ layout.first_fit self.now.alignment place }
        ensures bound { result ≤ place + self.now.alignment }
    {
        place + padding(self.alignment as usize, place)
    }

    /// Where the section ends that comes behind a place.
    pub(crate) fn end(&self, place: usize) -> usize
        requires { place + layout.part_room self.now < 2 ^ 32 }
        ensures value { result ≡ layout.part_end place self.now }
        ensures bound { result + length self.now.name ≤ place + layout.part_room self.now }
    {
        self.start(place) + self.contents.len()
    }

    /// The size of the section's name in the names' section.
    pub(crate) fn name_size(&self) -> usize
        requires { length self.now.name < 2 ^ 32 }
        ensures value { result ≡ length (layout.name_bytes self.now) }
        ensures bound { result ≤ layout.part_room self.now }
    {
        self.name.len() + 1
    }

    /// Pushes the section's name with a 0.
    pub(crate) fn push_name(&self, out: &mut Vec<u8>) -> Result<(), AllocError>
        ensures { OnOk result (out.new.items ≡ out.old.items ++ layout.name_bytes self.now) }
    {
        out.extend_from_slice(self.name.as_bytes())?;
        out.push(0)?;
        Ok(())
    }

    /// Pushes zeros from a place up to the section's start, then its bytes.
    pub(crate) fn push_body(&self, out: &mut Vec<u8>, place: usize) -> Result<(), AllocError>
        ensures { OnOk result (out.new.items ≡ out.old.items
            ++ replicate (layout.padding self.now.alignment place) 0 ++ self.now.contents) }
    {
        push_zeros(out, padding(self.alignment as usize, place))?;
        out.extend_from_slice(self.contents)
    }

    /// The section's header.
    pub(crate) fn entry(&self, name: u32, offset: u32) -> [Field; 10]
        ensures { result ≡ layout.entry_fields name offset self.now }
    {
        [
            Field::Word(name),
            Field::Word(self.sh_type),
            Field::Place(self.flags),
            Field::Place(0),
            Field::Place(offset),
            Field::Place(self.size),
            Field::Word(0),
            Field::Word(0),
            Field::Place(self.alignment),
            Field::Place(0),
        ]
    }
}
