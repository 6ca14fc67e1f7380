//! A file whose section table can be read.

ghost use Rattle.std.specs.Prelude.{◌≡◌, ◌≢◌, ◌↔◌, ◌<◌, ◌≤◌, ℕ, true, false, Some, nat_eq, IsTrue, IsNone, IfSome, IfNone, IfOk, IfErr};
ghost use Rattle.std.specs.Option.{option_copied, option_map_or};
ghost use Rattle.std.specs.List.{starts_with};
ghost use Rattle.file_formats.specs.Sections.{contents_of};
ghost use Rattle.file_formats.specs.Table.{IsFirstNamed, IsSectionIndex, name_at, given_name, section_at, section_table};
ghost use Rattle.elf_file.specs.Section.{IsSection};
ghost use Rattle.elf_file.specs.Texts.{has_no_zero};

use crate::section::Section;
use crate::view::ElfView;
use file_formats::{ElfFault, Order, SectionHeader};
use std::marker::Model;

/// An ELF file that lends from its bytes. Contracts see it as the bytes and the section table.
#[derive(Drop)]
pub struct ElfFile<'a> {
    file: ElfView<'a>,
}

impl<'a> Model for ElfFile<'a> {
    ghost use Rattle.file_picture.specs.Agrees.{filled_with_zeros};
    ghost use Rattle.elf_file.specs.Parsed.{IsPictureWhole, Parsed};

    ghost Value = { Parsed };

    ghost view = { λ f. record { bytes = filled_with_zeros f.file.file; table = f.file.table } };

    ghost invariant = { λ f. IsPictureWhole f.file.file };
}

impl<'a> ElfFile<'a> {
    /// Reads the header and finds the section table and the names.
    pub fn parse(bytes: &'a [u8]) -> Result<ElfFile<'a>, ElfFault>
        ensures ok { IfOk result (λ file.
            (file.bytes ≡ bytes.now) × (section_table bytes.now ≡ Ok file.table)) }
        ensures err { IfErr result (λ fault. section_table bytes.now ≡ Err fault) }
    {
        match ElfView::of_bytes(bytes) {
            Ok(file) => Ok(ElfFile { file }),
            Err(fault) => Err(fault),
        }
    }

    /// The file's type, as ET_CORE.
    pub fn kind(&self) -> u16
        ensures { result ≡ self.now.table.e_type }
    {
        self.file.kind()
    }

    /// The order of the file's numbers.
    pub fn order(&self) -> Order
        ensures { result ≡ self.now.table.encoding.order }
    {
        self.file.order()
    }

    /// The number of section headers.
    pub fn count(&self) -> u64
        ensures { result ≡ self.now.table.count }
    {
        self.file.count()
    }

    /// The section of an index.
    pub fn section(&self, index: u64) -> Option<Section<'a>>
        ensures none { IsNone result ↔ (self.now.table.count ≤ index) }
        ensures some { IfSome result (IsSection self.now.bytes self.now.table index) }
    {
        if index >= self.count() {
            return None;
        }
        let header = self.header(index);
        Some(Section {
            name: self.name(&header),
            sh_type: header.sh_type,
            flags: header.sh_flags,
            offset: header.sh_offset,
            size: header.sh_size,
            align: header.sh_addralign,
            contents: self.contents(&header),
        })
    }

    /// The index of the first section of a name, from 1 on.
    pub fn by_name(&self, name: &[u8]) -> Option<u64>
        ensures found { IfSome result (IsFirstNamed self.now.bytes self.now.table name.now) }
        ensures none { IfNone result ((i : ℕ) → IsSectionIndex self.now.table i
            → name_at self.now.bytes self.now.table i ≢ Some name.now) }
    {
        for index in 1..self.count() {
            if self.has_name(&self.header(index), name) {
                return Some(index);
            }
        }
        None
    }

    /// The section header of an index.
    pub fn header(&self, index: u64) -> SectionHeader
        requires { index < self.now.table.count }
        ensures { result ≡ section_at self.now.bytes self.now.table index }
    {
        self.file.header(index)
    }

    /// The contents that a section header describes.
    pub fn contents(&self, header: &SectionHeader) -> Option<&'a [u8]>
        ensures { option_copied result ≡ contents_of self.now.bytes header.now }
    {
        let at = self.file.extent(header)?;
        match self.file.slice(&at) {
            Ok(bytes) => Some(bytes),
            Err(_) => unreachable!(),
        }
    }

    /// The name that a section header gives.
    pub fn name(&self, header: &SectionHeader) -> Option<&'a [u8]>
        ensures { option_copied result ≡ given_name self.now.bytes self.now.table header.now }
    {
        self.file.name(header)
    }

    /// Whether a section header gives this name.
    pub fn has_name(&self, header: &SectionHeader, name: &[u8]) -> bool
        ensures { IsTrue result
            ↔ (given_name self.now.bytes self.now.table header.now ≡ Some name.now) }
    {
        self.file.has_name(header, name)
    }

    /// Whether a section header gives a name that begins with a prefix. The name's end is not
    /// sought.
    pub fn has_name_with(&self, header: &SectionHeader, prefix: &[u8]) -> bool
        requires { has_no_zero prefix.now ≡ true }
        ensures { result ≡ option_map_or
            (λ name. starts_with nat_eq name prefix.now)
            (given_name self.now.bytes self.now.table header.now) false }
    {
        self.file.has_name_with(header, prefix)
    }
}
