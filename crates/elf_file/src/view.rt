//! A file whose section table can be read, of which parts are there.

ghost use Rattle.file_picture.specs.Agrees.{filled_with_zeros};
ghost use Rattle.std.specs.Prelude.{◌≡◌, ◌↔◌, ◌<◌, ◌≤◌, true, false, Some, nat_eq, IsTrue, MatchResult};
ghost use Rattle.file_formats.specs.Numbers.{bytes_at};
ghost use Rattle.file_picture.specs.Picture.{IsCovered};
ghost use Rattle.file_picture.specs.Whole.{whole};
ghost use Rattle.std.specs.List.{starts_with};
ghost use Rattle.std.specs.Option.{option_copied, option_map_or};
ghost use Rattle.file_formats.specs.Table.{given_name, section_at};
ghost use Rattle.elf_file.specs.Texts.{has_no_zero};
ghost use Rattle.elf_file.specs.Steps.{FailsTests, IsExtent, StopsBefore};
ghost use Rattle.elf_file.specs.Opened.{OpensAs, Knows};

use crate::names::Names;
use crate::stop::Stop;
use crate::table::{entry, extent, names_in, table_in};
use file_formats::{ElfFault, Order, SectionHeader, SectionTable};
use file_picture::{Need, View};
use std::marker::Model;

/// An ELF file of which parts are there. Contracts see it as a record of what is known of the file
/// and the section table.
#[derive(Drop)]
pub struct ElfView<'a> {
    view: View<'a>,
    table: SectionTable,
    entries: &'a [u8],
    names: Option<Names<'a>>,
}

impl<'a> Model for ElfView<'a> {
    ghost use Rattle.elf_file.specs.Opened.{Opened, IsTableOpened};

    ghost Value = { Opened };

    ghost view = { λ f. record { file = f.view; table = f.table } };

    ghost invariant = { λ f. IsTableOpened f.view f.table f.entries.now f.names };
}

impl<'a> ElfView<'a> {
    /// Reads the header, the section table and the names.
    pub fn open(view: View<'a>) -> Result<ElfView<'a>, Stop>
        ensures { MatchResult result (OpensAs view.entry) (StopsBefore view.entry) }
    {
        let (table, entries) = table_in(&view)?;
        let names = names_in(&view, &table, entries)?;
        Ok(ElfView {
            view,
            table,
            entries,
            names,
        })
    }

    /// Reads those of a whole file.
    pub fn of_bytes(bytes: &'a [u8]) -> Result<ElfView<'a>, ElfFault>
        ensures { MatchResult result (OpensAs (whole bytes.now)) (FailsTests (whole bytes.now)) }
    {
        match ElfView::open(View::whole(bytes)) {
            Ok(file) => Ok(file),
            Err(Stop::Fault(fault)) => Err(fault),
            Err(Stop::Need(_)) => unreachable!(),
        }
    }

    /// What is known of each file whose table can be read.
    pub fn knows(&self)
        ensures { Knows self.now }
    {
        let _table = &self.table;
    }

    /// The bytes of a range, where they are there.
    pub fn slice(&self, at: &Need) -> Result<&'a [u8], Need>
        ensures { MatchResult result
            (λ bytes. IsCovered self.now.file at.now.at at.now.len
            × (bytes.now ≡ bytes_at (filled_with_zeros self.now.file) at.now.at at.now.len))
            (λ need. (IsCovered self.now.file at.now.at at.now.len → ⊥) × (need ≡ at.now)) }
    {
        self.view.slice(at.at, at.len)
    }

    /// The file's type, as ET_CORE.
    pub fn kind(&self) -> u16
        ensures { result ≡ self.now.table.e_type }
    {
        self.table.e_type
    }

    /// The order of the file's numbers.
    pub fn order(&self) -> Order
        ensures { result ≡ self.now.table.encoding.order }
    {
        self.table.encoding.order
    }

    /// The number of section headers.
    pub fn count(&self) -> u64
        ensures { result ≡ self.now.table.count }
    {
        self.table.count
    }

    /// The section header of an index.
    pub fn header(&self, index: u64) -> SectionHeader
        requires { index < self.now.table.count }
        ensures { result ≡ section_at (filled_with_zeros self.now.file) self.now.table index }
    {
        entry(&self.view, &self.table, self.entries, index)
    }

    /// Where a section's bytes stand, where it has some and its extent lies in the file.
    pub fn extent(&self, header: &SectionHeader) -> Option<Need>
        ensures { IsExtent (filled_with_zeros self.now.file) header.now result }
    {
        extent(&self.view, header)
    }

    /// The name that a section header gives.
    pub fn name(&self, header: &SectionHeader) -> Option<&'a [u8]>
        ensures { option_copied result
            ≡ given_name (filled_with_zeros self.now.file) self.now.table header.now }
    {
        match &self.names {
            Some(names) => names.text(header.sh_name),
            None => None,
        }
    }

    /// Whether a section header gives this name.
    pub fn has_name(&self, header: &SectionHeader, name: &[u8]) -> bool
        ensures { IsTrue result ↔ (given_name (filled_with_zeros self.now.file) self.now.table header.now
            ≡ Some name.now) }
    {
        match &self.names {
            Some(names) => names.is(header.sh_name, name),
            None => false,
        }
    }

    /// Whether a section header gives a name that begins with a prefix. The name's end is not
    /// sought.
    pub fn has_name_with(&self, header: &SectionHeader, prefix: &[u8]) -> bool
        requires { has_no_zero prefix.now ≡ true }
        ensures { result ≡ option_map_or
            (λ name. starts_with nat_eq name prefix.now)
            (given_name (filled_with_zeros self.now.file) self.now.table header.now) false }
    {
        match &self.names {
            Some(names) => names.begins(header.sh_name, prefix),
            None => false,
        }
    }
}
