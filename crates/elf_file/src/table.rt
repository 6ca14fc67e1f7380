//! The section table and the tests that find it.

ghost use Rattle.file_picture.specs.Agrees.{filled_with_zeros};
ghost use Rattle.std.specs.Prelude.{◌≡◌, ◌+◌, ◌*◌, ◌≤◌, ◌<◌, true, false, length, Err, MatchResult, OnOk, OnErr, IfOk, IfErr};
ghost use Rattle.file_formats.specs.Sections.{shdr_size};
ghost use Rattle.file_formats.specs.Table.{has_names, section_at, table_below, section_count};
ghost use Rattle.file_formats.specs.Windows.{reaches_zero, reaches_table};
ghost use Rattle.elf_file.specs.Steps.{AllHere, AreEntries, HasEntries, HasElfHeader, HasTable, Needs, StopsBefore, HasNames, IsExtent};

use crate::names::Names;
use crate::section::header_at;
use crate::start::{count, describe, head_in, holds_section_zero, zero_in};
use crate::stop::Stop;
use file_formats::{ElfFault, Head, SHN_UNDEF, SectionHeader, SectionTable};
use file_picture::{Need, View};

/// The tests before section 0's header is read.
#[tactic(auto, unfolding(file_formats::specs::Table::table_below))]
fn first_tests(view: &View<'_>, head: &Head) -> Result<(), ElfFault>
    ensures ok { OnOk result (reaches_zero (filled_with_zeros view.now) head.now ≡ true) }
    ensures fault { IfErr result (λ fault. table_below (filled_with_zeros view.now) head.now ≡ Err fault) }
    ensures ends { OnErr result (reaches_zero (filled_with_zeros view.now) head.now ≡ false) }
{
    if head.e_shoff == 0 {
        return Err(ElfFault::NoSections);
    }
    if head.e_shentsize as u64 != head.encoding.class.shdr_size() {
        return Err(ElfFault::BadTable);
    }
    if head.e_shnum == 0 && !holds_section_zero(view, head) {
        return Err(ElfFault::BadTable);
    }
    Ok(())
}

/// The tests of the count and of the table's end. Gives how many bytes the table has.
#[tactic(auto, unfolding(file_formats::specs::Table::table_below))]
fn last_tests(view: &View<'_>, head: &Head, count: u64) -> Result<u64, ElfFault>
    requires count { count ≡ section_count (filled_with_zeros view.now) head.now }
    requires reached { reaches_zero (filled_with_zeros view.now) head.now ≡ true }
    ensures ok { OnOk result (reaches_table (filled_with_zeros view.now) head.now ≡ true) }
    ensures len { IfOk result (λ len. len ≡ section_count (filled_with_zeros view.now) head.now
        * head.now.e_shentsize) }
    ensures fault { IfErr result (λ fault. table_below (filled_with_zeros view.now) head.now ≡ Err fault) }
    ensures ends { OnErr result (reaches_table (filled_with_zeros view.now) head.now ≡ false) }
{
    if count == 0 {
        return Err(ElfFault::NoSections);
    }
    let len = count as u128 * head.e_shentsize as u128;
    if head.e_shoff as u128 + len > view.size() as u128 {
        return Err(ElfFault::BadTable);
    }
    Ok(len as u64)
}

/// The bytes of the table's entries.
#[tactic(auto, using(crate::proofs::TestLemmas::has_entries, crate::proofs::TestLemmas::needs_table))]
fn entries_in<'a>(view: &View<'a>, head: &Head, len: u64) -> Result<&'a [u8], Need>
    requires head { HasElfHeader view.now head.now }
    requires len { len ≡ section_count (filled_with_zeros view.now) head.now * head.now.e_shentsize }
    requires reached { reaches_table (filled_with_zeros view.now) head.now ≡ true }
    requires all { AllHere view.now 2 }
    ensures { MatchResult result (λ entries. HasEntries view.now head.now entries.now)
        (Needs view.now) }
{
    view.slice(head.e_shoff, len)
}

/// The section table with its entries, where all tests pass.
#[tactic(auto, using(crate::proofs::TestLemmas::fails_first, crate::proofs::TestLemmas::fails_last, crate::proofs::TestLemmas::reads_table, crate::proofs::TestLemmas::fails_names, crate::proofs::TestLemmas::entries_of))]
pub fn table_in<'a>(view: &View<'a>) -> Result<(SectionTable, &'a [u8]), Stop>
    ensures { MatchResult result (λ found. HasTable view.now found.0 found.1.now)
        (StopsBefore view.now) }
{
    let head = head_in(view)?;
    if let Err(fault) = first_tests(view, &head) {
        return Err(Stop::Fault(fault));
    }
    let zero = zero_in(view, &head)?;
    let count = count(view, &head, &zero);
    let len = match last_tests(view, &head, count) {
        Ok(len) => len,
        Err(fault) => return Err(Stop::Fault(fault)),
    };
    let entries = entries_in(view, &head, len)?;
    let table = describe(view, &head, &zero, count);
    if names_are_there(view, &table, entries) {
        Ok((table, entries))
    } else {
        Err(Stop::Fault(ElfFault::BadNames))
    }
}

/// The section header of an index, from the table's bytes.
pub fn entry(view: &View<'_>, table: &SectionTable, entries: &[u8], index: u64) -> SectionHeader
    requires entries { AreEntries (filled_with_zeros view.now) table.now entries.now }
    requires below { index < table.now.count }
    ensures { result ≡ section_at (filled_with_zeros view.now) table.now index }
{
    header_at(
        entries,
        table.encoding,
        (index * table.encoding.class.shdr_size()) as usize,
    )
}

/// Where a section's bytes stand, where it has some and its extent lies in the file.
pub fn extent(view: &View<'_>, header: &SectionHeader) -> Option<Need>
    ensures { IsExtent (filled_with_zeros view.now) header.now result }
{
    let end = header.sh_offset as u128 + header.sh_size as u128;
    if header.takes_no_bytes() || (view.size() as u128) < end {
        return None;
    }
    Some(Need {
        at: header.sh_offset,
        len: header.sh_size,
    })
}

/// Whether no section has a name, or the names' section is there and has contents.
fn names_are_there(view: &View<'_>, table: &SectionTable, entries: &[u8]) -> bool
    requires { AreEntries (filled_with_zeros view.now) table.now entries.now }
    ensures { result ≡ has_names (filled_with_zeros view.now) table.now }
{
    if table.names == SHN_UNDEF {
        return true;
    }
    if table.names >= table.count {
        return false;
    }
    extent(view, &entry(view, table, entries, table.names)).is_some()
}

/// The names, where sections have some.
pub fn names_in<'a>(
    view: &View<'a>,
    table: &SectionTable,
    entries: &[u8],
) -> Result<Option<Names<'a>>, Need>
    requires { HasTable view.now table.now entries.now }
    ensures { MatchResult result (HasNames view.now table.now) (Needs view.now) }
{
    if table.names == SHN_UNDEF {
        return Ok(None);
    }
    match extent(view, &entry(view, table, entries, table.names)) {
        None => Ok(None),
        Some(at) => match view.slice(at.at, at.len) {
            Ok(bytes) => Ok(Some(Names::new(bytes))),
            Err(need) => Err(need),
        },
    }
}
