//! The header, and section 0's.

ghost use Rattle.file_picture.specs.Agrees.{filled_with_zeros};
ghost use Rattle.std.specs.Prelude.{◌≡◌, ◌+◌, ◌≤◌, ◌==◌, ◌&&◌, true, nat_le, length, MatchResult};
ghost use Rattle.file_formats.specs.Sections.{shdr_size};
ghost use Rattle.file_formats.specs.Table.{has_section_zero, section_count, described};
ghost use Rattle.file_formats.specs.Windows.{reaches_zero, reaches_table, asks_zero};
ghost use Rattle.elf_file.specs.Steps.{HasBeginning, HasElfHeader, HasZero, Needs, StopsBefore, from_zero};
ghost use Rattle.file_formats.specs.declared.codes.TheConstants.{SHN_XINDEX};

use crate::head::head;
use crate::section::header_at;
use crate::stop::Stop;
use file_formats::{EHDR64_SIZE, Head, SHN_XINDEX, SectionHeader, SectionTable};
use file_picture::{Need, View};

/// The first bytes, as many as the larger ELF header has, or all where there are fewer.
fn beginning<'a>(view: &View<'a>) -> Result<&'a [u8], Need>
    ensures { MatchResult result (λ bytes. HasBeginning view.now bytes.now) (Needs view.now) }
{
    view.slice(0, (EHDR64_SIZE as u64).min(view.size()))
}

/// The header, where the first two tests pass.
pub fn head_in(view: &View<'_>) -> Result<Head, Stop>
    ensures { MatchResult result (HasElfHeader view.now) (StopsBefore view.now) }
{
    let front = beginning(view)?;
    match head(front) {
        Ok(head) => Ok(head),
        Err(fault) => Err(Stop::Fault(fault)),
    }
}

/// Whether section 0's header is wholly in the file.
pub fn holds_section_zero(view: &View<'_>, head: &Head) -> bool
    ensures { result ≡ has_section_zero (filled_with_zeros view.now) head.now }
{
    head.e_shoff as u128 + head.encoding.class.shdr_size() as u128 <= view.size() as u128
}

/// Section 0's header, where it is asked and there.
pub fn zero_in(view: &View<'_>, head: &Head) -> Result<Option<SectionHeader>, Need>
    requires head { HasElfHeader view.now head.now }
    requires reached { reaches_zero (filled_with_zeros view.now) head.now ≡ true }
    ensures { MatchResult result (HasZero view.now head.now) (Needs view.now) }
{
    if !wants_zero(view, head) {
        return Ok(None);
    }
    let bytes = view.slice(head.e_shoff, head.encoding.class.shdr_size())?;
    Ok(Some(header_at(bytes, head.encoding, 0)))
}

/// Whether section 0's header is asked and there.
fn wants_zero(view: &View<'_>, head: &Head) -> bool
    ensures { result ≡ (asks_zero head.now && has_section_zero (filled_with_zeros view.now) head.now) }
{
    asks_zero(head) && holds_section_zero(view, head)
}

/// Whether section 0's header is asked for a count or an index.
fn asks_zero(head: &Head) -> bool
    ensures { result ≡ asks_zero head.now }
{
    head.e_shnum == 0 || head.e_shstrndx as u64 == SHN_XINDEX
}

/// The number of sections.
pub fn count(view: &View<'_>, head: &Head, zero: &Option<SectionHeader>) -> u64
    requires zero { HasZero view.now head.now zero.now }
    requires reached { reaches_zero (filled_with_zeros view.now) head.now ≡ true }
    ensures { result ≡ section_count (filled_with_zeros view.now) head.now }
{
    count_by(head, zero)
}

/// The number of sections, by section 0's header where it is asked.
fn count_by(head: &Head, zero: &Option<SectionHeader>) -> u64
    ensures { result ≡ from_zero (head.now.e_shnum == 0) (λ s. s.sh_size) zero.now
        head.now.e_shnum }
{
    match zero {
        Some(zero) if head.e_shnum == 0 => zero.sh_size,
        _ => head.e_shnum as u64,
    }
}

/// The index of the names' section, by section 0's header where it is asked.
fn names_by(head: &Head, zero: &Option<SectionHeader>) -> u64
    ensures { result ≡ from_zero (head.now.e_shstrndx == SHN_XINDEX) (λ s. s.sh_link) zero.now
        head.now.e_shstrndx }
{
    match zero {
        Some(zero) if head.e_shstrndx as u64 == SHN_XINDEX => zero.sh_link as u64,
        _ => head.e_shstrndx as u64,
    }
}

/// The table that the header describes.
pub fn describe(
    view: &View<'_>,
    head: &Head,
    zero: &Option<SectionHeader>,
    count: u64,
) -> SectionTable
    requires zero { HasZero view.now head.now zero.now }
    requires count { count ≡ section_count (filled_with_zeros view.now) head.now }
    requires reached { reaches_table (filled_with_zeros view.now) head.now ≡ true }
    ensures { result ≡ described (filled_with_zeros view.now) head.now }
{
    SectionTable {
        encoding: head.encoding,
        e_type: head.e_type,
        start: head.e_shoff,
        count,
        names: names_by(head, zero),
    }
}
