//! The sections that a file's debug information stands in.

ghost use Rattle.std.specs.Prelude.{◌≡◌, true, Option, option_map, MatchResult};
ghost use Rattle.file_formats.specs.DwarfSections.{IsDebugAnswer};
ghost use Rattle.file_formats.specs.DwarfUnits.{DebugSections};
ghost use Rattle.file_formats.specs.Parts.{is_debug_name};
ghost use Rattle.dwarf_forms.specs.Parts.{sections_of};
ghost use Rattle.elf_classify.specs.DebugViews.{IsDebugSeen, KnowsIdentity, NeedsDebug, NeedsPart, SaysParts, SeesDebug, SeesPart, SeesParts};
ghost use Rattle.elf_classify.specs.declared.parts.PartsView.TheVariants as view;

use crate::named::section_in;
use dwarf_forms::DebugParts;
use elf_file::{ElfView, Stop};
use file_formats::ET_REL;
use file_picture::{Need, Picture, View};

/// The bytes of the section of a name, none where it isn't handed out.
fn part<'a>(file: &ElfView<'a>, name: &[u8]) -> Result<&'a [u8], Need>
    requires { is_debug_name name.now ≡ true }
    ensures { MatchResult result (λ part. SeesPart file.now name.now part.now)
        (NeedsPart file.now.file) }
{
    match section_in(file, name) {
        Ok(Some(part)) => Ok(part),
        Ok(None) => Ok(&[]),
        Err(need) => Err(need),
    }
}

/// The sections of a file that isn't relocatable, by the definition, or what is needed for them.
fn parts_in<'a>(file: &ElfView<'a>) -> Result<DebugParts<'a>, Need>
    ensures { MatchResult result (λ parts. SeesParts file.now (sections_of parts))
        (NeedsPart file.now.file) }
{
    Ok(DebugParts {
        info: part(file, b".debug_info")?,
        abbrev: part(file, b".debug_abbrev")?,
        line: part(file, b".debug_line")?,
        str: part(file, b".debug_str")?,
        line_str: part(file, b".debug_line_str")?,
        str_offsets: part(file, b".debug_str_offsets")?,
        order: file.order(),
    })
}

/// The sections of a file, by the definition, or what is needed for them.
fn debug_in<'a>(file: &ElfView<'a>) -> Result<Option<DebugParts<'a>>, Need>
    ensures { MatchResult result (λ parts. IsDebugSeen file.now.file (option_map sections_of parts))
        (NeedsDebug file.now.file) }
{
    // For its clause: what is known of each file whose table can be read.
    file.knows();
    if file.kind() == ET_REL {
        return Ok(None);
    }
    match parts_in(file) {
        Ok(parts) => Ok(Some(parts)),
        Err(need) => Err(need),
    }
}

/// The sections of a file's debug information, each the one of its name that `section_of` gives, and
/// empty where it gives none. None for a file without a section table, and for one that the linker
/// has still to put together. It takes no memory.
pub fn debug_parts<'a>(bytes: &'a [u8]) -> Option<DebugParts<'a>>
    ensures answer { IsDebugAnswer bytes.now (option_map sections_of result) }
    ensures only { (r : Option DebugSections)
        → IsDebugAnswer bytes.now r → option_map sections_of result ≡ r }
{
    let file = match ElfView::of_bytes(bytes) {
        Ok(file) => file,
        Err(_) => return None,
    };
    match debug_in(&file) {
        Ok(parts) => parts,
        Err(_) => unreachable!(),
    }
}

/// What a picture says of a file's debug sections.
#[derive(Clone, Copy)]
pub enum PartsView<'a> {
    /// These bytes are needed, and aren't there.
    Need {
        /// Where they begin, in bytes from the file's start.
        at: u64,
        /// How many they are.
        len: u64,
    },
    /// The sections, none for a file that has none to hand out.
    Parts(Option<DebugParts<'a>>),
}

/// The answer that a range is needed.
fn needs<'a>(need: Need) -> PartsView<'a>
    ensures { result ≡ view.Need need.at need.len }
{
    PartsView::Need {
        at: need.at,
        len: need.len,
    }
}

/// What a view says of a file's debug sections.
fn debug_seen<'a>(seen: View<'a>) -> PartsView<'a>
    ensures { SeesDebug seen.entry result }
{
    let file = match ElfView::open(seen) {
        Ok(file) => file,
        Err(Stop::Need(need)) => return needs(need),
        Err(Stop::Fault(_)) => return PartsView::Parts(None),
    };
    match debug_in(&file) {
        Ok(parts) => PartsView::Parts(parts),
        Err(need) => needs(need),
    }
}

/// The debug sections of each file that agrees with a picture whose identity is known, where they
/// are all there; else one that isn't. It takes no memory.
pub fn parts_view<'a>(picture: &'a Picture) -> PartsView<'a>
    requires { KnowsIdentity picture.now }
    ensures { SaysParts picture.now result }
{
    debug_seen(View::part(picture))
}
