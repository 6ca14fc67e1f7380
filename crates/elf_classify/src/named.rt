//! The section of a name.

ghost use Rattle.std.specs.Prelude.{◌≡◌, ℕ, List, Option, IfNone, IfSome, MatchResult};
ghost use Rattle.std.specs.Option.{option_copied};
ghost use Rattle.file_formats.specs.Numbers.{bytes_at};
ghost use Rattle.file_formats.specs.Table.{HasSection, IsSectionIndex, IsSectionAnswer, section_at};
ghost use Rattle.file_formats.specs.Windows.{extent, range};
ghost use Rattle.file_picture.specs.Agrees.{filled_with_zeros};
ghost use Rattle.file_picture.specs.Passed.{HasPassed};
ghost use Rattle.file_picture.specs.Picture.{IsPicture};
ghost use Rattle.elf_file.specs.Steps.{AllHere};
ghost use Rattle.elf_classify.specs.Ids.{StopsLooking};
ghost use Rattle.elf_classify.specs.Placed.{IsSectionPlaced, NeedsSection, SaysSectionSeen, SaysSectionStep, SeesNamed, SeesSection};

use crate::ids::{NeedAt, build_id};
use elf_file::{ElfView, Stop};
use file_formats::{ET_CORE, SHF_COMPRESSED};
use file_picture::{Need, Picture, View};

/// Where the section of an index stands, where it has this name and is one that is handed out.
fn place_at(file: &ElfView<'_>, index: u64, name: &[u8]) -> Option<Need>
    requires { IsSectionIndex file.now.table index }
    ensures found { IfSome result (λ at. HasSection (filled_with_zeros file.now.file) file.now.table name.now
        index (bytes_at (filled_with_zeros file.now.file) at.at at.len)) }
    ensures placed { IfSome result (λ at. range at.at at.len
        ≡ extent (section_at (filled_with_zeros file.now.file) file.now.table index)) }
    ensures none { IfNone result ((bytes : List ℕ)
        → HasSection (filled_with_zeros file.now.file) file.now.table name.now index bytes → ⊥) }
{
    let header = file.header(index);
    if header.is_flagged(SHF_COMPRESSED) {
        return None;
    }
    if !file.has_name(&header, name) {
        return None;
    }
    file.extent(&header)
}

/// Where the first section of a name that is handed out stands.
pub(crate) fn first_named(file: &ElfView<'_>, name: &[u8]) -> Option<Need>
    ensures found { IfSome result (IsSectionPlaced (filled_with_zeros file.now.file) file.now.table name.now) }
    ensures none { IfNone result ((i : ℕ) (bytes : List ℕ)
        → HasSection (filled_with_zeros file.now.file) file.now.table name.now i bytes → ⊥) }
{
    for index in 1..file.count() {
        if let Some(at) = place_at(file, index, name) {
            return Some(at);
        }
    }
    None
}

/// The bytes of the first section of a name that is handed out, or what is needed for them.
pub fn section_in<'a>(file: &ElfView<'a>, name: &[u8]) -> Result<Option<&'a [u8]>, Need>
    ensures { MatchResult result
        (λ found. SeesSection file.now name.now (option_copied found))
        (NeedsSection file.now.file name.now) }
{
    // For its clause: what is known of each file whose table can be read.
    file.knows();
    let Some(at) = first_named(file, name) else {
        return Ok(None);
    };
    match file.slice(&at) {
        Ok(bytes) => Ok(Some(bytes)),
        Err(need) => Err(need),
    }
}

/// The bytes of the first section that has this name, has contents and isn't compressed. It takes
/// no memory.
pub fn section_of<'a>(bytes: &'a [u8], name: &[u8]) -> Option<&'a [u8]>
    ensures answer { IsSectionAnswer bytes.now name.now (option_copied result) }
    ensures only { (r : Option (List ℕ))
        → IsSectionAnswer bytes.now name.now r → option_copied result ≡ r }
{
    let file = match ElfView::of_bytes(bytes) {
        Ok(file) => file,
        Err(_) => return None,
    };
    match section_in(&file, name) {
        Ok(found) => found,
        Err(_) => unreachable!(),
    }
}

/// What a picture says of the section of a name.
#[derive(Clone, Copy, PartialEq, Eq)]
pub enum SectionView<'a> {
    /// These bytes are needed, and aren't there.
    Need {
        /// Where they begin, in bytes from the file's start.
        at: u64,
        /// How many they are.
        len: u64,
    },
    /// The bytes of the first section that has the name, has contents and isn't compressed.
    Section(Option<&'a [u8]>),
}

/// The same, with the place to go on from.
#[derive(Clone, Copy, PartialEq, Eq)]
pub enum SectionStep<'a> {
    /// These bytes are needed, and aren't there.
    Need {
        /// Where they begin, in bytes from the file's start.
        at: u64,
        /// How many they are.
        len: u64,
        /// The index of the section from which to look on for a build-id, once they are there.
        next: u64,
    },
    /// The bytes of the first section that has the name, has contents and isn't compressed.
    Section(Option<&'a [u8]>),
}

/// Finds that all windows are there, or one that isn't. No section before one is looked at for a
/// build-id.
fn windows(file: &ElfView<'_>, from: u64) -> Result<(), NeedAt>
    requires picture { IsPicture file.now.file }
    requires passed { HasPassed file.now.file from }
    ensures { MatchResult result (λ _. (n : ℕ) → AllHere file.now.file n) (StopsLooking file.now) }
{
    // For its clause: what is known of each file whose table can be read.
    file.knows();
    if file.kind() == ET_CORE {
        return Ok(());
    }
    match build_id(file, from) {
        Ok(_) => Ok(()),
        Err(stop) => Err(stop),
    }
}

/// What a view says of the section of a name, where all its windows are there. No section before one
/// is looked at for a build-id.
fn section_seen<'a>(seen: View<'a>, name: &[u8], from: u64) -> SectionStep<'a>
    requires { HasPassed seen from }
    ensures { SeesNamed seen.entry name.now result }
{
    // For its clause: the pieces of a picture neither overlap nor touch.
    let _size = seen.size();
    let file = match ElfView::open(seen) {
        Ok(file) => file,
        Err(Stop::Need(need)) => {
            return SectionStep::Need {
                at: need.at,
                len: need.len,
                next: from,
            };
        }
        Err(Stop::Fault(_)) => return SectionStep::Section(None),
    };
    if let Err(stop) = windows(&file, from) {
        return SectionStep::Need {
            at: stop.need.at,
            len: stop.need.len,
            next: stop.from,
        };
    }
    match section_in(&file, name) {
        Ok(found) => SectionStep::Section(found),
        Err(need) => SectionStep::Need {
            at: need.at,
            len: need.len,
            next: from,
        },
    }
}

/// The section of a name in each file that agrees with a picture, where all its windows and that
/// section are there; else one of these that isn't. It takes no memory.
pub fn section_view<'a>(picture: &'a Picture, name: &[u8]) -> SectionView<'a>
    ensures { SaysSectionSeen picture.now name.now result }
{
    match section_from(picture, name, 1) {
        SectionStep::Need { at, len, .. } => SectionView::Need { at, len },
        SectionStep::Section(found) => SectionView::Section(found),
    }
}

/// The same, where no section before one need be looked at for a build-id, as an earlier answer for a
/// picture said of which nothing was lost since. It takes no memory.
pub fn section_from<'a>(picture: &'a Picture, name: &[u8], from: u64) -> SectionStep<'a>
    requires { HasPassed picture.now from }
    ensures { SaysSectionStep picture.now name.now result }
{
    section_seen(View::part(picture), name, from)
}
