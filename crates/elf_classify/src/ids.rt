//! The build-id of a file of which parts are there, section by section.

ghost use Rattle.std.specs.Prelude.{◌≡◌, ◌≢◌, ℕ, MatchOption, MatchResult};
ghost use Rattle.file_formats.specs.Notes.{HasBuildId, IsFirstBuildId, notes_in};
ghost use Rattle.file_formats.specs.Table.{IsSectionIndex};
ghost use Rattle.file_formats.specs.declared.codes.TheConstants.{ET_CORE};
ghost use Rattle.file_picture.specs.Passed.{HasPassed};
ghost use Rattle.file_picture.specs.Picture.{IsPicture};
ghost use Rattle.elf_file.specs.Steps.{Needs};
ghost use Rattle.elf_classify.specs.Ids.{Finds, FindsAt, LooksAt, StopsLooking};

use elf_file::ElfView;
use elf_notes::first_build_id;
use file_formats::{Order, SHF_COMPRESSED, SHT_NOTE};
use file_picture::Need;
use row_types::BuildId;

/// The first build-id among the notes of a section.
fn id_in(contents: &[u8], order: Order, align: u64) -> Option<BuildId>
    ensures { MatchOption result
        ((p : ℕ) → HasBuildId (notes_in contents.now order align) p → ⊥)
        (IsFirstBuildId (notes_in contents.now order align)) }
{
    let id = first_build_id(contents, order, align)?;
    BuildId::new(id)
}

/// The first build-id of the section of an index.
fn id_at(file: &ElfView<'_>, index: u64) -> Result<Option<BuildId>, Need>
    requires index { IsSectionIndex file.now.table index }
    requires looks { LooksAt file.now index }
    ensures { MatchResult result (FindsAt file.now index) (Needs file.now.file) }
{
    let header = file.header(index);
    if header.sh_type != SHT_NOTE {
        return Ok(None);
    }
    if header.is_flagged(SHF_COMPRESSED) {
        return Ok(None);
    }
    let Some(at) = file.extent(&header) else {
        return Ok(None);
    };
    match file.slice(&at) {
        Ok(contents) => Ok(id_in(contents, file.order(), header.sh_addralign)),
        Err(need) => Err(need),
    }
}

/// A range that isn't there, and the section from which to look on, once it is.
#[derive(Clone, Copy)]
pub struct NeedAt {
    /// The range.
    pub need: Need,
    /// The section's index.
    pub from: u64,
}

/// The build-id of the first section that has one, where none before a section has. All windows are
/// there then.
#[tactic(auto, using(crate::proofs::IdLemmas::looks_next, crate::proofs::IdLemmas::finds_first, crate::proofs::IdLemmas::finds_nothing))]
pub fn build_id(file: &ElfView<'_>, from: u64) -> Result<Option<BuildId>, NeedAt>
    requires other { file.now.table.e_type ≢ ET_CORE }
    requires picture { IsPicture file.now.file }
    requires passed { HasPassed file.now.file from }
    ensures { MatchResult result (Finds file.now) (StopsLooking file.now) }
{
    // For its clause: what is known of each file whose table can be read.
    file.knows();
    for index in from..file.count() {
        match id_at(file, index) {
            Ok(Some(id)) => return Ok(Some(id)),
            Ok(None) => {}
            Err(need) => return Err(NeedAt { need, from: index }),
        }
    }
    Ok(None)
}
