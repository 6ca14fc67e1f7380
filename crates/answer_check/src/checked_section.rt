//! A section of a certified picture.

ghost use Rattle.std.specs.Prelude.{◌≡◌, ℕ, List, Some};
ghost use Rattle.file_formats.specs.Table.{IsSectionAnswer};
ghost use Rattle.file_picture.specs.Agrees.{AgreesWithPicture};
ghost use Rattle.answer_check.specs.CheckedSection.{HasSectionSeen, SeesPartOfEach, checked_section};

use crate::checked::Checked;
use elf_classify::{SectionView, section_view};
use file_picture::Picture;
use std::marker::Model;
use webapi_routes::SectionName;

/// A certified picture whose file has the section of a name. The section isn't copied: it is a part
/// of what is known of the file. Contracts see it as a record of the file and the name.
#[derive(Drop)]
pub struct CheckedSection {
    file: Checked,
    name: SectionName,
}

impl Model for CheckedSection {
    ghost use Rattle.answer_check.specs.CheckedSection.{CheckedSectionFacts, HasSectionSeen, checked_section};

    ghost Value = { CheckedSectionFacts };

    ghost view = { λ s. checked_section s.file s.name };

    ghost invariant = { λ s. HasSectionSeen (checked_section s.file s.name) };
}

impl CheckedSection {
    /// The section of this name, of a picture that has it.
    pub fn new(file: Checked, name: SectionName) -> CheckedSection
        requires { HasSectionSeen (checked_section file name) }
        ensures { result ≡ checked_section file name }
    {
        CheckedSection { file, name }
    }

    /// The certified file.
    pub fn file(&self) -> &Checked
        ensures { result.now ≡ self.now.file }
    {
        &self.file
    }

    /// The section's bytes, as they stand in the file.
    pub fn bytes(&self) -> &[u8]
        ensures section { (b : List ℕ) → AgreesWithPicture b self.now.file.picture
            → IsSectionAnswer b self.now.name (Some result.now) }
        ensures only { (b bytes : List ℕ) → AgreesWithPicture b self.now.file.picture
            → IsSectionAnswer b self.now.name (Some bytes) → bytes ≡ result.now }
    {
        section_there(self.file.picture(), self.name.bytes())
    }
}

/// The section of a name in each file that agrees with a picture, which has it.
fn section_there<'a>(picture: &'a Picture, name: &[u8]) -> &'a [u8]
    requires { (part : List ℕ) × SeesPartOfEach picture.now name.now part }
    ensures { SeesPartOfEach picture.now name.now result.now }
{
    // For its clause: the pieces of a picture neither overlap nor touch.
    let _size = picture.size();
    match section_view(picture, name) {
        SectionView::Section(found) => match found {
            Some(bytes) => bytes,
            None => unreachable!(),
        },
        SectionView::Need { .. } => unreachable!(),
    }
}
