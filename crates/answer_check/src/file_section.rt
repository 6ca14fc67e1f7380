//! A section of a certified file.

ghost use Rattle.std.specs.Prelude.{◌≡◌, ℕ, List, Some};
ghost use Rattle.file_formats.specs.Table.{IsSectionAnswer};
ghost use Rattle.answer_check.specs.Section.{HasNamed, named};

use crate::certified::Certified;
use std::marker::Model;
use webapi_routes::SectionName;

/// A certified file that has the section of a name. The section isn't copied: it is a part of the
/// file's bytes. Contracts see it as a record of the file and the name.
#[derive(Drop)]
pub struct FileSection {
    file: Certified,
    name: SectionName,
}

impl Model for FileSection {
    ghost use Rattle.answer_check.specs.Section.{FileSectionFacts, HasNamed, named};

    ghost Value = { FileSectionFacts };

    ghost view = { λ s. named s.file s.name };

    ghost invariant = { λ s. HasNamed (named s.file s.name) };
}

impl FileSection {
    /// The section of this name, of a file that has it.
    pub(crate) fn new(file: Certified, name: SectionName) -> FileSection
        requires { HasNamed (named file name) }
        ensures { result ≡ named file name }
    {
        FileSection { file, name }
    }

    /// The certified file.
    pub fn file(&self) -> &Certified
        ensures { result.now ≡ self.now.file }
    {
        &self.file
    }

    /// The section's bytes, as they stand in the file.
    pub fn bytes(&self) -> &[u8]
        ensures section { IsSectionAnswer self.now.file.bytes self.now.name (Some result.now) }
        ensures only { (bytes : List ℕ)
            → IsSectionAnswer self.now.file.bytes self.now.name (Some bytes) → bytes ≡ result.now }
    {
        match self.file.section(self.name.bytes()) {
            Some(bytes) => bytes,
            None => unreachable!(),
        }
    }
}
