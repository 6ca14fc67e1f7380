//! What is told of a file.

use std::marker::Model;

/// What a file is told as.
#[derive(Clone, Copy, Debug, PartialEq, Eq)]
pub enum FileClass {
    /// A file with code: `executable`.
    Executable,
    /// A file with debug information: `debuginfo`.
    Debuginfo,
}

/// A file that was found, as one class. Contracts see it as a record of the texts' bytes.
#[derive(Drop)]
pub struct FoundFile {
    /// The hexadecimal digits of its build-id.
    pub build_id: String,
    /// Its path.
    pub file: String,
    /// What it is told as.
    pub class: FileClass,
}

impl Model for FoundFile {
    ghost use Rattle.std.specs.String.{string_bytes};
    ghost use Rattle.metadata_text.specs.Text.{FoundFacts};

    ghost Value = { FoundFacts };

    ghost view = { λ f. record { build_id = string_bytes f.build_id; file = string_bytes f.file; class = f.class } };
}
