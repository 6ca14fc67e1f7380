//! What a file is found to be.

use crate::build_id::BuildId;
use std::marker::Model;

/// What is asked of a file with a build-id.
#[derive(Clone, Copy, Debug, PartialEq, Eq)]
pub enum Kind {
    /// The program or library.
    Executable,
    /// The file with the debug information.
    Debuginfo,
}

/// The identity of a file. Contracts see it as a record of the id's bytes and the two tests.
#[derive(Clone, Copy, PartialEq, Eq)]
pub struct Ident {
    /// The build-id.
    pub id: BuildId,
    /// Whether the file has code to run.
    pub exec: bool,
    /// Whether the file has debug information.
    pub debug: bool,
}

impl Model for Ident {
    ghost use Rattle.file_formats.specs.Identity.{Identity};

    ghost Value = { Identity };

    ghost view = { λ a. record { id = a.id; exec = a.exec; debug = a.debug } };

    ghost inverse = { λ v. record { id = v.id; exec = v.exec; debug = v.debug } };
}
