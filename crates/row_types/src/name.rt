//! By what a file is listed.

ghost use Rattle.std.specs.Prelude.{◌≡◌, IfOk};

use crate::path::CanonPath;
use crate::stamp::Stamp;
use std::alloc::{AllocError, Global};

/// A file's path and stamp. Contracts see it as a record of the two.
#[derive(PartialEq, Eq, Drop)]
pub struct Name {
    /// Where the file is.
    pub path: CanonPath,
    /// Which of the files that were ever there it is.
    pub stamp: Stamp,
}

impl Name {
    /// A copy.
    pub fn copy(&self, alloc: Global) -> Result<Name, AllocError>
        ensures { IfOk result (λ name. name ≡ self.now) }
    {
        Ok(Name {
            path: self.path.copy(alloc)?,
            stamp: self.stamp,
        })
    }
}
