//! What a file is found to be.

ghost use Rattle.std.specs.Prelude.{◌≡◌, IfOk};

use crate::identity::Ident;
use crate::sources::Sources;
use file_formats::Why;
use std::alloc::{AllocError, Global};

/// What a file is found to be.
#[derive(Drop)]
pub enum Reading {
    /// A file without an identity.
    Plain(Why),
    /// A file with an identity.
    Elf {
        /// The identity.
        ident: Ident,
        /// The paths of the sources that it was made from.
        sources: Sources,
    },
}

impl Reading {
    /// A copy.
    pub fn copy(&self, alloc: Global) -> Result<Reading, AllocError>
        ensures { IfOk result (λ reading. reading ≡ self.now) }
    {
        Ok(match self {
            Reading::Plain(why) => Reading::Plain(*why),
            Reading::Elf { ident, sources } => Reading::Elf {
                ident: *ident,
                sources: sources.copy(alloc)?,
            },
        })
    }
}
