//! Why an entry of a folder isn't kept.

use std::alloc::AllocError;
use std::io::{self, ErrorKind};
use thiserror::Error;

/// Why an entry of a folder couldn't be written.
#[derive(Clone, Copy, Debug, Error)]
pub enum KeepFault {
    /// Memory was refused.
    #[error("memory was refused")]
    OutOfMemory,
    /// It has no place in a folder, or the system answered with another error.
    #[error("it can't be written")]
    Refused,
}

impl From<AllocError> for KeepFault {
    ghost use Rattle.std.specs.Prelude.{◌≡◌};
    ghost use Rattle.dbgd_edges.specs.declared.keep_fault.KeepFault.TheVariants.{OutOfMemory};

    ghost from_gives = { λ _ fault. fault ≡ OutOfMemory };

    fn from(_error: AllocError) -> KeepFault {
        KeepFault::OutOfMemory
    }
}

impl From<io::Error> for KeepFault {
    ghost use Rattle.std.specs.Prelude.{◌≡◌};
    ghost use Rattle.dbgd_edges.specs.FolderCaches.{keep_fault};

    ghost from_gives = { λ error fault. fault ≡ keep_fault error };

    fn from(error: io::Error) -> KeepFault {
        match error.kind() {
            ErrorKind::OutOfMemory => KeepFault::OutOfMemory,
            _ => KeepFault::Refused,
        }
    }
}
