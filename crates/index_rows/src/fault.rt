//! Why room for a change could not be made.

use std::alloc::AllocError;

/// Why room for a change could not be made. The log is looked at first.
#[derive(Clone, Copy, Debug, PartialEq, Eq)]
pub enum RowsFault {
    /// The log has 2^22 changes.
    LogFull,
    /// Memory is wanted.
    OutOfMemory,
}

impl From<AllocError> for RowsFault {
    ghost use Rattle.std.specs.Prelude.{◌≡◌};
    ghost use Rattle.index_rows.specs.declared.fault.RowsFault.TheVariants.{OutOfMemory};

    ghost from_gives = { λ _ fault. fault ≡ OutOfMemory };

    fn from(_fault: AllocError) -> RowsFault {
        RowsFault::OutOfMemory
    }
}
