//! Why a statement could not be run.

use sqlite::{Error, ErrorCode};
use std::alloc::AllocError;

/// Why a statement could not be run, or what it gave not be read.
#[derive(Clone, Copy)]
pub enum SqlFault {
    /// The database refused it, or failed.
    Failed,
    /// There was not enough memory, and the statement changed nothing.
    OutOfMemory,
}

impl From<Error> for SqlFault {
    ghost use Rattle.std.specs.Prelude.{◌≡◌};
    ghost use Rattle.sqlite_keeper.specs.Faults.{sql_fault};

    ghost from_gives = { λ error fault. fault ≡ sql_fault error };

    fn from(error: Error) -> SqlFault {
        match error {
            Error::SqliteFailure(ErrorCode::OutOfMemory) => SqlFault::OutOfMemory,
            _ => SqlFault::Failed,
        }
    }
}

impl From<AllocError> for SqlFault {
    ghost use Rattle.std.specs.Prelude.{◌≡◌};
    ghost use Rattle.sqlite_keeper.specs.declared.fault.SqlFault.TheVariants.{OutOfMemory};

    ghost from_gives = { λ _ fault. fault ≡ OutOfMemory };

    fn from(_: AllocError) -> SqlFault {
        SqlFault::OutOfMemory
    }
}
