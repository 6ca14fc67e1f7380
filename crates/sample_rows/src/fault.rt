//! Why a sample can't be built.

use std::alloc::{AllocError, AllocFailed};

/// Why a sample could not be built.
#[derive(Clone, Copy, Debug, PartialEq, Eq)]
pub enum SampleFault {
    /// A text is no canonical path.
    NotAPath,
    /// The bytes are no build-id: they are fewer than 2 or more than 64.
    NotAnId,
    /// The sources don't stand by path, or one stands twice.
    NotByPath,
    /// There was not enough memory.
    OutOfMemory,
}

impl From<AllocError> for SampleFault {
    ghost use Rattle.std.specs.Prelude.{◌≡◌};
    ghost use Rattle.sample_rows.specs.declared.fault.SampleFault.TheVariants.{OutOfMemory};

    ghost from_gives = { λ _ fault. fault ≡ OutOfMemory };

    fn from(_: AllocError) -> SampleFault {
        SampleFault::OutOfMemory
    }
}

impl<T: Drop> From<AllocFailed<T>> for SampleFault {
    ghost use Rattle.std.specs.Prelude.{◌≡◌};
    ghost use Rattle.sample_rows.specs.declared.fault.SampleFault.TheVariants.{OutOfMemory};

    ghost from_gives = { λ _ fault. fault ≡ OutOfMemory };

    fn from(_: AllocFailed<T>) -> SampleFault {
        SampleFault::OutOfMemory
    }
}
