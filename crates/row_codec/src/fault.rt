//! Why bytes are no row.

use std::alloc::{AllocError, AllocFailed};

/// Why bytes could not be read as a row. The first fault from the left is answered.
#[derive(Clone, Copy, Debug, PartialEq, Eq)]
pub enum CodecFault {
    /// The bytes end within the row.
    Short,
    /// A number stands for nothing: the edition is 0, the nanoseconds make a second, or the tag, the
    /// reason, the sum of the flags or the length of the id is none of the format's.
    BadTag,
    /// A text is no path that is kept.
    BadText,
    /// A source doesn't stand behind the one before it.
    BadOrder,
    /// Bytes follow the row.
    Trailing,
    /// There was not enough memory.
    OutOfMemory,
}

impl From<AllocError> for CodecFault {
    ghost use Rattle.std.specs.Prelude.{◌≡◌};
    ghost use Rattle.row_codec.specs.declared.fault.CodecFault.TheVariants.{OutOfMemory};

    ghost from_gives = { λ _ fault. fault ≡ OutOfMemory };

    fn from(_: AllocError) -> CodecFault {
        CodecFault::OutOfMemory
    }
}

impl<T: Drop> From<AllocFailed<T>> for CodecFault {
    ghost use Rattle.std.specs.Prelude.{◌≡◌};
    ghost use Rattle.row_codec.specs.declared.fault.CodecFault.TheVariants.{OutOfMemory};

    ghost from_gives = { λ _ fault. fault ≡ OutOfMemory };

    fn from(_: AllocFailed<T>) -> CodecFault {
        CodecFault::OutOfMemory
    }
}
