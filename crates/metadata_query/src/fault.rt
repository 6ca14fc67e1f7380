//! Why a target asks for no metadata.

use std::alloc::AllocError;

/// Why a target has no query for metadata, in the order in which it is tested.
#[derive(Clone, Copy, Debug, PartialEq, Eq)]
pub enum MetaFault {
    /// It has no query, or one that is no key with its value.
    BadQuery,
    /// Memory was refused.
    OutOfMemory,
}

impl From<AllocError> for MetaFault {
    ghost use Rattle.std.specs.Prelude.{◌≡◌};
    ghost use Rattle.metadata_query.specs.declared.fault.MetaFault.TheVariants.{OutOfMemory};

    ghost from_gives = { λ _ fault. fault ≡ OutOfMemory };

    fn from(_: AllocError) -> MetaFault {
        MetaFault::OutOfMemory
    }
}
