//! Why a target asks for no route, and why a path spells no text.

use std::alloc::AllocError;

/// Why a target has no route, in the order in which it is tested.
#[derive(Clone, Copy, Debug, PartialEq, Eq)]
pub enum RouteFault {
    /// A percent sign has no two hexadecimal digits behind it, or what the escapes leave isn't
    /// UTF-8, or holds a zero.
    BadEscape,
    /// The path is none of those that routes have.
    NoRoute,
    /// What stands for the build-id is none.
    BadId,
    /// The source's path, as it is written, has more than 4096 bytes.
    BadPath,
    /// Memory was refused.
    OutOfMemory,
}

impl From<AllocError> for RouteFault {
    ghost use Rattle.std.specs.Prelude.{◌≡◌};
    ghost use Rattle.webapi_routes.specs.declared.fault.RouteFault.TheVariants.{OutOfMemory};

    ghost from_gives = { λ _ fault. fault ≡ OutOfMemory };

    fn from(_: AllocError) -> RouteFault {
        RouteFault::OutOfMemory
    }
}

/// Why a path spells no text, in the order in which it is tested.
#[derive(Clone, Copy, Debug, PartialEq, Eq)]
pub enum SpellFault {
    /// A percent sign has no two hexadecimal digits behind it, or what the escapes leave isn't
    /// UTF-8, or holds a zero.
    BadEscape,
    /// Memory was refused.
    OutOfMemory,
}
