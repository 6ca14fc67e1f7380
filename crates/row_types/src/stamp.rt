//! By what a file is known again.

ghost use Rattle.std.specs.Prelude.{◌≡◌, ◌≤◌, ◌<◌, ◌↔◌, IsNone, IfSome};

use std::marker::Model;

/// The number of nanoseconds in a second.
pub const NANOS_PER_SECOND: u32 = 1_000_000_000;

/// A file's size and the time of its last change. Contracts see it as a record of the three numbers.
#[derive(Clone, Copy, Debug, PartialEq, Eq)]
pub struct Stamp {
    /// Bytes.
    pub size: u64,
    /// Seconds since the start of 1970.
    pub secs: i64,
    /// Nanoseconds above the seconds, below 1,000,000,000.
    pub nanos: u32,
}

impl Model for Stamp {
    ghost use Rattle.std.specs.Prelude.{◌<◌};
    ghost use Rattle.row_types.specs.Stamp.{StampFacts};
    ghost use Rattle.row_types.specs.declared.stamp.TheConstants.{NANOS_PER_SECOND};

    ghost Value = { StampFacts };

    ghost view = { λ s. record { size = s.size; secs = s.secs; nanos = s.nanos } };

    ghost invariant = { λ s. s.nanos < NANOS_PER_SECOND };

    ghost inverse = { λ v. record { size = v.size; secs = v.secs; nanos = v.nanos } };
}

impl Stamp {
    /// The stamp of these numbers.
    pub fn new(size: u64, secs: i64, nanos: u32) -> Option<Stamp>
        ensures none { IsNone result ↔ (NANOS_PER_SECOND ≤ nanos) }
        ensures value { IfSome result (λ s. s ≡ record { size = size; secs = secs; nanos = nanos }) }
        ensures second { NANOS_PER_SECOND ≡ 1000000000 }
    {
        if nanos < NANOS_PER_SECOND {
            Some(Stamp { size, secs, nanos })
        } else {
            None
        }
    }
}
