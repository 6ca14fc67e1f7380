//! The limits of responses.

/// The length in bytes of the longest body that is read.
pub const BODY_LIMIT: u64 = 1 << 30;

/// The most trailers that fit into their bytes: each has three at least.
pub(crate) const TRAILERS: usize = 5461;
