//! The limits of heads.

/// The length in bytes of the longest head that is read.
pub const HEAD_LIMIT: usize = 16_384;

/// The most fields that a head has.
pub const FIELD_LIMIT: usize = 64;
