//! The limits and numbers that rows are made by.

/// The edition of the rows that this program reads and makes.
pub const EDITION: u8 = 2;

/// The size in bytes of the largest file that is read, 64 GiB.
pub const FILE_LIMIT: u64 = 0x10_0000_0000;

/// The most bytes of one file that are read into memory, and the size in bytes of the largest source, 1 GiB.
pub const READ_LIMIT: u64 = 0x4000_0000;

/// The length in bytes of the longest path that is kept.
pub const PATH_LIMIT: usize = 4096;

/// The byte between two pieces of a path, `/`.
pub const SEPARATOR: u8 = 47;
