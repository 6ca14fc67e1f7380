//! The numbers that row bytes are made of.

/// The tag of a reading without an identity.
pub const PLAIN_TAG: u8 = 0;

/// The tag of a reading with an identity.
pub const ELF_TAG: u8 = 1;

/// The flag of an identity with code to run.
pub const EXEC_FLAG: u8 = 1;

/// The flag of an identity with debug information.
pub const DEBUG_FLAG: u8 = 2;

/// The number of a file that is no ELF file.
pub const NOT_ELF: u8 = 1;

/// The number of a file whose section table can't be read.
pub const BAD_ELF: u8 = 2;

/// The number of a file without sections.
pub const NO_SECTIONS: u8 = 3;

/// The number of a core file.
pub const CORE: u8 = 4;

/// The number of a file without a build-id.
pub const NO_BUILD_ID: u8 = 5;

/// The number of a file that is larger than a file that is read.
pub const TOO_LARGE: u8 = 6;
