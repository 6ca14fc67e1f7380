//! The numbers of a line table's header under the standard's names, and what its parts say (DWARF
//! 5, sections 6.2.4 and 7.22, table 7.27; DWARF 2 to 4, section 6.2.4).

/// The content type of a directory's or file's path.
pub const DW_LNCT_PATH: u64 = 0x1;

/// The content type of the index of a file's directory.
pub const DW_LNCT_DIRECTORY_INDEX: u64 = 0x2;

/// The content type of the time of a file's last change.
pub const DW_LNCT_TIMESTAMP: u64 = 0x3;

/// The content type of a file's size.
pub const DW_LNCT_SIZE: u64 = 0x4;

/// The content type of a file's MD5 sum.
pub const DW_LNCT_MD5: u64 = 0x5;

/// Where address_size stands, in bytes from the first one behind the table's length: behind
/// version, of two bytes.
pub const ADDRESS_SIZE_PLACE: usize = 2;

/// Where header_length stands: behind address_size and segment_selector_size, of a byte each.
pub const HEADER_LENGTH_PLACE: usize = 4;

/// Where header_length stands in the versions before 5: behind version, of two bytes.
pub const OLD_HEADER_LENGTH_PLACE: usize = 2;

/// The bytes between header_length and opcode_base: minimum_instruction_length,
/// maximum_operations_per_instruction, default_is_stmt, line_base and line_range, of a byte each.
pub const LINE_PARAMETERS_SIZE: usize = 5;

/// The same in the versions before 4, which have no maximum_operations_per_instruction.
pub const OLD_LINE_PARAMETERS_SIZE: usize = 4;

/// The first version with maximum_operations_per_instruction.
pub const OPERATIONS_VERSION: u16 = 4;

/// What a line table's header says of the place of its lists.
#[derive(Clone, Copy, PartialEq, Eq)]
pub struct LineHead {
    /// The version.
    pub version: u16,
    /// The size of an address, in bytes; 0 before version 5, which has no addresses in its lists.
    pub address_size: u8,
    /// Where the lists begin, in bytes from the first one behind the table's length.
    pub lists: usize,
    /// Where the header ends by its header_length, in bytes from there too.
    pub end: u128,
}

/// What a directory's or file's format says of one of its fields.
#[derive(Clone, Copy, PartialEq, Eq)]
pub struct FieldFormat {
    /// What the field means.
    pub content_type: u64,
    /// The code of the form by which it is read.
    pub form: u64,
}
