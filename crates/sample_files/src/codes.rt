//! The numbers of the ELF gABI that the samples have, under the standard's names.

/// The version of the format, in the identification and in e_version.
pub const EV_CURRENT: u8 = 1;

/// The file type (e_type) of a program that is linked to a fixed place.
pub const ET_EXEC: u16 = 2;

/// The file type of a shared object.
pub const ET_DYN: u16 = 3;

/// The machine of 32-bit PowerPC.
pub const EM_PPC: u16 = 20;

/// The machine of AMD x86-64.
pub const EM_X86_64: u16 = 62;

/// The type of a section header that describes no section.
pub const SHT_NULL: u32 = 0;

/// The type of a section that the program gives its meaning to.
pub const SHT_PROGBITS: u32 = 1;

/// The type of a section that holds texts, each ended by a 0.
pub const SHT_STRTAB: u32 = 3;

/// The type of a section that holds notes.
pub const SHT_NOTE: u32 = 7;

/// The type of a section that takes no bytes in the file.
pub const SHT_NOBITS: u32 = 8;

/// The flag of a section that takes memory while the program runs.
pub const SHF_ALLOC: u32 = 0x2;

/// The flag of a section that holds machine instructions.
pub const SHF_EXECINSTR: u32 = 0x4;

/// The flag of a section whose bytes are compressed.
pub const SHF_COMPRESSED: u32 = 0x800;

/// The index of the names' section (e_shstrndx) that sends to section 0's link.
pub const SHN_XINDEX: u16 = 0xffff;

/// The type of GNU's note on properties.
pub const NT_GNU_PROPERTY_TYPE_0: u32 = 5;

/// The type of GNU's build-id note.
pub const NT_GNU_BUILD_ID: u32 = 3;
