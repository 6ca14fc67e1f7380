//! The sample ELF files of this project's tests, and the builders that lay them out: a section, a
//! note, a file of one plain layout. It writes no program header and no symbol, and it reads
//! nothing. ELF gABI, chapter 4; DWARF 5, section 7.
#![tactic(auto)]

mod codes;
mod debug_bytes;
mod fields;
mod layout;
mod notes;
mod parts;
mod samples;
mod shape;
mod version_four;

pub use codes::{
    EM_PPC, EM_X86_64, ET_DYN, ET_EXEC, NT_GNU_BUILD_ID, SHF_ALLOC, SHF_COMPRESSED, SHF_EXECINSTR,
    SHT_NOBITS, SHT_NOTE, SHT_NULL, SHT_PROGBITS, SHT_STRTAB,
};
pub use layout::plain_layout;
pub use notes::note;
pub use parts::Section;
pub use samples::{
    ID_A, ID_B, ID_BIG, ID_C, big_endian_debug, both_classes, chosen_ids, code_of_flags,
    debug_companion, debug_companion_of, dwarf_five, dwarf_five_of, eight_aligned_notes,
    executable, executable_of, extended_counts, narrow_eight_aligned_notes, narrow_extended_counts,
    null_debug,
};
pub use shape::{Class, Counts, Order, Shape};
pub use version_four::dwarf_four;
