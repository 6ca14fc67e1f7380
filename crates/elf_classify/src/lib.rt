//! What a file is and which section of it is asked for: a file's identity, the bytes of the section
//! of a name, and those of its debug information. ELF gABI, chapter 4, and this project's rules over
//! it. What the debug sections say is not read here.
#![tactic(auto)]

mod identity;
mod ids;
mod named;
mod parts;
mod places;

pub use dwarf_forms::DebugParts;
pub use identity::{IdentStep, IdentView, ident, ident_from, ident_view};
pub use named::{SectionStep, SectionView, section_from, section_of, section_view};
pub use parts::{PartsView, debug_parts, parts_view};
pub use places::debug_places;
