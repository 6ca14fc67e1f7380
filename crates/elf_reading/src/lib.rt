//! The row of a file: its identity and the source paths that its debug information names, by the
//! readers of ELF and DWARF. A picture of the file gives it too, once it has the parts that decide it.
#![tactic(auto)]

mod elf_reader;
mod elf_truth;
mod reading;
mod sources;
mod view;

pub use elf_reader::{ElfReader, large_row};
pub use elf_truth::ElfTruth;
pub use reading::{ReadingView, reading_within};
pub use sources::{file_sources, sources_of};
pub use tree_trait::ViewAnswer;
pub use view::read_view;
