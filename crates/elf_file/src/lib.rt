//! ELF files: the header and the section table, with sections by index and by name. ELF gABI,
//! chapter 4. Segments, symbols and what a section means are left out.
#![tactic(auto)]

mod file;
mod head;
mod names;
mod section;
mod start;
mod stop;
mod table;
mod view;

pub use file::ElfFile;
pub use file_formats::ElfFault;
pub use section::Section;
pub use stop::Stop;
pub use view::ElfView;
