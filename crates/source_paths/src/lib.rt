//! The source paths that a file's debug information names. The sections are read in the crates
//! below. DWARF 5, sections 3.1.1 and 6.2.4.
#![tactic(auto)]

mod files;
mod found;
mod joined;
mod named;
mod path_set;
mod paths;
mod room;
mod tables;

pub use paths::sources;
pub use room::{SOURCES_LIMIT, TEXT_ROOM};
