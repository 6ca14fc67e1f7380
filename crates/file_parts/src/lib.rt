//! The file at a path, opened, and read in the parts on which an answer rests: its identity, the
//! sources that its debug information names, or its section of a name. What is said of them is left
//! out.
#![tactic(auto)]

mod fills;
mod found;
mod known;
mod part;
mod seen;

pub use found::find_at_path;
pub use known::{identity_found, identity_known, section_found, section_known, sources_found};
pub use part::FilePart;
pub use seen::{FileSeen, read_at_path};
