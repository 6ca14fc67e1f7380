//! A told world of small ELF files and texts, with their trees in memory. It is an example for
//! tests of the crates above, and it reads nothing.
#![tactic(auto)]

mod sample;
mod trees;
mod world;

pub use sample::{REFERENCE_TREE, Sample};
pub use trees::{changed_file_script, files_of, open_files, open_script, reference_script};
pub use world::SampleWorld;
