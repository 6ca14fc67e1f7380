//! Builders of paths, names, rows and what files are found to be, and a selection of listed paths,
//! for the tests of the crates above. A file is known by a short text, its path, and by its size;
//! all have changed at one second.
#![tactic(auto)]

mod chosen;
mod fault;
mod naming;
mod rows;
mod texts;

pub use chosen::Chosen;
pub use fault::SampleFault;
pub use naming::{SECOND, name, names, path, paths, stamp};
pub use rows::{elf, plain, row};
pub use texts::{name_text, rows_text};
