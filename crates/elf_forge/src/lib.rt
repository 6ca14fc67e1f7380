//! Generated files: the bytes of the file of a seed and a number, and a tree of such files, which
//! makes a file when it is loaded. The pieces of the files are those of the sample files.
#![tactic(auto)]

mod digits;
mod folder;
mod forging;
mod kind;
mod place;
mod question;
mod tree;

pub use digits::FILES_LIMIT;
pub use forging::forge;
pub use tree::ForgeTree;
