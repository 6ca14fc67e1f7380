//! What the tests share: the trees that hands have.

mod samples;
mod trees;
mod versions;

pub use samples::{FOLDERS, Files, ROWS, sample_tree};
pub use trees::{file, still_tree};
pub use versions::{Version, changing_tree, listed, second_stamp, version_name, version_tree};
