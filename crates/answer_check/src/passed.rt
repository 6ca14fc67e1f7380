//! What is given of bytes that pass.

use crate::certified::Certified;
use crate::file_section::FileSection;

/// What is given of bytes that pass.
#[derive(Drop)]
pub enum Passed {
    /// The file, certified for the id and the class of the route.
    File(Certified),
    /// The section of a file that is certified for the id.
    Section(FileSection),
    /// A source's bytes.
    Source(Vec<u8>),
}
