//! What comes of a candidate.

use answer_check::{Checked, CheckedSection};

/// What is given of a file that passes.
#[derive(Drop)]
pub(crate) enum Given<F: Drop> {
    /// The file, checked for the id and the class of the route.
    File {
        /// What was read of it, and checked.
        from: Checked,
        /// The open file.
        file: F,
    },
    /// The section of a file that is checked for the id.
    Section(CheckedSection),
    /// A source's bytes.
    Source(Vec<u8>),
}

/// What came of a candidate.
#[derive(Drop)]
pub(crate) enum Tried<F: Drop> {
    /// It passes, and this is given of it.
    Passed(Given<F>),
    /// It doesn't pass, and no call failed.
    Refused,
    /// It doesn't pass, since the load, the opening or a read failed.
    Failed,
    /// There was not enough memory.
    OutOfMemory,
}
