//! What a reply carries.

ghost use Rattle.conn_server.specs.Replies.{ShowsGiven};

use answer_check::{Checked, CheckedSection, Passed};
use row_types::CanonPath;

/// What a reply carries. `F` is the hand's open file.
#[derive(Drop)]
pub(crate) enum Body<F: Drop> {
    /// The line of its reason.
    Line,
    /// A file that passed here, which is sent in pieces.
    File {
        /// What was read of the file, and checked.
        from: Checked,
        /// The open file.
        file: F,
        /// Its path.
        path: CanonPath,
    },
    /// A section that passed here.
    Section {
        /// The section, with what was read of its file.
        from: CheckedSection,
        /// The file's path.
        path: CanonPath,
    },
    /// A source that passed here.
    Source {
        /// Its bytes.
        bytes: Vec<u8>,
        /// Its path.
        path: CanonPath,
    },
    /// What passed of the answers of links.
    Upstream(Passed),
    /// The page of the counters.
    Page(String),
}

/// The bytes that are given of what passed of the answers of links.
pub(crate) fn given(passed: &Passed) -> &[u8]
    ensures { ShowsGiven passed.now result.now }
{
    match passed {
        Passed::File(file) => file.bytes(),
        Passed::Section(section) => {
            let part = section.bytes();
            part
        }
        Passed::Source(bytes) => bytes.as_slice(),
    }
}
