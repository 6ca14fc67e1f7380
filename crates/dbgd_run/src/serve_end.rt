//! How a server ends.

use crate::line_fate::LineFate;
use crate::passes_end::PassesEnd;
use index_state::OpenFault;

/// How a server came to its end.
#[derive(Drop)]
pub enum ServeEnd {
    /// No index was opened.
    Refused(OpenFault),
    /// The standard output refused the first line, and nothing was served.
    Unannounced,
    /// Memory for the lock of the index was refused, and nothing was served.
    Unlocked,
    /// The doors were served.
    Served {
        /// What came of the line of the first pass.
        fate: LineFate,
        /// How the passes behind it ended, if there were any.
        how: Option<PassesEnd>,
        /// Whether the store failed to make a change.
        broken: bool,
    },
}
