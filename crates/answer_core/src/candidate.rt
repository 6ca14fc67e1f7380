//! The files that may answer a route.

use row_types::{CanonPath, Kind};

/// A file that may answer a route.
#[derive(Drop)]
pub struct Candidate {
    /// The class that its row has and that its bytes are to have. None: a source, of which any
    /// bytes pass.
    pub class: Option<Kind>,
    /// Its path.
    pub path: CanonPath,
}
